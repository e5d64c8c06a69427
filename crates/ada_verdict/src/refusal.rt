//! What is printed of a fault: where it is, the number of its rule, and the rule's name.

ghost use Rattle.std.specs.Prelude.{◌≡◌};
ghost use Rattle.ada_verdict.specs.Refusal as printed;
ghost use Rattle.ada_verdict.specs.Shown.{shown_if};

use crate::fault::{RoundFault, UnusedFault, Verdict};
use crate::rules;
use ada_flow::{FlowFault, Rule};
use ada_operations::{OperationFault, OperationRule};
use ada_parser::SyntaxFault;
use ada_program::Spot;
use ada_resolve::{NameFault, NameRule};
use ada_text::TextFault;

/// Where a source breaks which rule: its number and name, as they are printed.
#[derive(Clone, Copy)]
pub struct Refusal {
    pub spot: Spot,
    pub name: &'static str,
}

/// The spot of a fault of the whole source.
const START: Spot = Spot { line: 1, column: 1 };

impl Verdict {
    /// Where the source breaks which rule; none, if memory ran out.
    pub fn refusal(&self) -> Option<Refusal>
        ensures { shown_if result ≡ printed.refusal_of self.now }
    {
        match self {
            Verdict::Text(fault) => text_refusal(fault),
            Verdict::Syntax(fault) => syntax_refusal(fault),
            Verdict::Names(NameFault::Broken { spot, rule }) => refused(*spot, name_text(*rule)),
            Verdict::EarlyRound(spot) => refused(*spot, rules::NOT_IN_PROFILE),
            Verdict::Rounds(fault) => round_refusal(fault),
            Verdict::Operations(fault) => operation_refusal(fault),
            Verdict::Unused(fault) => unused_refusal(fault),
            Verdict::Flow(FlowFault::Broken { spot, rule }) => refused(*spot, rule_text(*rule)),
            Verdict::Names(NameFault::NoMemory) | Verdict::Flow(FlowFault::NoMemory) => None,
        }
    }
}

/// A refusal at a spot.
fn refused(spot: Spot, name: &'static str) -> Option<Refusal>
    ensures { shown_if result ≡ printed.told spot name.now }
{
    Some(Refusal { spot, name })
}

/// The refusal for a fault of the text.
fn text_refusal(fault: &TextFault) -> Option<Refusal>
    ensures { shown_if result ≡ printed.text_told fault.now }
{
    match fault {
        TextFault::ByteNotAllowed(spot) => refused(*spot, rules::BYTE_NOT_ALLOWED),
        TextFault::OpenString(spot) => refused(*spot, rules::OPEN_STRING),
        TextFault::NumberRange(spot) => refused(*spot, rules::NUMBER_RANGE),
        TextFault::SourceTooLong => refused(START, rules::SOURCE_TOO_LONG),
        TextFault::IdentifierForm(spot) => refused(*spot, rules::IDENTIFIER_FORM),
        TextFault::NoMemory => None,
    }
}

/// The refusal for a fault of the syntax.
fn syntax_refusal(fault: &SyntaxFault) -> Option<Refusal>
    ensures { shown_if result ≡ printed.syntax_told fault.now }
{
    match fault {
        SyntaxFault::UnexpectedToken(spot) => refused(*spot, rules::UNEXPECTED_TOKEN),
        SyntaxFault::TooDeep(spot) => refused(*spot, rules::TOO_DEEP),
        SyntaxFault::EndOfSource(spot) => refused(*spot, rules::END_OF_SOURCE),
        SyntaxFault::NoMemory => None,
    }
}

/// The refusal for an operation that calls itself.
fn round_refusal(fault: &RoundFault) -> Option<Refusal>
    ensures { shown_if result ≡ printed.round_told fault.now }
{
    match fault {
        RoundFault::CallsItself(spot) => refused(*spot, rules::NOT_IN_PROFILE),
        RoundFault::NoMemory => None,
    }
}

/// The refusal for a fault of the operations of controlled types.
fn operation_refusal(fault: &OperationFault) -> Option<Refusal>
    ensures { shown_if result ≡ printed.operation_told fault.now }
{
    match fault {
        OperationFault::Broken { spot, rule } => refused(*spot, operation_text(*rule)),
        OperationFault::NoMemory => None,
    }
}

/// The refusal for an operation that is not in use, or a body that leads back to itself.
fn unused_refusal(fault: &UnusedFault) -> Option<Refusal>
    ensures { shown_if result ≡ printed.unused_told fault.now }
{
    match fault {
        UnusedFault::Operation(spot) => refused(*spot, rules::NOT_IN_PROFILE),
        UnusedFault::Circle(spot) => refused(*spot, rules::NOT_IN_PROFILE),
        UnusedFault::NoMemory => None,
    }
}

/// The number and the name of a rule on operations of controlled types.
fn operation_text(rule: OperationRule) -> &'static str
    ensures { result.now ≡ printed.operation_text rule }
{
    match rule {
        OperationRule::FinalizeOrder => rules::FINALIZE_ORDER,
        OperationRule::MayPropagate => rules::MAY_PROPAGATE,
        OperationRule::FinalizeAllocates => rules::FINALIZE_ALLOCATES,
    }
}

/// The number and the name of a rule of names.
fn name_text(rule: NameRule) -> &'static str
    ensures { result.now ≡ printed.name_text rule }
{
    match rule {
        NameRule::UnknownName => rules::UNKNOWN_NAME,
        NameRule::DeclaredTwice => rules::DECLARED_TWICE,
        NameRule::WrongType => rules::WRONG_TYPE,
        NameRule::NotInProfile => rules::NOT_IN_PROFILE,
        NameRule::Layout => rules::LAYOUT,
        NameRule::NoInitialValue => rules::NO_INITIAL_VALUE,
        NameRule::BodyMissing => rules::BODY_MISSING,
        NameRule::Limit => rules::LIMIT,
    }
}

/// The number and the name of a rule of the flow of values.
fn rule_text(rule: Rule) -> &'static str
    ensures { result.now ≡ printed.rule_text rule }
{
    match rule {
        Rule::LostValue => rules::LOST_VALUE,
        Rule::AliasMoved => rules::ALIAS_MOVED,
        Rule::TakePair => rules::TAKE_PAIR,
        Rule::LoopState => rules::LOOP_STATE,
        Rule::UnsafePath => rules::UNSAFE_PATH,
        Rule::FormalNotOwned => rules::FORMAL_NOT_OWNED,
        Rule::RecordCopied => rules::RECORD_COPIED,
    }
}

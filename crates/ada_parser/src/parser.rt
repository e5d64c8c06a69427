//! From tokens to the tree of a unit, or to the first fault.

ghost use Rattle.std.specs.Prelude.{◌≡◌, ◌-◌, [], min, IfErr, IfOk, OnOk};
ghost use Rattle.ada_text.specs.Token.{lexemes_of};
ghost use Rattle.ada_tree.specs.Statements.{IsTextOf};
ghost use Rattle.ada_reader.specs.Step.{Reads};
ghost use Rattle.ada_parser.specs.Faults.{IsFaultAt, IsWhole, TellsWhole, end_spot, parsed_unit};
ghost use Rattle.ada_parser.specs.FirstFault.{IsFirstFault};
ghost use Rattle.ada_phrases.specs.Units.{whole_at};

use crate::fault::SyntaxFault;
use ada_phrases::{Parsed, read_unit};
use ada_reader::{Reader, Stop};
use ada_text::{Spot, Token};
use std::alloc::Global;

/// How many levels of nesting there may be.
const DEEPEST: u32 = 64;

/// The tree of a list of tokens.
///
/// # Errors
/// At the first token that cannot stand where it does, at a token that opens a 65th level of nesting, or just after the
/// last token where the unit is not at its end.
pub fn parse<'t>(alloc: Global, tokens: &'t [Token]) -> Result<Parsed<'t>, SyntaxFault>
    // The tokens, all of them, are the text of this tree.
    ensures found { IfOk result (λ parsed. IsTextOf (lexemes_of tokens.now) (parsed_unit parsed)) }
    // The fault is the first one of the tokens; running out of memory says nothing of them.
    ensures refused { IfErr result (λ fault. IsFirstFault (lexemes_of tokens.now) fault) }
{
    read_tokens(alloc, tokens)
}

/// Reads all of the tokens from the left; where reading stops, the fault tells it.
fn read_tokens<'t>(alloc: Global, tokens: &'t [Token]) -> Result<Parsed<'t>, SyntaxFault>
    ensures found { IfOk result (λ parsed. IsWhole parsed (lexemes_of tokens.now)) }
    ensures refused { IfErr result (λ fault. TellsWhole fault (lexemes_of tokens.now)) }
{
    let mut reader = Reader { tokens };
    match read_whole(alloc, &mut reader) {
        Ok(parsed) => Ok(parsed),
        Err(Stop::Here) => Err(fault_at(tokens, reader.tokens)),
        Err(Stop::TooDeep(spot)) => Err(SyntaxFault::TooDeep(spot)),
        Err(Stop::NoMemory) => Err(SyntaxFault::NoMemory),
    }
}

/// A unit, and nothing behind it.
#[tactic(auto, unfolding(ada_phrases::specs::Units::whole_at))]
fn read_whole<'t>(alloc: Global, reader: &mut Reader<'t>) -> Result<Parsed<'t>, Stop>
    ensures ended { OnOk result (reader.new.tokens.now ≡ []) }
    ensures read { Reads parsed_unit reader whole_at result }
{
    let parsed = read_unit(alloc, reader, DEEPEST)?;
    if reader.tokens.is_empty() {
        Ok(parsed)
    } else {
        Err(Stop::Here)
    }
}

/// The fault at the first token that is left, or just after the last one of all where none is left.
fn fault_at(tokens: &[Token], left: &[Token]) -> SyntaxFault
    ensures { IsFaultAt result (lexemes_of tokens.now) (lexemes_of left.now) }
{
    match left {
        [token, ..] => SyntaxFault::UnexpectedToken(token.spot()),
        [] => SyntaxFault::EndOfSource(end_of(tokens)),
    }
}

/// The spot just after the last token; 1:1 where there is none.
fn end_of(tokens: &[Token]) -> Spot
    ensures { result ≡ end_spot (lexemes_of tokens.now) }
{
    match tokens.last() {
        Some(token) => Spot {
            line: token.line,
            column: token.column.saturating_add(width_of(token)),
        },
        None => Spot { line: 1, column: 1 },
    }
}

/// How many bytes a token has.
fn width_of(token: &Token) -> u32
    ensures { result ≡ min (token.now.to - token.now.from) u32.MAX }
{
    u32::try_from(token.to.saturating_sub(token.from)).unwrap_or(u32::MAX)
}

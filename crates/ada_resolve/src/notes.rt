//! What is noted while a tree is looked at: the first fault, and the number of nodes.

ghost use Rattle.std.specs.Prelude.{◌≡◌};
ghost use Rattle.ada_resolve.specs.Method.{IsNoted};
ghost use Rattle.ada_resolve.specs.Remark.{wrong, node, wrong_if, rule_number, is_before, first_of};
ghost use Rattle.ada_resolve.specs.Resolution.{no_notes};
ghost use Rattle.ada_resolve.specs.View.{Settles};

use crate::fault::{NameFault, NameRule};
use ada_program::Spot;

/// The most declarations, components, statements and expressions of a program.
const MOST_NODES: usize = 10_000;

/// The first fault so far and the number of nodes so far. Of two faults the leftmost is first, and at one spot the lower number.
#[derive(Clone, Copy)]
pub(crate) struct Notes {
    pub(crate) fault: Option<(Spot, NameRule)>,
    pub(crate) nodes: usize,
}

impl Notes {
    /// Nothing is noted so far.
    pub(crate) fn new() -> Notes
        ensures { result ≡ no_notes }
    {
        Notes {
            fault: None,
            nodes: 0,
        }
    }

    /// A rule is broken at a spot.
    pub(crate) fn note(&mut self, spot: Spot, rule: NameRule)
        ensures { IsNoted self (wrong spot rule) }
    {
        self.fault = Some(first((spot, rule), self.fault));
    }

    /// A rule is broken at a spot, if the test holds.
    pub(crate) fn note_if(&mut self, test: bool, spot: Spot, rule: NameRule)
        ensures { IsNoted self (wrong_if test spot rule) }
    {
        if test {
            self.note(spot, rule);
        }
    }

    /// One more node of the source: the limit may be passed.
    pub(crate) fn node(&mut self, spot: Spot)
        ensures { IsNoted self (node spot) }
    {
        if self.nodes < MOST_NODES {
            self.nodes += 1;
        } else {
            self.note(spot, NameRule::Limit);
        }
    }

    /// Nothing was wrong.
    ///
    /// # Errors
    /// The first fault.
    pub(crate) fn settle(&self) -> Result<(), NameFault>
        ensures { Settles result self.now.fault }
    {
        match self.fault {
            None => Ok(()),
            Some((spot, rule)) => Err(NameFault::Broken { spot, rule }),
        }
    }
}

/// The first of a fault and of the first one so far.
fn first(fault: (Spot, NameRule), known: Option<(Spot, NameRule)>) -> (Spot, NameRule)
    ensures { first_of fault known ≡ Some result }
{
    match known {
        Some(other) if !is_before(fault, other) => other,
        _ => fault,
    }
}

/// Whether one fault comes before another: by line, then by column, and at one spot by the rule's number.
fn is_before(fault: (Spot, NameRule), other: (Spot, NameRule)) -> bool
    ensures { result ≡ is_before fault other }
{
    let (spot, rule) = fault;
    let (place, number) = other;
    spot.line < place.line
        || (spot.line == place.line
            && (spot.column < place.column
                || (spot.column == place.column && rule_number(rule) < rule_number(number))))
}

/// The number of a rule, as it is printed.
fn rule_number(rule: NameRule) -> u8
    ensures { result ≡ rule_number rule }
{
    match rule {
        NameRule::UnknownName => 20,
        NameRule::DeclaredTwice => 21,
        NameRule::WrongType => 22,
        NameRule::NotInProfile => 23,
        NameRule::Layout => 24,
        NameRule::NoInitialValue => 25,
        NameRule::BodyMissing => 26,
        NameRule::Limit => 27,
    }
}

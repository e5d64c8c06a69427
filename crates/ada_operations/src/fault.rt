//! The first rule on operations that a program breaks.

ghost use Rattle.std.specs.Prelude.{◌≡◌};
ghost use Rattle.ada_operations.specs.Operations.{is_before};
ghost use Rattle.ada_operations.specs.View.{fault_form, found_form};
ghost use Rattle.ada_operations.specs.View as rules;

use crate::rule::OperationRule;
use ada_program::Spot;
use std::alloc::{AllocError, AllocFailed};

/// A rule on operations that is broken, and the first token of the body.
#[derive(Clone, Copy)]
pub(crate) struct Fault {
    pub spot: Spot,
    pub rule: OperationRule,
}

/// The first fault of the operations of a program, or that memory ran out.
#[derive(Drop)]
pub enum OperationFault {
    Broken { spot: Spot, rule: OperationRule },
    NoMemory,
}

impl From<Fault> for OperationFault {
    ghost use Rattle.ada_operations.specs.declared.fault.OperationFault.TheVariants as operation;

    ghost from_gives = { λ broken fault. fault ≡ operation.Broken broken.spot broken.rule };

    fn from(broken: Fault) -> OperationFault {
        OperationFault::Broken {
            spot: broken.spot,
            rule: broken.rule,
        }
    }
}

impl From<AllocError> for OperationFault {
    ghost use Rattle.ada_operations.specs.declared.fault.OperationFault.TheVariants as operation;

    ghost from_gives = { λ _ fault. fault ≡ operation.NoMemory };

    fn from(_error: AllocError) -> OperationFault {
        OperationFault::NoMemory
    }
}

/// Whether one fault comes before another: by line, then by column, and at one place by the number of the rule.
fn is_before(one: Fault, other: Fault) -> bool
    ensures { result ≡ is_before (fault_form one) (fault_form other) }
{
    one.spot.line < other.spot.line
        || one.spot.line == other.spot.line
            && (one.spot.column < other.spot.column
                || one.spot.column == other.spot.column && one.rule.number() < other.rule.number())
}

/// The first one of two faults, where they are there.
pub(crate) fn first_of(one: Option<Fault>, other: Option<Fault>) -> Option<Fault>
    ensures { found_form result ≡ rules.first_of (found_form one) (found_form other) }
{
    match (one, other) {
        (None, other) => other,
        (Some(fault), None) => Some(fault),
        (Some(fault), Some(another)) => if is_before(another, fault) {
            other
        } else {
            one
        },
    }
}

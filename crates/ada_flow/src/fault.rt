//! The first rule of the flow of values that a program breaks.

ghost use Rattle.std.specs.Prelude.{◌≡◌};

use crate::rule::Rule;
use ada_program::Spot;
use std::alloc::{AllocError, AllocFailed};

/// A rule of the flow of values that is broken, and where.
#[derive(Clone, Copy)]
pub(crate) struct Breach {
    pub spot: Spot,
    pub rule: Rule,
}

/// The first fault of the flow of values, or that memory ran out.
#[derive(Drop)]
pub enum FlowFault {
    Broken { spot: Spot, rule: Rule },
    NoMemory,
}

impl From<Breach> for FlowFault {
    ghost use Rattle.ada_flow.specs.declared.fault.FlowFault.TheVariants as flow;

    ghost from_gives = { λ breach fault. fault ≡ flow.Broken breach.spot breach.rule };

    fn from(breach: Breach) -> FlowFault {
        FlowFault::Broken {
            spot: breach.spot,
            rule: breach.rule,
        }
    }
}

impl From<AllocError> for FlowFault {
    ghost use Rattle.ada_flow.specs.declared.fault.FlowFault.TheVariants as flow;

    ghost from_gives = { λ _ fault. fault ≡ flow.NoMemory };

    fn from(_error: AllocError) -> FlowFault {
        FlowFault::NoMemory
    }
}

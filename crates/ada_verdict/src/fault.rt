//! Why a source is refused: the fault of a phase.

ghost use Rattle.std.specs.Prelude.{◌≡◌};

use ada_flow::FlowFault;
use ada_operations::OperationFault;
use ada_parser::SyntaxFault;
use ada_program::Spot;
use ada_resolve::NameFault;
use ada_text::TextFault;
use std::alloc::{AllocError, AllocFailed};

/// Why a source is not accepted: a fault of a phase, or that memory ran out.
#[derive(Drop)]
pub enum Verdict {
    Text(TextFault),
    Syntax(SyntaxFault),
    Names(NameFault),
    /// An Initialize or an Adjust calls itself by what stands before a fault of the names (7.6). Its body begins here.
    EarlyRound(Spot),
    Rounds(RoundFault),
    Operations(OperationFault),
    Unused(UnusedFault),
    Flow(FlowFault),
}

/// An Initialize or an Adjust that calls itself, or that memory ran out.
#[derive(Drop)]
pub enum RoundFault {
    /// It does so by implicit calls, directly or by way of other procedures and operations (7.6). Its body begins here.
    CallsItself(Spot),
    NoMemory,
}

/// An operation of a controlled type that is not in use yet, or that memory ran out.
#[derive(Drop)]
pub enum UnusedFault {
    /// It is an Initialize that is neither plain nor, where it may be, frugal, a Finalize that is neither quiet nor, where it may be,
    /// frugal, or an Adjust that is neither quiet nor, of a type that declares a component of an access type, simple where it may track,
    /// and no theorem speaks of it. Its body begins here.
    Operation(Spot),
    /// Each operation is in use, but a body leads back to itself by what its own declarations create (7.6, 3.3.1): it would be called inside
    /// itself again and again. It begins here.
    Circle(Spot),
    NoMemory,
}

impl From<AllocError> for RoundFault {
    ghost use Rattle.ada_verdict.specs.declared.fault.RoundFault.TheVariants as round;

    ghost from_gives = { λ _ fault. fault ≡ round.NoMemory };

    fn from(_error: AllocError) -> RoundFault {
        RoundFault::NoMemory
    }
}

impl From<AllocError> for UnusedFault {
    ghost use Rattle.ada_verdict.specs.declared.fault.UnusedFault.TheVariants as unused;

    ghost from_gives = { λ _ fault. fault ≡ unused.NoMemory };

    fn from(_error: AllocError) -> UnusedFault {
        UnusedFault::NoMemory
    }
}

impl From<TextFault> for Verdict {
    ghost use Rattle.ada_verdict.specs.declared.fault.Verdict.TheVariants.{Text};

    ghost from_gives = { λ fault verdict. verdict ≡ Text fault };

    fn from(fault: TextFault) -> Verdict {
        Verdict::Text(fault)
    }
}

impl From<SyntaxFault> for Verdict {
    ghost use Rattle.ada_verdict.specs.declared.fault.Verdict.TheVariants.{Syntax};

    ghost from_gives = { λ fault verdict. verdict ≡ Syntax fault };

    fn from(fault: SyntaxFault) -> Verdict {
        Verdict::Syntax(fault)
    }
}

impl From<NameFault> for Verdict {
    ghost use Rattle.ada_verdict.specs.declared.fault.Verdict.TheVariants.{Names};

    ghost from_gives = { λ fault verdict. verdict ≡ Names fault };

    fn from(fault: NameFault) -> Verdict {
        Verdict::Names(fault)
    }
}

impl From<RoundFault> for Verdict {
    ghost use Rattle.ada_verdict.specs.declared.fault.Verdict.TheVariants.{Rounds};

    ghost from_gives = { λ fault verdict. verdict ≡ Rounds fault };

    fn from(fault: RoundFault) -> Verdict {
        Verdict::Rounds(fault)
    }
}

impl From<OperationFault> for Verdict {
    ghost use Rattle.ada_verdict.specs.declared.fault.Verdict.TheVariants.{Operations};

    ghost from_gives = { λ fault verdict. verdict ≡ Operations fault };

    fn from(fault: OperationFault) -> Verdict {
        Verdict::Operations(fault)
    }
}

impl From<UnusedFault> for Verdict {
    ghost use Rattle.ada_verdict.specs.declared.fault.Verdict.TheVariants.{Unused};

    ghost from_gives = { λ fault verdict. verdict ≡ Unused fault };

    fn from(fault: UnusedFault) -> Verdict {
        Verdict::Unused(fault)
    }
}

impl From<FlowFault> for Verdict {
    ghost use Rattle.ada_verdict.specs.declared.fault.Verdict.TheVariants.{Flow};

    ghost from_gives = { λ fault verdict. verdict ≡ Flow fault };

    fn from(fault: FlowFault) -> Verdict {
        Verdict::Flow(fault)
    }
}

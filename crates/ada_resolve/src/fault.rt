//! Why a tree has no program, and where.

ghost use Rattle.std.specs.Prelude.{◌≡◌};

use ada_program::Spot;
use std::alloc::{AllocError, AllocFailed};
use thiserror::Error;

/// What is wrong with a name, or with what it stands for.
#[derive(Clone, Copy, Debug, PartialEq, Eq, Error)]
pub enum NameRule {
    /// Nothing of that name is visible (8.3); or an `end` has another name than its procedure (6.3).
    #[error("F20 unknown-name")]
    UnknownName,
    /// The name is declared already, or is predefined (8.3).
    #[error("F21 declared-twice")]
    DeclaredTwice,
    /// What the name stands for, or the value, is of another kind or type than is wanted (8.6).
    #[error("F22 wrong-type")]
    WrongType,
    /// The construct is not in the profile.
    #[error("F23 not-in-profile")]
    NotInProfile,
    /// The declaration stands where its kind may not stand.
    #[error("F24 layout")]
    Layout,
    /// A component or an object of type Integer or Boolean has no initial value.
    #[error("F25 no-initial-value")]
    NoInitialValue,
    /// An incomplete type is not completed (3.10.1).
    #[error("F26 body-missing")]
    BodyMissing,
    /// A limit of the profile is passed.
    #[error("F27 limit")]
    Limit,
}

/// The first fault of the names, or that memory ran out.
#[derive(Debug, Drop, PartialEq, Eq)]
pub enum NameFault {
    Broken { spot: Spot, rule: NameRule },
    NoMemory,
}

impl From<AllocError> for NameFault {
    ghost use Rattle.ada_resolve.specs.declared.fault.NameFault.TheVariants as names;

    ghost from_gives = { λ _ e. e ≡ names.NoMemory };

    fn from(_error: AllocError) -> NameFault {
        NameFault::NoMemory
    }
}

impl<T: Drop> From<AllocFailed<T>> for NameFault {
    ghost use Rattle.ada_resolve.specs.declared.fault.NameFault.TheVariants as names;

    ghost from_gives = { λ _ e. e ≡ names.NoMemory };

    fn from(_failed: AllocFailed<T>) -> NameFault {
        NameFault::NoMemory
    }
}

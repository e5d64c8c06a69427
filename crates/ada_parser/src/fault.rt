//! Why tokens have no tree, and where.

ghost use Rattle.ada_parser.specs.declared.fault.SyntaxFault.TheVariants.{NoMemory};
ghost use Rattle.std.specs.Prelude.{◌≡◌};

use ada_text::Spot;
use std::alloc::{AllocError, AllocFailed};
use thiserror::Error;

/// Why tokens have no tree.
#[derive(Debug, Drop, PartialEq, Eq, Error)]
pub enum SyntaxFault {
    /// The tokens before this one begin a unit, within the limit of nesting, and with it they begin none; the spot is
    /// the token's.
    #[error("F10 unexpected-token")]
    UnexpectedToken(Spot),
    /// The token at this spot opens one level of nesting more than there may be, in each unit that the tokens up to some
    /// point begin. A nested body opens its level at its first word, which its `is` shows; the formals of a procedure
    /// that breaks off before its `is` or `;` are too deep at their parenthesis.
    #[error("F11 too-deep")]
    TooDeep(Spot),
    /// The tokens begin a unit, within the limit of nesting, and are none; the spot is just after the last one, or 1:1
    /// where there is none.
    #[error("F12 end-of-source")]
    EndOfSource(Spot),
    /// Memory ran out.
    #[error("F90 no-memory")]
    NoMemory,
}

impl From<AllocError> for SyntaxFault {
    ghost from_gives = { λ _ e. e ≡ NoMemory };

    fn from(_error: AllocError) -> SyntaxFault {
        SyntaxFault::NoMemory
    }
}

impl<T: Drop> From<AllocFailed<T>> for SyntaxFault {
    ghost from_gives = { λ _ e. e ≡ NoMemory };

    fn from(_failed: AllocFailed<T>) -> SyntaxFault {
        SyntaxFault::NoMemory
    }
}

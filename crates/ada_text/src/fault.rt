//! Why a source has no tokens.

use crate::spot::Spot;
use thiserror::Error;

/// Why a source has no tokens, and where; or that memory ran out.
#[derive(Debug, Drop, PartialEq, Eq, Error)]
pub enum TextFault {
    /// A byte that begins no token and stands in no comment; the spot is the byte's.
    #[error("F01 byte-not-allowed")]
    ByteNotAllowed(Spot),
    /// A string literal that is not closed on its line; the spot is the opening quote's.
    #[error("F02 open-string")]
    OpenString(Spot),
    /// A number above 2147483647; the spot is its first digit's.
    #[error("F03 number-range")]
    NumberRange(Spot),
    /// A source of more than 1048576 bytes.
    #[error("F04 source-too-long")]
    SourceTooLong,
    /// An identifier that is too long or has an underscore that does not stand alone between
    /// letters or digits, or a number that a letter or an underscore follows at once; the spot
    /// is its first byte's.
    #[error("F05 identifier-form")]
    IdentifierForm(Spot),
    /// Memory ran out.
    #[error("F90 no-memory")]
    NoMemory,
}

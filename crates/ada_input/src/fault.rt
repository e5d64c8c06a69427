//! Why an input has no numbers.

use thiserror::Error;

/// Why an input has no numbers; or that memory ran out. It prints its number and name.
#[derive(Clone, Copy, Debug, PartialEq, Eq, Error)]
pub enum InputFault {
    /// A word that is no number from -2147483648 to 2147483647. The place is its first byte's, counted from 1.
    #[error("F70 bad-input {place}")]
    BadWord { place: usize },
    /// Memory ran out.
    #[error("F90 no-memory")]
    NoMemory,
}

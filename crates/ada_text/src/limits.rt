//! The limits on sources and tokens.

/// The longest source that is read, in bytes.
pub const LONGEST_SOURCE: usize = 1_048_576;

/// The longest identifier, in bytes.
pub const LONGEST_IDENTIFIER: usize = 64;

/// The greatest number that a decimal literal may stand for.
pub const GREATEST_NUMBER: u32 = 2_147_483_647;

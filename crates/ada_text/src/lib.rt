//! The text of an Ada program as tokens (chapter 2 of the manual).
//!
//! `tokens` gives the tokens that a source is made of, or its first fault and where it stands.
//! A fault is told only where there are no tokens, and want of memory only where memory was
//! refused. Of each token the caller has what it is, its line and column, and its bytes in the
//! source. Identifiers come in upper case, so that two are equal when their texts are.
//!
//! ```text
//! for token in tokens(alloc, b"X := 1; -- one")? { .. }
//! // Identifier("X"), Delimiter(Assign), Number(1), Delimiter(Semicolon)
//! ```
#![tactic(auto)]

// What callers have.
mod delimiter;
mod fault;
mod limits;
mod spot;
mod token;
mod word;

// Where the reader stands, and what it passes over.
mod bytes;
mod gap;
mod place;

// One token.
mod element;
mod identifier;
mod literal;
mod number;
mod reserved;

// The whole source.
mod laws;
mod scanner;

pub use crate::delimiter::Delimiter;
pub use crate::fault::TextFault;
pub use crate::laws::{
    one_first_fault, one_list_of_tokens, tokens_are_read_again, tokens_have_their_forms,
    tokens_lie_in_order,
};
pub use crate::limits::{GREATEST_NUMBER, LONGEST_IDENTIFIER, LONGEST_SOURCE};
pub use crate::scanner::tokens;
pub use crate::spot::Spot;
pub use crate::token::{Token, TokenKind};
pub use crate::word::Word;

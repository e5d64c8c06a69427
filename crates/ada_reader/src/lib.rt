//! One token at a time: what stands next, and taking it.
//!
//! A [`Reader`](reader::Reader) holds the tokens that are left to read. Each method that takes one answers what the
//! phrase of that name in `specs/` gives, or where reading stops. The operators of expressions (4.5) are phrases of one
//! or two tokens, and stand here too.
#![tactic(auto)]

pub mod operators;
pub mod reader;

pub use crate::reader::{Reader, Stop};

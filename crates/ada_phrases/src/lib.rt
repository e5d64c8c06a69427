//! The phrases of the grammar: each function reads one line of it from the tokens that are left.
//!
//! [`read_unit`] reads a compilation unit (10.1.1). What a function answers is what its phrase in `specs/` gives: the
//! tree and the tokens that are left, or where reading stops. The laws of these phrases, and the parser that is made of
//! them, stand in `ada_parser`.
#![tactic(auto)]

// Trees on the heap.
mod boxes;

// Names, and the parts of declarations.
mod heads;
mod names;
mod parts;
mod records;

// Expressions, and what is made of them.
mod arguments;
mod expressions;
mod items;
mod primaries;
mod rights;

// Declarations and statements.
mod declarations;
mod handlers;
mod nested;
mod procedures;
mod simple_statements;
mod statements;
mod unit;

pub use crate::unit::{Parsed, read_unit};

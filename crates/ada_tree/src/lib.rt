//! The tree of a source: declarations, statements and expressions, with names as they are written.
//!
//! What tokens a tree is written with stands in this crate's `specs/`, a definition for each line of the grammar.
#![tactic(auto)]

// Parts of the others.
pub mod names;

// What a unit is made of.
pub mod declarations;
pub mod expressions;
pub mod records;
pub mod statements;
pub mod unit;

pub use ada_text::Spot;

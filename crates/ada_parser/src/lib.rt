//! The parser of the whole grammar: the tree of a list of tokens, or the first fault of its syntax.
//!
//! [`parse`] reads the tokens from the left, at most 64 levels of nesting deep, and answers the tree whose text they are.
//! A fault stands at the first token that cannot go on what the tokens before it begin, at a token that opens a level
//! past the limit, or just after the last token. A list of tokens has one tree at most, one first fault at most, and
//! never both: [`tokens_have_one_tree`], [`tokens_have_one_first_fault`] and [`faults_exclude_trees`] say so, and running
//! out of memory is no fault.
//!
//! ```
//! let parsed = parse(alloc, &tokens)?;
//! let name = parsed.unit.name.text;
//! ```
#![tactic(auto)]

mod fault;
mod laws;
mod parser;

pub use crate::fault::SyntaxFault;
pub use crate::laws::{faults_exclude_trees, tokens_have_one_first_fault, tokens_have_one_tree};
pub use crate::parser::parse;
pub use ada_phrases::Parsed;

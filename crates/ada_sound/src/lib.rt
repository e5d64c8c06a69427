//! The laws of storage: a program that is well formed, whose operations of controlled types are in use, whose collections
//! nest, where each Free is by the instance for the access type of what it frees, and which obeys the rules of flow is safe
//! in every run, whatever its input and whatever is granted and picked. Nothing here runs: each function of [`laws`] is a
//! theorem on the definitions of programs, flow and meaning, and its contract is the statement; those of [`examples`] and
//! [`controlled`] say of programs that the premises are met, and those of [`needed`] that the rules are needed.
//!
//! What a crate above takes from here: where a program is accepted, `rules_imply_safety` gives `Safe` of that program.
#![tactic(auto)]

pub mod controlled;
pub mod examples;
pub mod laws;
pub mod needed;

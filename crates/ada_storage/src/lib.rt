//! Storage and finalization, whatever user code does (7.6, 7.6.1): a machine of its own, with objects, their parts that need
//! finalization, masters and what is under way. It has no statements: where user code runs, it may do anything that a
//! program could do to storage, and each such action is a choice. Nothing here runs: each function of [`laws`] is a
//! theorem, and its contract is the statement.
//!
//! What a crate above takes from here: `proofs::Following`. A machine of programs follows storage where each of its steps
//! is some steps of storage that show nothing, and then at most one that shows the same event (`specs::Following`); the laws
//! hold for its runs then.
#![tactic(auto)]

pub mod laws;

//! What the record objects stand apart from that bodies declare, those of operations of controlled types and those that are called, over
//! any run of any well-formed program: no operation that waits for such a body, or behind it, is one of theirs. Nothing here runs: each
//! function of [`laws`] is a theorem on the definitions of meaning, and its contract is the statement.
//!
//! What a crate above takes from here: the law of `proofs::Runs` over runs.
#![tactic(auto)]

pub mod laws;

//! What waits behind the end of a call: a step of a body that runs does not look at it, and leaves it as it is. Nothing here
//! runs: each function of [`laws`] is a theorem on the definitions of meaning, and its contract is the statement.
//!
//! What a crate above takes from here: `before` and `RunsItself` of `specs::Before`, and `steps_before` of `proofs::Law`.
#![tactic(auto)]

pub mod laws;

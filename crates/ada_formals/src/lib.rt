//! What formal parameters that are records stand for while their bodies run, over any run of any well-formed program: for the
//! records that were given; and those of operations of controlled types for the parts that these are called for. Nothing here
//! runs: each function of [`laws`] is a theorem on the definitions of meaning, and its contract is the statement.
//!
//! What a crate above takes from here: the laws of `proofs::Runs` over runs; or, beside an invariant of its own, `Keeps`,
//! `first_keeps`, `step_keeps` and `step_comes` of it over states and steps, and `operations_refer`.
#![tactic(auto)]

pub mod laws;

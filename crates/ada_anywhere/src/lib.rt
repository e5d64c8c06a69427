//! What operations of controlled types create, over any run of a program whose operations nest anywhere: no collection, wherever
//! they are called. Nothing here runs: each function of [`laws`] is a theorem on the definitions of meaning, and its contract
//! is the statement.
//!
//! What a crate above takes from here: `collect_nothing` of `proofs::Runs` over runs; or, beside an invariant of its own,
//! `HereIn`, `first_here` and `step_here` of it, and `none_since` of `proofs::Control` over states.
#![tactic(auto)]

pub mod laws;

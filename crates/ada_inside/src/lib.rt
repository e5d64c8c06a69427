//! Operations inside of each other: where an Initialize, an Adjust or a Finalize assigns to components of its formal parameter, the
//! operations of these run inside of it, on the same object, to any depth (5.2, 7.6, 7.6.1). Nothing here runs: each function of
//! [`laws`] is a theorem on the definitions of meaning, and its contract is the statement.
//!
//! What a crate above takes from here: `NestInside` and `IsLeftApart` of `specs::Law`, and `step_nests`, `state_nests` and `values_exist`
//! of `proofs::Runs`.
#![tactic(auto)]

pub mod laws;

//! What record objects mean for collections, over any run of a program whose collections nest and whose operations nest
//! anywhere: as long as a master owns a record object, all that its components need is open. Nothing here runs: each function
//! of [`laws`] is a theorem on the definitions of meaning, and its contract is the statement.
//!
//! What a crate above takes from here: `outlived` and `newer` of `proofs::Outlived` over runs; or, beside an invariant of its
//! own, `Outlives`, `first_outlives` and `step_outlives` of `proofs::Runs`, and `records_outlived` and `records_newer` of
//! `proofs::Outlived` over states.
#![tactic(auto)]

pub mod laws;

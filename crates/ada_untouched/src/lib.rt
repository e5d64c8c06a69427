//! The laws of what is not touched: a step that looks neither at some components nor at some objects is the same step wherever
//! these are other ones; what lies in an object that is gone, and whose storage is back, matters to no step; and components that
//! a step does not write stay as they are. Nothing here runs: each function of [`laws`] is a theorem on the definitions of
//! meaning, and its contract is the statement.
//!
//! What a crate above takes from here: `StatesAlike` of `specs::Alike`, `Untouched` of `specs::Untouched`, and `steps_alike` of
//! `proofs::Law`; `StatesButForPast` of `specs::Past`, and `past_does_not_matter`, `past_weighs_nothing` and
//! `forgetting_changes_past_alone` of `proofs::Past`; `Unwritten` of `specs::Unwritten`, and `hidden_stays` of
//! `proofs::KeptByLaw`.
#![tactic(auto)]

pub mod laws;

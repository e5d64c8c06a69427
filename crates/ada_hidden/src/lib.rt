//! A body that has been called, while components of an object are hidden: a step that touches none of them is the same where they hold
//! null, and whatever waits for the end of the call. Nothing here runs: each function of [`laws`] is a theorem on the definitions of
//! meaning, and its contract is the statement.
//!
//! What a crate above takes from here: `blanked_state`, `is_hidden` and `NextInFront` of `specs::Hidden`, `RunsBeside` of `specs::Law`, and
//! `steps_are_the_same` of `proofs::Law`.
#![tactic(auto)]

pub mod laws;

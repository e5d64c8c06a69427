//! Owners over the heap of names: what is relied on where components own objects, variables borrow them, and values are moved
//! between the two. Nothing here runs: each function of [`laws`] is a theorem on definitions, and its contract is the
//! statement.
//!
//! What a crate above takes from here: `Fits` and `IsInHand` of `specs::Reliance`, and a lemma of `proofs::Changes` for each
//! elementary change of variables, components and objects.
#![tactic(auto)]

pub mod laws;

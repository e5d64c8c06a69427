//! The order in which masters are entered and left, over any run of any program: these laws need no rule of flow, since
//! they follow from what the steps leave to do. Nothing here runs: each function of [`laws`] is a theorem on the
//! definitions of meaning, and its contract is the statement.
//!
//! What a crate above takes from here: `in_reverse`, `inner_first`, `items_fall`, `masters_fall`, `pools_last` and
//! `pools_differ` of `proofs::Orders`, for the `Law` and the `Safe` of a program.
#![tactic(auto)]

pub mod laws;

//! Rounds: an Initialize or an Adjust may not call itself by implicit calls, directly or by way of other procedures and operations (7.6).
//!
//! `first_round` finds where the first body in the text begins that does, by the text alone: what is behind a jump counts. A Finalize may
//! call itself, as those of lists and trees do.
#![tactic(auto)]

mod first;
pub mod laws;

pub use crate::first::first_round;

//! The law of tracked components: the body of an operation (7.6) whose formal parameter has such components runs, step by step,
//! as a body that has a variable for each of them. Nothing here runs: each function of [`laws`] is a theorem on the definitions
//! of meaning, and its contract is the statement.
//!
//! Variables and components may name the object; each step of the body looks at it by the formal parameter alone, which is
//! `LooksElsewhere` of `specs::Looking`.
//!
//! What a crate above takes from here: `Seen` of `specs::Seen` and `Shown` of `specs::Law`, and `runs_as_variables` of
//! `proofs::Law`; `stay_simple` of `proofs::Staying` for the forms that are left; and `plainly_at_end` where the body ends.
#![tactic(auto)]

pub mod laws;

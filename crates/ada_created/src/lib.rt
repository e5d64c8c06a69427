//! What the order means in which the text of a program creates collections (7.6.1): over any run of a well-formed program, the collections
//! of each master were created in that order, and go in the reverse of it. So where the operations of controlled types break no rule, what
//! they use is there while a master is left. Nothing here runs: each function of [`laws`] is a theorem on the definitions of meaning, and
//! its contract is the statement.
//!
//! What a crate above takes from here: `in_order`, `none_first` and `body_fits_in` of `proofs::Created`, and `begun_in_runs` of
//! `proofs::Runs`: in each state of a run the collections of a master are the first ones of a declarative part, whatever is said of these.
#![tactic(auto)]

pub mod laws;

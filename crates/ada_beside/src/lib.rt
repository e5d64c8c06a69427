//! The law of what lies beside a record: while the body of an operation (7.6) runs that looks at an object by its formal parameter
//! alone, no component of the object is looked at or written that is none of that record, and the object stays. Other values may name
//! the object: they are followed by no step of which the law speaks. Nothing here runs: each function of [`laws`] is a theorem on the
//! definitions of meaning, and its contract is the statement.
//!
//! What a crate above takes from here: `IsConfined` of `specs::Confined`, and `stays_within` of `proofs::Law`.
#![tactic(auto)]

pub mod laws;

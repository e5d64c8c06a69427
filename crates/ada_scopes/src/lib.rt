//! What blocks and calls mean for what lies in collections, over any run of a program whose collections nest: no object of
//! an outer master has a component that names one of an inner master. Nothing here runs: each function of [`laws`] is a
//! theorem on the definitions of meaning, and its contract is the statement.
//!
//! What a crate above takes from here: `one_collection`, `in_collections`, `outlived`, `outside`, `innermost_unnamed` and
//! `objects_go_first` of `proofs::Components` over runs; or, beside an invariant of its own, `Scoped`, `first_nested` and
//! `step_nested` of `proofs::Runs`, and `held_outside`, `held_inside`, `objects_first` and `objects_gone` of
//! `proofs::Components` over states. Operations nest where none is overridden, by `none_nests` of `proofs::Operations`, or
//! where they nest anywhere, by `anywhere_nests`.
#![tactic(auto)]

pub mod laws;

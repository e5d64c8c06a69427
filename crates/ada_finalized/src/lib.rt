//! The laws of finalization, over any run of any program: they need no rule of flow, since they follow from what the steps
//! leave to do. Nothing here runs: each function of [`laws`] is a theorem on the definitions of meaning, and its contract is
//! the statement.
//!
//! What a crate above takes from here, for the `Law` and the `Safe` of a program: `finalized_once` and `finalizations` of
//! `proofs::Runs`, `all_stand`, `listed_stand`, `none_runs_on_listed`, `nothing_treated`, `nothing_treated_at` and `none_runs`
//! of `proofs::Standing`, and `never_twice`, `values_exist`, `inner_values_exist`, `operations_end_well`, `treated_exist`,
//! `operated_exist` and `treated_exists` of `proofs::Twice`; `inner_parts_stand`, `begun_inside` and `left_to_finalize_stands` of
//! `proofs::InnerParts`, and of how a treatment stays inside, `inside_picked`, `begun_operation_inside` and
//! `ended_operation_inside` there, `none_inside` and `inside_performed` of `proofs::Inside`.
#![tactic(auto)]

pub mod laws;

//! The laws of bodies that follow and free no value of some access types (4.1, 13.11.2): they change no object of these types into
//! which none of their references to records and components leads, and look at none. Nothing here runs: each function of [`laws`] is a
//! theorem on the definitions of meaning, and its contract is the statement.
//!
//! What a crate above takes from here: `Apart` of `specs::Apart`, `body_shuns` of `specs::Forms`, `IsReaching` of `specs::Reaching`,
//! `operation_reaches` and `stays_reaching` of `proofs::Law`, `unused_apart` of `proofs::Deeds`, `inert_calls_nothing` of `proofs::Inert`,
//! and what `proofs::Behind` says of an operation that such bodies wait for.
#![tactic(auto)]

pub mod laws;

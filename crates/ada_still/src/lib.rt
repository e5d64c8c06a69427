//! Still bodies: while one runs, nothing is initialized, adjusted or finalized, so that no operation of a controlled type is called
//! (7.6, 7.6.1). While the collection of an access type is open that still bodies alone declare, no operation begins; so no access type
//! has two collections at a time, also where operations declare some. Nothing here runs: each function of [`laws`] is a theorem on the
//! definitions of meaning, and its contract is the statement.
//!
//! What a crate above takes from here: `is_still` and `CollectStill` of `specs::Still`, `TreatsWhereNoneIsOpen` of `specs::Law`,
//! `NestBeside` of `specs::Beside`, and `state_beside`, `step_beside` and `step_if_treated` of `proofs::Beside`: each state of a run
//! nests. When the premises hold is said by the text of a program: `still_by_text` and `nest_by_text` of `specs::Text`, and
//! `collect_by_text` and `beside_by_text` of `proofs::Text`.
#![tactic(auto)]

pub mod laws;

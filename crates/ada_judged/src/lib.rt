//! The laws of bodies as they are judged (7.6): a body with tracked components, and the one that has a variable for each of them.
//! Nothing here runs: each function of [`laws`] is a theorem on definitions, and its contract is the statement.
#![tactic(auto)]

pub mod laws;

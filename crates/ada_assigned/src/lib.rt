//! What operations of controlled types assign to records as wholes, over any run of any well-formed program: where an
//! Initialize, an Adjust or a Finalize assigns inside of its formal parameter, or in a record object that it declares, each
//! value that is finalized there exists. Nothing here runs: each function of [`laws`] is a theorem on the definitions of meaning, and its contract is the statement.
#![tactic(auto)]

pub mod laws;

//! What the resolver hands on to the other layers of the checker: the program that a tree means.
//!
//! The resolver promises a `Program` that is what the tree means and that `is_well_formed`. The definitions
//! that several crates cite stand in this crate's `specs/`: statements and expressions as plain data, and what a
//! well-formed program is.
#![tactic(auto)]

mod bodies;
pub mod borrowers;
mod calls;
mod creations;
mod declarations;
mod kinds;
mod layout;
pub mod lookup;
mod operations;
pub mod parts;
pub mod program;
mod queries;
mod records;
mod targets;
mod typing;
mod values;
mod well_formed;
mod within;

pub use crate::program::{
    PartNo, Path, PoolNo, ProcedureNo, Program, RecordNo, Stmt, TypeNo, VariableNo,
};
pub use ada_text::Spot;

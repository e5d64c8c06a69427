//! Deeds: what the calls of procedures may do beside their normal end, where calls may go in circles.
//!
//! A deed is done by a procedure where its body does it itself, or calls what does it: by a statement, or implicitly, where
//! objects of controlled types are created, copied, assigned to or ended. What does a deed is the least set for which this holds.
//! `Deeds::implicit` gathers from it, for each type, what the operations may do that are called implicitly.
//!
//! `Rounds` tells by the same calls which procedures call themselves, directly or by way of others.
#![tactic(auto)]

mod begins;
mod callees;
mod callers;
mod calls;
mod deed;
mod deeds;
mod evaluations;
mod follows;
mod found;
mod implicit;
pub mod laws;
mod nodes;
mod raisers;
mod rounds;
mod search;
mod statements;
mod walk;

pub use crate::deed::{Callee, Deed, Operation};
pub use crate::deeds::Deeds;
pub use crate::rounds::Rounds;
pub use crate::statements::{declaration_does, ending_does, statement_does};

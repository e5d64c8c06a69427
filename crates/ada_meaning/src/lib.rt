//! What a program means: small steps from one state to the next, over whatever values and heap there are, and runs of them.
//!
//! The definitions stand in `specs/`, in the order of its `Lib.antt`: what is left to do, events, states, what a step
//! asks of the heap, the steps form by form in the order of the manual, the heap of names, runs, and the laws of storage
//! with what a safe program is. Here are the types that they share with the machines.
#![tactic(auto)]

mod event;
pub mod laws;
mod request;
mod state;

pub use crate::event::{Birth, Cause, Controlled, Event, Halt, Line, Why};
pub use crate::request::Request;
pub use crate::state::{Id, Mode, Place, Stage, Value};
pub use ada_program::program::Exception;

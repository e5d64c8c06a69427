//! Circles: bodies that lead back to themselves by what their own declarations create (7.6, 3.3.1, 4.8).
//!
//! `first_circle` finds where the first such body in the text begins. What a body's own declarations create is created whenever it runs: so
//! a body that leads back to itself would be called inside itself again and again.
#![tactic(auto)]

mod edges;
mod first;
pub mod laws;

pub use crate::first::first_circle;

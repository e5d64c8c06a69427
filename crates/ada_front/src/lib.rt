//! What stands before a fault in the text of a unit: its front.
//!
//! The definition is `front_of`: what is left of a unit before a place, so that it has a meaning of its own. [`cut`] cuts a unit so. Beside it
//! [`spots`] tells where a construct begins, [`begun`] how many elements of a list have begun by a fault, and [`settle`] takes out of a list
//! of declarations what their part would lack at its `begin`.
#![tactic(auto)]

pub mod begun;
pub mod cut;
pub mod laws;
mod left;
pub mod settle;
pub mod spots;

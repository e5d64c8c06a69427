//! Controlled parts (7.6, 7.6.1): which of them comes next where an object is initialized, adjusted or finalized.
//!
//! [`Shapes`] is a table of record types as finalization sees them: which are controlled, and which components have controlled
//! parts. [`Tasks`] is what is left of the treatment of an object; it names parts by their numbers, and holds no values, so user
//! code may run for long between two of its steps. Where several components are open, the caller picks one. The laws of every
//! treatment stand in [`laws`]: each part is treated once, and in the order that the direction asks for.
//!
//! ```text
//! let mut tasks = Tasks::start(alloc, &shapes, Direction::PartsFirst, of, 0)?;
//! match tasks.next() {
//!     Next::Done => ..,
//!     Next::Pick { count } => tasks.take(&shapes, Direction::PartsFirst, any number below count)?,
//!     Next::Perform { of, part } => { tasks.performed(); .. }
//! }
//! ```
#![tactic(auto)]

pub mod laws;
mod put;
mod shapes;
mod tasks;

pub use crate::shapes::Shapes;
pub use crate::tasks::{Component, Direction, Next, Tasks};

//! The runner's choices, over storage pools of raw words.
//!
//! [`PoolChoices`] answers what a run leaves open. An allocator's request is granted where its pool has room, unless it
//! is the one that is to be refused; the words of an object go back to the pool that gave them; and of the members of a
//! collection the newest is taken. A pool of words stands for each pool of the run, the standard one first.
//!
//! ```text
//! let choices = PoolChoices::new(alloc, &program, 65_536, &sizes, 0)?;
//! let mut machine = Machine::new(alloc, &program, input, choices)?;
//! ```
#![tactic(auto)]

mod choices;
mod entries;
mod held;
mod sizes;

pub use crate::choices::PoolChoices;
pub use crate::held::Block;
pub use crate::sizes::{PoolSize, name_pools};

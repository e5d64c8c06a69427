//! The lists of what is to be finalized: one for each master that was entered, and one for each
//! collection and each subpool while it lasts (Ada 7.6.1, 13.11.4).
//!
//! To the crate above it promises:
//! - a list gives back what was attached to it, the newest first or from any place that is asked for;
//! - a call on one list leaves every other as it was;
//! - only [`Lists::enter`] and [`Lists::attach`] take memory, and where it is refused nothing changed;
//! - a number comes back for a new list once its own was left, and such numbers go first, so that
//!   memory follows the greatest number of lists entered at once and not the number of enters.
//!
//! ```
//! let mut lists = Lists::new(alloc);
//! let block = lists.enter()?;
//! lists.attach(block, Item { word: 5 })?;
//! lists.attach(block, Item { word: 6 })?;
//! // What was created last is finalized first.
//! while let Some(item) = lists.take_next(block, 0) {
//!     finalize(item);
//! }
//! lists.leave(block);
//! ```
#![tactic(auto)]

mod chain;
mod item;
mod lists;
mod slot;

pub use chain::{Chain, chains_stay};
pub use item::Item;
pub use lists::{ListNo, Lists};

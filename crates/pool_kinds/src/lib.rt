//! Storage pools over raw words.
//!
//! A pool is tiled by blocks and holes. The contracts of `Pool` speak of that tiling, of the open owners and of the
//! words of the blocks that are their users': links and object words. No caller sees the rest of a header, which
//! `pool_tiles` draws. Only `new` takes memory.
//!
//! - `FirstFit` cuts each block from the first hole that is long enough, and what comes back is merged with the holes
//!   beside it.
//! - `SubpoolPool` cuts blocks in the same way, each for an open subpool, and all of a subpool's come back as it closes.
//! - `MarkRelease` cuts blocks one behind the other for the newest mark, and they come back as it closes.
//!
//! ```text
//! let mut pool = FirstFit::new(alloc, 24)?;
//! let place = pool.allocate(Owner(0), 2)?;
//! pool.write(place, 1, 7);
//! pool.give_back(place);
//! ```
#![tactic(auto)]

mod first_fit;
mod kinds;
mod mark_release;
mod subpools;

pub use first_fit::FirstFit;
pub use kinds::{NotNewest, Owner, Place, Pool, Refused};
pub use mark_release::MarkRelease;
pub use subpools::SubpoolPool;

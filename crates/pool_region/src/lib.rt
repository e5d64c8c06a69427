//! Raw memory as a list of words.
//!
//! A `Region` is a block of 64-bit words from the allocator, all 0 at first, and given back when it is dropped.
//! Every contract sees it as the list of its words: `get` and `view` read that list, `set` and `view_mut` change the
//! words that they name and no others. A place is the index of a word. That it is in range is the caller's condition,
//! proved at each call, so nothing is tested when the program runs.
//!
//! ```text
//! let mut region = Region::new(alloc, 24)?;
//! region.set(4, 7);
//! assert_eq!(rt; region.get(4), 7);
//! assert_eq!(rt; region.view(3, 3), [0, 7, 0].as_slice());
//! ```
#![tactic(auto)]

mod cells;
mod region;

// A contract can name a region only if the types of its fields are exported.
#[doc(hidden)]
pub use cells::{Base, Cells, Deed};
pub use region::Region;

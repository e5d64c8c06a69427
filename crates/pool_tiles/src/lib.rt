//! The words of a pool: holes and blocks side by side.
//!
//! ```text
//!             +0                     +1            +2          +3           +4 .. +length-1
//! a block     length + 2^32 * owner  tile before   link 0      link 1       the object's words
//! a hole      length + 2^63          tile before   next hole   hole before  free
//! ```
//!
//! The first four words are the header. The links and the object's words are the user's: no step on another tile
//! changes them.
#![tactic(auto)]

mod header;
mod piled;
mod tiled;
mod tiles;

pub use header::HEADER;
pub use piled::PiledWords;
pub use tiled::TiledWords;
// A contract can name such words only if the types of their fields are exported.
#[doc(hidden)]
pub use tiles::Tiles;

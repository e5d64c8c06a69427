//! Which components of its formal parameter a body tracks (7.6).

ghost use Rattle.std.specs.Prelude.{◌+◌, ◌≤◌, length};

use ada_program::program::ComponentNo;

/// The components of its formal parameter that a body tracks, in the order in which they stand behind its variables.
#[derive(Clone, Copy)]
pub(crate) struct Tracks<'a> {
    /// The number of the first one among what is held.
    pub(crate) first: usize,
    pub(crate) components: &'a [ComponentNo],
    ghost fits: { first + length components.now ≤ 18446744073709551615 },
}

//! What one walk over a text seeks.

ghost use Rattle.std.specs.Prelude.{◌≡◌};
ghost use Rattle.ada_deeds.specs.View.{sought};

use crate::deed::Deed;
use ada_program::program::Exception;

/// What is sought. Handlers take one exception and not another one, so each is sought by itself; no handler takes another deed, so
/// all others are found at once.
#[derive(Clone, Copy)]
pub(crate) enum Search {
    /// That this exception comes out (11.4).
    Exception(Exception),
    /// What is freed, followed, allocated and called.
    Others,
}

impl Search {
    /// The search that tells of a deed.
    pub(crate) fn of(deed: Deed) -> Search
        ensures { sought result deed ≡ deed }
    {
        match deed {
            Deed::Raises(exception) => Search::Exception(exception),
            Deed::Frees(_) | Deed::Follows(_) | Deed::Allocates | Deed::Calls => Search::Others,
        }
    }
}

//! What the program is asked to do.

ghost use Rattle.std.specs.Prelude.{◌≡◌, [], false};

use ada_pools::PoolSize;
use std::alloc::Global;

/// The greatest size of a pool, in words, and that of the standard pool where no other is given.
pub const MOST_WORDS: u32 = 65_536;

/// What the program is asked to do.
#[derive(Debug, Drop)]
pub struct Options {
    /// Run the source if it is accepted, in place of only checking it.
    pub run: bool,
    /// The size of the standard pool, in words.
    pub standard: u32,
    /// The sizes of pools that the program declares; of two for one name the last counts.
    pub sizes: Vec<PoolSize>,
    /// How many statements a run may begin, at least one.
    pub steps: u32,
    /// The number of the request for storage that is refused, counted from 1 over the run; 0 refuses none.
    pub refuse: u32,
    /// Write a line when a controlled value comes to exist or is finalized, and when the storage of an allocated object goes
    /// back.
    pub trace: bool,
}

impl Options {
    /// The defaults, for a check or for a run. Takes no memory.
    pub fn new(alloc: Global, run: bool) -> Options
        ensures run { result.run ≡ run }
        ensures standard { result.standard ≡ 65_536 }
        ensures sizes { result.sizes.items ≡ [] }
        ensures steps { result.steps ≡ 1_000_000 }
        ensures refuse { result.refuse ≡ 0 }
        ensures trace { result.trace ≡ false }
    {
        Options {
            run,
            standard: MOST_WORDS,
            sizes: Vec::new(alloc),
            steps: 1_000_000,
            refuse: 0,
            trace: false,
        }
    }
}

/// The files that the words on the command line name.
#[derive(Clone, Copy, Debug, PartialEq, Eq)]
pub struct Paths<'a> {
    /// The file of the source; the standard input where it is none.
    pub source: Option<&'a str>,
    /// The file of the program's input; an empty input where it is none.
    pub input: Option<&'a str>,
}

//! The region: a block whose every place holds a word.
ghost use Rattle.std.specs.Prelude.{◌≡◌, ℕ, ◌+◌, ◌<◌, ◌≤◌, length, replicate, slice_index, slice_range, slice_set, IfOk};
ghost use Rattle.std.specs.Borrow.{sem};

use crate::cells::{Base, Cells, Deed, allocate, deallocate};
use std::alloc::{AllocError, Global};
use std::marker::Model;

/// A block of 64-bit words, given back to the allocator when it is dropped.
pub struct Region {
    base: Base<u64>,
    words: usize,
    cells: Cells<u64>,
    deed: Deed<u64, Global>,
    alloc: Global,
}

impl Model for Region {
    ghost use Rattle.std.specs.Prelude.{◌≡◌, ◌^◌, ◌<◌, List, ℕ, length};
    ghost use Rattle.pool_region.specs.Places.{somes, IsFull};

    ghost Value = { List ℕ };

    ghost view = { λ r. somes r.cells.slots };

    ghost invariant = { λ r. (r.cells.at ≡ r.base.ptr) × IsFull r.cells.slots × (length r.cells.slots ≡ r.words) × (r.deed.at ≡ r.base.ptr) × (r.deed.len ≡ r.words) × (r.deed.alloc ≡ r.alloc) };
}

impl Drop for Region {
    fn drop(self) {
        let Region {
            base,
            words,
            cells,
            deed,
            alloc,
        } = self;
        deallocate(&alloc, base, words, cells, deed);
    }
}

impl Region {
    ghost use Rattle.pool_region.specs.Region.{LendsPart};

    /// A region of `words` words, each 0.
    ///
    /// # Errors
    /// Where the allocator has no such block.
    pub fn new(alloc: Global, words: u32) -> Result<Region, AllocError>
        ensures { IfOk result (λ r. r ≡ replicate words 0) }
    {
        let words = words as usize;
        let (base, mut cells, deed) = allocate(&alloc, words)?;
        for place in 0..words {
            cells.write(base, place, 0);
        }
        Ok(Region {
            base,
            words,
            cells,
            deed,
            alloc,
        })
    }

    /// How many words there are.
    pub fn len(&self) -> usize
        ensures { result ≡ length self.now }
    {
        self.words
    }

    /// The word at the place.
    pub fn get(&self, place: usize) -> u64
        requires { place < length self.now }
        ensures { result ≡ slice_index self.now place }
    {
        self.cells.slice(self.base, place, 1)[0]
    }

    /// Writes the word at the place.
    pub fn set(&mut self, place: usize, word: u64)
        requires { place < length self.old }
        ensures { self.new ≡ slice_set self.old place word }
    {
        self.cells.write(self.base, place, word);
    }

    /// The `n` words from the place on.
    pub fn view(&self, place: usize, n: usize) -> &[u64]
        requires { place + n ≤ length self.now }
        ensures { result.now ≡ slice_range self.now place (place + n) }
    {
        self.cells.slice(self.base, place, n)
    }

    /// Lends the words of a part of the region, to be written.
    pub fn view_mut(&mut self, place: usize, n: usize) -> &mut [u64]
        requires { place + n ≤ length self.old }
        ensures* writes_back { sem 𝓛 (LendsPart self.entry place n result) }
        ensures value { result.now ≡ slice_range self.old place (place + n) }
    {
        self.cells.slice_mut(self.base, place, n)
    }
}

#[cfg(test)]
mod tests {
    use super::*;

    #[test]
    fn words_are_zero_then_what_was_written(rt: HostRuntime) -> Result<(), AllocError> {
        let mut region = Region::new(rt.alloc(), 5)?;
        assert_eq!(rt; region.len(), 5);
        assert_eq!(rt; region.view(0, 5), [0, 0, 0, 0, 0].as_slice());
        region.set(1, 7);
        region.set(4, u64::MAX);
        let part = region.view_mut(2, 2);
        assert_eq!(rt; part.len(), 2);
        part[0] = 8;
        part[1] = 9;
        assert_eq!(rt; region.get(1), 7);
        assert_eq!(rt; region.view(0, 5), [0, 7, 8, 9, u64::MAX].as_slice());
        Ok(())
    }

    #[test]
    fn a_region_may_be_empty_or_large(rt: HostRuntime) -> Result<(), AllocError> {
        let empty = Region::new(rt.alloc(), 0)?;
        assert_eq!(rt; empty.len(), 0);
        assert_eq!(rt; empty.view(0, 0).len(), 0);
        let mut large = Region::new(rt.alloc(), 65_536)?;
        assert_eq!(rt; large.get(65_535), 0);
        large.set(65_535, 1);
        assert_eq!(rt; large.get(65_535), 1);
        Ok(())
    }
}

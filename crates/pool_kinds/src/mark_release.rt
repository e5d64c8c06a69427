//! The mark and release pool.
ghost use Rattle.std.specs.Prelude.{◌≡◌, ℕ, ◌+◌, length, Option, Some, None, Result, Ok, Err, [], IfOk};
ghost use Rattle.pool_tiles.specs.Tiling.{Tile, new_tiling, pile, block_words};
ghost use Rattle.pool_tiles.specs.Tiled.{user_word};
ghost use Rattle.pool_tiles.specs.Piled.{pile_tiles};

use crate::kinds::{NotNewest, Owner, Place, Pool, Refused};
use arrayvec::ArrayVec;
use pool_tiles::{HEADER, PiledWords};
use std::alloc::{AllocError, Global};
use std::marker::Model;

/// How many marks can be open at one time.
const MARKS: usize = 10;

/// A pool whose blocks are cut at a cursor for the newest mark alone, and go back as the cursor is set back to it.
///
/// A mark is the place at which the cursor stood when it was opened; its owner's number is its place among the marks.
#[derive(Drop)]
pub struct MarkRelease {
    words: PiledWords,
    marks: ArrayVec<usize, MARKS>,
}

impl Model for MarkRelease {
    ghost use Rattle.std.specs.Prelude.{◌≤◌, length, reverse};
    ghost use Rattle.pool_kinds.specs.Marked.{MarkedPile, Marked};

    ghost Value = { MarkedPile };

    ghost view = { λ p. record { pile = p.words; marks = p.marks.items } };

    ghost invariant = { λ p. (length p.marks.items ≤ 10) × Marked (reverse p.marks.items) p.words.blocks };
}

impl MarkRelease {
    /// A pool of so many words, without a mark.
    ///
    /// # Errors
    /// Where the allocator has no such block.
    pub fn new(alloc: Global, words: u32) -> Result<MarkRelease, AllocError>
        ensures tiles { IfOk result (λ pool. pile_tiles pool.pile ≡ new_tiling words) }
        ensures no_mark { IfOk result (λ pool. pool.marks ≡ []) }
    {
        let words = PiledWords::new(alloc, words)?;
        Ok(MarkRelease {
            words,
            marks: ArrayVec::new(),
        })
    }
}

impl Pool for MarkRelease {
    ghost use Rattle.pool_kinds.specs.Kinds.{or_full, down_from, opened_mark, for_newest, closed_newest};

    ghost tiling = { λ p. pile_tiles p.pile };

    ghost owners = { λ p. down_from (length p.marks) };

    ghost user_word = { λ p. user_word p.pile.words };

    ghost granted = { λ p owner words. for_newest (down_from (length p.marks)) owner (or_full (pile owner (block_words words) (pile_tiles p.pile))) };

    ghost given_back = { λ p _. pile_tiles p.pile };

    ghost opened = { λ p. opened_mark (down_from (length p.marks)) };

    ghost closed = { λ p owner. closed_newest (down_from (length p.marks)) owner (pile_tiles p.pile) };

    fn allocate(&mut self, owner: Owner, words: u32) -> Result<Place, Refused> {
        if owner.0 as usize != self.marks.len() {
            return Err(Refused::NotNewest);
        }
        match self.words.take(words as usize + HEADER, owner.0) {
            Some(place) => Ok(Place(place)),
            None => Err(Refused::Full),
        }
    }

    fn give_back(&mut self, place: Place) {
        let _stays = place;
    }

    fn open(&mut self) -> Option<Owner> {
        match self.marks.try_push(self.words.cursor()) {
            Ok(()) => Some(Owner(self.marks.len() as u32)),
            Err(_) => None,
        }
    }

    fn close(&mut self, owner: Owner) -> Result<(), NotNewest> {
        if owner.0 as usize == self.marks.len() {
            if let Some(mark) = self.marks.pop() {
                self.words.release(mark, owner.0);
                return Ok(());
            }
        }
        Err(NotNewest)
    }

    fn read(&self, place: Place, index: usize) -> u64 {
        self.words.read(place.0, index)
    }

    fn write(&mut self, place: Place, index: usize, word: u64) {
        self.words.write(place.0, index, word);
    }

    fn link(&self, place: Place, which: usize) -> u64 {
        self.words.link(place.0, which)
    }

    fn set_link(&mut self, place: Place, which: usize, word: u64) {
        self.words.set_link(place.0, which, word);
    }
}

//! The first-fit pool.
ghost use Rattle.std.specs.Prelude.{◌≡◌, ℕ, ◌+◌, ◌≤◌, [], ◌∷◌, Option, Some, None, Result, Ok, Err, IfOk};
ghost use Rattle.pool_tiles.specs.Tiling.{Tile, new_tiling, fit, put_back, block_words};
ghost use Rattle.pool_tiles.specs.Tiled.{user_word};

use crate::kinds::{NotNewest, Owner, Place, Pool, Refused};
use pool_tiles::{HEADER, TiledWords};
use std::alloc::{AllocError, Global};
use std::marker::Model;

/// A pool whose blocks are cut from the first hole that has room, in order of place.
#[derive(Drop)]
pub struct FirstFit {
    words: TiledWords,
}

impl Model for FirstFit {
    ghost use Rattle.pool_tiles.specs.Tiled.{Tiled};

    ghost Value = { Tiled };

    ghost view = { λ p. p.words };
}

impl FirstFit {
    /// A pool of so many words.
    ///
    /// # Errors
    /// Where the allocator has no such block.
    pub fn new(alloc: Global, words: u32) -> Result<FirstFit, AllocError>
        ensures { IfOk result (λ pool. pool.tiles ≡ new_tiling words) }
    {
        let words = TiledWords::new(alloc, words)?;
        Ok(FirstFit { words })
    }
}

impl Pool for FirstFit {
    ghost use Rattle.pool_kinds.specs.Kinds.{or_full};

    ghost tiling = { λ p. p.tiles };

    ghost owners = { λ _. 0 ∷ [] };

    ghost user_word = { λ p. user_word p.words };

    ghost granted = { λ p owner words. or_full (fit owner (block_words words) p.tiles) };

    ghost given_back = { λ p place. put_back place p.tiles };

    ghost opened = { λ _. None };

    ghost closed = { λ p _. Some (p.tiles, 0 ∷ []) };

    fn allocate(&mut self, owner: Owner, words: u32) -> Result<Place, Refused> {
        match self.words.take(words as usize + HEADER, owner.0) {
            Some(place) => Ok(Place(place)),
            None => Err(Refused::Full),
        }
    }

    fn give_back(&mut self, place: Place) {
        self.words.put_back(place.0);
    }

    fn open(&mut self) -> Option<Owner> {
        None
    }

    fn close(&mut self, owner: Owner) -> Result<(), NotNewest> {
        let _only_owner = owner;
        Ok(())
    }

    fn read(&self, place: Place, index: usize) -> u64 {
        self.words.read(place.0, index)
    }

    fn write(&mut self, place: Place, index: usize, word: u64) {
        self.words.write(place.0, index, word);
    }

    fn link(&self, place: Place, which: usize) -> u64 {
        self.words.link(place.0, which)
    }

    fn set_link(&mut self, place: Place, which: usize, word: u64) {
        self.words.set_link(place.0, which, word);
    }
}

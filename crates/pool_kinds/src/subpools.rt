//! The pool with subpools.
ghost use Rattle.std.specs.Prelude.{◌≡◌, ℕ, not, Option, Some, None, Result, Ok, Err, [], IfOk};
ghost use Rattle.std.specs.List.{position};
ghost use Rattle.pool_tiles.specs.Tiling.{Tile, new_tiling, fit, closed, block_words};
ghost use Rattle.pool_tiles.specs.Tiled.{user_word};

use crate::kinds::{NotNewest, Owner, Place, Pool, Refused};
use pool_tiles::{HEADER, TiledWords};
use std::alloc::{AllocError, Global};
use std::marker::Model;

/// How many subpools can be open at one time.
const SUBPOOLS: usize = 1_000;

/// A pool whose blocks are cut from the first hole that has room, and go back with their subpool alone.
///
/// The flag at an index tells whether the subpool of the next greater number is open.
#[derive(Drop)]
pub struct SubpoolPool {
    words: TiledWords,
    flags: Vec<bool>,
}

impl Model for SubpoolPool {
    ghost use Rattle.std.specs.Prelude.{◌≡◌, length};
    ghost use Rattle.pool_kinds.specs.Kinds.{open_from};
    ghost use Rattle.pool_kinds.specs.Marked.{Subpools};

    ghost Value = { Subpools };

    ghost view = { λ p. record { tiles = p.words.tiles; words = p.words.words; owners = open_from 1 p.flags.items } };

    ghost invariant = { λ p. length p.flags.items ≡ 1000 };
}

impl SubpoolPool {
    /// A pool of so many words, with no subpool yet.
    ///
    /// # Errors
    /// Where the allocator has no such block, or none for the table of subpools.
    pub fn new(alloc: Global, words: u32) -> Result<SubpoolPool, AllocError>
        ensures tiles { IfOk result (λ pool. pool.tiles ≡ new_tiling words) }
        ensures none_open { IfOk result (λ pool. pool.owners ≡ []) }
    {
        let words = TiledWords::new(alloc, words)?;
        let flags = vec![in alloc; false; SUBPOOLS]?;
        Ok(SubpoolPool { words, flags })
    }
}

/// The first index whose flag is not set.
fn first_closed(flags: &[bool]) -> Option<usize>
    ensures { result ≡ position not flags.now }
{
    flags.iter().position(|is_open| !*is_open)
}

impl Pool for SubpoolPool {
    ghost use Rattle.pool_kinds.specs.Kinds.{or_full, opened_subpool, without};

    ghost tiling = { λ p. p.tiles };

    ghost owners = { λ p. p.owners };

    ghost user_word = { λ p. user_word p.words };

    ghost granted = { λ p owner words. or_full (fit owner (block_words words) p.tiles) };

    ghost given_back = { λ p _. p.tiles };

    ghost opened = { λ p. opened_subpool p.owners };

    ghost closed = { λ p owner. Some (closed owner p.tiles, without owner p.owners) };

    fn allocate(&mut self, owner: Owner, words: u32) -> Result<Place, Refused> {
        match self.words.take(words as usize + HEADER, owner.0) {
            Some(place) => Ok(Place(place)),
            None => Err(Refused::Full),
        }
    }

    fn give_back(&mut self, place: Place) {
        let _stays = place;
    }

    fn open(&mut self) -> Option<Owner> {
        match first_closed(&self.flags) {
            Some(index) => {
                self.flags[index] = true;
                Some(Owner(index as u32 + 1))
            }
            None => None,
        }
    }

    fn close(&mut self, owner: Owner) -> Result<(), NotNewest> {
        self.flags[owner.0 as usize - 1] = false;
        self.words.close(owner.0);
        Ok(())
    }

    fn read(&self, place: Place, index: usize) -> u64 {
        self.words.read(place.0, index)
    }

    fn write(&mut self, place: Place, index: usize, word: u64) {
        self.words.write(place.0, index, word);
    }

    fn link(&self, place: Place, which: usize) -> u64 {
        self.words.link(place.0, which)
    }

    fn set_link(&mut self, place: Place, which: usize, word: u64) {
        self.words.set_link(place.0, which, word);
    }
}

//! Words tiled by blocks and holes, no two of them holes side by side.
ghost use Rattle.std.specs.Prelude.{◌≡◌, ◌≢◌, ℕ, ◌+◌, ◌^◌, ◌<◌, ◌≤◌, Option, Some, None, IfOk, IfSome, IfNone, OnSome};
ghost use Rattle.pool_tiles.specs.Tiling.{new_tiling, fit, put_back, closed, block_length, block_owner, IsTaken, HasWord, of_object};
ghost use Rattle.pool_tiles.specs.Kept.{KeepsBlocks, KeepsWords, ZeroWords};
ghost use Rattle.pool_tiles.specs.Headers.{owner_limit};
ghost use Rattle.pool_tiles.specs.Tiled.{user_word};

use crate::tiles::Tiles;
use std::alloc::{AllocError, Global};
use std::marker::Model;

/// A region that blocks are taken from by first fit, in order of place.
#[derive(Drop)]
pub struct TiledWords {
    tiles: Tiles,
}

impl Model for TiledWords {
    ghost use Rattle.pool_tiles.specs.Headers.{Apart};
    ghost use Rattle.pool_tiles.specs.Tiled.{Tiled};

    ghost Value = { Tiled };

    ghost view = { λ w. w.tiles };

    ghost invariant = { λ w. Apart w.tiles.tiles };
}

impl TiledWords {
    /// One hole of all the words, or none where there are not the words of a header.
    ///
    /// # Errors
    /// Where the allocator has no such block.
    pub fn new(alloc: Global, words: u32) -> Result<TiledWords, AllocError>
        ensures { IfOk result (λ w. w.tiles ≡ new_tiling words) }
    {
        let tiles = Tiles::new(alloc, words)?;
        Ok(TiledWords { tiles })
    }

    /// A block of `length` words from the first hole that has them; its user's words are 0.
    ///
    /// Passes the holes up to that one.
    pub fn take(&mut self, length: usize, owner: u32) -> Option<usize>
        requires long { 4 ≤ length }
        requires number { owner < owner_limit }
        ensures taken { IfSome result (λ place. fit owner length self.old.tiles
            ≡ Some (place, self.new.tiles)) }
        ensures room { IfSome result (λ place. length ≤ block_length self.new.tiles place) }
        ensures fresh { IfSome result (λ place. block_length self.old.tiles place ≡ 0) }
        ensures stay { OnSome result (KeepsBlocks (λ _. Unit {0}) self.old.tiles self.new.tiles) }
        ensures zero { IfSome result (λ place.
            ZeroWords self.new.tiles (user_word self.new.words) place) }
        ensures kept { IfSome result (λ place.
            KeepsWords (λ other _. other ≢ place) self.new.tiles
            (user_word self.old.words) (user_word self.new.words)) }
        ensures none { IfNone result ((fit owner length self.old.tiles ≡ None)
            × (self.new ≡ self.old)) }
    {
        let place = self.tiles.find(length)?;
        self.tiles.cut(place, length, owner);
        Some(place)
    }

    /// The block becomes a hole, merged with the holes beside it.
    ///
    /// Where no hole follows the block, passes the holes from the front, and in step with them the tiles back from the
    /// block, until the shorter of the two ways to the last hole before it ends.
    pub fn put_back(&mut self, place: usize)
        requires { IsTaken self.old.tiles place }
        ensures tiles { self.new.tiles ≡ put_back place self.old.tiles }
        ensures stay { KeepsBlocks (λ other. other ≢ place) self.old.tiles self.new.tiles }
        ensures kept { KeepsWords (λ _ _. Unit {0})
            self.new.tiles (user_word self.old.words) (user_word self.new.words) }
    {
        self.tiles.put_back(place);
    }

    /// All blocks of the owner become holes, merged with the holes beside them.
    ///
    /// Passes all tiles once, from the front.
    pub fn close(&mut self, owner: u32)
        ensures tiles { self.new.tiles ≡ closed owner self.old.tiles }
        ensures stay { KeepsBlocks (λ other. block_owner self.old.tiles other ≢ owner)
            self.old.tiles self.new.tiles }
        ensures kept { KeepsWords (λ _ _. Unit {0})
            self.new.tiles (user_word self.old.words) (user_word self.new.words) }
    {
        self.tiles.close(owner);
    }

    /// The object's word of this index.
    pub fn read(&self, place: usize, index: usize) -> u64
        requires { HasWord self.now.tiles place (of_object index) }
        ensures { result ≡ user_word self.now.words place (of_object index) }
    {
        self.tiles.read(place, index)
    }

    /// Writes that word.
    pub fn write(&mut self, place: usize, index: usize, word: u64)
        requires { HasWord self.old.tiles place (of_object index) }
        ensures tiles { self.new.tiles ≡ self.old.tiles }
        ensures written { user_word self.new.words place (of_object index) ≡ word }
        ensures kept { KeepsWords (λ other i. (other ≡ place) × (i ≡ of_object index) → ⊥)
            self.new.tiles (user_word self.old.words) (user_word self.new.words) }
    {
        self.tiles.write(place, index, word);
    }

    /// The block's link of this number, 0 or 1.
    pub fn link(&self, place: usize, which: usize) -> u64
        requires { IsTaken self.now.tiles place × (which < 2) }
        ensures { result ≡ user_word self.now.words place which }
    {
        self.tiles.link(place, which)
    }

    /// Sets that link.
    pub fn set_link(&mut self, place: usize, which: usize, word: u64)
        requires { IsTaken self.old.tiles place × (which < 2) }
        ensures tiles { self.new.tiles ≡ self.old.tiles }
        ensures inside { (place < 2 ^ 32) × (4 ≤ block_length self.old.tiles place) }
        ensures written { user_word self.new.words place which ≡ word }
        ensures kept { KeepsWords (λ other i. (other ≡ place) × (i ≡ which) → ⊥)
            self.new.tiles (user_word self.old.words) (user_word self.new.words) }
    {
        self.tiles.set_link(place, which, word);
    }
}

//! Words piled from the front: blocks side by side, and one hole behind them.
ghost use Rattle.std.specs.Prelude.{◌≡◌, ◌≢◌, ℕ, ◌+◌, ◌^◌, ◌<◌, ◌≤◌, List, [], ◌∷◌, ◌++◌, length, Option, Some, None, IfOk, IfSome, IfNone, OnSome};
ghost use Rattle.pool_tiles.specs.Tiling.{Tile, block, new_tiling, pile, closed, block_length, block_owner, IsTaken, HasWord, of_object};
ghost use Rattle.pool_tiles.specs.Kept.{KeepsBlocks, KeepsWords, ZeroWords};
ghost use Rattle.pool_tiles.specs.Headers.{owner_limit, total};
ghost use Rattle.pool_tiles.specs.Tiled.{user_word};
ghost use Rattle.pool_tiles.specs.Piled.{pile_tiles, OwnsFrom};

use crate::header::{HEADER, OWN, block_word, clear};
use pool_region::Region;
use std::alloc::{AllocError, Global};
use std::marker::Model;

/// A region that blocks are cut from at a cursor, which is set back to release the newest of them.
///
/// A block here names no tile before it: its second word is 0.
#[derive(Drop)]
pub struct PiledWords {
    words: Region,
    cursor: usize,
}

impl Model for PiledWords {
    ghost use Rattle.pool_tiles.specs.Piled.{Pile, Piles, blocks_of};

    ghost Value = { Pile };

    ghost view = { λ p. record { blocks = blocks_of p.cursor p.words; words = p.words } };

    ghost invariant = { λ p. Piles p.words p.cursor (blocks_of p.cursor p.words) };
}

impl PiledWords {
    /// One hole of all the words, or none where there are not the words of a header.
    ///
    /// # Errors
    /// Where the allocator has no such block.
    pub fn new(alloc: Global, words: u32) -> Result<PiledWords, AllocError>
        ensures tiles { IfOk result (λ p. pile_tiles p ≡ new_tiling words) }
        ensures empty { IfOk result (λ p. p.blocks ≡ []) }
    {
        let words = Region::new(alloc, words)?;
        Ok(PiledWords { words, cursor: 0 })
    }

    /// A block of exactly `length` words at the cursor; its user's words are 0.
    pub fn take(&mut self, length: usize, owner: u32) -> Option<usize>
        requires long { 4 ≤ length }
        requires number { owner < owner_limit }
        ensures taken { IfSome result (λ place. pile owner length (pile_tiles self.old)
            ≡ Some (place, pile_tiles self.new)) }
        ensures blocks { IfSome result (λ place. self.new.blocks
            ≡ self.old.blocks ++ block place length owner ∷ []) }
        ensures room { IfSome result (λ place. length ≤ block_length (pile_tiles self.new) place) }
        ensures fresh { IfSome result (λ place. block_length (pile_tiles self.old) place ≡ 0) }
        ensures stay { OnSome result (KeepsBlocks (λ _. Unit {0})
            (pile_tiles self.old) (pile_tiles self.new)) }
        ensures zero { IfSome result (λ place.
            ZeroWords (pile_tiles self.new) (user_word self.new.words) place) }
        ensures kept { IfSome result (λ place.
            KeepsWords (λ other _. other ≢ place) (pile_tiles self.new)
            (user_word self.old.words) (user_word self.new.words)) }
        ensures none { IfNone result ((pile owner length (pile_tiles self.old) ≡ None)
            × (self.new ≡ self.old)) }
    {
        if length > self.words.len() - self.cursor {
            return None;
        }
        let place = self.cursor;
        clear(&mut self.words, place, length);
        self.words.set(place, block_word(length, owner));
        self.cursor = place + length;
        Some(place)
    }

    /// Where the next block would begin.
    pub fn cursor(&self) -> usize
        ensures { result ≡ total self.now.blocks }
    {
        self.cursor
    }

    /// Sets the cursor back to the place, from which on all blocks are the owner's.
    pub fn release(&mut self, place: usize, owner: u32)
        requires { OwnsFrom owner place self.old.blocks }
        ensures tiles { pile_tiles self.new ≡ closed owner (pile_tiles self.old) }
        ensures blocks { (a b : List Tile) → self.old.blocks ≡ a ++ b → total a ≡ place
            → self.new.blocks ≡ a }
        ensures stay { KeepsBlocks (λ other. block_owner (pile_tiles self.old) other ≢ owner)
            (pile_tiles self.old) (pile_tiles self.new) }
        ensures words { self.new.words ≡ self.old.words }
    {
        let _released = owner;
        self.cursor = place;
    }

    /// The object's word of this index.
    pub fn read(&self, place: usize, index: usize) -> u64
        requires { HasWord (pile_tiles self.now) place (of_object index) }
        ensures { result ≡ user_word self.now.words place (of_object index) }
    {
        self.words.get(place + HEADER + index)
    }

    /// Writes that word.
    pub fn write(&mut self, place: usize, index: usize, word: u64)
        requires { HasWord (pile_tiles self.old) place (of_object index) }
        ensures blocks { self.new.blocks ≡ self.old.blocks }
        ensures tiles { pile_tiles self.new ≡ pile_tiles self.old }
        ensures written { user_word self.new.words place (of_object index) ≡ word }
        ensures kept { KeepsWords (λ other i. (other ≡ place) × (i ≡ of_object index) → ⊥)
            (pile_tiles self.new) (user_word self.old.words) (user_word self.new.words) }
    {
        self.words.set(place + HEADER + index, word);
    }

    /// The block's link of this number, 0 or 1.
    pub fn link(&self, place: usize, which: usize) -> u64
        requires { IsTaken (pile_tiles self.now) place × (which < 2) }
        ensures { result ≡ user_word self.now.words place which }
    {
        self.words.get(place + OWN + which)
    }

    /// Sets that link.
    pub fn set_link(&mut self, place: usize, which: usize, word: u64)
        requires { IsTaken (pile_tiles self.old) place × (which < 2) }
        ensures blocks { self.new.blocks ≡ self.old.blocks }
        ensures tiles { pile_tiles self.new ≡ pile_tiles self.old }
        ensures inside { (place < 2 ^ 32) × (4 ≤ block_length (pile_tiles self.old) place) }
        ensures written { user_word self.new.words place which ≡ word }
        ensures kept { KeepsWords (λ other i. (other ≡ place) × (i ≡ which) → ⊥)
            (pile_tiles self.new) (user_word self.old.words) (user_word self.new.words) }
    {
        self.words.set(place + OWN + which, word);
    }
}

//! The tiling of a pool in its own words, and the list of its holes, in order of place.
//!
//! The four steps `free`, `take`, `split` and `join` change one tile or two; between them two holes may be neighbours.
//! `cut` and `put_back` are made of them.
ghost use Rattle.std.specs.Prelude.{◌≡◌, ◌≢◌, ℕ, ◌+◌, ◌-◌, ◌^◌, ◌<◌, ◌≤◌, ◌↔◌, List, ◌∷◌, ◌++◌, length, slice_index, IsTrue, IfOk, IfSome, IfNone};
ghost use Rattle.pool_tiles.specs.Tiling.{Tile, hole, block, place_of, length_of, new_tiling, cut, joined, put_back, closed, block_length, IsTaken, HasWord, of_object};
ghost use Rattle.pool_tiles.specs.Kept.{KeepsBlocks, KeepsWords, ZeroWords};
ghost use Rattle.pool_tiles.specs.Headers.{last_or, owner_limit, Apart};
ghost use Rattle.pool_tiles.specs.Tiled.{HoleIn, BlockIn, TileIn, RoomIn, leading_hole, AllShorter, IsFirstFit, SameWords, user_word};

use crate::header::{
    BEFORE, HEADER, HOLE_MARK, NEXT, OWN, PREVIOUS, block_word, clear, is_block_of, is_hole, part,
    set_part, tile_length,
};
use pool_region::Region;
use std::alloc::{AllocError, Global};
use std::marker::Model;

/// The words, and the place of the first hole; a hole that isn't there is named by the number of words.
#[derive(Drop)]
pub struct Tiles {
    words: Region,
    first: usize,
}

impl Model for Tiles {
    ghost use Rattle.pool_tiles.specs.Headers.{tiles_of, Spells};
    ghost use Rattle.pool_tiles.specs.Tiled.{Tiled};

    ghost Value = { Tiled };

    ghost view = { λ t. record { tiles = tiles_of t.words; words = t.words } };

    ghost invariant = { λ t. Spells t.words t.first (tiles_of t.words) };
}

impl Tiles {
    /// A pool of one hole, or of none where there are not the words of a header.
    pub(crate) fn new(alloc: Global, words: u32) -> Result<Tiles, AllocError>
        ensures { IfOk result (λ t. t.tiles ≡ new_tiling words) }
    {
        let mut words = Region::new(alloc, words)?;
        let none = words.len();
        if none < HEADER {
            return Ok(Tiles { words, first: none });
        }
        words.set(0, none as u64 + HOLE_MARK);
        set_part(&mut words, 0, NEXT, none);
        set_part(&mut words, 0, PREVIOUS, none);
        Ok(Tiles { words, first: 0 })
    }

    /// The first hole that has so many words.
    pub(crate) fn find(&self, wanted: usize) -> Option<usize>
        ensures none { IfNone result (AllShorter wanted self.now.tiles) }
        ensures found { IfSome result (IsFirstFit wanted self.now.tiles) }
    {
        let none = self.words.len();
        let mut place = self.first;
        while place < none {
            if tile_length(&self.words, place) >= wanted {
                return Some(place);
            }
            place = part(&self.words, place, NEXT);
        }
        None
    }

    /// The last hole before the block, or else the number of words.
    ///
    /// A hole that follows the block names that hole. Else the holes are passed from the front, and in step with them the
    /// tiles back from the block, until the shorter of the two ways ends.
    pub(crate) fn hole_before(&self, place: usize) -> usize
        requires { BlockIn self.now.tiles place }
        ensures { (a b : List Tile) (n owner : ℕ) → self.now.tiles ≡ a ++ block place n owner ∷ b
            → result ≡ last_or (length self.now.words) a }
    {
        let none = self.words.len();
        let right = place + tile_length(&self.words, place);
        if right < none && is_hole(&self.words, right) {
            return part(&self.words, right, PREVIOUS);
        }
        let mut hole = none;
        let mut next = self.first;
        let mut at = place;
        while next < place {
            at = part(&self.words, at, BEFORE);
            if is_hole(&self.words, at) {
                return at;
            }
            hole = next;
            next = part(&self.words, next, NEXT);
        }
        hole
    }

    /// The block becomes a hole of its own.
    pub(crate) fn free(&mut self, place: usize)
        requires { BlockIn self.old.tiles place }
        ensures tiles { (a b : List Tile) (n owner : ℕ)
            → self.old.tiles ≡ a ++ block place n owner ∷ b
            → self.new.tiles ≡ a ++ hole place n ∷ b }
        ensures objects { SameWords self.new.tiles self.old.words self.new.words }
    {
        let none = self.words.len();
        let previous = self.hole_before(place);
        let next = if previous < none {
            part(&self.words, previous, NEXT)
        } else {
            self.first
        };
        let length = tile_length(&self.words, place);
        self.words.set(place, length as u64 + HOLE_MARK);
        set_part(&mut self.words, place, NEXT, next);
        set_part(&mut self.words, place, PREVIOUS, previous);
        set_part(&mut self.words, previous, NEXT, place);
        set_part(&mut self.words, next, PREVIOUS, place);
        self.first = if previous < none { self.first } else { place };
    }

    /// The hole becomes a block of the owner.
    pub(crate) fn take(&mut self, place: usize, owner: u32)
        requires hole { HoleIn self.old.tiles place }
        requires number { owner < owner_limit }
        ensures tiles { (a b : List Tile) (n : ℕ) → self.old.tiles ≡ a ++ hole place n ∷ b
            → self.new.tiles ≡ a ++ block place n owner ∷ b }
        ensures objects { SameWords self.new.tiles self.old.words self.new.words }
    {
        let none = self.words.len();
        let next = part(&self.words, place, NEXT);
        let previous = part(&self.words, place, PREVIOUS);
        let length = tile_length(&self.words, place);
        self.words.set(place, block_word(length, owner));
        set_part(&mut self.words, previous, NEXT, next);
        set_part(&mut self.words, next, PREVIOUS, previous);
        self.first = if previous < none { self.first } else { next };
    }

    /// The hole becomes two, the first of `length` words.
    pub(crate) fn split(&mut self, place: usize, length: usize)
        requires hole { HoleIn self.old.tiles place }
        requires long { 4 ≤ length }
        requires room { (a b : List Tile) (n : ℕ) → self.old.tiles ≡ a ++ hole place n ∷ b
            → length + 4 ≤ n }
        ensures tiles { (a b : List Tile) (n : ℕ) → self.old.tiles ≡ a ++ hole place n ∷ b
            → self.new.tiles ≡ a ++ hole place length ∷ hole (place + length) (n - length) ∷ b }
        ensures objects { SameWords self.new.tiles self.old.words self.new.words }
    {
        let next = part(&self.words, place, NEXT);
        let whole = tile_length(&self.words, place);
        let rest = place + length;
        self.words.set(place, length as u64 + HOLE_MARK);
        self.words.set(rest, (whole - length) as u64 + HOLE_MARK);
        set_part(&mut self.words, place, NEXT, rest);
        set_part(&mut self.words, rest, BEFORE, place);
        set_part(&mut self.words, rest, NEXT, next);
        set_part(&mut self.words, rest, PREVIOUS, place);
        set_part(&mut self.words, next, PREVIOUS, rest);
        set_part(&mut self.words, place + whole, BEFORE, rest);
    }

    /// The hole and the hole after it become one.
    pub(crate) fn join(&mut self, place: usize)
        requires { (a : List Tile) × (b : List Tile) × (n : ℕ) × (right : ℕ) × (m : ℕ)
            × (self.old.tiles ≡ a ++ hole place n ∷ hole right m ∷ b) }
        ensures tiles { (a b : List Tile) (n right m : ℕ)
            → self.old.tiles ≡ a ++ hole place n ∷ hole right m ∷ b
            → self.new.tiles ≡ a ++ hole place (n + m) ∷ b }
        ensures objects { SameWords self.new.tiles self.old.words self.new.words }
    {
        let length = tile_length(&self.words, place);
        let right = place + length;
        let joined = length + tile_length(&self.words, right);
        let next = part(&self.words, right, NEXT);
        self.words.set(place, joined as u64 + HOLE_MARK);
        set_part(&mut self.words, place, NEXT, next);
        set_part(&mut self.words, next, PREVIOUS, place);
        set_part(&mut self.words, place + joined, BEFORE, place);
    }

    /// A block of `length` words at the front of the hole, its links and its object words 0; a rest that has the words of
    /// a header stays a hole.
    pub(crate) fn cut(&mut self, place: usize, length: usize, owner: u32)
        requires hole { HoleIn self.old.tiles place }
        requires long { 4 ≤ length }
        requires room { RoomIn length self.old.tiles place }
        requires number { owner < owner_limit }
        ensures tiles { (a b : List Tile) (n : ℕ) → self.old.tiles ≡ a ++ hole place n ∷ b
            → self.new.tiles ≡ a ++ (cut owner length place n ++ b) }
        ensures room { length ≤ block_length self.new.tiles place }
        ensures fresh { block_length self.old.tiles place ≡ 0 }
        ensures stay { KeepsBlocks (λ _. Unit {0}) self.old.tiles self.new.tiles }
        ensures zero { ZeroWords self.new.tiles (user_word self.new.words) place }
        ensures kept { KeepsWords (λ other _. other ≢ place)
            self.new.tiles (user_word self.old.words) (user_word self.new.words) }
    {
        if tile_length(&self.words, place) >= length + HEADER {
            self.split(place, length);
        }
        self.take(place, owner);
        self.clear(place);
    }

    /// Writes 0 into the links and the object words of the block.
    pub(crate) fn clear(&mut self, place: usize)
        requires { BlockIn self.old.tiles place }
        ensures tiles { self.new.tiles ≡ self.old.tiles }
        ensures zero { ZeroWords self.new.tiles (user_word self.new.words) place }
        ensures kept { KeepsWords (λ other _. other ≢ place)
            self.new.tiles (user_word self.old.words) (user_word self.new.words) }
    {
        let length = tile_length(&self.words, place);
        clear(&mut self.words, place + OWN, length - OWN);
    }

    /// The hole and the tile after it become one, if that is a hole too.
    pub(crate) fn join_next(&mut self, place: usize)
        requires { HoleIn self.old.tiles place }
        ensures tiles { (a b : List Tile) (n : ℕ) → self.old.tiles ≡ a ++ hole place n ∷ b
            → self.new.tiles ≡ a ++ joined (hole place n) b }
        ensures objects { SameWords self.new.tiles self.old.words self.new.words }
    {
        let right = place + tile_length(&self.words, place);
        if right < self.words.len() && is_hole(&self.words, right) {
            self.join(place);
        }
    }

    /// The block becomes a hole, merged with the holes beside it.
    pub(crate) fn put_back(&mut self, place: usize)
        requires block { BlockIn self.old.tiles place }
        requires apart { Apart self.old.tiles }
        ensures tiles { self.new.tiles ≡ put_back place self.old.tiles }
        ensures objects { SameWords self.new.tiles self.old.words self.new.words }
    {
        let left = part(&self.words, place, BEFORE);
        self.free(place);
        self.join_next(place);
        if left < place && is_hole(&self.words, left) {
            self.join_next(left);
        }
    }

    /// The place behind the tile, or else behind the hole that follows it.
    pub(crate) fn place_behind(&self, place: usize) -> usize
        requires { TileIn self.now.tiles place }
        ensures { (a b : List Tile) (t : Tile) → self.now.tiles ≡ a ++ t ∷ b → place_of t ≡ place
            → result ≡ place + length_of t + leading_hole b }
    {
        let next = place + tile_length(&self.words, place);
        if next < self.words.len() && is_hole(&self.words, next) {
            next + tile_length(&self.words, next)
        } else {
            next
        }
    }

    /// All blocks of the owner become holes, merged with the holes beside them.
    ///
    /// Passes all tiles once, from the front.
    pub(crate) fn close(&mut self, owner: u32)
        requires { Apart self.old.tiles }
        ensures tiles { self.new.tiles ≡ closed owner self.old.tiles }
        ensures words { SameWords self.new.tiles self.old.words self.new.words }
    {
        let none = self.words.len();
        let mut place = 0;
        while place + HEADER <= none {
            let next = self.place_behind(place);
            if is_block_of(&self.words, place, owner) {
                self.put_back(place);
            }
            place = next;
        }
    }

    /// The object's word of this index.
    pub(crate) fn read(&self, place: usize, index: usize) -> u64
        requires { HasWord self.now.tiles place (of_object index) }
        ensures { result ≡ user_word self.now.words place (of_object index) }
    {
        self.words.get(place + HEADER + index)
    }

    /// Writes that word.
    pub(crate) fn write(&mut self, place: usize, index: usize, word: u64)
        requires { HasWord self.old.tiles place (of_object index) }
        ensures tiles { self.new.tiles ≡ self.old.tiles }
        ensures written { user_word self.new.words place (of_object index) ≡ word }
        ensures kept { KeepsWords (λ other i. (other ≡ place) × (i ≡ of_object index) → ⊥)
            self.new.tiles (user_word self.old.words) (user_word self.new.words) }
    {
        self.words.set(place + HEADER + index, word);
    }

    /// The block's link of this number, 0 or 1.
    pub(crate) fn link(&self, place: usize, which: usize) -> u64
        requires { IsTaken self.now.tiles place × (which < 2) }
        ensures { result ≡ user_word self.now.words place which }
    {
        self.words.get(place + OWN + which)
    }

    /// Sets that link.
    pub(crate) fn set_link(&mut self, place: usize, which: usize, word: u64)
        requires { IsTaken self.old.tiles place × (which < 2) }
        ensures tiles { self.new.tiles ≡ self.old.tiles }
        ensures inside { (place < 2 ^ 32) × (4 ≤ block_length self.old.tiles place) }
        ensures written { user_word self.new.words place which ≡ word }
        ensures kept { KeepsWords (λ other i. (other ≡ place) × (i ≡ which) → ⊥)
            self.new.tiles (user_word self.old.words) (user_word self.new.words) }
    {
        self.words.set(place + OWN + which, word);
    }
}

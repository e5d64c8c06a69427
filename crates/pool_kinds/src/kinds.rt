//! What all kinds of pools have in common.
ghost use Rattle.std.specs.Prelude.{◌≡◌, ◌≢◌, ℕ, ◌+◌, ◌^◌, ◌<◌, ◌≤◌, List, Result, Ok, Err, Option, Some, None, Contains, IfOk, IfErr, OnOk, OnErr, IfSome, IfNone};
ghost use Rattle.pool_tiles.specs.Tiling.{Tile, block_length, block_owner, IsTaken, HasWord, of_object};
ghost use Rattle.pool_tiles.specs.Kept.{KeepsBlocks, KeepsWords, ZeroWords};

/// The place of a block: the index of its first word in the pool.
#[derive(Clone, Copy, PartialEq, Eq, Debug)]
pub struct Place(pub usize);

/// Whom a block is taken for: 0 in a pool without subpools, else the number of a subpool.
#[derive(Clone, Copy, PartialEq, Eq, Debug)]
pub struct Owner(pub u32);

/// Why a pool gives no block.
#[derive(Clone, Copy, PartialEq, Eq, Debug)]
pub enum Refused {
    /// The pool has no room for it.
    Full,
    /// The owner is not the newest that is open, in a pool that serves the newest alone.
    NotNewest,
}

/// The owner is not the newest that is open.
#[derive(Clone, Copy, PartialEq, Eq, Debug)]
pub struct NotNewest;

/// A pool of words that blocks are taken from.
///
/// Each kind says by four functions what a request, a return, an opening and a closing give; the calls do that and no
/// more. A block has words of its user's: two links, then the words of its object. They are 0 in a new block, and only
/// `set_link` and `write` change them while the block stays taken.
pub trait Pool {
    ghost use Rattle.pool_kinds.specs.declared.kinds.Refused.{Refused};

    /// The holes and blocks, in order of place.
    ghost tiling: { Self → List Tile };

    /// The open owners, in the order that the kind keeps.
    ghost owners: { Self → List ℕ };

    /// The user's words of the block at a place: its links have the indices 0 and 1, its object's words come after them.
    ghost user_word: { Self → ℕ → ℕ → ℕ };

    /// What a request for an owner and so many object words gives: a place and the tiling then, or why not.
    ghost granted: { Self → ℕ → ℕ → Result (ℕ × List Tile) Refused };

    /// The tiling once the block at a place was given back.
    ghost given_back: { Self → ℕ → List Tile };

    /// The owner that an opening gives and the open owners then, if one more can be open.
    ghost opened: { Self → Option (ℕ × List ℕ) };

    /// The tiling and the open owners once the owner is closed, or nothing where another has to be closed first.
    ghost closed: { Self → ℕ → Option (List Tile × List ℕ) };

    /// A block for an object of so many words, which are 0, and so are its links.
    ///
    /// # Errors
    /// `NotNewest` where the kind serves the newest owner alone and this is another, else `Full` where the tiling has no
    /// room. Nothing is changed then.
    fn allocate(&mut self, owner: Owner, words: u32) -> Result<Place, Refused>
        requires { Contains (owners self.old) owner.0 }
        ensures taken { IfOk result (λ place. granted self.old owner.0 words ≡ Ok (place.0, tiling self.new)) }
        ensures room { IfOk result (λ place. words + 4 ≤ block_length (tiling self.new) place.0) }
        ensures fresh { IfOk result (λ place. block_length (tiling self.old) place.0 ≡ 0) }
        ensures stay { OnOk result (KeepsBlocks (λ _. Unit {0}) (tiling self.old) (tiling self.new)) }
        ensures zero { IfOk result (λ place. ZeroWords (tiling self.new) (user_word self.new) place.0) }
        ensures kept { IfOk result (λ place. KeepsWords (λ other _. other ≢ place.0) (tiling self.new) (user_word self.old) (user_word self.new)) }
        ensures owners { OnOk result (owners self.new ≡ owners self.old) }
        ensures refused { IfErr result (λ why. granted self.old owner.0 words ≡ Err why) }
        ensures unchanged { OnErr result (self.new ≡ self.old) };

    /// Gives the block back, where the kind takes single blocks back.
    fn give_back(&mut self, place: Place)
        requires { IsTaken (tiling self.old) place.0 }
        ensures tiling { tiling self.new ≡ given_back self.old place.0 }
        ensures stay { KeepsBlocks (λ other. other ≢ place.0) (tiling self.old) (tiling self.new) }
        ensures kept { KeepsWords (λ _ _. Unit {0}) (tiling self.new) (user_word self.old) (user_word self.new) }
        ensures owners { owners self.new ≡ owners self.old };

    /// A new owner, or `None` where no more can be open.
    fn open(&mut self) -> Option<Owner>
        ensures some { IfSome result (λ owner. opened self.old ≡ Some (owner.0, owners self.new)) }
        ensures is_open { IfSome result (λ owner. Contains (owners self.new) owner.0) }
        ensures still_open { (other : ℕ) → Contains (owners self.old) other → Contains (owners self.new) other }
        ensures tiling { tiling self.new ≡ tiling self.old }
        ensures kept { KeepsWords (λ _ _. Unit {0}) (tiling self.new) (user_word self.old) (user_word self.new) }
        ensures none { IfNone result ((opened self.old ≡ None) × (self.new ≡ self.old)) };

    /// Closes the owner; its blocks go back to the pool, and the blocks of other owners stay with all their words.
    ///
    /// # Errors
    /// `NotNewest` where the kind closes the newest owner alone and this is another. Nothing is changed then.
    fn close(&mut self, owner: Owner) -> Result<(), NotNewest>
        requires { Contains (owners self.old) owner.0 }
        ensures closed { OnOk result (closed self.old owner.0 ≡ Some (tiling self.new, owners self.new)) }
        ensures still_open { (other : ℕ) → other ≢ owner.0 → Contains (owners self.old) other → Contains (owners self.new) other }
        ensures stay { KeepsBlocks (λ place. block_owner (tiling self.old) place ≢ owner.0) (tiling self.old) (tiling self.new) }
        ensures kept { KeepsWords (λ _ _. Unit {0}) (tiling self.new) (user_word self.old) (user_word self.new) }
        ensures refused { OnErr result ((closed self.old owner.0 ≡ None) × (self.new ≡ self.old)) };

    /// The object word of this index.
    fn read(&self, place: Place, index: usize) -> u64
        requires { HasWord (tiling self.now) place.0 (of_object index) }
        ensures { result ≡ user_word self.now place.0 (of_object index) };

    /// Writes the object word of this index.
    fn write(&mut self, place: Place, index: usize, word: u64)
        requires { HasWord (tiling self.old) place.0 (of_object index) }
        ensures written { user_word self.new place.0 (of_object index) ≡ word }
        ensures kept { KeepsWords (λ other i. (other ≡ place.0) × (i ≡ of_object index) → ⊥) (tiling self.new) (user_word self.old) (user_word self.new) }
        ensures tiling { tiling self.new ≡ tiling self.old }
        ensures owners { owners self.new ≡ owners self.old };

    /// The link of this number, 0 or 1.
    fn link(&self, place: Place, which: usize) -> u64
        requires { IsTaken (tiling self.now) place.0 × (which < 2) }
        ensures { result ≡ user_word self.now place.0 which };

    /// Sets the link of this number, 0 or 1. No pool has 2^32 words, and each block has those of a header.
    fn set_link(&mut self, place: Place, which: usize, word: u64)
        requires { IsTaken (tiling self.old) place.0 × (which < 2) }
        ensures inside { (place.0 < 2 ^ 32) × (4 ≤ block_length (tiling self.old) place.0) }
        ensures written { user_word self.new place.0 which ≡ word }
        ensures kept { KeepsWords (λ other i. (other ≡ place.0) × (i ≡ which) → ⊥) (tiling self.new) (user_word self.old) (user_word self.new) }
        ensures tiling { tiling self.new ≡ tiling self.old }
        ensures owners { owners self.new ≡ owners self.old };
}

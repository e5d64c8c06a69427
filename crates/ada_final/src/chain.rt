// The chain of a collection's objects, through the links of their blocks.
ghost use Rattle.std.specs.Prelude.{◌≡◌, ◌≢◌, ℕ, ◌+◌, ◌<◌, ◌↔◌, List, [], ◌∷◌, length, remove, slice_get, Option, Some, None, IsSome, IfSome, IfNone, OnSome};
ghost use Rattle.pool_tiles.specs.Tiling.{Tile, IsTaken};
ghost use Rattle.ada_final.specs.Linked.{places, ChainsStay, NotIn, IsIn, Chained, KeepsAllButLinks, LeavesOthers, StandsAt, without_place};

use pool_kinds::{Place, Pool};

/// The link that names the next older block of a chain.
const OLDER: usize = 0;

/// The link that names the next newer one.
const NEWER: usize = 1;

/// A list of taken blocks of one pool, newest first, that the blocks' own links hold.
///
/// A block is named by the number after its place, and 0 names none. No call takes memory. Several chains can stand in one
/// pool; each block is in one of them at most.
#[derive(Drop)]
pub struct Chain {
    pub(crate) newest: u64,
    pub(crate) left: usize,
}

impl Chain {
    /// A chain of no block.
    pub fn new() -> Chain
        ensures chain { (ts : List Tile) (word : ℕ → ℕ → ℕ) → Chained ts word result }
        ensures places { (word : ℕ → ℕ → ℕ) → places word result ≡ [] }
    {
        Chain { newest: 0, left: 0 }
    }

    /// How many blocks are in the chain.
    pub fn left(&self) -> usize
        ensures { (word : ℕ → ℕ → ℕ) → result ≡ length (places word self.now) }
    {
        self.left
    }

    /// Puts the block first. Constant time.
    pub fn attach<P: Pool>(&mut self, pool: &mut P, place: Place)
        requires chain { Chained (P.tiling pool.old) (P.user_word pool.old) self.old }
        requires block { IsTaken (P.tiling pool.old) place.0 }
        requires out { NotIn place.0 (places (P.user_word pool.old) self.old) }
        ensures chain { Chained (P.tiling pool.new) (P.user_word pool.new) self.new }
        ensures places { places (P.user_word pool.new) self.new
            ≡ place.0 ∷ places (P.user_word pool.old) self.old }
        ensures others { LeavesOthers (place.0 ∷ places (P.user_word pool.old) self.old)
            (P.tiling pool.old) (P.user_word pool.old) (P.user_word pool.new) }
        ensures words { KeepsAllButLinks (place.0 ∷ places (P.user_word pool.old) self.old)
            (P.tiling pool.old) (P.user_word pool.old) (P.user_word pool.new) }
        ensures tiling { P.tiling pool.new ≡ P.tiling pool.old }
        ensures owners { P.owners pool.new ≡ P.owners pool.old }
    {
        pool.set_link(place, NEWER, 0);
        pool.set_link(place, OLDER, self.newest);
        let name = place.0 as u64 + 1;
        if self.newest != 0 {
            pool.set_link(Place(self.newest as usize - 1), NEWER, name);
        }
        self.newest = name;
        self.left += 1;
    }

    /// Takes the block out. Constant time.
    pub fn detach<P: Pool>(&mut self, pool: &mut P, place: Place)
        requires chain { Chained (P.tiling pool.old) (P.user_word pool.old) self.old }
        requires inside { IsIn place.0 (places (P.user_word pool.old) self.old) }
        ensures chain { Chained (P.tiling pool.new) (P.user_word pool.new) self.new }
        ensures places { places (P.user_word pool.new) self.new
            ≡ without_place place.0 (places (P.user_word pool.old) self.old) }
        ensures others { LeavesOthers (places (P.user_word pool.old) self.old)
            (P.tiling pool.old) (P.user_word pool.old) (P.user_word pool.new) }
        ensures words { KeepsAllButLinks (places (P.user_word pool.old) self.old)
            (P.tiling pool.old) (P.user_word pool.old) (P.user_word pool.new) }
        ensures tiling { P.tiling pool.new ≡ P.tiling pool.old }
        ensures owners { P.owners pool.new ≡ P.owners pool.old }
    {
        let older = pool.link(place, OLDER);
        let newer = pool.link(place, NEWER);
        if newer == 0 {
            self.newest = older;
        } else {
            pool.set_link(Place(newer as usize - 1), OLDER, older);
        }
        if older != 0 {
            pool.set_link(Place(older as usize - 1), NEWER, newer);
        }
        self.left -= 1;
    }

    /// Takes out and gives the `i`-th block, counted from the newest, which is the 0th; `None` where `i` is not less than
    /// [`left`](Chain::left). Passes the `i` newer blocks.
    pub fn take_next<P: Pool>(&mut self, pool: &mut P, i: usize) -> Option<Place>
        requires { Chained (P.tiling pool.old) (P.user_word pool.old) self.old }
        ensures some { IsSome result ↔ (i < length (places (P.user_word pool.old) self.old)) }
        ensures item { IfSome result (λ place. slice_get (places (P.user_word pool.old) self.old) i
            ≡ Some place.0) }
        ensures chain { Chained (P.tiling pool.new) (P.user_word pool.new) self.new }
        ensures places { OnSome result (places (P.user_word pool.new) self.new
            ≡ remove (places (P.user_word pool.old) self.old) i) }
        ensures others { LeavesOthers (places (P.user_word pool.old) self.old)
            (P.tiling pool.old) (P.user_word pool.old) (P.user_word pool.new) }
        ensures words { KeepsAllButLinks (places (P.user_word pool.old) self.old)
            (P.tiling pool.old) (P.user_word pool.old) (P.user_word pool.new) }
        ensures tiling { P.tiling pool.new ≡ P.tiling pool.old }
        ensures owners { P.owners pool.new ≡ P.owners pool.old }
        ensures none { IfNone result ((self.new ≡ self.old) × (pool.new ≡ pool.old)) }
    {
        if i >= self.left {
            return None;
        }
        let place = self.place_at(pool, i);
        self.detach(pool, place);
        Some(place)
    }

    /// The place of the `i`-th block.
    fn place_at<P: Pool>(&self, pool: &P, i: usize) -> Place
        requires chain { Chained (P.tiling pool.now) (P.user_word pool.now) self.now }
        requires less { i < length (places (P.user_word pool.now) self.now) }
        ensures { StandsAt i result.0 (places (P.user_word pool.now) self.now) }
    {
        let mut name = self.newest;
        let mut passed = 0;
        while passed < i {
            name = pool.link(Place(name as usize - 1), OLDER);
            passed += 1;
        }
        Place(name as usize - 1)
    }
}

/// A law for other calls on the pool: a chain stays as long as its blocks stay with their links.
pub fn chains_stay()
    ensures { ChainsStay }
{}

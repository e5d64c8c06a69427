//! Pools that exist.

ghost use Rattle.std.specs.Prelude.{◌≡◌, IfOk};
ghost use Rattle.std.specs.List.{slice_get};
ghost use Rattle.ada_pools.specs.Held.{new_pool, put_back_of, all_put_back, TakesBlock, TakesIn};

use crate::entries::{entry, set_entry};
use pool_kinds::{FirstFit, Owner, Place, Pool};
use std::alloc::{AllocError, Global};
use std::marker::Model;

/// Where the block of an object begins: the number of its pool, and the place.
#[derive(Clone, Copy)]
pub struct Block {
    pub pool: usize,
    pub place: usize,
}

/// A pool that exists: its words, and whose blocks are in it.
#[derive(Drop)]
pub(crate) struct HeldPool {
    words: FirstFit,
    /// The object whose block begins at a place.
    objects: Vec<Option<usize>>,
}

impl Model for HeldPool {
    ghost use Rattle.ada_pools.specs.Held.{Held, IsSound};

    ghost Value = { Held };

    ghost view = { λ p. record { tiles = p.words.tiles; objects = p.objects.items } };

    ghost invariant = { λ p. IsSound p.words.tiles p.objects.items };
}

impl HeldPool {
    /// A pool of so many words.
    ///
    /// # Errors
    /// Where the allocator has no such block.
    pub(crate) fn new(alloc: Global, words: u32) -> Result<HeldPool, AllocError>
        ensures { IfOk result (λ pool. pool ≡ new_pool words) }
    {
        Ok(HeldPool {
            words: FirstFit::new(alloc, words)?,
            objects: Vec::new(alloc),
        })
    }

    /// Takes a block of so many words for an object, and returns its place; or nothing where the pool has no room.
    ///
    /// # Errors
    /// Where the list of objects cannot grow.
    fn take(&mut self, words: usize, object: usize) -> Result<Option<usize>, AllocError>
        ensures { IfOk result (λ place. TakesBlock words object self.old place self.new) }
    {
        let pool = &mut self.words;
        let Ok(words) = u32::try_from(words) else {
            return Ok(None);
        };
        let Ok(place) = pool.allocate(Owner(0), words) else {
            return Ok(None);
        };
        set_entry(&mut self.objects, place.0, object)?;
        Ok(Some(place.0))
    }

    /// Puts the block at a place back, if it is this object's.
    fn put_back(&mut self, object: usize, place: usize)
        ensures { self.new ≡ put_back_of object place self.old }
    {
        if entry(&self.objects, place) == Some(object) {
            self.words.give_back(Place(place));
            self.objects[place] = None;
        }
    }
}

/// Takes a block of so many words for an object in one of these pools, and returns its place; or nothing where that pool
/// has no room, or does not exist.
///
/// # Errors
/// Where the list of its objects cannot grow.
pub(crate) fn take_in(
    pools: &mut Vec<HeldPool>,
    pool: usize,
    words: usize,
    object: usize,
) -> Result<Option<usize>, AllocError>
    ensures { IfOk result (λ place. TakesIn pool words object pools.old.items (slice_get pools.old.items pool) place pools.new.items) }
{
    if pool >= pools.len() {
        return Ok(None);
    }
    let held = &mut pools[pool];
    held.take(words, object)
}

/// Puts the block back that an object had, if it is that object's still.
pub(crate) fn put_back_in(pools: &mut Vec<HeldPool>, object: usize, block: Option<Block>)
    ensures { pools.new.items ≡ all_put_back object block pools.old.items }
{
    if let Some(block) = block
        && block.pool < pools.len()
    {
        let held = &mut pools[block.pool];
        held.put_back(object, block.place);
    }
}

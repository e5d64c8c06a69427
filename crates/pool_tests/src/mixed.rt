//! Mixed takes and returns over first fit, beside a plain map of the free words.
ghost use Rattle.std.specs.Prelude.{◌≡◌, ◌+◌, ◌<◌, ◌≤◌};
ghost use Rattle.pool_tiles.specs.Tiling.{block_length};

use crate::Answer;
use pool_kinds::{FirstFit, Owner, Place, Pool};
use std::alloc::{AllocError, Global};
use std::marker::Model;

const NOBODY: Owner = Owner(0);

/// The words of the pool.
const WORDS: usize = 400;

/// How many times a block is taken or given back.
const STEPS: u64 = 20_000;

/// A block that is held: its place, the words of its object, what stands in them, and the words that it takes in the map.
#[derive(Clone, Copy)]
pub struct Held {
    place: Place,
    words: u32,
    mark: u64,
    length: usize,
}

/// A pool, the blocks that are held of it, and the map: which words no block has.
#[derive(Drop)]
struct Mixed {
    pool: FirstFit,
    held: Vec<Held>,
    free: [bool; WORDS],
}

impl Model for Mixed {
    ghost use Rattle.std.specs.Prelude.{ℕ, length};
    ghost use Rattle.pool_tests.specs.Held.{Holds};

    ghost Value = { ℕ };

    ghost view = { λ m. length m.held.items };

    ghost invariant = { λ m. Holds m.pool.tiles m.held.items };
}

impl Mixed {
    /// A pool of which nothing is held.
    fn new(alloc: Global) -> Result<Mixed, AllocError> {
        let pool = FirstFit::new(alloc, WORDS as u32)?;
        let held = Vec::new(alloc);
        Ok(Mixed {
            pool,
            held,
            free: [true; WORDS],
        })
    }

    /// How many blocks are held.
    fn count(&self) -> usize
        ensures { result ≡ self.now }
    {
        self.held.len()
    }

    /// Takes a block and marks its links and its last word; whether it stands where the map has the first room.
    fn take(&mut self, words: u32, mark: u64) -> Result<bool, AllocError> {
        let room = first_room(&self.free, words as usize + 4);
        let Ok(place) = self.pool.allocate(NOBODY, words) else {
            return Ok(room.is_none());
        };
        write_mark(&mut self.pool, place, words, mark);
        let (expected, length) = room.unwrap_or((WORDS, 0));
        let held = Held {
            place,
            words,
            mark,
            length,
        };
        self.held.push(held)?;
        set(&mut self.free, place.0, length, false);
        Ok(place.0 == expected)
    }

    /// Gives a block back; whether its links and its last word are as they were marked.
    fn give_back(&mut self, index: usize) -> bool
        requires { index < self.old }
    {
        let held = self.held.remove(index);
        let is_marked = has_mark(&self.pool, held);
        self.pool.give_back(held.place);
        set(&mut self.free, held.place.0, held.length, true);
        is_marked
    }
}

/// Writes the mark into the links and the last word of a block.
fn write_mark(pool: &mut FirstFit, place: Place, words: u32, mark: u64)
    requires { words + 4 ≤ block_length pool.old.tiles place.0 }
    ensures { pool.new.tiles ≡ pool.old.tiles }
{
    pool.set_link(place, 0, mark);
    pool.set_link(place, 1, !mark);
    if words > 0 {
        pool.write(place, words as usize - 1, mark);
    }
}

/// Does the mark stand there still?
fn has_mark(pool: &FirstFit, held: Held) -> bool
    requires { held.words + 4 ≤ block_length pool.now.tiles held.place.0 }
{
    let links = pool.link(held.place, 0) == held.mark && pool.link(held.place, 1) == !held.mark;
    let word = held.words == 0 || pool.read(held.place, held.words as usize - 1) == held.mark;
    links && word
}

/// The first run of free words that is long enough, and the words of the block: a rest of less than four goes with it.
fn first_room(free: &[bool; WORDS], wanted: usize) -> Option<(usize, usize)> {
    let mut start = 0;
    for index in 0..WORDS {
        if !free[index] {
            start = index + 1;
        } else if index + 1 == WORDS || !free[index + 1] {
            let run = (index + 1).saturating_sub(start);
            if run >= wanted {
                let rest = run - wanted;
                return Some((start, if rest < 4 { run } else { wanted }));
            }
        }
    }
    None
}

/// Makes so many words of the map free, or not.
fn set(free: &mut [bool; WORDS], place: usize, length: usize, is_free: bool) {
    for index in 0..WORDS {
        if index >= place && index - place < length {
            free[index] = is_free;
        }
    }
}

/// How many of the steps went as the map says, how many took a block, and the block of all words in the end.
pub(crate) fn takes_and_returns(alloc: Global) -> Result<[Answer; 3], AllocError> {
    let mut mixed = Mixed::new(alloc)?;
    let mut random: u64 = 1;
    let mut right: u64 = 0;
    let mut taken: u64 = 0;
    for step in 0..STEPS {
        random = random
            .wrapping_mul(6_364_136_223_846_793_005)
            .wrapping_add(1_442_695_040_888_963_407);
        let choice = (random >> 33) as usize;
        let count = mixed.count();
        let is_right = if choice % 2 == 0 || count == 0 {
            mixed.take((choice / 2 % 41) as u32, step)?
        } else {
            mixed.give_back(choice / 2 % count)
        };
        right = right.wrapping_add(u64::from(is_right));
        taken = taken.wrapping_add(u64::from(mixed.count() > count));
    }
    Ok([
        Answer::Number(right),
        Answer::Number(taken),
        whole(&mut mixed)?,
    ])
}

/// Gives all blocks back, and takes one of all words.
fn whole(mixed: &mut Mixed) -> Result<Answer, AllocError> {
    for _ in 0..WORDS {
        if mixed.count() > 0 {
            let _is_right = mixed.give_back(0);
        }
    }
    Ok(if mixed.take(WORDS as u32 - 4, 1)? {
        Answer::Number(0)
    } else {
        Answer::Full
    })
}

//! The three kinds of pools.
use crate::Answer;
use pool_kinds::{FirstFit, MarkRelease, NotNewest, Owner, Place, Pool, Refused, SubpoolPool};
use std::alloc::{AllocError, Global};

const NOBODY: Owner = Owner(0);

/// How a request ended.
fn block(given: Result<Place, Refused>) -> Answer {
    match given {
        Ok(place) => Answer::Number(place.0 as u64),
        Err(Refused::Full) => Answer::Full,
        Err(Refused::NotNewest) => Answer::NotNewest,
    }
}

/// How an opening ended.
fn owner(given: Option<Owner>) -> Answer {
    match given {
        Some(owner) => Answer::Number(u64::from(owner.0)),
        None => Answer::Nothing,
    }
}

/// How a closing ended: 0 where it was done.
fn closing(given: Result<(), NotNewest>) -> Answer {
    match given {
        Ok(()) => Answer::Number(0),
        Err(NotNewest) => Answer::NotNewest,
    }
}

/// In a pool of 24 words a hole of 6 is too short for a block of 7; two holes side by side are one of 12.
pub(crate) fn first_fit(alloc: Global) -> Result<[Answer; 8], AllocError> {
    let mut pool = FirstFit::new(alloc, 24)?;
    let first = pool.allocate(NOBODY, 2);
    let second = pool.allocate(NOBODY, 2);
    let third = pool.allocate(NOBODY, 2);
    if let Ok(place) = first {
        pool.give_back(place);
    }
    let refused = pool.allocate(NOBODY, 3);
    if let Ok(place) = second {
        pool.give_back(place);
    }
    Ok([
        block(first),
        block(second),
        block(third),
        block(refused),
        block(pool.allocate(NOBODY, 3)),
        block(pool.allocate(NOBODY, 1)),
        block(pool.allocate(NOBODY, 0)),
        block(pool.allocate(NOBODY, 0)),
    ])
}

/// Three words are no room for a header; four are.
pub(crate) fn small_pools(alloc: Global) -> Result<[Answer; 6], AllocError> {
    let mut empty = FirstFit::new(alloc, 0)?;
    let mut three = FirstFit::new(alloc, 3)?;
    let mut four = FirstFit::new(alloc, 4)?;
    let mut large = FirstFit::new(alloc, 65_536)?;
    Ok([
        block(empty.allocate(NOBODY, 0)),
        block(three.allocate(NOBODY, 0)),
        block(four.allocate(NOBODY, 0)),
        block(four.allocate(NOBODY, 0)),
        block(large.allocate(NOBODY, 65_533)),
        block(large.allocate(NOBODY, 65_532)),
    ])
}

/// A word of a new object and a link of its block are 0, and so they are in a block that takes the place of another.
pub(crate) fn objects(alloc: Global) -> Result<[Answer; 6], AllocError> {
    let mut pool = FirstFit::new(alloc, 20)?;
    let mut answers = [Answer::Nothing; 6];
    if let Ok(place) = pool.allocate(NOBODY, 3) {
        answers[0] = Answer::Number(pool.read(place, 2));
        pool.write(place, 2, 9);
        pool.set_link(place, 1, 5);
        answers[1] = Answer::Number(pool.read(place, 2));
        answers[2] = Answer::Number(pool.link(place, 1));
        pool.give_back(place);
    }
    if let Ok(place) = pool.allocate(NOBODY, 3) {
        answers[3] = Answer::Number(place.0 as u64);
        answers[4] = Answer::Number(pool.read(place, 2));
        answers[5] = Answer::Number(pool.link(place, 1));
    }
    Ok(answers)
}

/// In a pool of 20 words a block's rest of two words goes with it. The first subpool's blocks go back and leave two holes.
pub(crate) fn subpools(alloc: Global) -> Result<[Answer; 9], AllocError> {
    let mut pool = SubpoolPool::new(alloc, 20)?;
    let mut answers = [Answer::Nothing; 9];
    if let Some(one) = pool.open() {
        answers[0] = Answer::Number(u64::from(one.0));
        if let Some(two) = pool.open() {
            answers[1] = Answer::Number(u64::from(two.0));
            answers[2] = block(pool.allocate(one, 2));
            answers[3] = block(pool.allocate(two, 2));
            answers[4] = block(pool.allocate(one, 2));
            answers[5] = block(pool.allocate(two, 0));
            if one != two {
                answers[6] = closing(pool.close(one));
                answers[7] = block(pool.allocate(two, 3));
                answers[8] = owner(pool.open());
            }
        }
    }
    Ok(answers)
}

/// A subpool's blocks and the holes beside them become one hole; its number comes again.
pub(crate) fn subpools_merge(alloc: Global) -> Result<[Answer; 5], AllocError> {
    let mut pool = SubpoolPool::new(alloc, 20)?;
    let mut answers = [Answer::Nothing; 5];
    if let Some(one) = pool.open() {
        answers[0] = block(pool.allocate(one, 2));
        answers[1] = block(pool.allocate(one, 6));
        answers[2] = closing(pool.close(one));
    }
    if let Some(again) = pool.open() {
        answers[3] = Answer::Number(u64::from(again.0));
        answers[4] = block(pool.allocate(again, 16));
    }
    Ok(answers)
}

/// In a pool of 20 words the closing of a mark sets the cursor back, and its number comes again.
pub(crate) fn marks(alloc: Global) -> Result<[Answer; 6], AllocError> {
    let mut pool = MarkRelease::new(alloc, 20)?;
    let mut answers = [Answer::Nothing; 6];
    if let Some(one) = pool.open() {
        answers[0] = Answer::Number(u64::from(one.0));
        answers[1] = block(pool.allocate(one, 12));
        answers[2] = closing(pool.close(one));
    }
    if let Some(again) = pool.open() {
        answers[3] = Answer::Number(u64::from(again.0));
        answers[4] = block(pool.allocate(again, 14));
        answers[5] = block(pool.allocate(again, 0));
    }
    Ok(answers)
}

/// An older mark is not closed before the newest. Then it has the rest of the pool, of 14 words, at the cursor.
pub(crate) fn older_mark(alloc: Global) -> Result<[Answer; 7], AllocError> {
    let mut pool = MarkRelease::new(alloc, 20)?;
    let mut answers = [Answer::Nothing; 7];
    if let Some(one) = pool.open() {
        answers[0] = Answer::Number(u64::from(one.0));
        answers[1] = block(pool.allocate(one, 2));
        if let Some(two) = pool.open() {
            answers[2] = Answer::Number(u64::from(two.0));
            if let Err(NotNewest) = pool.close(one) {
                answers[3] = Answer::NotNewest;
                answers[4] = closing(pool.close(two));
                if one != two {
                    if let Err(why) = pool.allocate(one, 12) {
                        answers[5] = block(Err(why));
                        answers[6] = block(pool.allocate(one, 10));
                    }
                }
            }
        }
    }
    Ok(answers)
}

/// How often a pool opens an owner, of so many times.
fn openings<P: Pool>(pool: &mut P, times: u32) -> Answer {
    let mut count: u64 = 0;
    for _ in 0..times {
        if pool.open().is_some() {
            count = count.wrapping_add(1);
        }
    }
    Answer::Number(count)
}

/// Ten marks and a thousand subpools can be open at one time, and no owner of a first-fit pool.
pub(crate) fn limits(alloc: Global) -> Result<[Answer; 3], AllocError> {
    let mut marks = MarkRelease::new(alloc, 20)?;
    let mut subpools = SubpoolPool::new(alloc, 20)?;
    let mut plain = FirstFit::new(alloc, 20)?;
    Ok([
        openings(&mut marks, 20),
        openings(&mut subpools, 1_100),
        openings(&mut plain, 5),
    ])
}

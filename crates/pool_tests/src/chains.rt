//! Chains and lists.
ghost use Rattle.std.specs.Prelude.{◌≡◌, ℕ};
ghost use Rattle.ada_final.specs.Lists.{IsEntered};

use crate::Answer;
use ada_final::{Chain, Item, ListNo, Lists};
use pool_kinds::{FirstFit, Owner, Place, Pool};
use std::alloc::{AllocError, Global};

const NOBODY: Owner = Owner(0);

/// The place that was taken, if there was one.
fn taken(given: Option<Place>) -> Answer {
    match given {
        Some(place) => Answer::Number(place.0 as u64),
        None => Answer::Nothing,
    }
}

/// Three blocks are attached in turn, and the middle one is detached: two are left, the newest first.
pub(crate) fn chains(alloc: Global) -> Result<[Answer; 5], AllocError> {
    let mut pool = FirstFit::new(alloc, 24)?;
    let mut answers = [Answer::Nothing; 5];
    let first = pool.allocate(NOBODY, 2);
    let second = pool.allocate(NOBODY, 2);
    let third = pool.allocate(NOBODY, 2);
    if let (Ok(first), Ok(second), Ok(third)) = (first, second, third) {
        if first != second && second != third && first != third {
            let mut chain = Chain::new();
            chain.attach(&mut pool, first);
            chain.attach(&mut pool, second);
            chain.attach(&mut pool, third);
            chain.detach(&mut pool, second);
            answers[0] = Answer::Number(chain.left() as u64);
            answers[1] = taken(chain.take_next(&mut pool, 2));
            answers[2] = taken(chain.take_next(&mut pool, 0));
            answers[3] = taken(chain.take_next(&mut pool, 0));
            answers[4] = Answer::Number(chain.left() as u64);
        }
    }
    Ok(answers)
}

/// Three items are attached to a new list.
pub(crate) fn lists(alloc: Global) -> Result<[Answer; 7], AllocError> {
    let mut lists = Lists::new(alloc);
    let list = lists.enter()?;
    lists.attach(list, Item { word: 5 })?;
    lists.attach(list, Item { word: 6 })?;
    lists.attach(list, Item { word: 7 })?;
    Ok(items(&mut lists, list))
}

/// A list gives its newest item first, and an item by its word once.
fn items(lists: &mut Lists, list: ListNo) -> [Answer; 7]
    requires { IsEntered lists.old list }
{
    [
        item(lists.take_next(list, 0)),
        Answer::Number(u64::from(lists.detach(list, Item { word: 5 }))),
        Answer::Number(u64::from(lists.detach(list, Item { word: 5 }))),
        Answer::Number(lists.left(list) as u64),
        item(lists.take_next(list, 1)),
        item(lists.take_next(list, 0)),
        Answer::Number(lists.left(list) as u64),
    ]
}

/// The word of the item that was taken, if there was one.
fn item(given: Option<Item>) -> Answer {
    match given {
        Some(item) => Answer::Number(item.word),
        None => Answer::Nothing,
    }
}

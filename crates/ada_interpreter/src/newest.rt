//! What is known of the newest collection of each access type, and of the newest pool of each declaration: a table for
//! the collections, whose keys are the numbers of the types, and one for the pools, whose keys are those of the
//! declarations.

ghost use Rattle.std.specs.Prelude.{◌≡◌, ℕ, ◌<◌, Some, None, vec_len, OnOk, MatchOption};
ghost use Rattle.std.specs.List.{slice_index_or};
ghost use Rattle.ada_interpreter.specs.Masters.{destination_of, home_by, pool_by, HasRoom, with_newest};

use std::alloc::AllocError;

/// Where the new objects of an access type go: to the collection of an item, and to a pool (13.11).
#[derive(Clone, Copy)]
pub(crate) struct Destination {
    /// The number of the collection's item.
    pub(crate) item: usize,
    pub(crate) pool: usize,
}

/// What is known of the newest collection of an access type, or of the newest pool of a declaration.
#[derive(Clone, Copy)]
pub(crate) struct Newest {
    /// Its item's number.
    pub(crate) item: usize,
    /// The pool of the collection's objects, if that existed; or the pool itself.
    pub(crate) pool: Option<usize>,
}

/// The newest item that has a key.
pub(crate) fn newest_at(newest: &[Option<Newest>], key: usize) -> Option<Newest>
    ensures { result ≡ slice_index_or newest.now key None }
{
    if key < newest.len() {
        newest[key]
    } else {
        None
    }
}

/// The newest collection as a destination, if there is one, and its pool existed as it was created.
pub(crate) fn home_by(newest: Option<Newest>) -> Option<Destination>
    ensures { MatchOption result (home_by newest ≡ None)
        (λ it. home_by newest ≡ Some (destination_of it)) }
{
    let newest = newest?;
    Some(Destination {
        item: newest.item,
        pool: newest.pool?,
    })
}

/// The pool that is known of the newest item, if there is one.
pub(crate) fn pool_by(newest: Option<Newest>) -> Option<usize>
    ensures { result ≡ pool_by newest }
{
    newest?.pool
}

/// Makes room for the newest item that has a key, if there is a key.
pub(crate) fn make_room(
    newest: &mut Vec<Option<Newest>>,
    key: Option<usize>,
) -> Result<(), AllocError>
    ensures same { (n : ℕ) →
        slice_index_or newest.new.items n None ≡ slice_index_or newest.old.items n None }
    ensures room { OnOk result (HasRoom newest.new.items key) }
{
    match key {
        None => Ok(()),
        Some(key) => make_room_at(newest, key),
    }
}

/// Makes room for the newest item that has a key.
fn make_room_at(newest: &mut Vec<Option<Newest>>, key: usize) -> Result<(), AllocError>
    ensures same { (n : ℕ) →
        slice_index_or newest.new.items n None ≡ slice_index_or newest.old.items n None }
    ensures room { OnOk result (key < vec_len newest.new) }
{
    'keys: while newest.len() <= key {
        newest.push(None)?;
    }
    Ok(())
}

/// The newest item that has a key, if there is a key, becomes another.
pub(crate) fn set_newest(
    newest: &mut Vec<Option<Newest>>,
    key: Option<usize>,
    other: Option<Newest>,
)
    ensures { newest.new.items ≡ with_newest newest.old.items key other }
{
    if let Some(key) = key
        && key < newest.len()
    {
        newest[key] = other;
    }
}

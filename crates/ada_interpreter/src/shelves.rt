//! The shelves of objects: for each item, the names that the members of its collection are among.

ghost use Rattle.std.specs.Prelude.{◌≡◌, ℕ, ◌<◌, map, vec_len, OnOk, OnErr};
ghost use Rattle.std.specs.List.{slice_set};
ghost use Rattle.ada_interpreter.specs.Objects.{kept_of, kept_at, entered, discounted_at};

use ada_meaning::Id;
use std::alloc::{AllocError, Global};

/// The members of one collection, or the object of one declaration.
#[derive(Drop)]
pub(crate) struct Shelf {
    /// Every member is among these, oldest first. The others have left the collection: at most one more than there are members.
    pub(crate) entries: Vec<Id>,
    /// How many members there are.
    pub(crate) live: usize,
}

/// Makes shelves up to that of an item.
pub(crate) fn make_shelves(
    alloc: Global,
    shelves: &mut Vec<Shelf>,
    item: usize,
) -> Result<(), AllocError>
    ensures same { (i : ℕ) →
        kept_at (map kept_of shelves.new.items) i ≡ kept_at (map kept_of shelves.old.items) i }
    ensures room { OnOk result (item < vec_len shelves.new) }
{
    'shelves: while shelves.len() <= item {
        shelves.push(Shelf {
            entries: Vec::new(alloc),
            live: 0,
        })?;
    }
    Ok(())
}

/// A new object becomes a member.
pub(crate) fn enter(shelves: &mut Vec<Shelf>, item: usize, o: Id) -> Result<(), AllocError>
    requires { item < vec_len shelves.old }
    ensures ok { let kept = map kept_of shelves.old.items in
        OnOk result (map kept_of shelves.new.items ≡ slice_set kept item (entered (kept_at kept item) o)) }
    ensures err { OnErr result (map kept_of shelves.new.items ≡ map kept_of shelves.old.items) }
{
    let shelf = &mut shelves[item];
    let Some(live) = shelf.live.checked_add(1) else {
        return Err(AllocError);
    };
    shelf.entries.reserve(1)?;
    shelf.entries.push_reserved(o);
    shelf.live = live;
    Ok(())
}

/// A collection has a member less.
pub(crate) fn discount(shelves: &mut Vec<Shelf>, home: Option<usize>)
    ensures { map kept_of shelves.new.items ≡ discounted_at home (map kept_of shelves.old.items) }
{
    if let Some(item) = home
        && item < shelves.len()
    {
        let shelf = &mut shelves[item];
        shelf.live = shelf.live.saturating_sub(1);
    }
}

/// How many members the collection of an item has.
pub(crate) fn live_at(shelves: &[Shelf], item: usize) -> usize
    ensures { result ≡ (kept_at (map kept_of shelves.now) item).live }
{
    if item < shelves.len() {
        shelves[item].live
    } else {
        0
    }
}

/// The names that the members of the collection of an item are among.
pub(crate) fn entries_at(shelves: &[Shelf], item: usize) -> &[Id]
    ensures { result.now ≡ (kept_at (map kept_of shelves.now) item).entries }
{
    if item < shelves.len() {
        shelves[item].entries.as_slice()
    } else {
        &[]
    }
}

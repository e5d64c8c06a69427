// One number's place in the lists: the list that is entered there, or the room that an ended one left.
ghost use Rattle.std.specs.Prelude.{◌≡◌, ◌<◌, ◌∷◌, ◌↔◌, [], Some, None, IsSome, IsTrue, OnOk, OnErr, IfNone, IfSome, Contains, length, remove, slice_get};
ghost use Rattle.std.specs.Bool.{OnFalse};
ghost use Rattle.ada_final.specs.Slot.{items_in};
ghost use Rattle.ada_final.specs.Item.{without, IsLastPlace};

use crate::item::Item;
use std::alloc::{AllocError, Global};
use std::marker::Model;

/// A place for one list, seen as its items, newest first, or as `None` where no list is entered.
#[derive(Drop)]
pub(crate) struct Slot {
    is_entered: bool,
    // The oldest item stands first, so that attaching and taking the newest move nothing.
    items: Vec<Item>,
}

impl Model for Slot {
    ghost use Rattle.std.specs.Prelude.{List, Option, Some, None, reverse, if◌then◌else◌};
    ghost use Rattle.ada_final.specs.declared.item.Item.{Item};

    ghost Value = { Option (List Item) };

    ghost view = { λ s. if s.is_entered then Some (reverse s.items.items) else None };
}

impl Slot {
    /// A place with an empty list.
    pub(crate) fn new(alloc: Global) -> Slot
        ensures { result ≡ Some [] }
    {
        Slot {
            is_entered: true,
            items: Vec::new(alloc),
        }
    }

    /// Begins an empty list, in the memory that the last one here had.
    pub(crate) fn enter(&mut self)
        ensures { self.new ≡ Some [] }
    {
        self.is_entered = true;
        self.items.clear();
    }

    /// Ends the list.
    pub(crate) fn leave(&mut self)
        ensures { self.new ≡ None }
    {
        self.is_entered = false;
    }

    pub(crate) fn attach(&mut self, item: Item) -> Result<(), AllocError>
        requires { IsSome self.old }
        ensures ok { OnOk result (self.new ≡ Some (item ∷ items_in self.old)) }
        ensures err { OnErr result (self.new ≡ self.old) }
    {
        self.items.push(item)?;
        Ok(())
    }

    pub(crate) fn detach(&mut self, item: Item) -> bool
        requires { IsSome self.old }
        ensures found { IsTrue result ↔ Contains (items_in self.old) item }
        ensures taken { self.new ≡ Some (without item (items_in self.old)) }
        ensures absent { OnFalse result (self.new ≡ self.old) }
    {
        match last_place(&self.items, item) {
            Some(place) => {
                self.items.remove(place);
                true
            }
            None => false,
        }
    }

    pub(crate) fn take_next(&mut self, i: usize) -> Option<Item>
        requires { IsSome self.old }
        ensures some { IsSome result ↔ (i < length (items_in self.old)) }
        ensures item { result ≡ slice_get (items_in self.old) i }
        ensures taken { self.new ≡ Some (remove (items_in self.old) i) }
        ensures none { IfNone result (self.new ≡ self.old) }
    {
        let left = self.items.len();
        if i < left {
            Some(self.items.remove(left - 1 - i))
        } else {
            None
        }
    }

    pub(crate) fn left(&self) -> usize
        requires { IsSome self.now }
        ensures { result ≡ length (items_in self.now) }
    {
        self.items.len()
    }
}

/// The last place at which an item stands.
fn last_place(items: &[Item], item: Item) -> Option<usize>
    ensures absent { IfNone result (¬ Contains items.now item) }
    ensures found { IfSome result (λ place. IsLastPlace items.now item place) }
{
    items.iter().rposition(|other| *other == item)
}

// The lists, by number.
ghost use Rattle.std.specs.Prelude.{◌≡◌, ◌<◌, ◌≤◌, ◌∷◌, ◌↔◌, [], Some, None, IsSome, IsTrue, IfOk, IfNone, OnOk, OnErr, All, Contains, length, remove, slice_get};
ghost use Rattle.std.specs.Bool.{OnFalse};
ghost use Rattle.ada_final.specs.Item.{without};
ghost use Rattle.ada_final.specs.Lists.{list_at, IsEntered, items_of, with_items, with_new_list, without_list};

use crate::item::Item;
use crate::slot::Slot;
use std::alloc::{AllocError, Global};
use std::marker::Model;

/// The number of an entered list, seen as that number.
///
/// It names a list until that list is left; a later `enter` may give it again.
#[derive(Clone, Copy, Debug, PartialEq, Eq)]
pub struct ListNo {
    number: usize,
}

impl Model for ListNo {
    ghost use Rattle.std.specs.Prelude.{ℕ};

    ghost Value = { ℕ };

    ghost view = { λ list. list.number };

    ghost inverse = { λ n. record { number = n } };
}

/// The lists of what is to be finalized, seen as the list of them by number: each with its newest
/// item first, and `None` at a number where no list is entered.
///
/// Memory follows the greatest number of lists that were entered at once, and for each of them the
/// greatest number of items that a list held there: what a list leaves is used by the next.
#[derive(Drop)]
pub struct Lists {
    slots: Vec<Slot>,
    // The numbers where no list is entered, with room for all numbers, so that `leave` takes no memory.
    unused: Vec<ListNo>,
    alloc: Global,
}

impl Model for Lists {
    ghost use Rattle.std.specs.Prelude.{vec_capacity};
    ghost use Rattle.ada_final.specs.Lists.{Numbered};
    ghost use Rattle.ada_final.specs.Unused.{IsUnused};

    ghost Value = { Numbered };

    ghost view = { λ a. a.slots.items };

    ghost invariant = { λ a. IsUnused a.slots.items a.unused.items (vec_capacity a.unused) };
}

impl Lists {
    /// No lists yet. Takes no memory.
    pub fn new(alloc: Global) -> Lists
        ensures { result ≡ [] }
    {
        Lists {
            slots: Vec::new(alloc),
            unused: Vec::new(alloc),
            alloc,
        }
    }

    /// Enters an empty list, and gives the number by which the other calls know it.
    ///
    /// It is a number where no list is entered: one whose list was left, if there is any, and else
    /// the next. Constant, amortised over the greatest number of lists entered at once.
    ///
    /// # Errors
    ///
    /// `AllocError` where memory for one more number was refused. A number that a list left needs none.
    pub fn enter(&mut self) -> Result<ListNo, AllocError>
        ensures ok { IfOk result (λ list. self.new ≡ with_new_list self.old list) }
        ensures unused { IfOk result (λ list. list_at self.old list ≡ None) }

        // It takes the next number, or fails, only where a list is entered under each.
        ensures within { IfOk result (λ list. list ≤ length self.old) }
        ensures next { IfOk result (λ list. length self.old ≤ list → All IsSome self.old) }
        ensures full { OnErr result (All IsSome self.old) }
        ensures err { OnErr result (self.new ≡ self.old) }
    {
        if let Some(list) = self.unused.pop() {
            self.slots[list.number].enter();
            return Ok(list);
        }
        let number = self.slots.len();
        self.unused.reserve(number + 1)?;
        self.slots.push(Slot::new(self.alloc))?;
        Ok(ListNo { number })
    }

    /// Puts an item first in a list. Constant, amortised over the items of the list.
    ///
    /// # Errors
    ///
    /// `AllocError` where the list had to grow and memory was refused.
    pub fn attach(&mut self, list: ListNo, item: Item) -> Result<(), AllocError>
        requires { IsEntered self.old list }
        ensures ok { OnOk result
            (self.new ≡ with_items self.old list (item ∷ items_of self.old list)) }
        ensures err { OnErr result (self.new ≡ self.old) }
    {
        self.slots[list.number].attach(item)
    }

    /// Takes the newest occurrence of an item out of a list, and answers whether there was one.
    ///
    /// Takes no memory. It looks at the newer items and moves them, so that for the newest item it
    /// is constant; where there is no occurrence it looks at every item.
    pub fn detach(&mut self, list: ListNo, item: Item) -> bool
        requires { IsEntered self.old list }
        ensures found { IsTrue result ↔ Contains (items_of self.old list) item }
        ensures taken { self.new
            ≡ with_items self.old list (without item (items_of self.old list)) }
        ensures absent { OnFalse result (self.new ≡ self.old) }
    {
        self.slots[list.number].detach(item)
    }

    /// Takes out and gives the `i`-th item of a list, counted from the newest, which is the 0th.
    /// None where `i` is not less than [`left`](Lists::left).
    ///
    /// Takes no memory. It moves the `i` newer items, so that for the newest item it is constant.
    pub fn take_next(&mut self, list: ListNo, i: usize) -> Option<Item>
        requires { IsEntered self.old list }
        ensures some { IsSome result ↔ (i < length (items_of self.old list)) }
        ensures item { result ≡ slice_get (items_of self.old list) i }
        ensures taken { self.new ≡ with_items self.old list (remove (items_of self.old list) i) }
        ensures none { IfNone result (self.new ≡ self.old) }
    {
        self.slots[list.number].take_next(i)
    }

    /// How many items are left in a list. Constant, takes no memory.
    pub fn left(&self, list: ListNo) -> usize
        requires { IsEntered self.now list }
        ensures { result ≡ length (items_of self.now list) }
    {
        self.slots[list.number].left()
    }

    /// Ends an empty list; a later `enter` may give its number again. Constant, takes no memory.
    pub fn leave(&mut self, list: ListNo)
        requires { list_at self.old list ≡ Some [] }
        ensures { self.new ≡ without_list self.old list }
    {
        self.slots[list.number].leave();
        self.unused.push_reserved(list);
    }
}

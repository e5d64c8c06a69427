//! A stack: what was put on last comes off first.

ghost use Rattle.std.specs.Prelude.{◌≡◌, [], ◌∷◌, drop, take, reverse, length, IfOk, OnOk, OnErr, MatchOption};
ghost use Rattle.std.specs.List.{slice_get, slice_set};
ghost use Rattle.ada_meaning.specs.Step.{older};
ghost use Rattle.ada_interpreter.specs.CommonSteps.{newest_counted_to};

use crate::frame::Frame;
use std::alloc::{AllocError, Global};
use std::marker::Model;

/// A stack, seen as the list of its items, the newest first.
#[derive(Drop)]
pub(crate) struct Stack<T: Drop> {
    // The newest stands last, so that putting on and taking off move nothing.
    items: Vec<T>,
}

impl<T: Drop> Model for Stack<T> {
    ghost use Rattle.std.specs.Prelude.{List, reverse};

    ghost Value = { List T };

    ghost view = { λ s. reverse s.items.items };
}

impl<T: Drop> Stack<T> {
    /// An empty stack. Takes no memory.
    pub(crate) fn new(alloc: Global) -> Stack<T>
        ensures { result ≡ [] }
    {
        Stack {
            items: Vec::new(alloc),
        }
    }

    /// Puts an item on.
    #[tactic(auto, using(crate::proofs::StackLemmas::newest_first))]
    pub(crate) fn push(&mut self, item: T) -> Result<(), AllocError>
        ensures pushed { OnOk result (self.new ≡ item ∷ self.old) }
        ensures unchanged { OnErr result (self.new ≡ self.old) }
    {
        // The room is made first, so that a call that finds it is short.
        if self.items.len() >= self.items.capacity() {
            self.items.reserve(1)?;
        }
        self.items.push_reserved(item);
        Ok(())
    }

    /// Takes the newest item off, if there is one.
    #[tactic(auto, using(crate::proofs::StackLemmas::newest_first))]
    pub(crate) fn shorten(&mut self)
        ensures { self.new ≡ older self.old }
    {
        let _ = self.items.pop();
    }

    /// Takes the newest item off.
    #[tactic(auto, using(crate::proofs::StackLemmas::newest_first))]
    pub(crate) fn pop(&mut self) -> Option<T>
        ensures item { result ≡ slice_get self.old 0 }
        ensures left { self.new ≡ older self.old }
    {
        self.items.pop()
    }

    /// The newest item.
    #[tactic(auto, using(crate::proofs::StackLemmas::newest_first))]
    pub(crate) fn top(&self) -> Option<&T>
        ensures { MatchOption result (self.now ≡ [])
            (λ item. self.now ≡ item.now ∷ older self.now) }
    {
        self.items.last()
    }

    /// The newest item becomes another; nothing, if there is none.
    pub(crate) fn set_top(&mut self, item: T)
        ensures { self.new ≡ slice_set self.old 0 item }
    {
        let n = self.items.len();
        if n > 0 {
            self.items[n - 1] = item;
        }
    }

    /// Another item comes in place of the newest, or is put on, if there is none.
    pub(crate) fn replace(&mut self, item: T) -> Result<(), AllocError>
        ensures { OnOk result (self.new ≡ item ∷ older self.old) }
    {
        if self.len() > 0 {
            self.set_top(item);
            Ok(())
        } else {
            self.push(item)
        }
    }

    /// How many items there are.
    #[tactic(auto, using(crate::proofs::StackLemmas::newest_first))]
    pub(crate) fn len(&self) -> usize
        ensures { result ≡ length self.now }
    {
        self.items.len()
    }

    /// Takes all items off.
    pub(crate) fn clear(&mut self)
        ensures { self.new ≡ [] }
    {
        self.items.clear();
    }

    /// Takes so many of the newest items off, or all if there are not so many.
    pub(crate) fn shorten_by(&mut self, count: usize)
        ensures { self.new ≡ drop count self.old }
    {
        let kept = self.items.len().saturating_sub(count);
        self.items.truncate(kept);
    }

    /// Takes so many of the newest items off, or all if there are not so many: in the order in which they were put on.
    pub(crate) fn take(&mut self, count: usize) -> Result<Vec<T>, AllocError>
        ensures taken { IfOk result (λ taken. taken.items ≡ reverse (take count self.old)) }
        ensures left { OnOk result (self.new ≡ drop count self.old) }
        ensures unchanged { OnErr result (self.new ≡ self.old) }
    {
        let kept = self.items.len().saturating_sub(count);
        self.items.split_off(kept)
    }
}

impl<T: Copy + Drop> Stack<T> {
    /// So many of the newest items, or all if there are not so many: in the order in which they were put on.
    pub(crate) fn newest(&self, count: usize) -> &[T]
        ensures { result.now ≡ reverse (take count self.now) }
    {
        let kept = self.items.len().saturating_sub(count);
        &self.items[kept..]
    }

    /// The item so far from the newest, the 0th.
    #[tactic(auto, using(crate::proofs::StackLemmas::newest_first))]
    pub(crate) fn at(&self, i: usize) -> Option<T>
        ensures { result ≡ slice_get self.now i }
    {
        let n = self.items.len();
        if i < n {
            Some(self.items[n - 1 - i])
        } else {
            None
        }
    }
}

impl<'a> Stack<Frame<'a>> {
    /// Where the newest frame is a `for` loop, it begins a turn with this value of its parameter (5.5).
    #[tactic(auto, using(crate::proofs::StackLemmas::newest_first))]
    pub(crate) fn set_count(&mut self, count: i32)
        ensures { self.new ≡ newest_counted_to count self.old }
    {
        let n = self.items.len();
        if n > 0 {
            self.items[n - 1].set_count(count);
        }
    }
}

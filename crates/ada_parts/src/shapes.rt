//! Tables of record types, as finalization sees them.

ghost use Rattle.std.specs.Prelude.{◌≡◌, ◌+◌, ◌^◌, ◌<◌, ◌≤◌, [], ◌∷◌, length, OnOk, OnErr, IsTrue, MatchOption};
ghost use Rattle.std.specs.List.{sum_by, All};
ghost use Rattle.ada_parts.specs.Shape.{own_parts, parts_of, shape_of};

use crate::tasks::Component;
use std::alloc::{AllocError, Global};
use std::marker::Model;

/// A type of the table, and how many controlled parts a record of it has, if a machine word counts them.
#[derive(Drop)]
struct Entry {
    controlled: bool,
    components: Vec<usize>,
    parts: Option<usize>,
}

/// The record types of a program: which are controlled, and the components that have controlled parts (7.6). A type is known
/// by its number, and is declared before the types that have components of it.
#[derive(Drop)]
pub struct Shapes {
    entries: Vec<Entry>,
}

impl Model for Shapes {
    ghost use Rattle.std.specs.Prelude.{List};
    ghost use Rattle.ada_parts.specs.Shape.{Shape};
    ghost use Rattle.ada_parts.specs.View.{table_of, IsCounted};

    ghost Value = { List Shape };

    ghost view = { λ s. table_of s.entries.items };

    ghost invariant = { λ s. IsCounted s.entries.items };
}

impl Shapes {
    /// A table of no types.
    pub fn new(alloc: Global) -> Shapes
        ensures { result ≡ [] }
    {
        Shapes {
            entries: Vec::new(alloc),
        }
    }

    /// How many types are in the table; the next one gets this number.
    pub fn len(&self) -> usize
        ensures { result ≡ length self.now }
    {
        self.entries.len()
    }

    /// How many controlled parts a record of a type has, at any depth, itself included. None where no machine word counts
    /// them; no parts, where the type is not in the table.
    pub fn parts(&self, of: usize) -> Option<usize>
        ensures { MatchOption result (2 ^ 64 ≤ parts_of self.now of)
            (λ parts. parts ≡ parts_of self.now of) }
    {
        if of < self.entries.len() {
            self.entries[of].parts
        } else {
            Some(0)
        }
    }

    /// The same where a machine word counts them.
    pub(crate) fn count(&self, of: usize) -> usize
        requires { parts_of self.now of < 2 ^ 64 }
        ensures { result ≡ parts_of self.now of }
    {
        match self.parts(of) {
            Some(parts) => parts,
            None => 0,
        }
    }

    /// Are the numbers of a component's parts machine words?
    pub(crate) fn fits(&self, component: Component) -> bool
        ensures { IsTrue result → component.first + parts_of self.now component.of < 2 ^ 64 }
    {
        match self.parts(component.of) {
            Some(parts) => component.first.checked_add(parts).is_some(),
            None => false,
        }
    }

    /// Is a type controlled itself?
    pub(crate) fn is_controlled(&self, of: usize) -> bool
        ensures { result ≡ (shape_of self.now of).controlled }
    {
        if of < self.entries.len() {
            self.entries[of].controlled
        } else {
            false
        }
    }

    /// The types of the components that have controlled parts.
    pub(crate) fn components(&self, of: usize) -> &[usize]
        ensures types { result.now ≡ (shape_of self.now of).components }
        ensures parts { parts_of self.now of
            ≡ own_parts (shape_of self.now of) + sum_by (parts_of self.now) result.now }
    {
        if of < self.entries.len() {
            &self.entries[of].components
        } else {
            &[]
        }
    }

    /// Adds a type, of which these components have controlled parts, in order.
    ///
    /// # Errors
    /// Where the table cannot grow. It stays as it was then.
    pub fn push(&mut self, controlled: bool, components: Vec<usize>) -> Result<(), AllocError>
        requires { All (λ c. (c < length self.old) × (0 < parts_of self.old c)) components.items }
        ensures ok { OnOk result
            (self.new ≡ record { controlled = controlled; components = components.items } ∷ self.old) }
        ensures err { OnErr result (self.new ≡ self.old) }
    {
        let parts = self.parts_with(controlled, &components);
        let entry = Entry {
            controlled,
            components,
            parts,
        };
        match self.entries.push(entry) {
            Ok(()) => Ok(()),
            Err(_) => Err(AllocError),
        }
    }

    /// How many parts a record with these components has, if a machine word can count them.
    fn parts_with(&self, controlled: bool, components: &[usize]) -> Option<usize>
        ensures { MatchOption result
            (2 ^ 64 ≤ own_parts (record { controlled = controlled; components = components.now })
            + sum_by (parts_of self.now) components.now)
            (λ parts. parts ≡ own_parts (record { controlled = controlled; components = components.now })
            + sum_by (parts_of self.now) components.now) }
    {
        let mut parts: usize = if controlled { 1 } else { 0 };
        for of in components {
            match parts.checked_add(self.parts(*of)?) {
                Some(more) => parts = more,
                None => return None,
            }
        }
        Some(parts)
    }
}

//! Where the collections of access types are created.

ghost use Rattle.std.specs.Prelude.{◌≡◌, IfOk, None, replicate};
ghost use Rattle.ada_operations.specs.Created as created;
ghost use Rattle.ada_operations.specs.View as rules;

use ada_program::TypeNo;
use std::alloc::{AllocError, Global};

/// Where a collection is created: the declarative part, by the number of the type whose collection it creates first, and how many
/// the part creates before this one.
#[derive(Clone, Copy)]
pub(crate) struct Place {
    pub part: usize,
    pub order: usize,
}

/// Whether a place stands before another one.
pub(crate) fn precedes(one: Place, other: Place) -> bool
    ensures { result ≡ created.precedes one other }
{
    one.part < other.part || one.part == other.part && one.order < other.order
}

/// The later one of two places, where they are there.
pub(crate) fn later_of(one: Option<Place>, other: Option<Place>) -> Option<Place>
    ensures { result ≡ rules.later_of one other }
{
    match (one, other) {
        (None, other) => other,
        (Some(place), None) => Some(place),
        (Some(place), Some(another)) => if precedes(place, another) { other } else { one },
    }
}

/// By the number of each type, where its collection is created: none, if this is not known yet.
#[derive(Drop)]
pub(crate) struct Places {
    table: Vec<Option<Place>>,
}

impl Places {
    /// Nothing is known yet of so many types.
    pub(crate) fn unknown(alloc: Global, count: usize) -> Result<Places, AllocError>
        ensures { IfOk result (λ places. places.table.items ≡ replicate count None) }
    {
        let table = vec![in alloc; None; count]?;
        Ok(Places { table })
    }

    /// A place is entered for an access type, if it has none yet.
    pub(crate) fn add(&mut self, access: TypeNo, place: Place)
        ensures { self.new.table.items ≡ rules.with_place access.0 place self.old.table.items }
    {
        if access.0 < self.table.len() && self.table[access.0].is_none() {
            self.table[access.0] = Some(place);
        }
    }

    /// Where the collection of an access type is created. Constant.
    pub(crate) fn at(&self, access: usize) -> Place
        ensures { result ≡ rules.place_at self.now.table.items access }
    {
        match self.table.get(access) {
            Some(Some(place)) => *place,
            _ => Place {
                part: access,
                order: 0,
            },
        }
    }
}

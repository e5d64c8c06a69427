//! Objects by name, and the members of each collection.

ghost use Rattle.std.specs.Prelude.{◌≡◌, ℕ, [], ◌∷◌, ◌++◌, length, reverse, map, Some, option_map, OnOk, IfOk, MatchOption};
ghost use Rattle.std.specs.List.{slice_index_or};
ghost use Rattle.ada_meaning.specs.Heap.{on_gone, finds};
ghost use Rattle.ada_meaning.specs.Step.{initial_value, stored_from};
ghost use Rattle.ada_meaning.specs.Named.{named, object_at, seen, lent_by, standing_by, all_alive, new_object, changed, parted, finished, returned, filled, born_part, finalized_part, treated, members};
ghost use Rattle.ada_interpreter.specs.Objects.{cell_of, declared_cell, all_of, kept_of, kept_at, part_at, with_part_state, is_member_at, members_among, Trims, IsTidied};
ghost use Rattle.ada_interpreter.specs.Treatment.{part_form};
ghost use Rattle.ada_untouched.specs.Past.{forgotten};

use crate::remembered::{Object, Remembered};
use crate::shelves::{Shelf, discount, enter, entries_at, live_at, make_shelves};
use crate::treatment::PartState;
use crate::values::initial_values;
use ada_meaning::{Id, Stage, Value};
use ada_program::TypeNo;
use ada_program::program::{ComponentKind, ComponentNo};
use std::alloc::{AllocError, Global};
use std::marker::Model;

/// Where an object lies, and with which item it goes (13.11.4).
#[derive(Clone, Copy)]
pub(crate) struct Home {
    /// The number of the item of its collection, or of its own item where it is declared.
    pub(crate) item: usize,
    /// None where it is declared.
    pub(crate) pool: Option<usize>,
    pub(crate) subpool: Option<usize>,
}

/// What lies in an object (3.3, 4.8).
#[derive(Drop)]
pub(crate) struct Cell {
    /// Its access type, or the type that a record object is known by.
    pub(crate) access: TypeNo,
    /// The trace number: allocations are counted from 1. 0 where the object is declared.
    pub(crate) number: u64,
    pub(crate) home: Home,
    pub(crate) values: Vec<Value>,
    /// Its controlled parts, by their numbers (7.6).
    pub(crate) parts: Vec<PartState>,
}

/// The objects that were ever created, seen as the list of them by name.
#[derive(Drop)]
pub(crate) struct Objects {
    alloc: Global,
    objects: Remembered,
    /// By the number of the item that is their home. Those behind the last one have no members.
    shelves: Vec<Shelf>,
}

impl Model for Objects {
    ghost use Rattle.std.specs.Prelude.{List, map};
    ghost use Rattle.ada_meaning.specs.Named.{Object as NamedObject};

    ghost Value = { List NamedObject };

    ghost use Rattle.ada_interpreter.specs.Objects.{all_of, kept_of, AreShelved};

    ghost view = { λ s. all_of s.objects };

    ghost invariant = { λ s. AreShelved (all_of s.objects) (map kept_of s.shelves.items) };
}

impl Objects {
    /// No object has been created. Takes no memory.
    pub(crate) fn new(alloc: Global) -> Objects
        ensures { result ≡ [] }
    {
        Objects {
            alloc,
            objects: Remembered::new(alloc),
            shelves: Vec::new(alloc),
        }
    }

    /// What lies in the object of a name, as long as it exists (13.11.2).
    pub(crate) fn existing(&self, o: Id) -> Option<&Cell>
        ensures { let found = seen (object_at self.now o) in
            MatchOption result (found ≡ on_gone) (λ cell. found ≡ finds (cell_of cell.now)) }
    {
        let object = self.objects.get(o)?;
        match object.stage {
            Stage::Building => Some(&object.cell),
            Stage::Existing => Some(&object.cell),
            Stage::Gone => None,
        }
    }

    /// What lies in the object of a name, as long as its words are out.
    pub(crate) fn lent(&self, o: Id) -> Option<&Cell>
        ensures { let found = lent_by (object_at self.now o) in
            MatchOption result (found ≡ on_gone) (λ cell. found ≡ finds (cell_of cell.now)) }
    {
        let object = self.objects.get(o)?;
        if object.out { Some(&object.cell) } else { None }
    }

    /// What lies in the object of a name, as long as it is in its collection, and each of its controlled parts has a value.
    pub(crate) fn standing(&self, o: Id) -> Option<&Cell>
        ensures { let found = standing_by (object_at self.now o) in
            MatchOption result (found ≡ on_gone) (λ cell. found ≡ finds (cell_of cell.now)) }
    {
        let object = self.objects.get(o)?;
        if object.listed && all_alive(object.cell.parts.as_slice()) {
            Some(&object.cell)
        } else {
            None
        }
    }

    /// The name that the next object has: no other ever had it.
    pub(crate) fn next_name(&self) -> Id
        ensures { result ≡ record { 0 = length self.now } }
    {
        Id(self.objects.count())
    }

    /// A new object, in the collection of its home; it has the next name.
    pub(crate) fn create(&mut self, cell: Cell) -> Result<Id, AllocError>
        ensures name { IfOk result (λ o. o ≡ record { 0 = length self.old }) }
        ensures object { OnOk result (self.new ≡ self.old ++ new_object (cell_of cell) ∷ []) }
    {
        let o = Id(self.objects.count());
        let item = cell.home.item;
        make_shelves(self.alloc, &mut self.shelves, item)?;
        self.objects.reserve()?;
        enter(&mut self.shelves, item, o)?;
        self.objects.push_reserved(Object {
            cell,
            stage: Stage::Existing,
            listed: true,
            out: true,
        });
        Ok(o)
    }

    /// What components hold at first, in their order (3.3.1).
    pub(crate) fn initial_values(
        &self,
        components: &[ComponentKind],
    ) -> Result<Vec<Value>, AllocError>
        ensures { IfOk result (λ values. values.items ≡ map (initial_value named) components.now) }
    {
        initial_values(self.alloc, components)
    }

    /// A new record object, with these values in its components (3.3.1) and these controlled parts; its home is an item of
    /// its own.
    pub(crate) fn create_declared(
        &mut self,
        object: TypeNo,
        item: usize,
        values: Vec<Value>,
        parts: Vec<PartState>,
    ) -> Result<Id, AllocError>
        ensures name { IfOk result (λ o. o ≡ record { 0 = length self.old }) }
        ensures object { let cell = declared_cell object.0 item values.items (map part_form parts.items) in
            OnOk result (self.new ≡ self.old ++ new_object cell ∷ []) }
    {
        self.create(Cell {
            access: object,
            number: 0,
            home: Home {
                item,
                pool: None,
                subpool: None,
            },
            values,
            parts,
        })
    }

    /// The object of a name leaves its collection.
    pub(crate) fn part(&mut self, o: Id)
        ensures { self.new ≡ changed parted (object_at self.old o) self.old o }
    {
        let home = self.objects.unlist(o);
        discount(&mut self.shelves, home);
        sweep(&self.objects, &mut self.shelves, home);
    }

    /// The object of a name ceases to exist.
    pub(crate) fn finish(&mut self, o: Id)
        ensures { self.new ≡ changed finished (object_at self.old o) self.old o }
    {
        self.part(o);
        self.objects.set_gone(o);
    }

    /// The words of the object of a name go back.
    pub(crate) fn give_back(&mut self, o: Id)
        ensures { self.new ≡ changed returned (object_at self.old o) self.old o }
    {
        self.objects.set_returned(o);
    }

    /// Nothing more is remembered of the object of a name, if it is past.
    pub(crate) fn forget(&mut self, o: Id)
        ensures { self.new ≡ changed forgotten (object_at self.old o) self.old o }
    {
        self.objects.forget(o);
    }

    /// A component of the object of a name gets another value (5.2).
    pub(crate) fn store(&mut self, o: Id, component: ComponentNo, value: Value)
        ensures { self.new ≡ changed (filled component.0 value) (object_at self.old o) self.old o }
    {
        self.objects.set_component(o, component, value);
    }

    /// The components of the object of a name get other values, from one on (5.2).
    pub(crate) fn store_from(&mut self, o: Id, first: ComponentNo, values: &[Value])
        ensures { self.new ≡ stored_from named self.old (Value.Names o) first.0 values.now }
    {
        self.objects.set_components(o, first, values);
    }

    /// A controlled part of the object of a name, if that exists and has this part (7.6).
    pub(crate) fn part_state(&self, o: Id, part: usize) -> Option<PartState>
        ensures { option_map part_form result ≡ part_at self.now o part }
    {
        match self.existing(o)?.parts.get(part) {
            Some(state) => Some(*state),
            None => None,
        }
    }

    /// Such a part comes to have a value, with a trace number (7.6).
    pub(crate) fn bear(&mut self, o: Id, part: usize, state: PartState, number: u64)
        requires { part_at self.old o part ≡ Some (part_form state) }
        ensures { self.new ≡ changed (treated (born_part number) part) (object_at self.old o) self.old o }
    {
        self.set_part(o, part, state.born(number));
    }

    /// The value of such a part is finalized (7.6.1). Fails where no more values of it can be counted.
    pub(crate) fn finalize(
        &mut self,
        o: Id,
        part: usize,
        state: PartState,
    ) -> Result<(), AllocError>
        requires { part_at self.old o part ≡ Some (part_form state) }
        ensures { OnOk result
            (self.new ≡ changed (treated finalized_part part) (object_at self.old o) self.old o) }
    {
        let ended = state.finalized()?;
        self.set_part(o, part, ended);
        Ok(())
    }

    /// A controlled part of the object of a name gets another state.
    fn set_part(&mut self, o: Id, part: usize, state: PartState)
        ensures { let xs = self.old in
            self.new ≡ changed (with_part_state part (part_form state)) (object_at xs o) xs o }
    {
        self.objects.set_part_state(o, part, state);
    }

    /// How many members the collection of an item has.
    pub(crate) fn count(&self, item: usize) -> usize
        ensures { result ≡ length (members self.now item) }
    {
        live_at(self.shelves.as_slice(), item)
    }

    /// A member of the collection of an item, counted from the newest; null, if there are not so many.
    pub(crate) fn member(&mut self, item: usize, i: usize) -> Value
        ensures value { result ≡ slice_index_or (members self.old item) i Value.Null }
        ensures same { self.new ≡ self.old }
    {
        tidy(&self.objects, &mut self.shelves, item);
        member_at(
            &self.objects,
            item,
            entries_at(self.shelves.as_slice(), item),
            i,
        )
    }
}

/// Has each of these controlled parts a value (7.6)?
fn all_alive(parts: &[PartState]) -> bool
    ensures { result ≡ all_alive (map part_form parts.now) }
{
    for part in parts {
        if !part.alive {
            return false;
        }
    }
    true
}

/// Is a name that of a member of the collection of an item?
fn is_member(objects: &Remembered, item: usize, o: Id) -> bool
    ensures { result ≡ is_member_at (all_of objects.now) item o }
{
    match objects.get(o) {
        Some(object) => object.listed && object.cell.home.item == item,
        None => false,
    }
}

/// Drops the entries of a collection that are no members, once they are more than the members by two. It looks at the entries only
/// then, and more than half of them left the collection since it did so before: so an object that leaves costs constant time on the
/// average, as one more element of a `Vec` does.
fn sweep(objects: &Remembered, shelves: &mut Vec<Shelf>, home: Option<usize>)
    ensures { let kept = map kept_of shelves.old.items in (i : ℕ) →
        IsTidied (all_of objects.now) i (kept_at kept i) (kept_at (map kept_of shelves.new.items) i) }
{
    if let Some(item) = home
        && item < shelves.len()
        && shelves[item].live < shelves[item].entries.len() / 2
    {
        let shelf = &mut shelves[item];
        keep_members(objects, item, &mut shelf.entries);
    }
}

/// Keeps the entries that are members, and drops the others.
fn keep_members(objects: &Remembered, item: usize, entries: &mut Vec<Id>)
    ensures { Trims (all_of objects.now) item entries.old.items entries.new.items }
{
    entries.retain(|o| is_member(objects, item, *o));
}

/// Takes the newest entries of a collection off, up to one that is a member: so no step passes them again.
fn tidy(objects: &Remembered, shelves: &mut Vec<Shelf>, item: usize)
    ensures { let kept = map kept_of shelves.old.items in (i : ℕ) →
        IsTidied (all_of objects.now) i (kept_at kept i) (kept_at (map kept_of shelves.new.items) i) }
{
    if item < shelves.len() {
        let shelf = &mut shelves[item];
        trim(objects, item, &mut shelf.entries);
    }
}

/// Takes the newest entries off, up to one that is a member.
fn trim(objects: &Remembered, item: usize, entries: &mut Vec<Id>)
    ensures { Trims (all_of objects.now) item entries.old.items entries.new.items }
{
    let mut n = entries.len();
    'entries: while n > 0 {
        let o = entries[n - 1];
        if is_member(objects, item, o) {
            break;
        }
        n -= 1;
    }
    entries.truncate(n);
}

/// The member among entries that is so far from the newest; null, if there are not so many.
fn member_at(objects: &Remembered, item: usize, entries: &[Id], i: usize) -> Value
    ensures { let names = members_among (all_of objects.now) item (reverse entries.now) in
        result ≡ slice_index_or (map Value.Names names) i Value.Null }
{
    let mut k = entries.len();
    let mut left = i;
    'entries: while k > 0 {
        k -= 1;
        let o = entries[k];
        if is_member(objects, item, o) {
            if left == 0 {
                return Value::Names(o);
            }
            left -= 1;
        }
    }
    Value::Null
}

//! What is remembered of objects: of the past ones only that they were.

ghost use Rattle.std.specs.Prelude.{◌≡◌, [], ◌∷◌, ◌++◌, length, map, Some, OnOk, MatchOption};
ghost use Rattle.ada_meaning.specs.Named.{object_at, changed, parted, returned, filled};
ghost use Rattle.ada_interpreter.specs.Objects.{object_of, all_of, HasRoom, IsForgotten, listed_home, gone, filled_from, with_part_state};
ghost use Rattle.ada_interpreter.specs.Treatment.{part_form};
ghost use Rattle.ada_untouched.specs.Past.{is_past, forgotten};

use crate::objects::Cell;
use crate::treatment::{PartState, set_part};
use crate::values::{set_value, set_values};
use ada_meaning::{Id, Stage, Value};
use ada_program::program::ComponentNo;
use std::alloc::{AllocError, Global};
use std::collections::HashMap;

/// An object: an allocated one, or a declared one.
#[derive(Drop)]
pub(crate) struct Object {
    pub(crate) cell: Cell,
    pub(crate) stage: Stage,
    /// Whether it is in its collection.
    pub(crate) listed: bool,
    /// Whether its words are out.
    pub(crate) out: bool,
}

impl Object {
    /// Has it ceased to exist, is it in no collection, and are its words back?
    fn is_past(&self) -> bool
        ensures { result ≡ is_past (object_of self.now) }
    {
        match self.stage {
            Stage::Building => false,
            Stage::Existing => false,
            Stage::Gone => !self.listed && !self.out,
        }
    }
}

/// All objects that there ever were, by name. Memory follows those that are kept: nothing lies in the others any more.
#[derive(Drop)]
pub(crate) struct Remembered {
    /// How many objects were created.
    pub(crate) created: usize,
    /// By name. What is not among them is past.
    pub(crate) kept: HashMap<usize, Object>,
}

impl Remembered {
    /// No object has been created. Takes no memory.
    pub(crate) fn new(alloc: Global) -> Remembered
        ensures { all_of result ≡ [] }
    {
        Remembered {
            created: 0,
            kept: HashMap::new(alloc),
        }
    }

    /// How many objects were created: so the next one is named.
    pub(crate) fn count(&self) -> usize
        ensures { result ≡ length (all_of self.now) }
    {
        self.created
    }

    /// The object of a name, if it is kept.
    pub(crate) fn get(&self, o: Id) -> Option<&Object>
        ensures { let found = object_at (all_of self.now) o in
            MatchOption result (IsForgotten found) (λ object. found ≡ Some (object_of object.now)) }
    {
        if o.0 < self.created {
            self.kept.get(&o.0)
        } else {
            None
        }
    }

    /// Makes room for one object more.
    pub(crate) fn reserve(&mut self) -> Result<(), AllocError>
        ensures same { all_of self.new ≡ all_of self.old }
        ensures room { OnOk result (HasRoom self.new) }
    {
        if self.created == usize::MAX {
            return Err(AllocError);
        }
        self.kept.reserve(1)
    }

    /// A new object, which has the next name.
    pub(crate) fn push_reserved(&mut self, object: Object)
        requires { HasRoom self.old }
        ensures { all_of self.new ≡ all_of self.old ++ object_of object ∷ [] }
    {
        // There is room: this does not fail.
        let _ = self.kept.insert(self.created, object);
        self.created += 1;
    }

    /// The object of a name leaves its collection: tells which, if it was in it.
    pub(crate) fn unlist(&mut self, o: Id) -> Option<usize>
        ensures home { result ≡ listed_home (object_at (all_of self.old) o) }
        ensures parted { let xs = all_of self.old in
            all_of self.new ≡ changed parted (object_at xs o) xs o }
    {
        if o.0 >= self.created {
            return None;
        }
        let object = self.kept.get_mut(&o.0)?;
        let was_listed = object.listed;
        object.listed = false;
        if was_listed {
            Some(object.cell.home.item)
        } else {
            None
        }
    }

    /// The object of a name is gone.
    pub(crate) fn set_gone(&mut self, o: Id)
        ensures { let xs = all_of self.old in
            all_of self.new ≡ changed gone (object_at xs o) xs o }
    {
        if let Some(object) = self.kept.get_mut(&o.0) {
            object.stage = Stage::Gone;
        }
    }

    /// The words of the object of a name are back.
    pub(crate) fn set_returned(&mut self, o: Id)
        ensures { let xs = all_of self.old in
            all_of self.new ≡ changed returned (object_at xs o) xs o }
    {
        if let Some(object) = self.kept.get_mut(&o.0) {
            object.out = false;
        }
    }

    /// Nothing more is remembered of the object of a name, if it is past.
    pub(crate) fn forget(&mut self, o: Id)
        ensures { let xs = all_of self.old in
            all_of self.new ≡ changed forgotten (object_at xs o) xs o }
    {
        let Some(object) = self.kept.get(&o.0) else {
            return;
        };
        if object.is_past() {
            self.kept.remove(&o.0);
        }
    }

    /// A component of the object of a name has another value.
    pub(crate) fn set_component(&mut self, o: Id, component: ComponentNo, value: Value)
        ensures { let xs = all_of self.old in
            all_of self.new ≡ changed (filled component.0 value) (object_at xs o) xs o }
    {
        if let Some(object) = self.kept.get_mut(&o.0) {
            set_value(object.cell.values.as_mut_slice(), component.0, value);
        }
    }

    /// The components of the object of a name have other values, from one on.
    pub(crate) fn set_components(&mut self, o: Id, first: ComponentNo, values: &[Value])
        ensures { let xs = all_of self.old in
            all_of self.new ≡ changed (filled_from first.0 values.now) (object_at xs o) xs o }
    {
        if let Some(object) = self.kept.get_mut(&o.0) {
            set_values(object.cell.values.as_mut_slice(), first.0, values);
        }
    }

    /// A controlled part of the object of a name has another state.
    pub(crate) fn set_part_state(&mut self, o: Id, part: usize, state: PartState)
        ensures { let xs = all_of self.old in
            all_of self.new ≡ changed (with_part_state part (part_form state)) (object_at xs o) xs o }
    {
        if let Some(object) = self.kept.get_mut(&o.0) {
            set_part(object.cell.parts.as_mut_slice(), part, state);
        }
    }
}

//! The program that runs, with tables of its record types that have controlled parts.

ghost use Rattle.std.specs.Prelude.{◌≡◌, ◌++◌, map, IfOk, OnOk};
ghost use Rattle.std.specs.Option.{option_copied};
ghost use Rattle.ada_program.specs.Controlled.{number_reached, type_numbered, shapes_of, operations_of};
ghost use Rattle.ada_meaning.specs.Step.{all_tasks, record_tasks, new_parts, ends_again, member_at, open_count, picked_task};
ghost use Rattle.ada_meaning.specs.Named.{named};
ghost use Rattle.ada_interpreter.specs.Treatment.{part_form};
ghost use Rattle.ada_interpreter.specs.Loaded.{IsNumbered, AreLaidOut, parts_from};

use crate::layouts::{Layout, layouts_of};
use crate::tables::{are_some, number_of, numbered_types, shapes_of, type_numbered};
use crate::treatment::PartState;
use ada_meaning::Why;
use ada_parts::{Direction, Next, Shapes, Tasks};
use ada_program::program::{Operations, TypeDefinition};
use ada_program::{Program, RecordNo, TypeNo};
use std::alloc::{AllocError, Global};

/// A program that is loaded.
#[derive(Drop)]
pub(crate) struct Loaded<'a> {
    pub(crate) alloc: Global,
    pub(crate) program: &'a Program,
    /// Its record types that have controlled parts, by their numbers among these.
    types: Vec<Option<&'a TypeDefinition>>,
    /// The same as finalization sees them (7.6).
    shapes: Shapes,
    /// Where controlled parts lie in their objects.
    layouts: Vec<Layout>,
    ghost numbered: { IsNumbered program.now.types.items (map option_copied types.items) },
    ghost known: { shapes ≡ shapes_of program.now.types.items },
    ghost laid_out: { AreLaidOut program.now.types.items layouts.items },
}

impl<'a> Loaded<'a> {
    /// Loads a program.
    ///
    /// # Errors
    /// Where the tables of its types can't grow.
    pub(crate) fn new(alloc: Global, program: &'a Program) -> Result<Loaded<'a>, AllocError>
        ensures { IfOk result (λ loaded. loaded.program.now ≡ program.now) }
    {
        let types = numbered_types(alloc, program.types.as_slice())?;
        let shapes = shapes_of(alloc, program.types.as_slice(), types.as_slice())?;
        let layouts = layouts_of(alloc, program.types.as_slice(), types.as_slice())?;
        Ok(Loaded {
            alloc,
            program,
            types,
            shapes,
            layouts,
        })
    }

    /// The type that has a number among the record types that have controlled parts. The table has each number of a well-formed
    /// program; for any other number this looks through the types.
    pub(crate) fn controlled_type(&self, number: RecordNo) -> Option<&'a TypeDefinition>
        ensures { option_copied result ≡ type_numbered self.now.program.now.types.items number.0 }
    {
        match self.types.get(number.0) {
            Some(definition) => *definition,
            None => type_numbered(self.program.types.as_slice(), number.0),
        }
    }

    /// What the controlled type of a number overrides (7.6): nothing, where there is no such type.
    pub(crate) fn operations(&self, of: usize) -> Operations
        ensures { result ≡ operations_of self.now.program.now.types.items of }
    {
        match self.controlled_type(RecordNo(of)) {
            Some(
                TypeDefinition::Record {
                    name: _,
                    parts: _,
                    components: _,
                    finalization: Some(finalization),
                },
            ) => finalization.operations,
            _ => Operations {
                initialize: None,
                adjust: None,
                finalize: None,
            },
        }
    }

    /// The controlled parts of a new object that an access type's values name, or of the one that is known by a type (7.6).
    pub(crate) fn new_parts(&self, access: TypeNo) -> Result<Vec<PartState>, AllocError>
        ensures { let types = self.now.program.now.types.items in
            IfOk result (λ parts. map part_form parts.items ≡ new_parts types access.0) }
    {
        let mut parts = Vec::new(self.alloc);
        if let Some(number) = self.number_reached(access) {
            let Some(count) = self.shapes.parts(number) else {
                return Err(AllocError);
            };
            parts.reserve(count)?;
            self.push_parts(&mut parts, number, 0)?;
        }
        Ok(parts)
    }

    /// The controlled parts of a new record of the type of a number come behind others, where the record begins with this
    /// elementary component of its object: the record itself, if its type is controlled, then those of its components.
    #[cycle(parts)]
    fn push_parts(
        &self,
        parts: &mut Vec<PartState>,
        number: usize,
        base: usize,
    ) -> Result<(), AllocError>
        ensures { let more = parts_from self.now.program.now.types.items base number in
            OnOk result (map part_form parts.new.items ≡ map part_form parts.old.items ++ more) }
    {
        let Some(layout) = self.layouts.get(number) else {
            return Ok(());
        };
        if layout.controlled {
            parts.push(PartState::new(base))?;
        }
        for inner in layout.inner.as_slice() {
            if inner.of < number {
                let Some(first) = base.checked_add(inner.first) else {
                    return Err(AllocError);
                };
                self.push_parts(parts, inner.of, first)?;
            }
        }
        Ok(())
    }

    /// Why a Free is erroneous where the object is gone, or is being ended, or not all of its controlled parts have a value
    /// (7.6.1, 13.11.2).
    pub(crate) fn ends_again(&self, access: TypeNo) -> Why
        ensures { result ≡ ends_again named self.now.program.now.types.items access.0 }
    {
        match self.number_reached(access) {
            Some(number) if are_some(&self.shapes, number) => Why::FinalizesTwice,
            _ => Why::EndsTwice,
        }
    }

    /// All that is to be done for such an object, where it is initialized, or finalized (7.6, 7.6.1).
    pub(crate) fn tasks(&self, access: TypeNo, direction: Direction) -> Result<Tasks, AllocError>
        ensures { let types = self.now.program.now.types.items in
            IfOk result (λ tasks. tasks ≡ all_tasks types access.0 direction) }
    {
        match self.number_reached(access) {
            None => Ok(Tasks::new(self.alloc)),
            Some(number) => Tasks::start(self.alloc, &self.shapes, direction, number, 0),
        }
    }

    /// The same for a record of a type that lies in an object, where its first part has this number.
    pub(crate) fn record_tasks(
        &self,
        record_type: TypeNo,
        direction: Direction,
        first: usize,
    ) -> Result<Tasks, AllocError>
        ensures { let types = self.now.program.now.types.items in
            IfOk result (λ tasks. tasks ≡ record_tasks types record_type.0 direction first) }
    {
        match number_of(self.program.types.as_slice(), record_type) {
            None => Ok(Tasks::new(self.alloc)),
            Some(number) => Tasks::start(self.alloc, &self.shapes, direction, number, first),
        }
    }

    /// One of the components that are open is picked, by its number in the order in which they are taken (7.6.1).
    pub(crate) fn take(
        &self,
        tasks: &mut Tasks,
        direction: Direction,
        i: usize,
    ) -> Result<(), AllocError>
        ensures { let shapes = shapes_of self.now.program.now.types.items in
            OnOk result (tasks.new ≡ picked_task shapes direction tasks.old i) }
    {
        let member = member_at(direction, open_count(tasks), i);
        tasks.take(&self.shapes, direction, member)
    }

    /// The number of the record type whose objects an access type's values name, or of the one of the object that is known by
    /// a type, among those that have controlled parts.
    fn number_reached(&self, access: TypeNo) -> Option<usize>
        ensures { result ≡ number_reached self.now.program.now.types.items access.0 }
    {
        number_of(
            self.program.types.as_slice(),
            self.program.record_of(access)?,
        )
    }
}

/// How many components are open, of which one is to be picked.
fn open_count(tasks: &Tasks) -> usize
    ensures { result ≡ open_count tasks.now }
{
    match tasks.next() {
        Next::Pick { count } => count,
        Next::Done | Next::Perform { .. } => 0,
    }
}

/// Which of so many components comes at a place in the order in which they are taken: the last one first where they are
/// finalized.
fn member_at(direction: Direction, count: usize, i: usize) -> usize
    ensures { result ≡ member_at direction count i }
{
    match direction {
        Direction::PartsFirst => i,
        Direction::WholeFirst => { if i < count { count - 1 - i } else { 0 } }
    }
}

//! Treatments: what is done to the controlled parts of an object (7.6, 7.6.1).

ghost use Rattle.std.specs.Prelude.{◌≡◌, List, map, IfOk};
ghost use Rattle.std.specs.List.{slice_set};
ghost use Rattle.ada_parts.specs.Part.{Part as PartOf};
ghost use Rattle.ada_parts.specs.Task.{performs};
ghost use Rattle.ada_meaning.specs.Step.{direction_of, new_part};
ghost use Rattle.ada_meaning.specs.Named.{born_part, finalized_part};
ghost use Rattle.ada_interpreter.specs.Treatment.{part_form, done_parts, treatment_form};

use ada_meaning::{Birth, Cause, Id};
use ada_parts::{Direction, Tasks};
use std::alloc::{AllocError, Global};

/// A controlled part of an object (7.6).
#[derive(Clone, Copy)]
pub(crate) struct PartState {
    /// Whether it has a value now.
    pub(crate) alive: bool,
    /// How many values it had before that.
    pub(crate) turn: u64,
    /// The trace number of its newest value; 0 where it has had none.
    pub(crate) number: u64,
    /// The number of the elementary component of its object with which it begins.
    pub(crate) first: usize,
}

/// What is done to the controlled parts of an object (7.6, 7.6.1).
#[derive(Clone, Copy)]
pub(crate) enum Treatment {
    /// They come to have values.
    Begins(Birth),
    /// Their values are finalized.
    Ends(Cause),
}

/// A part that has come to have its value, with its type (7.6).
#[derive(Clone, Copy)]
pub(crate) struct Done {
    pub(crate) of: usize,
    pub(crate) part: usize,
}

/// A treatment of an object that goes on, with what is left of it.
#[derive(Drop)]
pub(crate) struct Treated {
    pub(crate) object: Id,
    pub(crate) treatment: Treatment,
    /// Where parts come to have values: those that do already, the oldest first.
    pub(crate) done: Vec<Done>,
    pub(crate) tasks: Tasks,
}

impl PartState {
    /// A controlled part of a new object (7.6), which begins with this component: it has no value yet.
    pub(crate) fn new(first: usize) -> PartState
        ensures { part_form result ≡ new_part first }
    {
        PartState {
            alive: false,
            turn: 0,
            number: 0,
            first,
        }
    }

    /// The part once it has come to have a value, with a trace number (7.6).
    pub(crate) fn born(self, number: u64) -> PartState
        ensures { part_form result ≡ born_part number (part_form self) }
    {
        PartState {
            alive: true,
            turn: self.turn,
            number,
            first: self.first,
        }
    }

    /// The part once its value is finalized (7.6.1). Fails where no more values of it can be counted.
    pub(crate) fn finalized(self) -> Result<PartState, AllocError>
        ensures { IfOk result (λ part. part_form part ≡ finalized_part (part_form self)) }
    {
        match self.turn.checked_add(1) {
            Some(turn) => Ok(PartState {
                alive: false,
                turn,
                number: self.number,
                first: self.first,
            }),
            None => Err(AllocError),
        }
    }
}

impl Treatment {
    /// In which order it takes a record and its components (7.6, 7.6.1).
    pub(crate) fn direction(self) -> Direction
        ensures { (done : List PartOf) → result ≡ direction_of (treatment_form self done) }
    {
        match self {
            Treatment::Begins(_) => Direction::PartsFirst,
            Treatment::Ends(_) => Direction::WholeFirst,
        }
    }
}

/// The values of parts that have come to have them are to be finalized, the newest of them first (7.6.1).
pub(crate) fn undoing_tasks(alloc: Global, done: &[Done]) -> Result<Tasks, AllocError>
    ensures { let parts = done_parts done.now in
        IfOk result (λ tasks. tasks ≡ map (λ p. performs p.of p.number) parts) }
{
    let mut tasks = Tasks::new(alloc);
    for part in done {
        tasks.perform_first(part.of, part.part)?;
    }
    Ok(tasks)
}

/// The state of a part becomes another; nothing, if there is no such part.
pub(crate) fn set_part(parts: &mut [PartState], part: usize, state: PartState)
    ensures { parts.new ≡ slice_set parts.old part state }
{
    if part < parts.len() {
        parts[part] = state;
    }
}

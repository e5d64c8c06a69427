//! What is the same for all statements of a body.

ghost use Rattle.std.specs.Prelude.{map};
ghost use Rattle.ada_effects.specs.Found.{implicit_in};
ghost use Rattle.ada_flow.specs.Reached.{AreRows};
ghost use Rattle.ada_program.specs.ProgramForm.{type_form};

use crate::keeping::Keeping;
use crate::reached::ReachedRecords;
use crate::tracks::Tracks;
use ada_effects::Effects;
use ada_program::VariableNo;
use ada_program::program::{TypeDefinition, Variable};

/// What is the same for all statements of a body.
#[derive(Clone, Copy)]
pub(crate) struct Setting<'a> {
    /// The types of the program.
    pub(crate) types: &'a [TypeDefinition],
    /// The variables of the body, and behind them its tracked components as variables.
    pub(crate) variables: &'a [Variable],
    /// The components of its formal parameter that the body tracks.
    pub(crate) tracks: Tracks<'a>,
    /// What is known of the calls of the procedures before it, and of those of operations of controlled types.
    pub(crate) effects: Effects<'a>,
    /// Which records the finalizations of objects reach, of these types, by what is known of those operations.
    pub(crate) reached: &'a ReachedRecords,
    /// What these procedures keep.
    pub(crate) kept: &'a [Keeping],
    /// The formal parameters that give something back at each normal end of the body, and its tracked components.
    pub(crate) owed: &'a [VariableNo],
    ghost reaches: { AreRows (map type_form types.now) (implicit_in effects.implicit.now) reached.now.rows.items },
}

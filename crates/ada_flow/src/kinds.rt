//! What is known of each variable behind blocks that are left: collections, record objects and variables are gone there.

ghost use Rattle.std.specs.Prelude.{◌≡◌, IfOk, map, not, Some};
ghost use Rattle.ada_effects.specs.Found.{implicit_in};
ghost use Rattle.ada_flow.specs.Flow as rules;
ghost use Rattle.ada_flow.specs.Told.{finalized_option, gone_of, held, is_marked, type_number, variable_number, without_marked};
ghost use Rattle.ada_program.specs.ProgramForm.{variable_form};
ghost use Rattle.ada_program.specs.WellFormed.{access_of};

use crate::gone::Gone;
use crate::known::Known;
use crate::losing::forget_ended;
use crate::marks::Marks;
use crate::rule::Hold;
use ada_effects::Implicit;
use ada_program::program::{Variable, VariableKind};
use ada_program::{TypeNo, VariableNo};
use std::alloc::{AllocError, Global};

/// What is known of one variable where the collections and the record objects of the marked types are gone.
fn left_hold(marks: &Marks, kind: VariableKind, hold: Hold) -> Hold
    ensures { result ≡ rules.if_own (not (is_marked marks.now (access_of (Some kind)))) hold }
{
    if marks.has(kind) { Hold::Lost } else { hold }
}

/// A variable of a marked type is lost.
#[tactic(auto, using(std::proofs::lemmas::Grind::common_steps, crate::proofs::Behind::losing_steps))]
fn lose(variables: &[Variable], marks: &Marks, mut holds: Vec<Hold>) -> Vec<Hold>
    ensures { result.items ≡ without_marked (map variable_form variables.now) marks.now holds.items }
{
    holds.truncate(variables.len());
    for number in 0..holds.len() {
        holds[number] = left_hold(marks, variables[number].kind, holds[number]);
    }
    holds
}

/// Where collections and record objects are gone, a variable of one of their types is lost.
#[tactic(auto, using(std::proofs::lemmas::Grind::common_steps, crate::proofs::Behind::leaving_steps))]
fn leave_types(
    alloc: Global,
    variables: &[Variable],
    types: &[TypeNo],
    mut holds: Vec<Hold>,
) -> Result<Vec<Hold>, AllocError>
    ensures { IfOk result (λ behind. behind.items
        ≡ rules.without_types (map variable_form variables.now) (map type_number types.now) holds.items) }
{
    if types.is_empty() {
        holds.truncate(variables.len());
        return Ok(holds);
    }
    let marks = Marks::of(alloc, types)?;
    Ok(lose(variables, &marks, holds))
}

/// The same of what is known.
#[tactic(auto, using(std::proofs::lemmas::Grind::common_steps, crate::proofs::Aliased::told_of_left))]
fn leave_collections(
    alloc: Global,
    variables: &[Variable],
    types: &[TypeNo],
    known: Known,
) -> Result<Known, AllocError>
    ensures { IfOk result (λ behind. behind.holds.items
        ≡ rules.without_types (map variable_form variables.now) (map type_number types.now) known.holds.items) }
{
    let aliased = known.aliased;
    let holds = leave_types(alloc, variables, types, known.holds)?;
    Ok(Known { holds, aliased })
}

/// Where variables are gone, they are lost.
fn leave_variables(gone: &[VariableNo], known: &mut Known)
    ensures { known.new.holds.items
        ≡ rules.without_variables (map variable_number gone.now) known.old.holds.items }
{
    'variables: for one in gone {
        known.put(*one, Hold::Lost);
    }
}

/// What is known behind blocks that are left, with which this goes.
pub(crate) fn leave(
    alloc: Global,
    variables: &[Variable],
    gone: &Gone,
    known: Known,
) -> Result<Known, AllocError>
    ensures { IfOk result (λ behind. behind.holds.items
        ≡ rules.left (map variable_form variables.now) (gone_of gone.now) known.holds.items) }
{
    let mut behind = leave_collections(alloc, variables, &gone.types, known)?;
    leave_variables(&gone.variables, &mut behind);
    Ok(behind)
}

/// What is known behind a block that is left on a way that may not be gone.
pub(crate) fn leave_end(
    alloc: Global,
    variables: &[Variable],
    gone: &Gone,
    known: Option<Known>,
) -> Result<Option<Known>, AllocError>
    ensures { IfOk result (λ end. held end
        ≡ rules.left_option (map variable_form variables.now) (gone_of gone.now) (held known)) }
{
    match known {
        None => Ok(None),
        Some(known) => Ok(Some(leave(alloc, variables, gone, known)?)),
    }
}

/// What is known behind blocks whose objects are finalized as they are left (7.6.1).
pub(crate) fn leave_finalized(
    alloc: Global,
    variables: &[Variable],
    implicit: &Implicit,
    gone: &Gone,
    mut known: Known,
) -> Result<Known, AllocError>
    ensures { IfOk result (λ behind. behind.holds.items
        ≡ rules.left_finalized (map variable_form variables.now) (implicit_in implicit.now) (gone_of gone.now) known.holds.items) }
{
    forget_ended(alloc, variables, &mut known, implicit, &gone.types)?;
    leave(alloc, variables, gone, known)
}

/// What is known behind such a block, on a way that may not be gone.
pub(crate) fn leave_finalized_end(
    alloc: Global,
    variables: &[Variable],
    implicit: &Implicit,
    gone: &Gone,
    known: Option<Known>,
) -> Result<Option<Known>, AllocError>
    ensures { IfOk result (λ end. held end
        ≡ finalized_option (map variable_form variables.now) (implicit_in implicit.now) (gone_of gone.now) (held known)) }
{
    match known {
        None => Ok(None),
        Some(known) => Ok(Some(leave_finalized(alloc, variables, implicit, gone, known)?)),
    }
}

//! What is lost where objects of some access types may be gone, behind a call or behind operations of controlled types: every
//! alias of these types.

ghost use Rattle.std.specs.Prelude.{◌≡◌, ℕ, IfOk, OnOk, Some, map};
ghost use Rattle.ada_effects.specs.Effects.{endings_free};
ghost use Rattle.ada_effects.specs.Found.{has_number, implicit_in};
ghost use Rattle.ada_flow.specs.Flow as rules;
ghost use Rattle.ada_flow.specs.Told.{is_marked, marked_types, type_number};
ghost use Rattle.ada_program.specs.ProgramForm.{variable_form};
ghost use Rattle.ada_program.specs.WellFormed.{access_of};

use crate::holds::have_alias;
use crate::known::Known;
use crate::marks::Marks;
use crate::rule::Hold;
use ada_effects::Implicit;
use ada_program::TypeNo;
use ada_program::program::{Variable, VariableKind};
use std::alloc::{AllocError, Global};

/// What is known of one variable where objects of the marked access types may be gone: an alias of one is lost.
fn without_alias(marks: &Marks, kind: VariableKind, hold: Hold) -> Hold
    ensures { result ≡ rules.without_alias (is_marked marks.now (access_of (Some kind))) hold }
{
    match hold {
        Hold::Alias(_) if marks.has(kind) => Hold::Lost,
        hold => hold,
    }
}

/// Where objects of the marked access types may be gone, every alias of these types is lost.
#[tactic(auto, using(std::proofs::lemmas::Grind::common_steps, crate::proofs::Unaliased::losing_steps))]
fn lose_marked(variables: &[Variable], holds: &mut Vec<Hold>, marks: &Marks)
    ensures { holds.new.items
        ≡ rules.without_freed (map variable_form variables.now) (marked_types marks.now) holds.old.items }
{
    holds.truncate(variables.len());
    for number in 0..holds.len() {
        holds[number] = without_alias(marks, variables[number].kind, holds[number]);
    }
}

/// The same of what is known. Where a variable may hold an alias, and a type is marked, it costs the number of variables, and
/// else nothing.
#[tactic(auto, using(std::proofs::lemmas::Grind::common_steps, crate::proofs::Unaliased::freeing_steps))]
pub(crate) fn forget_marked(variables: &[Variable], known: &mut Known, marks: &Marks)
    ensures { known.new.holds.items
        ≡ rules.without_freed (map variable_form variables.now) (marked_types marks.now) known.old.holds.items }
{
    if known.aliased && !marks.is_empty() {
        lose_marked(variables, &mut known.holds, marks);
        known.aliased = have_alias(known.holds());
    } else {
        known.holds.truncate(variables.len());
    }
}

/// The same where objects of these access types may be gone. Where a variable may hold an alias, and there is such a type, it
/// costs the number of variables and of types, and else nothing.
#[tactic(auto, using(std::proofs::lemmas::Grind::common_steps, crate::proofs::Unaliased::freeing_steps))]
pub(crate) fn forget_freed(
    alloc: Global,
    variables: &[Variable],
    known: &mut Known,
    freed: &[TypeNo],
) -> Result<(), AllocError>
    ensures { OnOk result (known.new.holds.items
        ≡ rules.without_freed (map variable_form variables.now) (has_number freed.now) known.old.holds.items) }
{
    if known.aliased {
        let marks = Marks::of(alloc, freed)?;
        forget_marked(variables, known, &marks);
    } else {
        known.holds.truncate(variables.len());
    }
    Ok(())
}

/// The types of which objects may be freed where objects of these types are finalized (7.6.1).
fn freed_at_ends(alloc: Global, implicit: &Implicit, types: &[TypeNo]) -> Result<Marks, AllocError>
    ensures { IfOk result (λ marks. (t : ℕ) → is_marked marks (Some t)
        ≡ endings_free (implicit_in implicit.now) (map type_number types.now) t) }
{
    let mut marks = Marks::nothing(alloc);
    'types: for one in types {
        marks.add(freed_at_end(implicit, one.0))?;
    }
    Ok(marks)
}

/// What is known where objects of these types are finalized, as at the leaving of a block. Where a variable may hold an alias,
/// it costs the number of these types and of those of which objects may be freed; where there is one, the number of variables
/// and of types besides; and nothing where no variable may.
#[tactic(auto, using(std::proofs::lemmas::Grind::common_steps, crate::proofs::Unaliased::freeing_steps))]
pub(crate) fn forget_ended(
    alloc: Global,
    variables: &[Variable],
    known: &mut Known,
    implicit: &Implicit,
    types: &[TypeNo],
) -> Result<(), AllocError>
    ensures { let may = endings_free (implicit_in implicit.now) (map type_number types.now) in
        OnOk result (known.new.holds.items ≡ rules.without_freed (map variable_form variables.now) may known.old.holds.items) }
{
    if known.aliased {
        let marks = freed_at_ends(alloc, implicit, types)?;
        forget_marked(variables, known, &marks);
    } else {
        known.holds.truncate(variables.len());
    }
    Ok(())
}

/// The access types of which objects may be freed where an object of a type is created without an initial value (7.6).
pub(crate) fn freed_at_start(implicit: &Implicit, type_number: usize) -> &[TypeNo]
    ensures { has_number result.now ≡ (implicit_in implicit.now).start_frees type_number }
{
    match implicit.starts.get(type_number) {
        None => &[],
        Some(effect) => &effect.frees,
    }
}

/// Those of which objects may be freed where a record of a type is adjusted.
pub(crate) fn freed_by_adjust(implicit: &Implicit, type_number: usize) -> &[TypeNo]
    ensures { has_number result.now ≡ (implicit_in implicit.now).adjust_frees type_number }
{
    match implicit.adjusts.get(type_number) {
        None => &[],
        Some(types) => &types.list,
    }
}

/// Those of which objects may be freed where an object of a type is finalized.
pub(crate) fn freed_at_end(implicit: &Implicit, type_number: usize) -> &[TypeNo]
    ensures { has_number result.now ≡ (implicit_in implicit.now).end_frees type_number }
{
    match implicit.ends.get(type_number) {
        None => &[],
        Some(types) => &types.list,
    }
}

/// Those of which objects may be freed there, or followed.
pub(crate) fn reached_at_end(implicit: &Implicit, type_number: usize) -> &[TypeNo]
    ensures { has_number result.now ≡ (implicit_in implicit.now).end_reaches type_number }
{
    match implicit.reached.get(type_number) {
        None => &[],
        Some(types) => &types.list,
    }
}

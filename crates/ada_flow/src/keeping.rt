//! What a procedure keeps of what its calls hand over, and what it gives back at its normal ends.

ghost use Rattle.std.specs.Prelude.{◌≡◌, ◌++◌, IfOk, OnOk, map};
ghost use Rattle.std.specs.List.{slice_get};
ghost use Rattle.ada_flow.specs.Flow as rules;
ghost use Rattle.ada_flow.specs.Told.{first_hold, held, keeping_in, keepings_in, tracks_in, variable_number};
ghost use Rattle.ada_program.specs.ProgramForm.{variable_form};

use crate::holds::hold_of;
use crate::known::Known;
use crate::rule::{Hold, Region};
use crate::tracks::Tracks;
use ada_program::program::{FormalMode, Variable, VariableKind};
use ada_program::{ProcedureNo, VariableNo};
use std::alloc::{AllocError, Global};

/// What a procedure keeps.
#[derive(Drop)]
pub(crate) struct Keeping {
    /// Whether it keeps each of its formal parameters, in order.
    pub(crate) formals: Vec<bool>,
}

/// What a procedure keeps: nothing, where there is no such procedure.
pub(crate) fn kept_at<'a>(kept: &'a [Keeping], procedure: ProcedureNo) -> &'a [bool]
    ensures { result.now ≡ rules.kept_at (keepings_in kept.now) procedure.0 }
{
    match kept.get(procedure.0) {
        None => &[],
        Some(keeping) => &keeping.formals,
    }
}

/// Whether a formal parameter is kept, by what it holds where an exception leaves its body.
fn is_kept(hold: Hold) -> bool
    ensures { result ≡ rules.is_kept hold }
{
    matches!(hold, Hold::Kept(_))
}

/// Whether a formal parameter is kept where an exception leaves its body, if one does.
fn is_kept_where(raising: &Option<Known>, formal: VariableNo) -> bool
    ensures { result ≡ rules.is_kept_where (held raising.now) formal.0 }
{
    match raising {
        None => true,
        Some(known) => is_kept(hold_of(known.holds(), formal)),
    }
}

/// What a procedure keeps, by what is known where an exception leaves its body.
#[tactic(auto, using(std::proofs::lemmas::Grind::common_steps, crate::proofs::Formals::keeping_steps))]
pub(crate) fn what_is_kept(
    alloc: Global,
    raising: &Option<Known>,
    formals: &[FormalMode],
) -> Result<Keeping, AllocError>
    ensures { IfOk result (λ kept. keeping_in kept ≡ rules.kept_from (held raising.now) 0 formals.now) }
{
    let mut kept = Vec::new(alloc);
    for number in 0..formals.len() {
        kept.push(is_kept_where(raising, VariableNo(number)))?;
    }
    Ok(Keeping { formals: kept })
}

/// What a formal parameter may hold that is to give something back.
pub(crate) fn gives_back(hold: Hold) -> bool
    ensures { result ≡ rules.gives_back hold }
{
    match hold {
        Hold::Null | Hold::Kept(_) | Hold::Own(_) => true,
        Hold::Alias(_) | Hold::Lost => false,
    }
}

/// Whether each of these formal parameters gives something back.
pub(crate) fn all_give_back(owed: &[VariableNo], holds: &[Hold]) -> bool
    ensures { result ≡ rules.all_give_back (map variable_number owed.now) holds.now }
{
    'owed: for formal in owed {
        if !gives_back(hold_of(holds, *formal)) {
            return false;
        }
    }
    true
}

/// A formal parameter joins others, if it is to give something back at each normal end.
fn add_owed(
    owed: &mut Vec<VariableNo>,
    mode: FormalMode,
    kind: VariableKind,
    formal: VariableNo,
) -> Result<(), AllocError>
    ensures { OnOk result (map variable_number owed.new.items
        ≡ map variable_number owed.old.items ++ rules.owed_by mode kind formal.0) }
{
    match (mode, kind) {
        (FormalMode::InOut, VariableKind::Access(_)) => {
            owed.push(formal)?;
        }
        (FormalMode::In, _)
        | (_, VariableKind::Integer | VariableKind::Boolean | VariableKind::Record(_)) => {}
    }
    Ok(())
}

/// The formal parameters that are to give something back at each normal end.
#[tactic(auto, using(std::proofs::lemmas::Grind::common_steps, crate::proofs::Formals::owed_steps))]
fn owed_by(
    alloc: Global,
    formals: &[FormalMode],
    variables: &[Variable],
) -> Result<Vec<VariableNo>, AllocError>
    ensures { IfOk result (λ owed. map variable_number owed.items
        ≡ rules.owed_from 0 formals.now (map variable_form variables.now)) }
{
    let mut owed = Vec::new(alloc);
    for (number, mode) in formals.iter().enumerate() {
        match variables.get(number) {
            None => return Ok(owed),
            Some(variable) => add_owed(&mut owed, *mode, variable.kind, VariableNo(number))?,
        }
    }
    Ok(owed)
}

/// What a formal parameter of a mode is relied on for where its body begins. A record is another's, and is there as long as the
/// body runs.
pub(crate) fn formal_hold(mode: FormalMode, kind: VariableKind) -> Hold
    ensures { result ≡ rules.formal_hold mode kind }
{
    match (mode, kind) {
        (FormalMode::In, VariableKind::Access(_)) => Hold::Alias(Region::Whole),
        (FormalMode::InOut, VariableKind::Access(_)) => Hold::Kept(Region::Whole),
        (_, VariableKind::Integer | VariableKind::Boolean) => Hold::Lost,
        (_, VariableKind::Record(_)) => Hold::Alias(Region::Whole),
    }
}

/// What a variable is relied on for where its body begins: any but a formal parameter is not declared yet.
fn first_hold(modes: &[FormalMode], number: usize, kind: VariableKind) -> Hold
    ensures { result ≡ first_hold (slice_get modes.now number) kind }
{
    match modes.get(number) {
        None => Hold::Lost,
        Some(mode) => formal_hold(*mode, kind),
    }
}

/// What each variable is relied on for where its body begins, with formal parameters of these modes.
#[tactic(auto, using(std::proofs::lemmas::Grind::common_steps, crate::proofs::Formals::first_steps))]
fn first_holds(
    alloc: Global,
    modes: &[FormalMode],
    variables: &[Variable],
) -> Result<Vec<Hold>, AllocError>
    ensures { IfOk result (λ holds. holds.items
        ≡ rules.first_holds modes.now (map variable_form variables.now)) }
{
    let mut holds = Vec::new(alloc);
    for (number, variable) in variables.iter().enumerate() {
        holds.push(first_hold(modes, number, variable.kind))?;
    }
    Ok(holds)
}

/// What is owned or null at each normal end of a body: formal parameters, and tracked components.
#[tactic(auto, using(std::proofs::lemmas::Grind::common_steps, crate::proofs::Tracked::behind_steps))]
pub(crate) fn owed_at_ends(
    alloc: Global,
    tracks: Tracks<'_>,
    formals: &[FormalMode],
    variables: &[Variable],
) -> Result<Vec<VariableNo>, AllocError>
    ensures { IfOk result (λ owed. map variable_number owed.items
        ≡ rules.owed_at_ends (tracks_in tracks.entry) formals.now (map variable_form variables.now)) }
{
    let mut owed = owed_by(alloc, formals, variables)?;
    tracks.add_numbers(&mut owed)?;
    Ok(owed)
}

/// What each variable and each tracked component is relied on for where a body begins, with formal parameters of these modes.
#[tactic(auto, using(std::proofs::lemmas::Grind::common_steps, crate::proofs::Tracked::behind_steps))]
pub(crate) fn holds_at_first(
    alloc: Global,
    tracks: Tracks<'_>,
    modes: &[FormalMode],
    variables: &[Variable],
) -> Result<Vec<Hold>, AllocError>
    ensures { IfOk result (λ holds. holds.items
        ≡ rules.holds_at_first (tracks_in tracks.entry) modes.now (map variable_form variables.now)) }
{
    let mut holds = first_holds(alloc, modes, variables)?;
    tracks.add_holds(&mut holds)?;
    Ok(holds)
}

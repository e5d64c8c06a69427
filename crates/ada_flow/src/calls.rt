//! The flow of values through calls (6.4): what is lost behind one, and what it may raise.

ghost use Rattle.std.specs.Prelude.{◌≡◌, ◌||◌, List, true, false, ◌∷◌, IfOk, OnOk, Some, map};
ghost use Rattle.std.specs.List.{slice_get, slice_index_or};
ghost use Rattle.ada_effects.specs.Effects as effects;
ghost use Rattle.ada_effects.specs.Found.{effect_in, has_number};
ghost use Rattle.ada_flow.specs.Flow as rules;
ghost use Rattle.ada_flow.specs.Told.{Leads, also_noted, around_of, effects_in, noted, tracks_around, types_in, variables_in};
ghost use Rattle.ada_program.specs.Form.{ActualForm, actual_form};

use crate::around::Around;
use crate::fault::FlowFault;
use crate::follow::unless_broken;
use crate::keeping::kept_at;
use crate::known::Known;
use crate::losing::forget_freed;
use crate::moves::lose_value;
use crate::passing::broken_in_actuals;
use crate::raised::Raised;
use crate::rule::{Hold, Region};
use ada_effects::{Effect, actuals_raise};
use ada_program::program::Actual;
use ada_program::{ProcedureNo, TypeNo};
use std::alloc::{AllocError, Global};

/// The access types of which a call of a procedure may free objects: none, where nothing is known of it.
fn freed_by<'a>(around: &Around<'a>, procedure: ProcedureNo) -> &'a [TypeNo]
    ensures { has_number result.now
        ≡ effects.call_frees (slice_get (effects_in around.now).calls procedure.0) }
{
    match around.setting.effects.calls.get(procedure.0) {
        None => &[],
        Some(effect) => &effect.frees,
    }
}

/// Whether a call of which this is known may raise an exception.
pub(crate) fn raises_some(effect: &Effect) -> bool
    ensures { result ≡ effects.call_raises (Some (effect_in effect.now)) (λ e. true) }
{
    match effect.raises.as_slice() {
        [] => false,
        [_, ..] => true,
    }
}

/// What a call leaves, whose procedure this is: every alias of the access types is lost of which it may free objects. Whether
/// it may raise an exception.
fn enter(
    alloc: Global,
    around: &Around<'_>,
    known: &mut Known,
    procedure: ProcedureNo,
) -> Result<bool, AllocError>
    ensures left { let effect = slice_get (effects_in around.now).calls procedure.0 in
        OnOk result (known.new.holds.items ≡ rules.left_by_call (variables_in around.now) effect known.old.holds.items) }
    ensures raises { let effect = slice_get (effects_in around.now).calls procedure.0 in
        IfOk result (λ raises. raises ≡ effects.call_raises effect (λ e. true)) }
{
    match around.setting.effects.calls.get(procedure.0) {
        None => Ok(false),
        Some(effect) => {
            forget_freed(alloc, around.setting.variables, known, &effect.frees)?;
            Ok(raises_some(effect))
        }
    }
}

/// A variable that was handed over, where the call raises an exception: it is what it was, if its formal parameter is kept.
fn lose_actual(known: &mut Known, is_kept: bool, actual: &Actual)
    ensures { (kept : rules.Keeping) → (rest : List ActualForm) → rules.first_kept kept ≡ is_kept →
        rules.left_unkept kept (actual_form actual.now ∷ rest) known.old.holds.items
        ≡ rules.left_unkept (rules.others_kept kept) rest known.new.holds.items }
{
    match actual {
        Actual::InOutAccess(path) => {
            if !is_kept {
                lose_value(known, path.root);
            }
        }
        Actual::In(_)
        | Actual::InNull
        | Actual::InAccess(_)
        | Actual::InRecord(_)
        | Actual::InOut(_)
        | Actual::InOutComponent(_)
        | Actual::InOutRecord(_) => {}
    }
}

/// Whether the formal parameter of a number is kept.
fn is_kept(kept: &[bool], formal: usize) -> bool
    ensures { result ≡ slice_index_or kept.now formal false }
{
    match kept.get(formal) {
        None => false,
        Some(is_kept) => *is_kept,
    }
}

/// The variables that were handed over, where the call raises an exception: none of them owns anything but those that are kept.
#[tactic(auto, using(std::proofs::lemmas::Grind::common_steps, crate::proofs::Called::unkept_steps))]
fn lose_unkept(known: &mut Known, kept: &[bool], actuals: &[Actual])
    ensures { known.new.holds.items
        ≡ rules.left_unkept kept.now (map actual_form actuals.now) known.old.holds.items }
{
    for (number, actual) in actuals.iter().enumerate() {
        lose_actual(known, is_kept(kept, number), actual);
    }
}

/// Notes what is known where a call raises an exception, if it may, and if something around wants to know it.
#[tactic(auto, using(std::proofs::lemmas::Grind::common_steps, crate::proofs::Called::raising_steps))]
fn note_unkept(
    alloc: Global,
    known: &Known,
    raised: &mut Raised,
    may_raise: bool,
    kept: &[bool],
    actuals: &[Actual],
) -> Result<(), AllocError>
    ensures { let unkept = rules.left_unkept kept.now (map actual_form actuals.now) known.now.holds.items in
        OnOk result (noted raised.new ≡ also_noted (noted raised.old) (rules.raising_if may_raise unkept)) }
{
    if may_raise && raised.is_wanted() {
        let mut behind = known.copy(alloc)?;
        lose_unkept(&mut behind, kept, actuals);
        raised.add(Some(behind));
    }
    Ok(())
}

/// What an actual parameter handed over comes back: its variable owns it.
fn get_back(known: &mut Known, actual: &Actual)
    ensures { (rest : List ActualForm) → rules.handed_back (actual_form actual.now ∷ rest) known.old.holds.items
        ≡ rules.handed_back rest known.new.holds.items }
{
    match actual {
        Actual::InOutAccess(path) => known.put(path.root, Hold::Own(Region::Whole)),
        Actual::In(_)
        | Actual::InNull
        | Actual::InAccess(_)
        | Actual::InRecord(_)
        | Actual::InOut(_)
        | Actual::InOutComponent(_)
        | Actual::InOutRecord(_) => {}
    }
}

/// What was handed over comes back behind a call.
fn get_all_back(known: &mut Known, actuals: &[Actual])
    ensures { known.new.holds.items
        ≡ rules.handed_back (map actual_form actuals.now) known.old.holds.items }
{
    'actuals: for actual in actuals {
        get_back(known, actual);
    }
}

/// A call: its actual parameters are evaluated, and then it does what is known of it. Behind it every alias of the access types
/// is lost of which it may free objects, and so it is where it raises an exception. What was handed over comes back behind it,
/// and is lost where it raises an exception, unless the procedure keeps it.
pub(crate) fn call(
    alloc: Global,
    around: &Around<'_>,
    known: &mut Known,
    raised: &mut Raised,
    procedure: ProcedureNo,
    actuals: &[Actual],
) -> Result<(), FlowFault>
    ensures { let effect = slice_get (effects_in around.now).calls procedure.0 in
        let kept = rules.kept_at (around_of around.now).kept procedure.0 in
        Leads result known.new.holds.items raised.old raised.new
        (rules.called (types_in around.now) (variables_in around.now) (tracks_around around.now) effect kept
        (map actual_form actuals.now) known.old.holds.items) }
{
    let setting = around.setting;
    let freed = freed_by(around, procedure);
    unless_broken(broken_in_actuals(
        setting.types,
        setting.variables,
        setting.tracks,
        freed,
        known.holds(),
        actuals,
    ))?;
    let may_raise = actuals_raise(actuals);
    let raises = enter(alloc, around, known, procedure)?;
    let kept = kept_at(around.setting.kept, procedure);
    note_unkept(alloc, known, raised, may_raise || raises, kept, actuals)?;
    get_all_back(known, actuals);
    Ok(())
}

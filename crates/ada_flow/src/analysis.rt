//! The flow of values through initial values and assignments.

ghost use Rattle.std.specs.Prelude.{◌≡◌};
ghost use Rattle.ada_flow.specs.Flow.{broken_among, gives_component, gives_value, gets_path, declaration_flow, initializes, uses_in_start, waits_for};
ghost use Rattle.ada_flow.specs.Told.{Follows, Leads, assignment_of, broken, declarations_of, implicit_around, target_of, tracks_around, types_in, variables_in};
ghost use Rattle.ada_flow.specs.Tracking.{seen};
ghost use Rattle.ada_effects.specs.Found.{has_number};
ghost use Rattle.ada_program.specs.Form.{path_form, right_form, declaration_form};

use crate::around::Around;
use crate::fault::{Breach, FlowFault};
use crate::follow::{follow_target, leftmost, unless_broken};
use crate::holds::hold_seen;
use crate::implicit::start;
use crate::known::Known;
use crate::losing::freed_at_start;
use crate::moves::{evaluation_raises, lose_moved, right_hold, use_assignment, use_right};
use crate::passing::{component_passes, passed_by};
use crate::raised::Raised;
use crate::records::create_record;
use crate::rule::Hold;
use ada_effects::path_raises;
use ada_program::borrowers::is_borrower;
use ada_program::program::{Declaration, Right};
use ada_program::{Path, Spot, TypeNo, VariableNo};
use std::alloc::Global;

/// A variable that stands at the spot, a borrower or not, or a tracked component, which is this target, gets a value: it is evaluated
/// first, a new object is initialized, and what is moved goes there.
#[tactic(auto, using(std::proofs::lemmas::Grind::common_steps, crate::proofs::Initialized::giving_steps))]
fn give(
    alloc: Global,
    around: &Around<'_>,
    known: &mut Known,
    raised: &mut Raised,
    spot: Spot,
    borrows: bool,
    cleared: bool,
    target: Option<&Path>,
    place: VariableNo,
    value: &Right,
) -> Result<(), FlowFault>
    ensures { Leads result known.new.holds.items raised.old raised.new
        (initializes (variables_in around.now) (implicit_around around.now) (right_form value.now)
        (gives_value (types_in around.now) (tracks_around around.now) spot borrows cleared (target_of target.entry) place.0
        (right_form value.now) known.old.holds.items)) }
{
    let tracks = around.setting.tracks;
    use_right(
        around.setting.types,
        tracks,
        spot,
        known.holds(),
        borrows,
        cleared,
        target,
        value,
    )?;
    start(alloc, around, known, value)?;
    raised.note_if(evaluation_raises(value), alloc, known)?;
    let hold = right_hold(tracks, known.holds(), borrows, value);
    lose_moved(tracks, known, borrows, value);
    known.put(place, hold);
    Ok(())
}

/// A component gets a value, and its object is found first; no variable changes but those that are moved, and those whose aliases
/// are lost as a new object is initialized.
#[tactic(auto, using(std::proofs::lemmas::Grind::common_steps, crate::proofs::Initialized::giving_steps))]
fn give_component(
    alloc: Global,
    around: &Around<'_>,
    known: &mut Known,
    raised: &mut Raised,
    cleared: bool,
    target: &Path,
    value: &Right,
) -> Result<(), FlowFault>
    ensures { Leads result known.new.holds.items raised.old raised.new
        (initializes (variables_in around.now) (implicit_around around.now) (right_form value.now)
        (gives_component (types_in around.now) (tracks_around around.now) cleared (path_form target.now) (right_form value.now) known.old.holds.items)) }
{
    let tracks = around.setting.tracks;
    use_assignment(
        around.setting.types,
        tracks,
        known.holds(),
        cleared,
        target,
        value,
    )?;
    start(alloc, around, known, value)?;
    raised.note_if(
        path_raises(target) || evaluation_raises(value),
        alloc,
        known,
    )?;
    lose_moved(tracks, known, false, value);
    Ok(())
}

/// The rule that the path to a component breaks which is found before a new object is initialized: that may free nothing that the
/// path follows, where it may free objects of these access types. Costs the length of the path, for each of them.
fn broken_in_wait(
    around: &Around<'_>,
    freed: &[TypeNo],
    holds: &[Hold],
    target: &Path,
) -> Option<Breach>
    ensures { let path = path_form target.now in
        let at = seen (tracks_around around.now) path in
        let uses = waits_for (types_in around.now) (variables_in around.now) (has_number freed.now) at.selectors path in
        broken result ≡ broken_among (tracks_around around.now) holds.now uses }
{
    let tracks = around.setting.tracks;
    if tracks.seen(target).selectors.is_empty() {
        return None;
    }
    let passes = component_passes(
        around.setting.types,
        around.setting.variables,
        freed,
        target,
    );
    leftmost(
        passed_by(passes, hold_seen(tracks, holds, target), target.spot),
        None,
    )
}

/// Uses the path of a target while what is assigned to it is initialized.
///
/// # Errors
/// The rule that it breaks.
fn use_start(
    around: &Around<'_>,
    holds: &[Hold],
    target: &Path,
    value: &Right,
) -> Result<(), Breach>
    ensures { let uses = uses_in_start (types_in around.now) (variables_in around.now) (tracks_around around.now)
        (implicit_around around.now) (path_form target.now) (right_form value.now) in
        Follows result (broken_among (tracks_around around.now) holds.now uses) }
{
    match value {
        Right::Default(access) => {
            let freed = freed_at_start(around.setting.effects.implicit, access.0);
            unless_broken(broken_in_wait(around, freed, holds, target))
        }
        Right::Null | Right::Path(_) | Right::Allocator { .. } | Right::Value(_) => Ok(()),
    }
}

/// An assignment: its target is a tracked component, a variable or another component.
pub(crate) fn assign(
    alloc: Global,
    around: &Around<'_>,
    known: &mut Known,
    raised: &mut Raised,
    cleared: bool,
    target: &Path,
    value: &Right,
) -> Result<(), FlowFault>
    ensures { Leads result known.new.holds.items raised.old raised.new
        (assignment_of around.now cleared target.now value.now known.old.holds.items) }
{
    use_start(around, known.holds(), target, value)?;
    if around.setting.tracks.has(target) {
        let place = around.setting.tracks.seen(target).root;
        let itself = Some(target);
        give(
            alloc,
            around,
            known,
            raised,
            target.spot,
            false,
            cleared,
            itself,
            place,
            value,
        )
    } else if target.selectors.is_empty() {
        let borrows = is_borrower(around.setting.variables, target.root.0);
        give(
            alloc,
            around,
            known,
            raised,
            target.spot,
            borrows,
            cleared,
            None,
            target.root,
            value,
        )
    } else {
        give_component(alloc, around, known, raised, cleared, target, value)
    }
}

/// `Run_Input.Get (X)`, or with a component, whose object is found first: there may be no number.
pub(crate) fn get(
    alloc: Global,
    around: &Around<'_>,
    known: &mut Known,
    raised: &mut Raised,
    target: &Path,
) -> Result<(), FlowFault>
    ensures { let read = path_form target.now in
        Leads result known.new.holds.items raised.old raised.new (gets_path (tracks_around around.now) read.selectors read known.old.holds.items) }
{
    if target.selectors.is_empty() {
        raised.note(alloc, known)?;
        known.put(target.root, Hold::Lost);
    } else {
        follow_target(around.setting.tracks, known.holds(), target)?;
        raised.note(alloc, known)?;
    }
    Ok(())
}

/// One declaration.
fn declaration(
    alloc: Global,
    around: &Around<'_>,
    known: &mut Known,
    raised: &mut Raised,
    declaration: &Declaration,
) -> Result<(), FlowFault>
    ensures { Leads result known.new.holds.items raised.old raised.new
        (declaration_flow (types_in around.now) (variables_in around.now) (tracks_around around.now) (implicit_around around.now)
        (declaration_form declaration.now) known.old.holds.items) }
{
    match declaration {
        Declaration::Pool(_) | Declaration::Collection(_) => Ok(()),
        Declaration::Variable {
            variable,
            initial: Some(value),
        } => {
            let spot = around.declared_at(*variable);
            let borrows = is_borrower(around.setting.variables, variable.0);
            give(
                alloc, around, known, raised, spot, borrows, false, None, *variable, value,
            )
        }
        Declaration::Variable {
            variable,
            initial: None,
        } => {
            known.put(*variable, Hold::Null);
            Ok(())
        }
        Declaration::Record {
            variable,
            object,
            initial,
        } => create_record(alloc, around, known, raised, *variable, *object, initial),
    }
}

/// The declarations, in order.
#[tactic(auto, using(std::proofs::lemmas::Grind::common_steps, crate::proofs::Noted::noted_steps))]
pub(crate) fn declare(
    alloc: Global,
    around: &Around<'_>,
    known: &mut Known,
    raised: &mut Raised,
    declarations: &[Declaration],
) -> Result<(), FlowFault>
    ensures { Leads result known.new.holds.items raised.old raised.new
        (declarations_of around.now declarations.now known.old.holds.items) }
{
    'declarations: for one in declarations {
        declaration(alloc, around, known, raised, one)?;
    }
    Ok(())
}

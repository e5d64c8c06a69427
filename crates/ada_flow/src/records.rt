//! The flow of values through records that get values as wholes: those that are assigned to, and those that are declared.

ghost use Rattle.std.specs.Prelude.{◌≡◌, ◌||◌, ℕ, true, None, [], ◌∷◌, map};
ghost use Rattle.ada_effects.specs.Effects as effects;
ghost use Rattle.ada_effects.specs.Found.{implicit_in};
ghost use Rattle.ada_flow.specs.Flow as rules;
ghost use Rattle.ada_flow.specs.Implicit.{frees_either};
ghost use Rattle.ada_flow.specs.Told.{Follows, Leads, broken, implicit_around, tracks_around, tracks_in, types_in, variables_in};
ghost use Rattle.ada_program.specs.Form.{declares_record, initial_items, item_form, record_path_form};
ghost use Rattle.ada_program.specs.ProgramForm.{type_form};

use crate::around::Around;
use crate::fault::{Breach, FlowFault};
use crate::follow::{leftmost, unless_broken};
use crate::implicit::{freed_at_first, start_raises};
use crate::known::Known;
use crate::losing::{forget_freed, freed_at_end, freed_by_adjust};
use crate::moves::broken_in_items;
use crate::owning::{copied_to, gathers_at_first, gathers_owners};
use crate::passing::{broken_in_passing, record_passes};
use crate::raised::Raised;
use crate::rule::{Hold, Region};
use crate::tracks::Tracks;
use ada_effects::{Implicit, items_raise, record_path_raises};
use ada_program::program::{Item, RecordPath, TypeDefinition};
use ada_program::{Spot, TypeNo, VariableNo};
use std::alloc::Global;

/// The leftmost rule that the items break that a record gets which stands at the spot.
fn broken_in_given(
    types: &[TypeDefinition],
    tracks: Tracks<'_>,
    spot: Spot,
    owning: bool,
    holds: &[Hold],
    items: &[Item],
) -> Option<Breach>
    ensures { let given = rules.uses_in_items (map type_form types.now) spot None [] (map item_form items.now) in
        broken result ≡ rules.broken_among (tracks_in tracks.entry) holds.now (rules.copies_to owning spot ∷ given) }
{
    leftmost(
        copied_to(owning, spot),
        broken_in_items(types, tracks, spot, holds, None, items),
    )
}

/// The rule that the path to a record breaks in whose midst operations may free objects of some access types and of others: its
/// variable must not be lost, and it follows no value of these.
fn broken_in_record_path(
    around: &Around<'_>,
    ended: &[TypeNo],
    adjusted: &[TypeNo],
    holds: &[Hold],
    path: &RecordPath,
) -> Option<Breach>
    ensures { let may = frees_either ended.now adjusted.now in
        let at = record_path_form path.now in
        let passes = rules.record_passes (types_in around.now) (variables_in around.now) may at in
        broken result ≡ rules.broken_in (tracks_around around.now) holds.now (rules.passes_it passes at.object) }
{
    let types = around.setting.types;
    let variables = around.setting.variables;
    let passes = record_passes(types, variables, ended, path);
    broken_in_passing(
        types,
        variables,
        around.setting.tracks,
        adjusted,
        holds,
        passes,
        path,
    )
}

/// The rule that the path to a record breaks which is copied alone.
fn broken_in_source(
    around: &Around<'_>,
    ended: &[TypeNo],
    adjusted: &[TypeNo],
    holds: &[Hold],
    items: &[Item],
) -> Option<Breach>
    ensures { let uses = rules.uses_in_copy (types_in around.now) (variables_in around.now) (frees_either ended.now adjusted.now) (map item_form items.now) in
        broken result ≡ rules.broken_among (tracks_around around.now) holds.now uses }
{
    match items {
        [Item::Record(path)] => leftmost(
            broken_in_record_path(around, ended, adjusted, holds, path),
            None,
        ),
        _ => None,
    }
}

/// Uses the path to the object of a record that gets these items, and what they name, where its operations may free objects of
/// some access types and of others.
///
/// # Errors
/// The leftmost rule that one of them breaks.
fn use_record(
    around: &Around<'_>,
    ended: &[TypeNo],
    adjusted: &[TypeNo],
    holds: &[Hold],
    target: &RecordPath,
    items: &[Item],
) -> Result<(), Breach>
    ensures { let to = record_path_form target.now in
        let may = frees_either ended.now adjusted.now in
        let uses = rules.uses_in_assignment (types_in around.now) (variables_in around.now) may to (map item_form items.now) in
        Follows result (rules.broken_among (tracks_around around.now) holds.now uses) }
{
    let spot = target.object.spot;
    let types = around.setting.types;
    let owning = gathers_owners(types, target.record, items);
    let given = broken_in_given(types, around.setting.tracks, spot, owning, holds, items);
    let source = broken_in_source(around, ended, adjusted, holds, items);
    let to = broken_in_record_path(around, ended, adjusted, holds, target);
    let copied = leftmost(given, source);
    unless_broken(leftmost(to, copied))
}

/// Whether an assignment to a record may raise an exception, where the record is found or where its items are evaluated.
fn assignment_raises(target: &RecordPath, items: &[Item]) -> bool
    ensures { let to = record_path_form target.now in
        result ≡ (effects.record_path_raises to || effects.items_raise (map item_form items.now)) }
{
    record_path_raises(target) || items_raise(items)
}

/// A record gets the values of items, and its object is found first. It is finalized and adjusted, and no variable changes but
/// those whose aliases are lost by that.
pub(crate) fn give_record(
    alloc: Global,
    around: &Around<'_>,
    known: &mut Known,
    raised: &mut Raised,
    target: &RecordPath,
    items: &[Item],
) -> Result<(), FlowFault>
    ensures { let to = record_path_form target.now in
        let given = map item_form items.now in
        let may = λ (t : ℕ). effects.assignment_frees (implicit_around around.now) t to.record_type in
        Leads result known.new.holds.items raised.old raised.new
        (rules.gives_record (types_in around.now) (variables_in around.now) (tracks_around around.now) may to given known.old.holds.items) }
{
    let implicit = around.setting.effects.implicit;
    let ended = freed_at_end(implicit, target.record.0);
    let adjusted = freed_by_adjust(implicit, target.record.0);
    use_record(around, ended, adjusted, known.holds(), target, items)?;
    forget_freed(alloc, around.setting.variables, known, ended)?;
    forget_freed(alloc, around.setting.variables, known, adjusted)?;
    raised.note_if(assignment_raises(target, items), alloc, known)?;
    Ok(())
}

/// Uses what the initial value of a record object names, where there is one. Its name stands at the spot.
///
/// # Errors
/// The leftmost rule that it breaks.
fn use_initial(
    types: &[TypeDefinition],
    tracks: Tracks<'_>,
    spot: Spot,
    object: TypeNo,
    holds: &[Hold],
    initial: &Option<Vec<Item>>,
) -> Result<(), Breach>
    ensures { let uses = rules.uses_in_initial (map type_form types.now) spot object.0 (initial_items initial.now) in
        Follows result (rules.broken_among (tracks_in tracks.entry) holds.now uses) }
{
    match initial {
        None => Ok(()),
        Some(items) => {
            let owning = gathers_at_first(types, object, items);
            unless_broken(broken_in_given(types, tracks, spot, owning, holds, items))
        }
    }
}

/// Whether the declaration of a record object may raise an exception: its initial value may, or its initialization where there is
/// none.
fn creation_raises(implicit: &Implicit, object: TypeNo, initial: &Option<Vec<Item>>) -> bool
    ensures { let items = initial_items initial.now in
        result ≡ (effects.initial_raises items || effects.initial_starts (implicit_in implicit.now) (λ e. true) object.0 items) }
{
    match initial {
        None => start_raises(implicit, object.0),
        Some(items) => items_raise(items),
    }
}

/// A record object is declared: it gets its initial value, or is initialized, and owns itself.
pub(crate) fn create_record(
    alloc: Global,
    around: &Around<'_>,
    known: &mut Known,
    raised: &mut Raised,
    variable: VariableNo,
    object: TypeNo,
    initial: &Option<Vec<Item>>,
) -> Result<(), FlowFault>
    ensures { let creation = declares_record variable.0 object.0 (initial_items initial.now) in
        Leads result known.new.holds.items raised.old raised.new
        (rules.declaration_flow (types_in around.now) (variables_in around.now) (tracks_around around.now)
        (implicit_around around.now) creation known.old.holds.items) }
{
    let spot = around.declared_at(variable);
    use_initial(
        around.setting.types,
        around.setting.tracks,
        spot,
        object,
        known.holds(),
        initial,
    )?;
    let implicit = around.setting.effects.implicit;
    let freed = freed_at_first(implicit, object, initial);
    forget_freed(alloc, around.setting.variables, known, freed)?;
    raised.note_if(creation_raises(implicit, object, initial), alloc, known)?;
    known.put(variable, Hold::Own(Region::Whole));
    Ok(())
}

//! The flow of values through `Free`: what is lost behind the end of an object.

ghost use Rattle.std.specs.Prelude.{◌≡◌, Some, map};
ghost use Rattle.ada_flow.specs.Flow as rules;
ghost use Rattle.ada_flow.specs.Told.{Leads, Tells, broken, implicit_around, tracks_around, types_in, variables_in};
ghost use Rattle.ada_flow.specs.Tracking as tracking;
ghost use Rattle.ada_program.specs.Form.{component_number, path_form};
ghost use Rattle.ada_program.specs.ProgramForm.{type_form, variable_form};
ghost use Rattle.ada_program.specs.WellFormed as fits;

use crate::around::Around;
use crate::fault::{Breach, FlowFault};
use crate::follow::{lost_by, unless_broken};
use crate::holds::{have_alias, hold_of, hold_seen, is_alias};
use crate::implicit::finalize;
use crate::known::Known;
use crate::losing::reached_at_end;
use crate::passing::{component_passes, handed_by};
use crate::raised::Raised;
use crate::rule::{Hold, Rule};
use ada_effects::path_raises;
use ada_program::lookup::{access_of, is_this, path_access, selected_kind, variable_kind};
use ada_program::program::{ComponentNo, TypeDefinition, Variable, VariableKind};
use ada_program::{Path, Spot};
use std::alloc::Global;

/// A rule that is broken where a path stands.
fn breach_at(path: &Path, rule: Rule) -> Breach
    ensures { result ≡ record { spot = path.now.spot; rule = rule } }
{
    Breach {
        spot: path.spot,
        rule,
    }
}

/// What is known of one variable where an object of an access type may be gone: an alias of it is lost.
fn without_alias(variable: &Variable, access: usize, hold: Hold) -> Hold
    ensures { result
        ≡ rules.without_alias (fits.is_this access (fits.access_of (Some variable.now.kind))) hold }
{
    match hold {
        Hold::Alias(_) if is_this(access, access_of(Some(variable.kind))) => Hold::Lost,
        hold => hold,
    }
}

/// Where an object of an access type may be gone, every alias of the type is lost.
#[tactic(auto, using(std::proofs::lemmas::Grind::common_steps, crate::proofs::Freed::losing_steps))]
fn lose_aliases(variables: &[Variable], holds: &mut Vec<Hold>, access: usize)
    ensures { holds.new.items
        ≡ rules.without_aliases (map variable_form variables.now) access holds.old.items }
{
    holds.truncate(variables.len());
    for number in 0..holds.len() {
        holds[number] = without_alias(&variables[number], access, holds[number]);
    }
}

/// The same of what is known. Costs the number of variables where one may hold an alias, and nothing where none does.
#[tactic(auto, using(std::proofs::lemmas::Grind::common_steps, crate::proofs::Aliased::freeing_steps))]
fn forget_aliases(variables: &[Variable], known: &mut Known, access: usize)
    ensures { known.new.holds.items
        ≡ rules.without_aliases (map variable_form variables.now) access known.old.holds.items }
{
    if known.aliased {
        lose_aliases(variables, &mut known.holds, access);
        known.aliased = have_alias(known.holds());
    } else {
        known.holds.truncate(variables.len());
    }
}

/// The same where the object has an access type: an Integer or a Boolean has none.
fn end_object(variables: &[Variable], known: &mut Known, access: Option<usize>)
    ensures { known.new.holds.items
        ≡ rules.behind_end (map variable_form variables.now) access known.old.holds.items }
{
    if let Some(access) = access {
        forget_aliases(variables, known, access);
    }
}

/// `Free (X)`: only an owner frees. Behind it every alias of its access type is lost.
///
/// # Errors
/// Where what is freed is lost, or an alias.
fn release_variable(variables: &[Variable], known: &mut Known, path: &Path) -> Result<(), Breach>
    ensures { let freed = path_form path.now in
        let hold = rules.hold_at known.old.holds.items freed.root in
        Tells result known.new.holds.items
        (rules.released (map variable_form variables.now) freed.root freed.spot known.old.holds.items hold) }
{
    match hold_of(known.holds(), path.root) {
        Hold::Null | Hold::Kept(_) | Hold::Own(_) => {
            let own = access_of(variable_kind(variables, path.root.0));
            end_object(variables, known, own);
            known.put(path.root, Hold::Null);
            Ok(())
        }
        Hold::Alias(_) => Err(breach_at(path, Rule::AliasMoved)),
        Hold::Lost => Err(breach_at(path, Rule::LostValue)),
    }
}

/// Whether a path passes an access type: it follows a value of it. Costs the length of the path.
fn passes_type(types: &[TypeDefinition], variables: &[Variable], path: &Path, access: usize) -> bool
    ensures { let followed = path_form path.now in
        let kind = fits.variable_kind (map variable_form variables.now) followed.root in
        result ≡ rules.passes_type (map type_form types.now) kind followed.selectors access }
{
    let mut kind = variable_kind(variables, path.root.0);
    'selectors: for component in &path.selectors {
        if is_this(access, access_of(kind)) {
            return true;
        }
        kind = selected_kind(types, kind, component.0);
    }
    false
}

/// Whether a path passes the access type of what it names, if that has one.
fn passes_own(
    types: &[TypeDefinition],
    variables: &[Variable],
    path: &Path,
    access: Option<usize>,
) -> bool
    ensures { result ≡ rules.passes_own
        (map type_form types.now) (map variable_form variables.now) (path_form path.now) access }
{
    match access {
        None => false,
        Some(access) => passes_type(types, variables, path, access),
    }
}

/// Whether a path follows a value of an access type that the finalization of what it names reaches, if that has an access type.
/// Costs the length of the path, for each of these types.
fn passes_reached(around: &Around<'_>, path: &Path, access: Option<usize>) -> bool
    ensures { result ≡ rules.passes_reached
        (types_in around.now) (variables_in around.now) (implicit_around around.now) (path_form path.now) access }
{
    match access {
        None => false,
        Some(access) => {
            let reached = reached_at_end(around.setting.effects.implicit, access);
            component_passes(
                around.setting.types,
                around.setting.variables,
                reached,
                path,
            )
        }
    }
}

/// The record type of a record object, by what its variable holds. None, if it is no record object.
pub(crate) fn object_record(types: &[TypeDefinition], kind: Option<VariableKind>) -> Option<usize>
    ensures { result ≡ rules.object_record (map type_form types.now) kind }
{
    match kind? {
        VariableKind::Record(object) => match types.get(object.0) {
            Some(TypeDefinition::Object { record }) => Some(record.0),
            Some(TypeDefinition::Record { .. } | TypeDefinition::Access { .. }) | None => None,
        },
        VariableKind::Integer | VariableKind::Boolean | VariableKind::Access(_) => None,
    }
}

/// Whether a path that begins with a record stays inside it: only the first selector follows no value.
fn stays_inside(selectors: &[ComponentNo]) -> bool
    ensures { result ≡ rules.stays_inside (map component_number selectors.now) }
{
    match selectors {
        [] | [_] => true,
        [_, _, ..] => false,
    }
}

/// The record type of the formal parameter in which a component lies, by what the path's variable holds. None, if the path
/// begins with another variable, or follows a value.
fn formal_record(
    types: &[TypeDefinition],
    variables: &[Variable],
    path: &Path,
    hold: Hold,
) -> Option<usize>
    ensures { result
        ≡ rules.formal_record (map type_form types.now) (map variable_form variables.now) (path_form path.now) hold }
{
    if is_alias(hold) && stays_inside(&path.selectors) {
        object_record(types, variable_kind(variables, path.root.0))
    } else {
        None
    }
}

/// Whether the finalization of an object of an access type reaches an access type whose objects are of a record type, or have
/// a part of it, if there is such a type.
fn reaches_part(around: &Around<'_>, access: usize, record_type: Option<usize>) -> bool
    ensures { result ≡ rules.reaches_part (types_in around.now) (implicit_around around.now) access record_type }
{
    match record_type {
        None => false,
        Some(record_type) => around.setting.reached.has(
            around.setting.types,
            around.setting.effects.implicit,
            access,
            record_type,
        ),
    }
}

/// Whether the finalization of what a component names reaches an access type, one of whose objects may be the one in which the
/// formal parameter lies of which it is a component. Constant.
fn formal_reached(around: &Around<'_>, path: &Path, hold: Hold, access: Option<usize>) -> bool
    ensures { result ≡ rules.formal_reached
        (types_in around.now) (variables_in around.now) (implicit_around around.now) (path_form path.now) hold access }
{
    match access {
        None => false,
        Some(access) => {
            let types = around.setting.types;
            let record_type = formal_record(types, around.setting.variables, path, hold);
            reaches_part(around, access, record_type)
        }
    }
}

/// Whether the way to a component is unsafe while what it names is finalized: it passes the component's own access type, or one
/// that the finalization reaches, or begins at a formal parameter that lies in an object which that may reach.
fn way_reached(around: &Around<'_>, path: &Path, hold: Hold, access: Option<usize>) -> bool
    ensures { result ≡ rules.way_reached
        (types_in around.now) (variables_in around.now) (implicit_around around.now) (path_form path.now) hold access }
{
    passes_own(around.setting.types, around.setting.variables, path, access)
        || passes_reached(around, path, access)
        || formal_reached(around, path, hold, access)
}

/// The rule that freeing a component breaks: what is lost is not followed, and the way to it is safe.
fn freed_behind(is_unsafe: bool, hold: Hold, spot: Spot) -> Option<Breach>
    ensures { broken result ≡ rules.freed_behind is_unsafe hold spot }
{
    match hold {
        Hold::Null | Hold::Kept(_) | Hold::Own(_) | Hold::Alias(_) if is_unsafe => Some(Breach {
            spot,
            rule: Rule::UnsafePath,
        }),
        _ => lost_by(hold, spot),
    }
}

/// `Free (P.C)`: a component owns its object, which is finalized. Behind it every alias of its access type is lost, and of those of
/// which the finalization may free objects, and so it is where a value on the path is null. Costs the length of the path besides.
///
/// # Errors
/// Where the path follows a lost value, or passes its own type, or one that the finalization reaches, or where it follows none,
/// and begins at a formal parameter that lies in an object which the finalization may reach.
#[tactic(auto, using(std::proofs::lemmas::Grind::common_steps, crate::proofs::Initialized::freeing_steps))]
fn release_component(
    alloc: Global,
    around: &Around<'_>,
    known: &mut Known,
    raised: &mut Raised,
    path: &Path,
    access: Option<usize>,
) -> Result<(), FlowFault>
    ensures { let freed = path_form path.now in
        Leads result known.new.holds.items raised.old raised.new
        (rules.finalizes (variables_in around.now) (implicit_around around.now) access
        (rules.released_behind (types_in around.now) (variables_in around.now) (tracks_around around.now)
        (implicit_around around.now) freed known.old.holds.items access)) }
{
    let hold = hold_of(known.holds(), path.root);
    let is_unsafe = way_reached(around, path, hold, access);
    let seen = hold_seen(around.setting.tracks, known.holds(), path);
    unless_broken(freed_behind(is_unsafe, seen, path.spot))?;
    end_object(around.setting.variables, known, access);
    finalize(alloc, around, known, access)?;
    raised.note_if(path_raises(path), alloc, known)?;
    Ok(())
}

/// `Free` of a tracked component: only an owner frees. Behind it every alias of its access type is lost.
///
/// # Errors
/// Where what is freed is lost, or an alias, or where its formal parameter lies in an object which the finalization may reach.
fn release_tracked(
    around: &Around<'_>,
    known: &mut Known,
    path: &Path,
    access: Option<usize>,
) -> Result<(), Breach>
    ensures { let freed = path_form path.now in
        Tells result known.new.holds.items
        (rules.released_tracked (types_in around.now) (variables_in around.now) (tracks_around around.now)
        (implicit_around around.now) freed known.old.holds.items access) }
{
    let is_reached = formal_reached(around, path, hold_of(known.holds(), path.root), access);
    let hold = hold_seen(around.setting.tracks, known.holds(), path);
    unless_broken(handed_by(is_reached, hold, path.spot))?;
    let place = around.setting.tracks.seen(path).root;
    let own = access_of(variable_kind(around.setting.variables, place.0));
    end_object(around.setting.variables, known, own);
    known.put(place, Hold::Null);
    Ok(())
}

/// `Free`, of a tracked component, of a variable or of another component.
#[tactic(auto, using(std::proofs::lemmas::Grind::common_steps, crate::proofs::Initialized::freeing_steps))]
pub(crate) fn release(
    alloc: Global,
    around: &Around<'_>,
    known: &mut Known,
    raised: &mut Raised,
    path: &Path,
) -> Result<(), FlowFault>
    ensures { let freed = path_form path.now in
        let implicit = implicit_around around.now in
        let access = fits.path_access (types_in around.now) (variables_in around.now) freed in
        Leads result known.new.holds.items raised.old raised.new
        (rules.finalizes (variables_in around.now) implicit access
        (rules.frees_path (types_in around.now) (variables_in around.now) (tracks_around around.now) implicit freed known.old.holds.items)) }
{
    let access = path_access(around.setting.types, around.setting.variables, path);
    if around.setting.tracks.has(path) {
        release_tracked(around, known, path, access)?;
        finalize(alloc, around, known, access)?;
        Ok(())
    } else if path.selectors.is_empty() {
        release_variable(around.setting.variables, known, path)?;
        finalize(alloc, around, known, access)?;
        Ok(())
    } else {
        release_component(alloc, around, known, raised, path, access)
    }
}

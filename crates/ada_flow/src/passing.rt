//! How actual parameters are passed (6.2, 6.4.1): the leftmost rule that one breaks.

ghost use Rattle.std.specs.Prelude.{◌≡◌, ◌||◌, List, [], ◌∷◌, map};
ghost use Rattle.ada_effects.specs.Found.{has_number};
ghost use Rattle.ada_flow.specs.Flow as rules;
ghost use Rattle.ada_flow.specs.Told.{broken, tracks_in};
ghost use Rattle.ada_program.specs.Form.{ActualForm, actual_form, path_form, record_path_form};
ghost use Rattle.ada_program.specs.ProgramForm.{type_form, variable_form};
ghost use Rattle.ada_program.specs.WellFormed as fits;

use crate::fault::Breach;
use crate::follow::{broken_in, broken_in_path, broken_in_sharing, leftmost, lost_by};
use crate::holds::hold_seen;
use crate::moves::{taken_by, tracked_by};
use crate::rule::{Hold, Rule};
use crate::tracks::Tracks;
use ada_program::lookup::{access_of, path_access, selected_kind, variable_kind};
use ada_program::program::{Actual, RecordPath, TypeDefinition, Variable};
use ada_program::{Path, Spot, TypeNo, VariableNo};

/// The leftmost rule that the actual parameters of a call break which may free objects of these access types.
pub(crate) fn broken_in_actuals(
    types: &[TypeDefinition],
    variables: &[Variable],
    tracks: Tracks<'_>,
    freed: &[TypeNo],
    holds: &[Hold],
    actuals: &[Actual],
) -> Option<Breach>
    ensures { let given = map actual_form actuals.now in
        let uses = rules.uses_in_actuals (map type_form types.now) (map variable_form variables.now) (has_number freed.now) [] given in
        broken result ≡ rules.broken_among (tracks_in tracks.entry) holds.now uses }
{
    let mut found = None;
    for (number, actual) in actuals.iter().enumerate() {
        let earlier = &actuals[..number];
        let own = broken_in_actual(types, variables, tracks, freed, holds, earlier, actual);
        found = leftmost(found, own);
    }
    found
}

/// The leftmost rule that an actual parameter breaks behind earlier ones of its call.
fn broken_in_actual(
    types: &[TypeDefinition],
    variables: &[Variable],
    tracks: Tracks<'_>,
    freed: &[TypeNo],
    holds: &[Hold],
    earlier: &[Actual],
    actual: &Actual,
) -> Option<Breach>
    ensures { let given = map actual_form earlier.now in
        let own = actual_form actual.now in
        let uses = rules.uses_in_actual (map type_form types.now) (map variable_form variables.now) (has_number freed.now) given own in
        broken result ≡ rules.broken_among (tracks_in tracks.entry) holds.now uses }
{
    match actual {
        Actual::In(value) => broken_in(tracks, holds, value),
        Actual::InNull => None,
        Actual::InAccess(path) => leftmost(broken_in_lending(tracks, holds, earlier, path), None),
        Actual::InRecord(path) => {
            let again = is_given(earlier, path.object.root);
            let passing = broken_in_passing(types, variables, tracks, freed, holds, again, path);
            leftmost(
                broken_in_sharing(tracks, holds, path),
                leftmost(passing, None),
            )
        }
        Actual::InOut(path) => leftmost(broken_in_variable(tracks, holds, earlier, path), None),
        Actual::InOutAccess(path) => leftmost(
            broken_in_handing(tracks, holds, earlier, path),
            None,
        ),
        Actual::InOutComponent(path) => {
            let again = is_begun_with(earlier, path.root);
            leftmost(
                broken_in_opening(types, variables, tracks, freed, holds, again, path),
                None,
            )
        }
        Actual::InOutRecord(path) => {
            let again = is_begun_with(earlier, path.object.root);
            let passing = broken_in_passing(types, variables, tracks, freed, holds, again, path);
            leftmost(
                broken_in_sharing(tracks, holds, path),
                leftmost(passing, None),
            )
        }
    }
}

/// The rule that the path to an Integer or a Boolean breaks which is given for a formal parameter of mode `in out`: no earlier
/// actual parameter begins with its variable (6.4.1).
fn broken_in_variable(
    tracks: Tracks<'_>,
    holds: &[Hold],
    earlier: &[Actual],
    path: &Path,
) -> Option<Breach>
    ensures { let given = map actual_form earlier.now in
        broken result ≡ rules.broken_in (tracks_in tracks.entry) holds.now (rules.given_use given (path_form path.now)) }
{
    if is_begun_with(earlier, path.root) {
        Some(Breach {
            spot: path.spot,
            rule: Rule::UnsafePath,
        })
    } else {
        broken_in_path(tracks, holds, path)
    }
}

/// The rule that a path breaks whose value is lent to a formal parameter of mode `in`: it is not lost, and no earlier actual
/// parameter gives its variable for one of mode `in out`.
fn broken_in_lending(
    tracks: Tracks<'_>,
    holds: &[Hold],
    earlier: &[Actual],
    path: &Path,
) -> Option<Breach>
    ensures { let given = map actual_form earlier.now in
        let lent = path_form path.now in
        broken result ≡ rules.broken_in (tracks_in tracks.entry) holds.now (rules.lends_it (rules.is_given given lent.root) lent) }
{
    lent_by(
        is_given(earlier, path.root),
        hold_seen(tracks, holds, path),
        path.spot,
    )
}

/// The rule that a variable breaks which is handed over to a formal parameter of mode `in out`: it is neither lost nor an
/// alias, and no earlier actual parameter begins with it.
fn broken_in_handing(
    tracks: Tracks<'_>,
    holds: &[Hold],
    earlier: &[Actual],
    path: &Path,
) -> Option<Breach>
    ensures { let given = map actual_form earlier.now in
        let handed = path_form path.now in
        broken result ≡ rules.broken_in (tracks_in tracks.entry) holds.now (rules.hands_it (rules.is_begun_with given handed.root) handed) }
{
    let again = is_begun_with(earlier, path.root);
    handed_by(again, hold_seen(tracks, holds, path), path.spot)
}

/// The rule that the path to a record breaks that is passed by reference for a formal parameter: its variable is not lost, it is
/// not given again in a way that the two would meet, and the call frees nothing that the path follows (6.2).
pub(crate) fn broken_in_passing(
    types: &[TypeDefinition],
    variables: &[Variable],
    tracks: Tracks<'_>,
    freed: &[TypeNo],
    holds: &[Hold],
    again: bool,
    path: &RecordPath,
) -> Option<Breach>
    ensures { let passed = record_path_form path.now in
        let passes = rules.record_passes (map type_form types.now) (map variable_form variables.now) (has_number freed.now) passed in
        broken result ≡ rules.broken_in (tracks_in tracks.entry) holds.now (rules.passes_it (again || passes) passed.object) }
{
    let object = &path.object;
    let is_unsafe = again || record_passes(types, variables, freed, path);
    passed_by(is_unsafe, hold_seen(tracks, holds, object), object.spot)
}

/// The rule that the path to a component breaks that is given for a formal parameter of mode `in out`: the component owns
/// nothing, and what holds for a record holds for it (6.4.1).
fn broken_in_opening(
    types: &[TypeDefinition],
    variables: &[Variable],
    tracks: Tracks<'_>,
    freed: &[TypeNo],
    holds: &[Hold],
    again: bool,
    path: &Path,
) -> Option<Breach>
    ensures { let given = path_form path.now in
        let all_types = map type_form types.now in
        let all = map variable_form variables.now in
        let owning = rules.names_value (fits.path_access all_types all given) in
        let is_unsafe = again || rules.component_passes all_types all (has_number freed.now) given in
        broken result ≡ rules.broken_in (tracks_in tracks.entry) holds.now (rules.opens_it owning is_unsafe given) }
{
    let owning = names_value(path_access(types, variables, path));
    let is_unsafe = again || component_passes(types, variables, freed, path);
    let hold = hold_seen(tracks, holds, path);
    if tracks.has(path) {
        tracked_by(false, hold, path.spot)
    } else {
        opened_by_call(owning, is_unsafe, hold, path.spot)
    }
}

/// Whether a path has a value of an access type.
fn names_value(access: Option<usize>) -> bool
    ensures { result ≡ rules.names_value access }
{
    access.is_some()
}

/// Whether a type is among these, if there is one.
fn is_freed(freed: &[TypeNo], access: Option<usize>) -> bool
    ensures { result ≡ rules.is_freed (has_number freed.now) access }
{
    match access {
        None => false,
        Some(access) => has_number(freed, access),
    }
}

/// Whether the type of a number is among these. Costs as much as there are types.
fn has_number(types: &[TypeNo], number: usize) -> bool
    ensures { result ≡ has_number types.now number }
{
    types.iter().any(|one| one.0 == number)
}

/// Whether the path to a component follows a value of an access type of which objects may be freed. Costs the length of the
/// path, for each of these types.
pub(crate) fn component_passes(
    types: &[TypeDefinition],
    variables: &[Variable],
    freed: &[TypeNo],
    path: &Path,
) -> bool
    ensures { result ≡ rules.component_passes
        (map type_form types.now) (map variable_form variables.now) (has_number freed.now) (path_form path.now) }
{
    let mut kind = variable_kind(variables, path.root.0);
    'selectors: for component in &path.selectors {
        if is_freed(freed, access_of(kind)) {
            return true;
        }
        kind = selected_kind(types, kind, component.0);
    }
    false
}

/// So does the path to a record, which follows the access value to the object in which the record lies, too.
pub(crate) fn record_passes(
    types: &[TypeDefinition],
    variables: &[Variable],
    freed: &[TypeNo],
    path: &RecordPath,
) -> bool
    ensures { result ≡ rules.record_passes
        (map type_form types.now) (map variable_form variables.now) (has_number freed.now) (record_path_form path.now) }
{
    component_passes(types, variables, freed, &path.object)
        || is_freed(freed, path_access(types, variables, &path.object))
}

/// Two actual parameters do not begin with one variable, where one of them is for mode `in out`, nor does the call free what the
/// path of one follows.
fn given_by_both(again: bool, spot: Spot) -> Option<Breach>
    ensures { broken result ≡ rules.given_by_both again spot }
{
    if again {
        Some(Breach {
            spot,
            rule: Rule::UnsafePath,
        })
    } else {
        None
    }
}

/// A value that is lent to a formal parameter is not lost.
fn lent_by(again: bool, hold: Hold, spot: Spot) -> Option<Breach>
    ensures { broken result ≡ rules.lent_by again hold spot }
{
    match hold {
        Hold::Null | Hold::Kept(_) | Hold::Own(_) | Hold::Alias(_) => given_by_both(again, spot),
        Hold::Lost => lost_by(hold, spot),
    }
}

/// A variable that is handed over is neither lost nor an alias.
pub(crate) fn handed_by(again: bool, hold: Hold, spot: Spot) -> Option<Breach>
    ensures { broken result ≡ rules.handed_by again hold spot }
{
    match hold {
        Hold::Null | Hold::Kept(_) | Hold::Own(_) => given_by_both(again, spot),
        Hold::Alias(_) => Some(Breach {
            spot,
            rule: Rule::AliasMoved,
        }),
        Hold::Lost => lost_by(hold, spot),
    }
}

/// What is passed by reference, or gets something back, is not found behind what is lost, and is safe.
pub(crate) fn passed_by(is_unsafe: bool, hold: Hold, spot: Spot) -> Option<Breach>
    ensures { broken result ≡ rules.passed_by is_unsafe hold spot }
{
    match hold {
        Hold::Null | Hold::Kept(_) | Hold::Own(_) | Hold::Alias(_) => {
            given_by_both(is_unsafe, spot)
        }
        Hold::Lost => lost_by(hold, spot),
    }
}

/// A component that owns what it names is not handed over: take pairs alone move it.
fn opened_by_call(owning: bool, is_unsafe: bool, hold: Hold, spot: Spot) -> Option<Breach>
    ensures { broken result ≡ rules.opened_by_call owning is_unsafe hold spot }
{
    if owning {
        taken_by(false, hold, spot)
    } else {
        passed_by(is_unsafe, hold, spot)
    }
}

/// Whether one of these actual parameters, which is for a formal one of mode `in out`, begins with a variable.
fn is_given(actuals: &[Actual], variable: VariableNo) -> bool
    ensures { result ≡ rules.is_given (map actual_form actuals.now) variable.0 }
{
    'actuals: for actual in actuals {
        if gives(actual, variable) {
            return true;
        }
    }
    false
}

/// Whether an actual parameter is for a formal one of mode `in out`, and begins with a variable.
fn gives(actual: &Actual, variable: VariableNo) -> bool
    ensures { (rest : List ActualForm) → rules.is_given (actual_form actual.now ∷ rest) variable.0
        ≡ (result || rules.is_given rest variable.0) }
{
    match actual {
        Actual::In(_) | Actual::InNull | Actual::InAccess(_) | Actual::InRecord(_) => false,
        Actual::InOut(path) | Actual::InOutAccess(path) | Actual::InOutComponent(path) => {
            variable == path.root
        }
        Actual::InOutRecord(path) => variable == path.object.root,
    }
}

/// Whether one of these actual parameters begins with a variable.
fn is_begun_with(actuals: &[Actual], variable: VariableNo) -> bool
    ensures { result ≡ rules.is_begun_with (map actual_form actuals.now) variable.0 }
{
    'actuals: for actual in actuals {
        if begins_with(actual, variable) {
            return true;
        }
    }
    false
}

/// Whether an actual parameter begins with a variable.
fn begins_with(actual: &Actual, variable: VariableNo) -> bool
    ensures { (rest : List ActualForm) → rules.is_begun_with (actual_form actual.now ∷ rest) variable.0
        ≡ (result || rules.is_begun_with rest variable.0) }
{
    match actual {
        Actual::In(_) | Actual::InNull => false,
        Actual::InAccess(path)
        | Actual::InOut(path)
        | Actual::InOutAccess(path)
        | Actual::InOutComponent(path) => variable == path.root,
        Actual::InRecord(path) | Actual::InOutRecord(path) => variable == path.object.root,
    }
}

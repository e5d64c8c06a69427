//! What an assignment moves: the rules that moved paths break, and what is known behind the move.

ghost use Rattle.std.specs.Prelude.{◌≡◌, false, [], ◌∷◌, ◌++◌, None, Some, map};
ghost use Rattle.ada_flow.specs.Flow as rules;
ghost use Rattle.ada_flow.specs.Told.{Follows, broken, named_by_items, target_of, tracks_in};
ghost use Rattle.ada_flow.specs.Tracking as tracking;
ghost use Rattle.ada_program.specs.Form.{component_number, path_form, item_form, record_path_form, right_form};
ghost use Rattle.ada_program.specs.ProgramForm.{type_form};

use crate::fault::Breach;
use crate::follow::{
    broken_in, broken_in_reach, broken_in_sharing, broken_in_target, leftmost, lost_by,
    unless_broken,
};
use crate::holds::{hold_of, hold_seen};
use crate::known::Known;
use crate::owning::{copied_to, leaves_owners};
use crate::pairs::is_same_path;
use crate::rule::{Hold, Region, Rule};
use crate::tracks::Tracks;
use ada_effects::{expression_raises, path_raises};
use ada_program::program::{ComponentNo, Item, RecordPath, Right, TypeDefinition};
use ada_program::{Path, Spot, VariableNo};

/// Uses what is assigned to a variable that stands at the spot, a borrower or not, or to a tracked component, which is this
/// target, where the next statement clears what is moved, or does not.
///
/// # Errors
/// The leftmost rule that a path of it breaks.
pub(crate) fn use_right(
    types: &[TypeDefinition],
    tracks: Tracks<'_>,
    spot: Spot,
    holds: &[Hold],
    borrows: bool,
    cleared: bool,
    target: Option<&Path>,
    value: &Right,
) -> Result<(), Breach>
    ensures { let uses = rules.uses_in_right (map type_form types.now) spot borrows cleared (target_of target.entry) (right_form value.now) in
        Follows result (rules.broken_among (tracks_in tracks.entry) holds.now uses) }
{
    unless_broken(broken_in_right(types, tracks, spot, holds, borrows, cleared, target, value))
}

/// Uses the path of a component that gets a value, and what is assigned to it: a component is no borrower.
///
/// # Errors
/// The leftmost rule that a path breaks.
pub(crate) fn use_assignment(
    types: &[TypeDefinition],
    tracks: Tracks<'_>,
    holds: &[Hold],
    cleared: bool,
    target: &Path,
    value: &Right,
) -> Result<(), Breach>
    ensures { let place = rules.uses_in_target (path_form target.now) in
        let to = path_form target.now in
        let assigned = rules.uses_in_right (map type_form types.now) to.spot false cleared (Some to) (right_form value.now) in
        Follows result (rules.broken_among (tracks_in tracks.entry) holds.now (place ++ assigned)) }
{
    unless_broken(leftmost(
        broken_in_target(tracks, holds, target),
        broken_in_right(
            types,
            tracks,
            target.spot,
            holds,
            false,
            cleared,
            Some(target),
            value,
        ),
    ))
}

/// The leftmost rule that what is assigned to what stands at the spot breaks, to a borrower or not, to this component or to
/// a variable.
fn broken_in_right(
    types: &[TypeDefinition],
    tracks: Tracks<'_>,
    spot: Spot,
    holds: &[Hold],
    borrows: bool,
    cleared: bool,
    target: Option<&Path>,
    value: &Right,
) -> Option<Breach>
    ensures { let place = target_of target.entry in
        let uses = rules.uses_in_right (map type_form types.now) spot borrows cleared place (right_form value.now) in
        broken result ≡ rules.broken_among (tracks_in tracks.entry) holds.now uses }
{
    match value {
        Right::Null | Right::Default(_) => None,
        Right::Path(path) => leftmost(broken_in_value(tracks, holds, borrows, cleared, path), None),
        Right::Allocator { access: _, items } => broken_in_items(
            types, tracks, spot, holds, target, items,
        ),
        Right::Value(expression) => broken_in(tracks, holds, expression),
    }
}

/// The rule that a path breaks whose value is assigned: it is lent to a borrower, and else moved.
fn broken_in_value(
    tracks: Tracks<'_>,
    holds: &[Hold],
    borrows: bool,
    cleared: bool,
    path: &Path,
) -> Option<Breach>
    ensures { broken result
        ≡ rules.broken_in (tracks_in tracks.entry) holds.now (rules.value_use borrows cleared (path_form path.now)) }
{
    if borrows {
        broken_in_loan(tracks, holds, path)
    } else {
        broken_in_move(tracks, holds, cleared, path)
    }
}

/// The rule that lending the value of a path breaks: its variable must not be lost.
fn broken_in_loan(tracks: Tracks<'_>, holds: &[Hold], path: &Path) -> Option<Breach>
    ensures { broken result ≡ rules.broken_in (tracks_in tracks.entry) holds.now (rules.borrows_it (path_form path.now)) }
{
    lost_by(hold_seen(tracks, holds, path), path.spot)
}

/// The leftmost rule that the items of an aggregate break which goes to what stands at the spot: to this component, or to a
/// variable or a record.
pub(crate) fn broken_in_items(
    types: &[TypeDefinition],
    tracks: Tracks<'_>,
    spot: Spot,
    holds: &[Hold],
    target: Option<&Path>,
    items: &[Item],
) -> Option<Breach>
    ensures { let place = target_of target.entry in
        let uses = rules.uses_in_items (map type_form types.now) spot place [] (map item_form items.now) in
        broken result ≡ rules.broken_among (tracks_in tracks.entry) holds.now uses }
{
    let mut found = None;
    for (number, item) in items.iter().enumerate() {
        found = leftmost(
            found,
            broken_in_item(types, tracks, spot, holds, target, &items[..number], item),
        );
    }
    found
}

/// The leftmost rule that an item breaks behind earlier items of its aggregate, which goes to what stands at the spot.
fn broken_in_item(
    types: &[TypeDefinition],
    tracks: Tracks<'_>,
    spot: Spot,
    holds: &[Hold],
    target: Option<&Path>,
    earlier: &[Item],
    item: &Item,
) -> Option<Breach>
    ensures { let named = named_by_items (map item_form earlier.now) in
        let uses = rules.uses_in_item (map type_form types.now) spot (target_of target.entry) named (item_form item.now) in
        broken result ≡ rules.broken_among (tracks_in tracks.entry) holds.now uses }
{
    match item {
        Item::Null => None,
        Item::Path(path) => leftmost(
            broken_in_item_move(tracks, holds, target, earlier, path),
            None,
        ),
        Item::Value(expression) => broken_in(tracks, holds, expression),
        Item::Record(path) => broken_in_copy(types, tracks, spot, holds, path),
    }
}

/// The leftmost rule that copying a record breaks to what stands at the spot.
fn broken_in_copy(
    types: &[TypeDefinition],
    tracks: Tracks<'_>,
    spot: Spot,
    holds: &[Hold],
    path: &RecordPath,
) -> Option<Breach>
    ensures { let from = record_path_form path.now in
        let copies = rules.copies_to (rules.leaves_owners (map type_form types.now) from.record_type) spot in
        broken result ≡ rules.broken_among (tracks_in tracks.entry) holds.now (copies ∷ rules.shares_it from ∷ rules.reaches_it from.object ∷ []) }
{
    let found = leftmost(broken_in_reach(tracks, holds, &path.object), None);
    leftmost(
        copied_to(leaves_owners(types, path.record), spot),
        leftmost(broken_in_sharing(tracks, holds, path), found),
    )
}

/// The rule that an item breaks by moving a path: each is moved once, and of components the target alone.
fn broken_in_item_move(
    tracks: Tracks<'_>,
    holds: &[Hold],
    target: Option<&Path>,
    earlier: &[Item],
    path: &Path,
) -> Option<Breach>
    ensures { let named = named_by_items (map item_form earlier.now) in
        let moved = rules.item_move (target_of target.entry) named (path_form path.now) in
        broken result ≡ rules.broken_in (tracks_in tracks.entry) holds.now moved }
{
    if is_named(earlier, path) {
        Some(Breach {
            spot: path.spot,
            rule: Rule::LostValue,
        })
    } else {
        broken_in_move(tracks, holds, is_target(target, path), path)
    }
}

/// Whether a path is the component that the assignment goes to, if it goes to one.
fn is_target(target: Option<&Path>, path: &Path) -> bool
    ensures { result ≡ rules.is_target (target_of target.entry) (path_form path.now) }
{
    match target {
        None => false,
        Some(target) => is_same_path(target, path),
    }
}

/// Whether one of these items is this path.
#[tactic(auto, using(std::proofs::lemmas::Grind::common_steps, crate::proofs::Moved::named_steps))]
fn is_named(items: &[Item], path: &Path) -> bool
    ensures { result
        ≡ rules.is_named (named_by_items (map item_form items.now)) (path_form path.now) }
{
    'items: for item in items {
        if item_is(item, path) {
            return true;
        }
    }
    false
}

/// Whether an item is this path.
fn item_is(item: &Item, path: &Path) -> bool
    ensures { result
        ≡ rules.is_named (rules.named_by_item (item_form item.now)) (path_form path.now) }
{
    match item {
        Item::Path(named) => is_same_path(named, path),
        Item::Null | Item::Value(_) | Item::Record(_) => false,
    }
}

/// The rule that a moved path breaks, where it is overwritten then, or is not.
fn broken_in_move(
    tracks: Tracks<'_>,
    holds: &[Hold],
    overwritten: bool,
    path: &Path,
) -> Option<Breach>
    ensures { broken result
        ≡ rules.broken_in (tracks_in tracks.entry) holds.now (rules.moves_it overwritten (path_form path.now)) }
{
    let hold = hold_seen(tracks, holds, path);
    if tracks.has(path) {
        tracked_by(overwritten, hold, path.spot)
    } else if tracks.seen(path).selectors.is_empty() {
        moved_by(hold, path.spot)
    } else {
        taken_by(overwritten, hold, path.spot)
    }
}

/// A tracked component whose value is moved is neither lost nor an alias, and it is overwritten.
pub(crate) fn tracked_by(overwritten: bool, hold: Hold, spot: Spot) -> Option<Breach>
    ensures { broken result ≡ rules.tracked_by overwritten hold spot }
{
    match hold {
        Hold::Null | Hold::Kept(_) | Hold::Own(_) if !overwritten => Some(Breach {
            spot,
            rule: Rule::TakePair,
        }),
        _ => moved_by(hold, spot),
    }
}

/// A value that is moved out of a variable is neither lost nor an alias.
fn moved_by(hold: Hold, spot: Spot) -> Option<Breach>
    ensures { broken result ≡ rules.moved_by hold spot }
{
    match hold {
        Hold::Null | Hold::Kept(_) | Hold::Own(_) => None,
        Hold::Alias(_) => Some(Breach {
            spot,
            rule: Rule::AliasMoved,
        }),
        Hold::Lost => lost_by(hold, spot),
    }
}

/// A value that is moved out of a component is not found behind a lost one, and the component is overwritten.
pub(crate) fn taken_by(overwritten: bool, hold: Hold, spot: Spot) -> Option<Breach>
    ensures { broken result ≡ rules.taken_by overwritten hold spot }
{
    match hold {
        Hold::Null | Hold::Kept(_) | Hold::Own(_) | Hold::Alias(_) if !overwritten => Some(
            Breach {
                spot,
                rule: Rule::TakePair,
            },
        ),
        _ => lost_by(hold, spot),
    }
}

/// What a variable, a borrower or not, holds with what is assigned to it.
pub(crate) fn right_hold(tracks: Tracks<'_>, holds: &[Hold], borrows: bool, value: &Right) -> Hold
    ensures { result ≡ rules.right_hold (tracks_in tracks.entry) borrows (right_form value.now) holds.now }
{
    match value {
        Right::Null => Hold::Null,
        Right::Path(path) => {
            let seen = tracks.seen(path);
            given_hold(borrows, seen.selectors, hold_of(holds, seen.root))
        }
        Right::Allocator { .. } | Right::Default(_) => Hold::Own(Region::Whole),
        Right::Value(_) => Hold::Lost,
    }
}

/// What a variable holds with the value of a path: a borrower an alias, any other what the value was relied on for.
fn given_hold(borrows: bool, selectors: &[ComponentNo], hold: Hold) -> Hold
    ensures { result ≡ rules.given_hold borrows (map component_number selectors.now) hold }
{
    if borrows {
        borrowed_hold(hold)
    } else {
        value_hold(selectors, hold)
    }
}

/// What a borrower holds with a value, by what its variable holds: another owns the object.
fn borrowed_hold(hold: Hold) -> Hold
    ensures { result ≡ rules.borrowed_hold hold }
{
    match hold {
        Hold::Kept(region) | Hold::Own(region) => Hold::Alias(region),
        hold => hold,
    }
}

/// What the value of a path is relied on for: a variable's own hold; a component owns its value.
fn value_hold(selectors: &[ComponentNo], hold: Hold) -> Hold
    ensures { result ≡ rules.value_hold (map component_number selectors.now) hold }
{
    match hold {
        Hold::Kept(region) => Hold::Own(region),
        Hold::Alias(region) if !selectors.is_empty() => Hold::Own(region),
        hold => hold,
    }
}

/// What is said of a hold once its value is moved, freed or overwritten: a formal parameter no longer holds what its call gave
/// it.
pub(crate) fn touched_hold(hold: Hold) -> Hold
    ensures { result ≡ rules.touched_hold hold }
{
    match hold {
        Hold::Kept(region) => Hold::Own(region),
        hold => hold,
    }
}

/// Whether an assignment may raise an exception where it evaluates what is assigned.
pub(crate) fn evaluation_raises(value: &Right) -> bool
    ensures { result ≡ rules.evaluation_raises (right_form value.now) }
{
    match value {
        Right::Null => false,
        Right::Path(path) => path_raises(path),
        Right::Allocator { .. } | Right::Default(_) => true,
        Right::Value(expression) => expression_raises(expression),
    }
}

/// The variables that an assignment moves own nothing any more; what is lent to a borrower stays where it is.
pub(crate) fn lose_moved(tracks: Tracks<'_>, known: &mut Known, borrows: bool, value: &Right)
    ensures { known.new.holds.items
        ≡ rules.without_values (rules.moved_by_right (tracks_in tracks.entry) borrows (right_form value.now)) known.old.holds.items }
{
    match value {
        Right::Path(path) if !borrows => lose_path(tracks, known, path),
        Right::Allocator { access: _, items } => lose_items(tracks, known, items),
        Right::Null | Right::Path(_) | Right::Default(_) | Right::Value(_) => {}
    }
}

/// The variables that items move own nothing any more.
#[tactic(auto, using(std::proofs::lemmas::Grind::common_steps, crate::proofs::Moved::losing_steps))]
fn lose_items(tracks: Tracks<'_>, known: &mut Known, items: &[Item])
    ensures { known.new.holds.items
        ≡ rules.without_values (rules.moved_by_items (tracks_in tracks.entry) (map item_form items.now)) known.old.holds.items }
{
    'items: for item in items {
        lose_item(tracks, known, item);
    }
}

/// The variable that an item moves owns nothing any more.
fn lose_item(tracks: Tracks<'_>, known: &mut Known, item: &Item)
    ensures { known.new.holds.items
        ≡ rules.without_values (rules.moved_by_item (tracks_in tracks.entry) (item_form item.now)) known.old.holds.items }
{
    match item {
        Item::Path(path) => lose_path(tracks, known, path),
        Item::Null | Item::Value(_) | Item::Record(_) => {}
    }
}

/// A variable or a tracked component that is moved owns nothing any more; another component is overwritten.
fn lose_path(tracks: Tracks<'_>, known: &mut Known, path: &Path)
    ensures { let moved = tracking.seen (tracks_in tracks.entry) (path_form path.now) in
        known.new.holds.items ≡ rules.without_values (rules.variable_of moved.selectors moved.root) known.old.holds.items }
{
    let seen = tracks.seen(path);
    if seen.selectors.is_empty() {
        lose_value(known, seen.root);
    }
}

/// A variable whose value is moved owns nothing any more.
pub(crate) fn lose_value(known: &mut Known, variable: VariableNo)
    ensures { known.new.holds.items ≡ rules.without_value variable.0 known.old.holds.items }
{
    let hold = left_by_move(hold_of(known.holds(), variable));
    known.put(variable, hold);
}

/// What is left of a hold once its value was moved.
fn left_by_move(hold: Hold) -> Hold
    ensures { result ≡ rules.left_by_move hold }
{
    match hold {
        Hold::Kept(_) | Hold::Own(_) => Hold::Lost,
        hold => hold,
    }
}

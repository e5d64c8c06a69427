//! What is known where a loop starts of the variables whose values its body moves, frees or hands over.

ghost use Rattle.std.specs.Prelude.{◌≡◌, List, ◌∷◌, map};
ghost use Rattle.ada_flow.specs.Flow as rules;
ghost use Rattle.ada_flow.specs.Told.{tracks_in};
ghost use Rattle.ada_flow.specs.Tracking as tracking;
ghost use Rattle.ada_program.specs.Form.{ActualForm, DeclarationForm, actual_form, declaration_form, item_form, path_form, right_form};
ghost use Rattle.ada_program.specs.ProgramForm.{variable_form};

use crate::holds::hold_of;
use crate::known::Known;
use crate::loops::open;
use crate::moves::touched_hold;
use crate::tracks::Tracks;
use ada_program::borrowers::is_borrower;
use ada_program::program::{Actual, Declaration, Item, Right, Variable};
use ada_program::{Path, VariableNo};

/// A variable whose value a loop's body moves or frees is touched: what is kept may have changed.
fn touch(known: &mut Known, variable: VariableNo)
    ensures { known.new.holds.items ≡ rules.touched variable.0 known.old.holds.items }
{
    let hold = touched_hold(hold_of(known.holds(), variable));
    known.put(variable, hold);
}

/// The same of a path, if it is a variable.
pub(crate) fn touch_path(tracks: Tracks<'_>, known: &mut Known, path: &Path)
    ensures { let moved = tracking.seen (tracks_in tracks.entry) (path_form path.now) in
        known.new.holds.items ≡ rules.all_touched (rules.variable_of moved.selectors moved.root) known.old.holds.items }
{
    let seen = tracks.seen(path);
    if seen.selectors.is_empty() {
        touch(known, seen.root);
    }
}

/// The variable that an item moves is touched.
fn touch_item(tracks: Tracks<'_>, known: &mut Known, item: &Item)
    ensures { known.new.holds.items
        ≡ rules.all_touched (rules.moved_by_item (tracks_in tracks.entry) (item_form item.now)) known.old.holds.items }
{
    match item {
        Item::Path(path) => touch_path(tracks, known, path),
        Item::Null | Item::Value(_) | Item::Record(_) => {}
    }
}

/// The variables that items move are touched.
#[tactic(auto, using(std::proofs::lemmas::Grind::common_steps, crate::proofs::Moved::touching_steps))]
fn touch_items(tracks: Tracks<'_>, known: &mut Known, items: &[Item])
    ensures { known.new.holds.items
        ≡ rules.all_touched (rules.moved_by_items (tracks_in tracks.entry) (map item_form items.now)) known.old.holds.items }
{
    'items: for item in items {
        touch_item(tracks, known, item);
    }
}

/// The variables are touched that an assignment to a borrower, or to what is none, moves.
pub(crate) fn touch_moved(tracks: Tracks<'_>, known: &mut Known, borrows: bool, value: &Right)
    ensures { known.new.holds.items
        ≡ rules.all_touched (rules.moved_by_right (tracks_in tracks.entry) borrows (right_form value.now)) known.old.holds.items }
{
    match value {
        Right::Path(path) if !borrows => touch_path(tracks, known, path),
        Right::Allocator { access: _, items } => touch_items(tracks, known, items),
        Right::Null | Right::Path(_) | Right::Default(_) | Right::Value(_) => {}
    }
}

/// The variables are touched that a declaration moves.
fn touch_by(
    variables: &[Variable],
    tracks: Tracks<'_>,
    known: &mut Known,
    declaration: &Declaration,
)
    ensures { let all = map variable_form variables.now in
        (rest : List DeclarationForm) → rules.touched_by_all all (tracks_in tracks.entry) (declaration_form declaration.now ∷ rest) known.old.holds.items
        ≡ rules.touched_by_all all (tracks_in tracks.entry) rest known.new.holds.items }
{
    match declaration {
        Declaration::Variable {
            variable,
            initial: Some(value),
        } => touch_moved(tracks, known, is_borrower(variables, variable.0), value),
        Declaration::Variable {
            variable: _,
            initial: None,
        }
        | Declaration::Pool(_)
        | Declaration::Collection(_)
        | Declaration::Record { .. } => {}
    }
}

/// The variables are touched that the declarations of a block in a loop's body move.
pub(crate) fn touch_declared(
    variables: &[Variable],
    tracks: Tracks<'_>,
    known: &mut Known,
    declarations: &[Declaration],
)
    ensures { let all = map variable_form variables.now in
        let declared = map declaration_form declarations.now in
        known.new.holds.items ≡ rules.touched_by_all all (tracks_in tracks.entry) declared known.old.holds.items }
{
    'declarations: for declaration in declarations {
        touch_by(variables, tracks, known, declaration);
    }
}

/// The variable or the tracked component is opened that an actual parameter hands over.
fn open_actual(variables: &[Variable], tracks: Tracks<'_>, known: &mut Known, actual: &Actual)
    ensures { let all = map variable_form variables.now in
        (rest : List ActualForm) → rules.opened_by_actuals all (tracks_in tracks.entry) (actual_form actual.now ∷ rest) known.old.holds.items
        ≡ rules.opened_by_actuals all (tracks_in tracks.entry) rest known.new.holds.items }
{
    match actual {
        Actual::InOutAccess(path) => open(variables, known, path.root),
        Actual::InOutComponent(path) => {
            if tracks.has(path) {
                open(variables, known, tracks.seen(path).root);
            }
        }
        Actual::In(_)
        | Actual::InNull
        | Actual::InAccess(_)
        | Actual::InRecord(_)
        | Actual::InOut(_)
        | Actual::InOutRecord(_) => {}
    }
}

/// The variables are opened that a call in a loop's body hands over.
pub(crate) fn open_actuals(
    variables: &[Variable],
    tracks: Tracks<'_>,
    known: &mut Known,
    actuals: &[Actual],
)
    ensures { let all = map variable_form variables.now in
        let given = map actual_form actuals.now in
        known.new.holds.items ≡ rules.opened_by_actuals all (tracks_in tracks.entry) given known.old.holds.items }
{
    'actuals: for actual in actuals {
        open_actual(variables, tracks, known, actual);
    }
}

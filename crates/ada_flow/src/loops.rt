//! What is known where a loop starts, whether an exit leaves it, and what may lead back to its start.

ghost use Rattle.std.specs.Prelude.{◌≡◌, ◌||◌, map};
ghost use Rattle.ada_flow.specs.Flow as rules;
ghost use Rattle.ada_flow.specs.Told.{tracks_in};
ghost use Rattle.ada_flow.specs.Tracking as tracking;
ghost use Rattle.ada_program.specs.Form.{StmtsForm, path_form, stmt_form, stmts_form, branches_form, handlers_form};
ghost use Rattle.ada_program.specs.ProgramForm.{variable_form};

use crate::holds::hold_of;
use crate::known::Known;
use crate::rule::{Hold, Region};
use crate::touching::{open_actuals, touch_declared, touch_moved, touch_path};
use crate::tracks::Tracks;
use ada_program::borrowers::{is_borrower, names_borrower};
use ada_program::program::{Branch, Handler, Variable};
use ada_program::{Path, Stmt, VariableNo};

/// What is known of a variable, a borrower or not, that a loop's body assigns or hands over, where each turn begins.
fn opened_hold(borrows: bool, hold: Hold) -> Hold
    ensures { result ≡ rules.opened_hold borrows hold }
{
    match hold {
        Hold::Null if borrows => Hold::Alias(Region::Whole),
        Hold::Null => Hold::Own(Region::Whole),
        Hold::Kept(region) => Hold::Own(region),
        hold => hold,
    }
}

/// A variable that a loop's body assigns or hands over is opened.
pub(crate) fn open(variables: &[Variable], known: &mut Known, variable: VariableNo)
    ensures { known.new.holds.items
        ≡ rules.opened (map variable_form variables.now) variable.0 known.old.holds.items }
{
    let borrows = is_borrower(variables, variable.0);
    let hold = opened_hold(borrows, hold_of(known.holds(), variable));
    known.put(variable, hold);
}

/// A target that a loop's body assigns is opened, if it is a variable.
fn open_target(variables: &[Variable], tracks: Tracks<'_>, known: &mut Known, target: &Path)
    ensures { let opened = tracking.seen (tracks_in tracks.entry) (path_form target.now) in
        known.new.holds.items ≡ rules.opened_target
        (map variable_form variables.now) opened.selectors opened.root known.old.holds.items }
{
    let seen = tracks.seen(target);
    if seen.selectors.is_empty() {
        open(variables, known, seen.root);
    }
}

/// Each variable that statements of a loop's body assign or hand over, wherever they stand in it, is opened, and each whose
/// value they move or free is touched.
#[cycle(opening)]
pub(crate) fn open_all(
    variables: &[Variable],
    tracks: Tracks<'_>,
    known: &mut Known,
    statements: &[Stmt],
)
    ensures { known.new.holds.items ≡ rules.opened_by_all
        (map variable_form variables.now) (tracks_in tracks.entry) (stmts_form statements.now) known.old.holds.items }
{
    'statements: for statement in statements {
        open_by(variables, tracks, known, statement);
    }
}

/// Each variable that a statement of a loop's body assigns or hands over is opened, and each whose value it moves or frees is
/// touched.
#[cycle(opening)]
#[tactic(auto, using(std::proofs::lemmas::Grind::common_steps, ada_program::specs::Form::statement_rules))]
fn open_by(variables: &[Variable], tracks: Tracks<'_>, known: &mut Known, statement: &Stmt)
    ensures { known.new.holds.items ≡ rules.opened_by
        (map variable_form variables.now) (tracks_in tracks.entry) (stmt_form statement.now) known.old.holds.items }
{
    match statement {
        Stmt::Assign { target, value } => {
            touch_moved(tracks, known, names_borrower(variables, target), value);
            open_target(variables, tracks, known, target);
        }
        Stmt::Free { access: _, path } => touch_path(tracks, known, path),
        Stmt::Call {
            procedure: _,
            actuals,
        } => open_actuals(variables, tracks, known, actuals),
        Stmt::If {
            branches,
            otherwise,
        } => {
            open_branches(variables, tracks, known, branches);
            open_all(variables, tracks, known, otherwise);
        }
        Stmt::Loop {
            condition: _,
            statements,
            end: _,
        }
        | Stmt::For {
            parameter: _,
            first: _,
            last: _,
            statements,
            end: _,
        } => open_all(variables, tracks, known, statements),
        Stmt::Block {
            declarations,
            statements,
            handlers,
        } => {
            touch_declared(variables, tracks, known, declarations);
            open_all(variables, tracks, known, statements);
            open_handlers(variables, tracks, known, handlers);
        }
        Stmt::Null
        | Stmt::AssignRecord { .. }
        | Stmt::Get(_)
        | Stmt::PutImage(_)
        | Stmt::PutText(_)
        | Stmt::Exit { .. }
        | Stmt::Return(_)
        | Stmt::Raise(_) => {}
    }
}

/// The same of branches.
#[cycle(opening)]
fn open_branches(variables: &[Variable], tracks: Tracks<'_>, known: &mut Known, branches: &[Branch])
    ensures { (others : StmtsForm) → rules.opened_by_branches
        (map variable_form variables.now) (tracks_in tracks.entry) (branches_form branches.now others) known.old.holds.items
        ≡ rules.opened_by_all (map variable_form variables.now) (tracks_in tracks.entry) others known.new.holds.items }
{
    'branches: for branch in branches {
        open_all(variables, tracks, known, &branch.statements);
    }
}

/// The same of handlers.
#[cycle(opening)]
fn open_handlers(
    variables: &[Variable],
    tracks: Tracks<'_>,
    known: &mut Known,
    handlers: &[Handler],
)
    ensures { known.new.holds.items ≡ rules.opened_by_handlers
        (map variable_form variables.now) (tracks_in tracks.entry) (handlers_form handlers.now) known.old.holds.items }
{
    'handlers: for handler in handlers {
        open_all(variables, tracks, known, &handler.statements);
    }
}

/// Whether an exit leaves the loop whose body this is.
#[cycle(leaving)]
pub(crate) fn have_exit(statements: &[Stmt]) -> bool
    ensures { result ≡ rules.have_exit (stmts_form statements.now) }
{
    'statements: for statement in statements {
        if has_exit(statement) {
            return true;
        }
    }
    false
}

/// Whether a statement of a loop's body has an exit from that loop; one inside another loop leaves that one.
#[cycle(leaving)]
#[tactic(auto, using(std::proofs::lemmas::Grind::common_steps, ada_program::specs::Form::statement_rules))]
fn has_exit(statement: &Stmt) -> bool
    ensures { result ≡ rules.has_exit (stmt_form statement.now) }
{
    match statement {
        Stmt::Exit { .. } => true,
        Stmt::If {
            branches,
            otherwise,
        } => branches_have_exit(branches) || have_exit(otherwise),
        Stmt::Block {
            declarations: _,
            statements,
            handlers,
        } => have_exit(statements) || handlers_have_exit(handlers),
        Stmt::Null
        | Stmt::Assign { .. }
        | Stmt::AssignRecord { .. }
        | Stmt::Free { .. }
        | Stmt::Get(_)
        | Stmt::PutImage(_)
        | Stmt::PutText(_)
        | Stmt::Loop { .. }
        | Stmt::For { .. }
        | Stmt::Call { .. }
        | Stmt::Return(_)
        | Stmt::Raise(_) => false,
    }
}

/// Whether a branch has an exit.
#[cycle(leaving)]
fn branches_have_exit(branches: &[Branch]) -> bool
    ensures { (others : StmtsForm) → rules.branches_have_exit
        (branches_form branches.now others) ≡ (result || rules.have_exit others) }
{
    'branches: for branch in branches {
        if have_exit(&branch.statements) {
            return true;
        }
    }
    false
}

/// Whether a handler has an exit.
#[cycle(leaving)]
fn handlers_have_exit(handlers: &[Handler]) -> bool
    ensures { result ≡ rules.handlers_have_exit (handlers_form handlers.now) }
{
    'handlers: for handler in handlers {
        if have_exit(&handler.statements) {
            return true;
        }
    }
    false
}

/// Whether each variable is known at least as well as where the loop starts.
pub(crate) fn are_as_good(holds: &[Hold], start: &[Hold]) -> bool
    ensures { result ≡ rules.are_as_good holds.now start.now }
{
    for (number, wanted) in start.iter().enumerate() {
        if !is_as_good(hold_of(holds, VariableNo(number)), *wanted) {
            return false;
        }
    }
    true
}

/// Whether a variable is known at least as well: null is an owner or an alias, what is kept is owned, and whatever it is may
/// be called lost.
fn is_as_good(hold: Hold, wanted: Hold) -> bool
    ensures { result ≡ rules.is_as_good hold wanted }
{
    match (hold, wanted) {
        (_, Hold::Lost) => true,
        (Hold::Null, Hold::Null | Hold::Own(_) | Hold::Alias(_)) => true,
        (Hold::Kept(Region::Whole), Hold::Kept(Region::Whole) | Hold::Own(Region::Whole)) => true,
        (Hold::Own(Region::Whole), Hold::Own(Region::Whole)) => true,
        (Hold::Alias(Region::Whole), Hold::Alias(Region::Whole)) => true,
        _ => false,
    }
}

//! Take pairs: `T := P.C;` and `P.C := null;`, one behind the other, move a value out of a component.

ghost use Rattle.std.specs.Prelude.{◌≡◌, map, not, ◌==◌};
ghost use Rattle.ada_flow.specs.Flow as rules;
ghost use Rattle.ada_program.specs.Form.{StmtsForm, a_stmt, assigns, component_number, path_form, right_form, stmt_form, stmts_form};

use ada_program::program::{ComponentNo, Right};
use ada_program::{Path, Stmt};

/// Whether a statement is the first one of a take pair, if these come behind it.
#[tactic(auto, using(std::proofs::lemmas::Grind::common_steps, ada_program::specs::Form::statement_rules))]
pub(crate) fn begins_pair(statement: &Stmt, behind: &[Stmt]) -> bool
    ensures { result ≡ rules.begins_pair (stmt_form statement.now) (stmts_form behind.now) }
{
    match statement {
        Stmt::Assign { target, value } => takes(target, value, behind),
        Stmt::Null
        | Stmt::AssignRecord { .. }
        | Stmt::Free { .. }
        | Stmt::Get(_)
        | Stmt::PutImage(_)
        | Stmt::PutText(_)
        | Stmt::If { .. }
        | Stmt::Loop { .. }
        | Stmt::For { .. }
        | Stmt::Exit { .. }
        | Stmt::Call { .. }
        | Stmt::Return(_)
        | Stmt::Raise(_)
        | Stmt::Block { .. } => false,
    }
}

/// Whether an assignment is the first one of a take pair, if these come behind it.
fn takes(target: &Path, value: &Right, behind: &[Stmt]) -> bool
    ensures { let assignment = assigns (path_form target.now) (right_form value.now) in
        result ≡ rules.begins_pair assignment (stmts_form behind.now) }
{
    match value {
        Right::Path(path) => leaves_path(target, path) && clears(path, behind),
        Right::Null | Right::Allocator { .. } | Right::Default(_) | Right::Value(_) => false,
    }
}

/// Whether an assignment to this target changes nothing that the path follows.
fn leaves_path(target: &Path, path: &Path) -> bool
    ensures { let to = path_form target.now in
        let from = path_form path.now in
        result ≡ rules.leaves_path to.selectors from.selectors (not (to.root == from.root)) }
{
    if target.selectors.is_empty() {
        target.root != path.root
    } else {
        path.selectors.len() == 1
    }
}

/// Whether the first of these statements sets a path to null.
fn clears(path: &Path, statements: &[Stmt]) -> bool
    ensures { result ≡ rules.clears (path_form path.now) (stmts_form statements.now) }
{
    match statements.first() {
        None => false,
        Some(first) => sets_to_null(path, first),
    }
}

/// Whether a statement sets a path to null, whatever comes behind it.
#[tactic(auto, using(std::proofs::lemmas::Grind::common_steps, ada_program::specs::Form::statement_rules))]
fn sets_to_null(path: &Path, statement: &Stmt) -> bool
    ensures { (behind : StmtsForm) →
        result ≡ rules.clears (path_form path.now) (a_stmt (stmt_form statement.now) behind) }
{
    match statement {
        Stmt::Assign { target, value } => matches!(value, Right::Null)
            && is_same_path(target, path),
        Stmt::Null
        | Stmt::AssignRecord { .. }
        | Stmt::Free { .. }
        | Stmt::Get(_)
        | Stmt::PutImage(_)
        | Stmt::PutText(_)
        | Stmt::If { .. }
        | Stmt::Loop { .. }
        | Stmt::For { .. }
        | Stmt::Exit { .. }
        | Stmt::Call { .. }
        | Stmt::Return(_)
        | Stmt::Raise(_)
        | Stmt::Block { .. } => false,
    }
}

/// Whether two paths are one.
pub(crate) fn is_same_path(one: &Path, other: &Path) -> bool
    ensures { result ≡ rules.same_path (path_form one.now) (path_form other.now) }
{
    one.root == other.root && are_same(&one.selectors, &other.selectors)
}

/// Whether these are the same selectors.
fn are_same(ones: &[ComponentNo], others: &[ComponentNo]) -> bool
    ensures { result
        ≡ rules.same_selectors (map component_number ones.now) (map component_number others.now) }
{
    ones == others
}

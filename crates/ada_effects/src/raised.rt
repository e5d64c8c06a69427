//! Which exceptions statements may raise that no handler takes.

ghost use Rattle.std.specs.Prelude.{◌≡◌, ◌||◌, Bool, map, OnOk, IfOk};
ghost use Rattle.std.specs.List.{list_any, slice_get};
ghost use Rattle.ada_effects.specs.Effects as rules;
ghost use Rattle.ada_effects.specs.Found.{Finds, effects_in, implicit_in, is_found, left_of};
ghost use Rattle.ada_effects.specs.Taken.{set_of};
ghost use Rattle.ada_program.specs.declared.program.Exception.{Exception};
ghost use Rattle.ada_program.specs.Form.{StmtsForm, right_form, declaration_form, stmt_form, stmts_form, branches_form, handlers_form};

use crate::expressions::{
    actuals_raise, condition_raises, expression_raises, items_raise, path_raises,
    record_path_raises,
};
use crate::found::Found;
use crate::implicit::{Effects, Implicit};
use crate::taken::{Taken, have_others};
use ada_program::program::{Branch, Declaration, Exception, Handler, Right};
use ada_program::{ProcedureNo, Stmt};
use std::alloc::{AllocError, Global};

/// Whether the statements of a block may raise an exception that none of its handlers takes (11.4), where this is known of
/// the calls of procedures.
///
/// # Errors
/// `AllocError` where memory for the set of the exceptions that are taken, or of those that are raised, was refused.
#[tactic(auto, using(std::proofs::lemmas::Grind::common_steps, crate::proofs::Raising::passes_steps))]
pub fn passes(
    alloc: Global,
    effects: Effects<'_>,
    statements: &[Stmt],
    handlers: &[Handler],
) -> Result<bool, AllocError>
    ensures { IfOk result (λ answer. answer
        ≡ rules.passes (effects_in effects.entry) (stmts_form statements.now) (handlers_form handlers.now)) }
{
    let mut taken = Taken::new(alloc);
    let mut found = Found::nothing(alloc);
    find_handled(alloc, effects, statements, handlers, &mut taken, &mut found)?;
    Ok(found.is_some())
}

/// What is assigned may raise exceptions: a new object may want storage (4.8).
fn find_in_right(right: &Right, taken: &Taken, found: &mut Found) -> Result<(), AllocError>
    ensures { Finds result (set_of taken.now) found.old found.new
        (λ among. rules.right_raises among (right_form right.now)) }
{
    match right {
        Right::Null => Ok(()),
        Right::Path(path) => found.add_if(taken, Exception::ConstraintError, path_raises(path)),
        Right::Allocator { access: _, items } => {
            found.add(taken, Exception::StorageError)?;
            found.add_if(taken, Exception::ConstraintError, items_raise(items))
        }
        Right::Default(_) => found.add(taken, Exception::StorageError),
        Right::Value(expression) => found.add_if(
            taken,
            Exception::ConstraintError,
            expression_raises(expression),
        ),
    }
}

/// The initialization of a new object of a type may (7.6).
fn find_in_start(
    implicit: &Implicit,
    type_number: usize,
    taken: &Taken,
    found: &mut Found,
) -> Result<(), AllocError>
    ensures { Finds result (set_of taken.now) found.old found.new
        (λ among. list_any among ((implicit_in implicit.now).start_raises type_number)) }
{
    match implicit.starts.get(type_number) {
        None => Ok(()),
        Some(effect) => found.add_all(taken, &effect.raises),
    }
}

/// So may that of a new object.
fn find_in_new(
    implicit: &Implicit,
    right: &Right,
    taken: &Taken,
    found: &mut Found,
) -> Result<(), AllocError>
    ensures { Finds result (set_of taken.now) found.old found.new
        (λ among. rules.right_starts (implicit_in implicit.now) among (right_form right.now)) }
{
    match right {
        Right::Allocator { access, items: _ } | Right::Default(access) => {
            find_in_start(implicit, access.0, taken, found)
        }
        Right::Null | Right::Path(_) | Right::Value(_) => Ok(()),
    }
}

/// A declaration may.
fn find_in_declaration(
    implicit: &Implicit,
    declaration: &Declaration,
    taken: &Taken,
    found: &mut Found,
) -> Result<(), AllocError>
    ensures { Finds result (set_of taken.now) found.old found.new
        (λ among. rules.declaration_raises (implicit_in implicit.now) among (declaration_form declaration.now)) }
{
    match declaration {
        Declaration::Variable {
            variable: _,
            initial: Some(right),
        } => {
            find_in_right(right, taken, found)?;
            find_in_new(implicit, right, taken, found)
        }
        Declaration::Record {
            variable: _,
            object: _,
            initial: Some(items),
        } => found.add_if(taken, Exception::ConstraintError, items_raise(items)),
        Declaration::Record {
            variable: _,
            object,
            initial: None,
        } => find_in_start(implicit, object.0, taken, found),
        _ => Ok(()),
    }
}

/// Declarations may.
pub(crate) fn find_in_declarations(
    implicit: &Implicit,
    declarations: &[Declaration],
    taken: &Taken,
    found: &mut Found,
) -> Result<(), AllocError>
    ensures { Finds result (set_of taken.now) found.old found.new
        (λ among. rules.declarations_raise (implicit_in implicit.now) among (map declaration_form declarations.now)) }
{
    'declarations: for declaration in declarations {
        find_in_declaration(implicit, declaration, taken, found)?;
    }
    Ok(())
}

/// A call may raise what is known of it (6.4).
fn find_in_call(
    effects: Effects<'_>,
    procedure: ProcedureNo,
    taken: &Taken,
    found: &mut Found,
) -> Result<(), AllocError>
    ensures { Finds result (set_of taken.now) found.old found.new
        (rules.call_raises (slice_get (effects_in effects.entry).calls procedure.0)) }
{
    match effects.calls.get(procedure.0) {
        None => Ok(()),
        Some(effect) => found.add_all(taken, &effect.raises),
    }
}

/// A statement may. What is taken is the same afterwards.
#[cycle(raising)]
#[tactic(auto, using(std::proofs::lemmas::Grind::common_steps, ada_program::specs::Form::statement_rules))]
fn find_in_statement(
    alloc: Global,
    effects: Effects<'_>,
    statement: &Stmt,
    taken: &mut Taken,
    found: &mut Found,
) -> Result<(), AllocError>
    ensures found { Finds result (set_of taken.old) found.old found.new
        (λ among. rules.stmt_raises (effects_in effects.entry) among (stmt_form statement.now)) }
    ensures kept { OnOk result (set_of taken.new ≡ set_of taken.old) }
{
    match statement {
        Stmt::Null | Stmt::PutText(_) | Stmt::Return(_) => Ok(()),
        Stmt::Free { access: _, path } => {
            found.add_if(taken, Exception::ConstraintError, path_raises(path))
        }
        Stmt::Assign { target, value } => {
            found.add_if(taken, Exception::ConstraintError, path_raises(target))?;
            find_in_right(value, taken, found)?;
            find_in_new(effects.implicit, value, taken, found)
        }
        Stmt::AssignRecord { target, items } => found.add_if(
            taken,
            Exception::ConstraintError,
            record_path_raises(target) || items_raise(items),
        ),
        Stmt::Get(target) => {
            found.add(taken, Exception::EndError)?;
            found.add_if(taken, Exception::ConstraintError, path_raises(target))
        }
        Stmt::PutImage(expression) => found.add_if(
            taken,
            Exception::ConstraintError,
            expression_raises(expression),
        ),
        Stmt::If {
            branches,
            otherwise,
        } => {
            find_in_branches(alloc, effects, branches, taken, found)?;
            find_in_statements(alloc, effects, otherwise, taken, found)
        }
        Stmt::Loop {
            condition,
            statements,
            end: _,
        } => {
            found.add_if(
                taken,
                Exception::ConstraintError,
                condition_raises(condition),
            )?;
            find_in_statements(alloc, effects, statements, taken, found)
        }
        Stmt::For {
            parameter: _,
            first,
            last,
            statements,
            end: _,
        } => {
            found.add_if(
                taken,
                Exception::ConstraintError,
                expression_raises(first) || expression_raises(last),
            )?;
            find_in_statements(alloc, effects, statements, taken, found)
        }
        Stmt::Exit { condition, spot: _ } => found.add_if(
            taken,
            Exception::ConstraintError,
            condition_raises(condition),
        ),
        Stmt::Call { procedure, actuals } => {
            found.add_if(taken, Exception::ConstraintError, actuals_raise(actuals))?;
            find_in_call(effects, *procedure, taken, found)
        }
        Stmt::Raise(exception) => found.add(taken, *exception),
        Stmt::Block {
            declarations,
            statements,
            handlers,
        } => {
            find_in_declarations(effects.implicit, declarations, taken, found)?;
            find_handled(alloc, effects, statements, handlers, taken, found)?;
            find_in_handlers(alloc, effects, handlers, taken, found)
        }
    }
}

/// Statements may. What is taken is the same afterwards.
#[cycle(raising)]
fn find_in_statements(
    alloc: Global,
    effects: Effects<'_>,
    statements: &[Stmt],
    taken: &mut Taken,
    found: &mut Found,
) -> Result<(), AllocError>
    ensures found { Finds result (set_of taken.old) found.old found.new
        (λ among. rules.stmts_raise (effects_in effects.entry) among (stmts_form statements.now)) }
    ensures kept { OnOk result (set_of taken.new ≡ set_of taken.old) }
{
    'statements: for statement in statements {
        find_in_statement(alloc, effects, statement, taken, found)?;
    }
    Ok(())
}

/// Branches may. What is taken is the same afterwards.
#[cycle(raising)]
fn find_in_branches(
    alloc: Global,
    effects: Effects<'_>,
    branches: &[Branch],
    taken: &mut Taken,
    found: &mut Found,
) -> Result<(), AllocError>
    ensures found { OnOk result ((others : StmtsForm) (among : Exception → Bool) →
        (is_found found.old among || rules.branches_raise (effects_in effects.entry) (left_of (set_of taken.old) among) (branches_form branches.now others))
        ≡ (is_found found.new among || rules.stmts_raise (effects_in effects.entry) (left_of (set_of taken.old) among) others)) }
    ensures kept { OnOk result (set_of taken.new ≡ set_of taken.old) }
{
    'branches: for branch in branches {
        found.add_if(
            taken,
            Exception::ConstraintError,
            expression_raises(&branch.condition),
        )?;
        find_in_statements(alloc, effects, &branch.statements, taken, found)?;
    }
    Ok(())
}

/// The statements of handlers may. What is taken is the same afterwards.
#[cycle(raising)]
pub(crate) fn find_in_handlers(
    alloc: Global,
    effects: Effects<'_>,
    handlers: &[Handler],
    taken: &mut Taken,
    found: &mut Found,
) -> Result<(), AllocError>
    ensures found { Finds result (set_of taken.old) found.old found.new
        (λ among. rules.handlers_raise (effects_in effects.entry) among (handlers_form handlers.now)) }
    ensures kept { OnOk result (set_of taken.new ≡ set_of taken.old) }
{
    'handlers: for handler in handlers {
        find_in_statements(alloc, effects, &handler.statements, taken, found)?;
    }
    Ok(())
}

/// Statements with handlers may: what the handlers name is taken besides from the statements alone.
#[cycle(raising)]
#[tactic(auto, using(std::proofs::lemmas::Grind::common_steps, crate::proofs::Raising::handled_steps))]
pub(crate) fn find_handled(
    alloc: Global,
    effects: Effects<'_>,
    statements: &[Stmt],
    handlers: &[Handler],
    taken: &mut Taken,
    found: &mut Found,
) -> Result<(), AllocError>
    ensures found { Finds result (set_of taken.old) found.old found.new
        (λ among. rules.stmts_raise (effects_in effects.entry) (rules.untaken (handlers_form handlers.now) among) (stmts_form statements.now)) }
    ensures kept { OnOk result (set_of taken.new ≡ set_of taken.old) }
{
    if have_others(handlers) {
        return Ok(());
    }
    let joined = taken.join(alloc, handlers)?;
    find_in_statements(alloc, effects, statements, taken, found)?;
    taken.remove_all(&joined);
    Ok(())
}

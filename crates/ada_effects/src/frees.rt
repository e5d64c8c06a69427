//! Of which access types statements may free objects.

ghost use Rattle.std.specs.Prelude.{◌≡◌, ◌||◌, ℕ, OnOk, map};
ghost use Rattle.std.specs.List.{slice_get};
ghost use Rattle.ada_effects.specs.Effects as rules;
ghost use Rattle.ada_effects.specs.Found.{Frees, effects_in, implicit_in, is_listed, has_number};
ghost use Rattle.ada_program.specs.Form.{StmtsForm, right_form, declaration_form, stmt_form, stmts_form, branches_form, handlers_form};
ghost use Rattle.ada_program.specs.Kept.{types_in, variables_in};
ghost use Rattle.ada_program.specs.Kept as kept;
ghost use Rattle.ada_program.specs.WellFormed.{is_this};

use crate::freed::Freed;
use crate::implicit::{AccessTypes, Effects, Implicit};
use ada_program::lookup::path_access;
use ada_program::program::{Branch, Declaration, Handler, Right, TypeDefinition, Variable};
use ada_program::{Path, ProcedureNo, Stmt, TypeNo};
use std::alloc::AllocError;

/// The operations that are called for a type may, by what is known of them; nothing, past the end of the list.
fn free_listed(
    listed: &[AccessTypes],
    type_number: usize,
    freed: &mut Freed,
) -> Result<(), AllocError>
    ensures { Frees result freed.old freed.new (λ t. is_listed (slice_get listed.now type_number) t) }
{
    match listed.get(type_number) {
        None => Ok(()),
        Some(types) => freed.add_all(&types.list),
    }
}

/// The initialization of a new object of a type may (7.6).
fn free_in_start(
    implicit: &Implicit,
    type_number: usize,
    freed: &mut Freed,
) -> Result<(), AllocError>
    ensures { Frees result freed.old freed.new
        (λ t. (implicit_in implicit.now).start_frees type_number t) }
{
    match implicit.starts.get(type_number) {
        None => Ok(()),
        Some(effect) => freed.add_all(&effect.frees),
    }
}

/// The copy of a record may (7.6).
fn free_in_adjust(
    implicit: &Implicit,
    type_number: usize,
    freed: &mut Freed,
) -> Result<(), AllocError>
    ensures { Frees result freed.old freed.new
        (λ t. (implicit_in implicit.now).adjust_frees type_number t) }
{
    free_listed(&implicit.adjusts, type_number, freed)
}

/// The end of an object may (7.6.1).
fn free_at_end(implicit: &Implicit, type_number: usize, freed: &mut Freed) -> Result<(), AllocError>
    ensures { Frees result freed.old freed.new
        (λ t. (implicit_in implicit.now).end_frees type_number t) }
{
    free_listed(&implicit.ends, type_number, freed)
}

/// What is assigned may: a new object without items is initialized (4.8, 7.6).
fn free_in_right(implicit: &Implicit, right: &Right, freed: &mut Freed) -> Result<(), AllocError>
    ensures { Frees result freed.old freed.new
        (λ t. rules.right_frees (implicit_in implicit.now) t (right_form right.now)) }
{
    match right {
        Right::Default(access) => free_in_start(implicit, access.0, freed),
        Right::Null | Right::Path(_) | Right::Allocator { .. } | Right::Value(_) => Ok(()),
    }
}

/// A record that gets another value is finalized, and then adjusted (5.2, 7.6).
fn free_in_assignment(
    implicit: &Implicit,
    record_type: TypeNo,
    freed: &mut Freed,
) -> Result<(), AllocError>
    ensures { Frees result freed.old freed.new
        (λ t. rules.assignment_frees (implicit_in implicit.now) t record_type.0) }
{
    free_at_end(implicit, record_type.0, freed)?;
    free_in_adjust(implicit, record_type.0, freed)
}

/// A declaration may: a record object is initialized, or its initial value is adjusted (3.3.1, 7.6).
fn free_in_declaration(
    implicit: &Implicit,
    declaration: &Declaration,
    freed: &mut Freed,
) -> Result<(), AllocError>
    ensures { Frees result freed.old freed.new
        (λ t. rules.declaration_frees (implicit_in implicit.now) t (declaration_form declaration.now)) }
{
    match declaration {
        Declaration::Variable {
            variable: _,
            initial: Some(right),
        } => free_in_right(implicit, right, freed),
        Declaration::Record {
            variable: _,
            object,
            initial: Some(_),
        } => free_in_adjust(implicit, object.0, freed),
        Declaration::Record {
            variable: _,
            object,
            initial: None,
        } => free_in_start(implicit, object.0, freed),
        _ => Ok(()),
    }
}

/// Declarations may.
fn free_in_declarations(
    implicit: &Implicit,
    declarations: &[Declaration],
    freed: &mut Freed,
) -> Result<(), AllocError>
    ensures { Frees result freed.old freed.new
        (λ t. rules.declarations_free (implicit_in implicit.now) t (map declaration_form declarations.now)) }
{
    'declarations: for declaration in declarations {
        free_in_declaration(implicit, declaration, freed)?;
    }
    Ok(())
}

/// The end of what a declaration creates may (7.6.1).
fn free_behind(
    implicit: &Implicit,
    declaration: &Declaration,
    freed: &mut Freed,
) -> Result<(), AllocError>
    ensures { Frees result freed.old freed.new
        (λ t. rules.passing_frees (implicit_in implicit.now) t (declaration_form declaration.now)) }
{
    match declaration {
        Declaration::Collection(access) => free_at_end(implicit, access.0, freed),
        Declaration::Record {
            variable: _,
            object,
            initial: _,
        } => free_at_end(implicit, object.0, freed),
        _ => Ok(()),
    }
}

/// The leaving of the master that has these declarations may.
fn free_in_leaving(
    implicit: &Implicit,
    declarations: &[Declaration],
    freed: &mut Freed,
) -> Result<(), AllocError>
    ensures { Frees result freed.old freed.new
        (λ t. rules.leaving_frees (implicit_in implicit.now) t (map declaration_form declarations.now)) }
{
    'declarations: for declaration in declarations {
        free_behind(implicit, declaration, freed)?;
    }
    Ok(())
}

/// A master does, around its statements: where its declarations are elaborated, and where it is left.
pub(crate) fn free_around(
    implicit: &Implicit,
    declarations: &[Declaration],
    freed: &mut Freed,
) -> Result<(), AllocError>
    ensures { Frees result freed.old freed.new
        (λ t. rules.declarations_free (implicit_in implicit.now) t (map declaration_form declarations.now)
        || rules.leaving_frees (implicit_in implicit.now) t (map declaration_form declarations.now)) }
{
    free_in_declarations(implicit, declarations, freed)?;
    free_in_leaving(implicit, declarations, freed)
}

/// A `Free` does of the access type of what it is given, if that has one (13.11.2), and the end of the object may of others.
fn free_path(
    types: &[TypeDefinition],
    variables: &[Variable],
    implicit: &Implicit,
    path: &Path,
    freed: &mut Freed,
) -> Result<(), AllocError>
    ensures { Frees result freed.old freed.new
        (λ t. is_this t (kept.path_access types.now variables.now path.now)
        || rules.ending_frees (implicit_in implicit.now) t (kept.path_access types.now variables.now path.now)) }
{
    match path_access(types, variables, path) {
        None => Ok(()),
        Some(access) => {
            freed.add(TypeNo(access))?;
            free_at_end(implicit, access, freed)
        }
    }
}

/// A call does what is known of it (6.4).
fn free_in_call(
    effects: Effects<'_>,
    procedure: ProcedureNo,
    freed: &mut Freed,
) -> Result<(), AllocError>
    ensures { Frees result freed.old freed.new
        (rules.call_frees (slice_get (effects_in effects.entry).calls procedure.0)) }
{
    match effects.calls.get(procedure.0) {
        None => Ok(()),
        Some(effect) => freed.add_all(&effect.frees),
    }
}

/// A statement does.
#[cycle(freeing)]
#[tactic(auto, using(std::proofs::lemmas::Grind::common_steps, ada_program::specs::Form::statement_rules))]
fn free_in_statement(
    types: &[TypeDefinition],
    variables: &[Variable],
    effects: Effects<'_>,
    statement: &Stmt,
    freed: &mut Freed,
) -> Result<(), AllocError>
    ensures { Frees result freed.old freed.new (λ t. rules.stmt_frees
        (types_in types.now) (variables_in variables.now) (effects_in effects.entry) t (stmt_form statement.now)) }
{
    match statement {
        Stmt::Null
        | Stmt::Get(_)
        | Stmt::PutImage(_)
        | Stmt::PutText(_)
        | Stmt::Exit { .. }
        | Stmt::Return(_)
        | Stmt::Raise(_) => Ok(()),
        Stmt::Assign { target: _, value } => free_in_right(effects.implicit, value, freed),
        Stmt::AssignRecord { target, items: _ } => {
            free_in_assignment(effects.implicit, target.record, freed)
        }
        Stmt::Free { access: _, path } => {
            free_path(types, variables, effects.implicit, path, freed)
        }
        Stmt::Call {
            procedure,
            actuals: _,
        } => free_in_call(effects, *procedure, freed),
        Stmt::If {
            branches,
            otherwise,
        } => {
            free_in_branches(types, variables, effects, branches, freed)?;
            free_in_statements(types, variables, effects, otherwise, freed)
        }
        Stmt::Loop {
            condition: _,
            statements,
            end: _,
        }
        | Stmt::For {
            parameter: _,
            first: _,
            last: _,
            statements,
            end: _,
        } => free_in_statements(types, variables, effects, statements, freed),
        Stmt::Block {
            declarations,
            statements,
            handlers,
        } => {
            free_in_statements(types, variables, effects, statements, freed)?;
            free_in_handlers(types, variables, effects, handlers, freed)?;
            free_around(effects.implicit, declarations, freed)
        }
    }
}

/// Statements do.
#[cycle(freeing)]
pub(crate) fn free_in_statements(
    types: &[TypeDefinition],
    variables: &[Variable],
    effects: Effects<'_>,
    statements: &[Stmt],
    freed: &mut Freed,
) -> Result<(), AllocError>
    ensures { Frees result freed.old freed.new (λ t. rules.stmts_free
        (types_in types.now) (variables_in variables.now) (effects_in effects.entry) t (stmts_form statements.now)) }
{
    'statements: for statement in statements {
        free_in_statement(types, variables, effects, statement, freed)?;
    }
    Ok(())
}

/// Branches do.
#[cycle(freeing)]
fn free_in_branches(
    types: &[TypeDefinition],
    variables: &[Variable],
    effects: Effects<'_>,
    branches: &[Branch],
    freed: &mut Freed,
) -> Result<(), AllocError>
    ensures { OnOk result ((others : StmtsForm) (t : ℕ) →
        (has_number freed.old.list.items t || rules.branches_free
        (types_in types.now) (variables_in variables.now) (effects_in effects.entry) t (branches_form branches.now others))
        ≡ (has_number freed.new.list.items t || rules.stmts_free
        (types_in types.now) (variables_in variables.now) (effects_in effects.entry) t others)) }
{
    'branches: for branch in branches {
        free_in_statements(types, variables, effects, &branch.statements, freed)?;
    }
    Ok(())
}

/// The statements of handlers do.
#[cycle(freeing)]
pub(crate) fn free_in_handlers(
    types: &[TypeDefinition],
    variables: &[Variable],
    effects: Effects<'_>,
    handlers: &[Handler],
    freed: &mut Freed,
) -> Result<(), AllocError>
    ensures { Frees result freed.old freed.new (λ t. rules.handlers_free
        (types_in types.now) (variables_in variables.now) (effects_in effects.entry) t (handlers_form handlers.now)) }
{
    'handlers: for handler in handlers {
        free_in_statements(types, variables, effects, &handler.statements, freed)?;
    }
    Ok(())
}

//! What forms do, of the deeds that are sought, and call, found in one walk.

ghost use Rattle.std.specs.Prelude.{◌≡◌, ◌||◌, ◌&&◌, Bool, OnOk, map};
ghost use Rattle.std.specs.List.{slice_get};
ghost use Rattle.ada_deeds.specs.Forms as rules;
ghost use Rattle.ada_deeds.specs.View.{does_found, sought, Calls, Finds};
ghost use Rattle.ada_deeds.specs.declared.deed.Callee.{Callee};
ghost use Rattle.ada_deeds.specs.declared.deed.Deed.{Deed};
ghost use Rattle.ada_deeds.specs.declared.deed.Operation.TheVariants.{Finalize};
ghost use Rattle.ada_program.specs.Form.{StmtsForm, item_form, path_form, right_form, initial_items, declaration_form, stmt_form, stmts_form, branches_form, handlers_form};
ghost use Rattle.ada_program.specs.Kept.{types_in, variables_in};
ghost use Rattle.ada_program.specs.WellFormed as fits;

use crate::deed::{Callee, Operation};
use crate::evaluations::{
    find_actuals, find_condition, find_expression, find_path, find_record_path, is_left,
};
use crate::found::Found;
use crate::search::Search;
use ada_program::lookup::path_access;
use ada_program::program::{
    Branch, Declaration, Exception, Handler, Item, Right, TypeDefinition, Variable,
};
use ada_program::{Path, Stmt};
use std::alloc::AllocError;

/// The type that an access type designates (3.10).
fn designated_type(types: &[TypeDefinition], access: usize) -> Option<usize>
    ensures { result ≡ fits.designated_type (types_in types.now) access }
{
    match types.get(access) {
        Some(
            TypeDefinition::Access {
                name: _,
                designated,
                pool: _,
            },
        ) => Some(designated.0),
        Some(TypeDefinition::Record { .. } | TypeDefinition::Object { .. }) | None => None,
    }
}

/// The same, where there is such an access type.
fn designated_by(types: &[TypeDefinition], access: Option<usize>) -> Option<usize>
    ensures { result ≡ rules.designated_by (types_in types.now) access }
{
    designated_type(types, access?)
}

/// The record type of a record object that is known by a type (3.3.1).
fn record_of(types: &[TypeDefinition], object: usize) -> Option<usize>
    ensures { result ≡ fits.object_in (slice_get (types_in types.now) object) }
{
    match types.get(object) {
        Some(TypeDefinition::Object { record }) => Some(record.0),
        Some(TypeDefinition::Record { .. } | TypeDefinition::Access { .. }) | None => None,
    }
}

/// An item does, or its copy is adjusted.
fn find_in_item(
    types: &[TypeDefinition],
    variables: &[Variable],
    search: Search,
    item: &Item,
    found: &mut Found,
) -> Result<(), AllocError>
    ensures { Finds result search found.old found.new (λ d known. rules.item_does
        (types_in types.now) (variables_in variables.now) known d (item_form item.now)) }
{
    match item {
        Item::Null => Ok(()),
        Item::Path(path) => find_path(types, variables, search, path, found),
        Item::Value(expression) => find_expression(types, variables, search, expression, found),
        Item::Record(path) => {
            find_record_path(types, variables, search, path, found)?;
            found.call(Callee::Parts(Operation::Adjust, path.record))
        }
    }
}

/// Items do.
fn find_in_items(
    types: &[TypeDefinition],
    variables: &[Variable],
    search: Search,
    items: &[Item],
    found: &mut Found,
) -> Result<(), AllocError>
    ensures { Finds result search found.old found.new (λ d known. rules.items_do
        (types_in types.now) (variables_in variables.now) known d (map item_form items.now)) }
{
    'items: for item in items {
        find_in_item(types, variables, search, item, found)?;
    }
    Ok(())
}

/// What is assigned does.
fn find_in_right(
    types: &[TypeDefinition],
    variables: &[Variable],
    search: Search,
    right: &Right,
    found: &mut Found,
) -> Result<(), AllocError>
    ensures { Finds result search found.old found.new (λ d known. rules.right_does
        (types_in types.now) (variables_in variables.now) known d (right_form right.now)) }
{
    match right {
        Right::Null => Ok(()),
        Right::Path(path) => find_path(types, variables, search, path, found),
        Right::Allocator { access, items } => {
            found.allocate(search);
            find_in_items(types, variables, search, items, found)?;
            found.create(designated_type(types, access.0))
        }
        Right::Default(access) => {
            found.allocate(search);
            found.create(designated_type(types, access.0))
        }
        Right::Value(expression) => find_expression(types, variables, search, expression, found),
    }
}

/// The initial value of a record object does, or its creation without one.
fn find_in_initial(
    types: &[TypeDefinition],
    variables: &[Variable],
    search: Search,
    record_type: Option<usize>,
    initial: &Option<Vec<Item>>,
    found: &mut Found,
) -> Result<(), AllocError>
    ensures { Finds result search found.old found.new (λ d known. rules.initial_does
        (types_in types.now) (variables_in variables.now) known d record_type (initial_items initial.now)) }
{
    match initial {
        None => found.create(record_type),
        Some(items) => find_in_items(types, variables, search, items, found),
    }
}

/// A declaration does.
pub(crate) fn find_in_declaration(
    types: &[TypeDefinition],
    variables: &[Variable],
    search: Search,
    declaration: &Declaration,
    found: &mut Found,
) -> Result<(), AllocError>
    ensures { Finds result search found.old found.new (λ d known. rules.declaration_does
        (types_in types.now) (variables_in variables.now) known d (declaration_form declaration.now)) }
{
    match declaration {
        Declaration::Pool(_)
        | Declaration::Collection(_)
        | Declaration::Variable {
            variable: _,
            initial: None,
        } => Ok(()),
        Declaration::Variable {
            variable: _,
            initial: Some(right),
        } => find_in_right(types, variables, search, right, found),
        Declaration::Record {
            variable: _,
            object,
            initial,
        } => find_in_initial(
            types,
            variables,
            search,
            record_of(types, object.0),
            initial,
            found,
        ),
    }
}

/// Declarations do.
pub(crate) fn find_in_declarations(
    types: &[TypeDefinition],
    variables: &[Variable],
    search: Search,
    declarations: &[Declaration],
    found: &mut Found,
) -> Result<(), AllocError>
    ensures { Finds result search found.old found.new (λ d known. rules.declarations_do
        (types_in types.now) (variables_in variables.now) known d (map declaration_form declarations.now)) }
{
    'declarations: for declaration in declarations {
        find_in_declaration(types, variables, search, declaration, found)?;
    }
    Ok(())
}

/// Where a master is left, what a declaration created is finalized.
pub(crate) fn find_in_ending(
    types: &[TypeDefinition],
    declaration: &Declaration,
    found: &mut Found,
) -> Result<(), AllocError>
    ensures { Calls result found.old found.new (λ known. rules.ending_does
        (types_in types.now) known (declaration_form declaration.now)) }
{
    match declaration {
        Declaration::Pool(_)
        | Declaration::Variable {
            variable: _,
            initial: _,
        } => Ok(()),
        Declaration::Collection(access) => {
            found.call_parts(Operation::Finalize, designated_type(types, access.0))
        }
        Declaration::Record {
            variable: _,
            object,
            initial: _,
        } => found.call_parts(Operation::Finalize, record_of(types, object.0)),
    }
}

/// Where a master with these declarations is left.
pub(crate) fn find_in_leaving(
    types: &[TypeDefinition],
    declarations: &[Declaration],
    found: &mut Found,
) -> Result<(), AllocError>
    ensures { Calls result found.old found.new (λ known. rules.leaving_does
        (types_in types.now) known (map declaration_form declarations.now)) }
{
    'declarations: for declaration in declarations {
        find_in_ending(types, declaration, found)?;
    }
    Ok(())
}

/// A Free does: it frees an object, which is finalized (13.11.2).
fn find_freeing(
    types: &[TypeDefinition],
    variables: &[Variable],
    search: Search,
    path: &Path,
    found: &mut Found,
) -> Result<(), AllocError>
    ensures { Finds result search found.old found.new (λ d known.
        rules.path_does (types_in types.now) (variables_in variables.now) d (path_form path.now)
        || rules.freeing_does d (fits.path_access (types_in types.now) (variables_in variables.now) (path_form path.now))
        || rules.parts_do known Finalize (rules.designated_by (types_in types.now)
        (fits.path_access (types_in types.now) (variables_in variables.now) (path_form path.now)))) }
{
    let access = path_access(types, variables, path);
    find_path(types, variables, search, path, found)?;
    found.free(search, access)?;
    found.call_parts(Operation::Finalize, designated_by(types, access))
}

/// A statement does.
#[cycle(walking)]
#[tactic(auto, using(std::proofs::lemmas::Grind::common_steps, ada_program::specs::Form::statement_rules))]
pub(crate) fn find_in_statement(
    types: &[TypeDefinition],
    variables: &[Variable],
    search: Search,
    statement: &Stmt,
    found: &mut Found,
) -> Result<(), AllocError>
    ensures { Finds result search found.old found.new (λ d known. rules.stmt_does
        (types_in types.now) (variables_in variables.now) known d (stmt_form statement.now)) }
{
    match statement {
        Stmt::Null | Stmt::PutText(_) | Stmt::Return(_) => Ok(()),
        Stmt::Assign { target, value } => {
            find_path(types, variables, search, target, found)?;
            find_in_right(types, variables, search, value, found)
        }
        Stmt::AssignRecord { target, items } => {
            find_record_path(types, variables, search, target, found)?;
            find_in_items(types, variables, search, items, found)?;
            found.assign(target.record)
        }
        Stmt::Free { access: _, path } => find_freeing(types, variables, search, path, found),
        Stmt::Get(target) => {
            found.raise(search, Exception::EndError);
            find_path(types, variables, search, target, found)
        }
        Stmt::PutImage(expression) => find_expression(types, variables, search, expression, found),
        Stmt::If {
            branches,
            otherwise,
        } => {
            find_in_branches(types, variables, search, branches, found)?;
            find_in_statements(types, variables, search, otherwise, found)
        }
        Stmt::Loop {
            condition,
            statements,
            end: _,
        } => {
            find_condition(types, variables, search, condition, found)?;
            find_in_statements(types, variables, search, statements, found)
        }
        Stmt::For {
            parameter: _,
            first,
            last,
            statements,
            end: _,
        } => {
            find_expression(types, variables, search, first, found)?;
            find_expression(types, variables, search, last, found)?;
            find_in_statements(types, variables, search, statements, found)
        }
        Stmt::Exit { condition, spot: _ } => {
            find_condition(types, variables, search, condition, found)
        }
        Stmt::Call { procedure, actuals } => {
            find_actuals(types, variables, search, actuals, found)?;
            found.call_procedure(*procedure)
        }
        Stmt::Raise(exception) => {
            found.raise(search, *exception);
            Ok(())
        }
        Stmt::Block {
            declarations,
            statements,
            handlers,
        } => {
            find_in_declarations(types, variables, search, declarations, found)?;
            find_handled(types, variables, search, statements, handlers, found)?;
            find_in_handlers(types, variables, search, handlers, found)?;
            find_in_leaving(types, declarations, found)
        }
    }
}

/// Statements do.
#[cycle(walking)]
fn find_in_statements(
    types: &[TypeDefinition],
    variables: &[Variable],
    search: Search,
    statements: &[Stmt],
    found: &mut Found,
) -> Result<(), AllocError>
    ensures { Finds result search found.old found.new (λ d known. rules.stmts_do
        (types_in types.now) (variables_in variables.now) known d (stmts_form statements.now)) }
{
    'statements: for statement in statements {
        find_in_statement(types, variables, search, statement, found)?;
    }
    Ok(())
}

/// Branches do.
#[cycle(walking)]
fn find_in_branches(
    types: &[TypeDefinition],
    variables: &[Variable],
    search: Search,
    branches: &[Branch],
    found: &mut Found,
) -> Result<(), AllocError>
    ensures { OnOk result ((others : StmtsForm) (d : Deed) (known : Callee → Bool) →
        (does_found found.old (sought search d) known || rules.branches_do
        (types_in types.now) (variables_in variables.now) known (sought search d) (branches_form branches.now others))
        ≡ (does_found found.new (sought search d) known || rules.stmts_do
        (types_in types.now) (variables_in variables.now) known (sought search d) others)) }
{
    'branches: for branch in branches {
        find_expression(types, variables, search, &branch.condition, found)?;
        find_in_statements(types, variables, search, &branch.statements, found)?;
    }
    Ok(())
}

/// The statements of handlers do.
#[cycle(walking)]
pub(crate) fn find_in_handlers(
    types: &[TypeDefinition],
    variables: &[Variable],
    search: Search,
    handlers: &[Handler],
    found: &mut Found,
) -> Result<(), AllocError>
    ensures { Finds result search found.old found.new (λ d known. rules.handlers_do
        (types_in types.now) (variables_in variables.now) known d (handlers_form handlers.now)) }
{
    'handlers: for handler in handlers {
        find_in_statements(types, variables, search, &handler.statements, found)?;
    }
    Ok(())
}

/// Statements with handlers do: nothing is found in them, if an exception is sought that a handler takes.
#[cycle(walking)]
pub(crate) fn find_handled(
    types: &[TypeDefinition],
    variables: &[Variable],
    search: Search,
    statements: &[Stmt],
    handlers: &[Handler],
    found: &mut Found,
) -> Result<(), AllocError>
    ensures { Finds result search found.old found.new (λ d known.
        rules.is_left (handlers_form handlers.now) d
        && rules.stmts_do (types_in types.now) (variables_in variables.now) known d (stmts_form statements.now)) }
{
    if !is_left(handlers, search) {
        return Ok(());
    }
    find_in_statements(types, variables, search, statements, found)
}

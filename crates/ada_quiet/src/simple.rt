//! Declarations, statements and bodies, where they are simple: they allocate and free objects without controlled parts (7.6, 4.8,
//! 13.11.2), move and follow, call nothing (6.4), assign no record with controlled parts (5.2), and declare no more than variables.

ghost use Rattle.std.specs.Prelude.{◌≡◌, ◌&&◌, drop, map};
ghost use Rattle.std.specs.List.{list_all};
ghost use Rattle.ada_program.specs.Form.{StmtsForm, branches_form, declaration_form, handlers_form, initial_form, right_form, stmt_form, stmts_form};
ghost use Rattle.ada_program.specs.Kept.{types_in, variables_in};
ghost use Rattle.ada_program.specs.ProgramForm.{body_form};
ghost use Rattle.ada_quiet.specs.Simple as rules;

use crate::apart::are_bare_items;
use crate::bare::has_bare_objects;
use ada_program::Stmt;
use ada_program::parts::finalization_of;
use ada_program::program::{
    Branch, Declaration, Handler, Procedure, Right, TypeDefinition, Variable, VariableKind,
};

/// Whether what is assigned is no new object, or one without controlled parts (4.8, 5.2).
fn is_simple_right(types: &[TypeDefinition], right: &Right) -> bool
    ensures { result ≡ rules.is_simple_right (types_in types.now) (right_form right.now) }
{
    match right {
        Right::Null | Right::Path(_) | Right::Value(_) => true,
        Right::Default(access) => has_bare_objects(types, *access),
        Right::Allocator { access, items: _ } => has_bare_objects(types, *access),
    }
}

/// Whether what a variable is given at first is so, if it is given something (3.3.1).
fn is_simple_initial(types: &[TypeDefinition], initial: &Option<Right>) -> bool
    ensures { result ≡ rules.is_simple_right (types_in types.now) (initial_form initial.now) }
{
    match initial {
        None => true,
        Some(right) => is_simple_right(types, right),
    }
}

/// Whether a declaration is that of a variable, and simple.
fn is_simple_declaration(types: &[TypeDefinition], declaration: &Declaration) -> bool
    ensures { result ≡ rules.is_simple_declaration (types_in types.now) (declaration_form declaration.now) }
{
    match declaration {
        Declaration::Variable {
            variable: _,
            initial,
        } => is_simple_initial(types, initial),
        Declaration::Pool(_) | Declaration::Collection(_) | Declaration::Record { .. } => false,
    }
}

/// Whether each of these is.
fn are_simple_declarations(types: &[TypeDefinition], declarations: &[Declaration]) -> bool
    ensures { result ≡ rules.are_simple_declarations (types_in types.now) (map declaration_form declarations.now) }
{
    'declarations: for declaration in declarations {
        if !is_simple_declaration(types, declaration) {
            return false;
        }
    }
    true
}

/// Whether a statement assigns to no record with controlled parts as a whole (5.2, 7.6), allocates and frees no object with such parts
/// (4.8, 13.11.2), and calls nothing (6.4).
#[cycle(statements)]
#[tactic(auto, using(std::proofs::lemmas::Grind::common_steps, ada_program::specs::Form::statement_rules))]
fn is_simple_stmt(types: &[TypeDefinition], statement: &Stmt) -> bool
    ensures { result ≡ rules.is_simple_stmt (types_in types.now) (stmt_form statement.now) }
{
    match statement {
        Stmt::Null
        | Stmt::Get(_)
        | Stmt::PutImage(_)
        | Stmt::PutText(_)
        | Stmt::Exit { .. }
        | Stmt::Return(_)
        | Stmt::Raise(_) => true,
        Stmt::Call { .. } => false,
        Stmt::AssignRecord { target, items } => {
            finalization_of(types, target.record.0).is_none() && are_bare_items(types, items)
        }
        Stmt::Assign { target: _, value } => is_simple_right(types, value),
        Stmt::Free { access, path: _ } => has_bare_objects(types, *access),
        Stmt::If {
            branches,
            otherwise,
        } => { are_simple_branches(types, branches) && are_simple(types, otherwise) }
        Stmt::Loop {
            condition: _,
            statements,
            end: _,
        } => are_simple(types, statements),
        Stmt::For {
            parameter: _,
            first: _,
            last: _,
            statements,
            end: _,
        } => are_simple(types, statements),
        Stmt::Block {
            declarations,
            statements,
            handlers,
        } => are_simple_declarations(types, declarations)
            && are_simple(types, statements)
            && are_simple_handlers(types, handlers),
    }
}

/// Whether statements are simple.
#[cycle(statements)]
fn are_simple(types: &[TypeDefinition], statements: &[Stmt]) -> bool
    ensures { result ≡ rules.are_simple (types_in types.now) (stmts_form statements.now) }
{
    'statements: for statement in statements {
        if !is_simple_stmt(types, statement) {
            return false;
        }
    }
    true
}

/// Whether branches are (5.3).
#[cycle(statements)]
fn are_simple_branches(types: &[TypeDefinition], branches: &[Branch]) -> bool
    ensures { (others : StmtsForm) →
        rules.are_simple_branches (types_in types.now) (branches_form branches.now others)
        ≡ (result && rules.are_simple (types_in types.now) others) }
{
    'branches: for branch in branches {
        if !are_simple(types, &branch.statements) {
            return false;
        }
    }
    true
}

/// Whether handlers are (11.2).
#[cycle(statements)]
fn are_simple_handlers(types: &[TypeDefinition], handlers: &[Handler]) -> bool
    ensures { result ≡ rules.are_simple_handlers (types_in types.now) (handlers_form handlers.now) }
{
    'handlers: for handler in handlers {
        if !are_simple(types, &handler.statements) {
            return false;
        }
    }
    true
}

/// Whether a variable holds an Integer, a Boolean or an access value (3.3.1, 3.10): it is no record.
fn holds_one_value(kind: VariableKind) -> bool
    ensures { result ≡ rules.holds_one_value kind }
{
    match kind {
        VariableKind::Integer | VariableKind::Boolean | VariableKind::Access(_) => true,
        VariableKind::Record(_) => false,
    }
}

/// Whether each of these does.
fn hold_one_value(variables: &[Variable]) -> bool
    ensures { result ≡ list_all (λ x. rules.holds_one_value x.kind) (variables_in variables.now) }
{
    'variables: for variable in variables {
        if !holds_one_value(variable.kind) {
            return false;
        }
    }
    true
}

/// Whether each variable of a body but its formal parameter does.
fn others_hold_one_value(variables: &[Variable]) -> bool
    ensures { result ≡ list_all (λ x. rules.holds_one_value x.kind) (drop 1 (variables_in variables.now)) }
{
    match variables {
        [] => true,
        [_, others @ ..] => hold_one_value(others),
    }
}

/// Whether a body is simple: it allocates and frees objects without controlled parts, moves and follows; it calls nothing, assigns no record with controlled parts, and declares variables alone, none of them a record. An exception
/// may come out of it. Linear in the body.
pub(crate) fn is_simple_body(types: &[TypeDefinition], procedure: &Procedure) -> bool
    ensures { result ≡ rules.is_simple_body (types_in types.now) (body_form procedure.now) }
{
    others_hold_one_value(&procedure.variables)
        && are_simple_declarations(types, &procedure.declarations)
        && are_simple(types, &procedure.statements)
        && are_simple_handlers(types, &procedure.handlers)
}

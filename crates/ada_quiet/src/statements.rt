//! Declarations and statements, where they are quiet.

ghost use Rattle.std.specs.Prelude.{◌≡◌, ◌&&◌, map};
ghost use Rattle.ada_program.specs.Form.{StmtsForm, branches_form, declaration_form, handlers_form, stmt_form, stmts_form};
ghost use Rattle.ada_program.specs.Kept.{types_in, variables_in};
ghost use Rattle.ada_quiet.specs.Quiet as rules;

use crate::values::{
    holds_elementary, is_quiet_condition, is_quiet_expression, is_quiet_path, is_quiet_right,
};
use ada_program::Stmt;
use ada_program::lookup::variable_kind;
use ada_program::program::{Branch, Declaration, Handler, TypeDefinition, Variable};

/// Whether a declaration is that of an Integer or a Boolean (3.3.1), and quiet.
fn is_quiet_declaration(
    types: &[TypeDefinition],
    variables: &[Variable],
    declaration: &Declaration,
) -> bool
    ensures { result ≡ rules.is_quiet_declaration
        (types_in types.now) (variables_in variables.now) (declaration_form declaration.now) }
{
    match declaration {
        Declaration::Variable {
            variable,
            initial: Some(right),
        } => holds_elementary(variable_kind(variables, variable.0))
            && is_quiet_right(types, variables, right),
        _ => false,
    }
}

/// Whether each of these is.
pub(crate) fn are_quiet_declarations(
    types: &[TypeDefinition],
    variables: &[Variable],
    declarations: &[Declaration],
) -> bool
    ensures { result ≡ rules.are_quiet_declarations
        (types_in types.now) (variables_in variables.now) (map declaration_form declarations.now) }
{
    'declarations: for declaration in declarations {
        if !is_quiet_declaration(types, variables, declaration) {
            return false;
        }
    }
    true
}

/// Whether a statement neither calls, nor allocates, nor frees, assigns no record, and is about Integers and Booleans (5.1).
#[cycle(statements)]
#[tactic(auto, using(std::proofs::lemmas::Grind::common_steps, ada_program::specs::Form::statement_rules))]
fn is_quiet_stmt(types: &[TypeDefinition], variables: &[Variable], statement: &Stmt) -> bool
    ensures { result ≡ rules.is_quiet_stmt
        (types_in types.now) (variables_in variables.now) (stmt_form statement.now) }
{
    match statement {
        Stmt::Null | Stmt::PutText(_) | Stmt::Return(_) | Stmt::Raise(_) => true,
        Stmt::AssignRecord { .. } | Stmt::Free { .. } | Stmt::Call { .. } => false,
        Stmt::Assign { target, value } => is_quiet_path(types, variables, target)
            && is_quiet_right(types, variables, value),
        Stmt::Get(target) => is_quiet_path(types, variables, target),
        Stmt::PutImage(expression) => is_quiet_expression(types, variables, expression),
        Stmt::If {
            branches,
            otherwise,
        } => are_quiet_branches(types, variables, branches)
            && are_quiet(types, variables, otherwise),
        Stmt::Loop {
            condition,
            statements,
            end: _,
        } => is_quiet_condition(types, variables, condition)
            && are_quiet(types, variables, statements),
        Stmt::For {
            parameter,
            first,
            last,
            statements,
            end: _,
        } => holds_elementary(variable_kind(variables, parameter.0))
            && is_quiet_expression(types, variables, first)
            && is_quiet_expression(types, variables, last)
            && are_quiet(types, variables, statements),
        Stmt::Exit { condition, spot: _ } => is_quiet_condition(types, variables, condition),
        Stmt::Block {
            declarations,
            statements,
            handlers,
        } => are_quiet_declarations(types, variables, declarations)
            && are_quiet(types, variables, statements)
            && are_quiet_handlers(types, variables, handlers),
    }
}

/// Whether statements are quiet.
#[cycle(statements)]
pub(crate) fn are_quiet(
    types: &[TypeDefinition],
    variables: &[Variable],
    statements: &[Stmt],
) -> bool
    ensures { result ≡ rules.are_quiet
        (types_in types.now) (variables_in variables.now) (stmts_form statements.now) }
{
    'statements: for statement in statements {
        if !is_quiet_stmt(types, variables, statement) {
            return false;
        }
    }
    true
}

/// Whether branches are (5.3).
#[cycle(statements)]
fn are_quiet_branches(types: &[TypeDefinition], variables: &[Variable], branches: &[Branch]) -> bool
    ensures { (others : StmtsForm) →
        rules.are_quiet_branches (types_in types.now) (variables_in variables.now) (branches_form branches.now others)
        ≡ (result && rules.are_quiet (types_in types.now) (variables_in variables.now) others) }
{
    'branches: for branch in branches {
        if !is_quiet_expression(types, variables, &branch.condition) {
            return false;
        }
        if !are_quiet(types, variables, &branch.statements) {
            return false;
        }
    }
    true
}

/// Whether handlers are (11.2).
#[cycle(statements)]
pub(crate) fn are_quiet_handlers(
    types: &[TypeDefinition],
    variables: &[Variable],
    handlers: &[Handler],
) -> bool
    ensures { result ≡ rules.are_quiet_handlers
        (types_in types.now) (variables_in variables.now) (handlers_form handlers.now) }
{
    'handlers: for handler in handlers {
        if !are_quiet(types, variables, &handler.statements) {
            return false;
        }
    }
    true
}

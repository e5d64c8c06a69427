//! Programs in which no operation of a controlled type is called (7.6, 7.6.1): nothing in their text creates an object with controlled
//! parts (3.3.1, 4.8), or assigns a record with some (5.2). And programs in which no Adjust is called: nothing in their text copies a
//! record with controlled parts (7.6).

ghost use Rattle.std.specs.Prelude.{◌≡◌, ◌&&◌, ◌||◌, not, Some, IfOk, map};
ghost use Rattle.std.specs.List.{list_all, list_any};
ghost use Rattle.ada_program.specs.Form.{StmtsForm, branches_form, declaration_form, handlers_form, initial_form, right_form, stmt_form, stmts_form};
ghost use Rattle.ada_program.specs.Kept.{types_in};
ghost use Rattle.ada_program.specs.ProgramForm.{body_form, main_body, program_form};
ghost use Rattle.ada_quiet.specs.Idle as rules;
ghost use Rattle.ada_quiet.specs.InUse as in_use;

use crate::apart::operations_stand_apart;
use crate::tracking::are_copied_in_order;
use ada_program::parts::finalization_of;
use ada_program::program::{Branch, Declaration, Handler, Procedure, Right, TypeDefinition};
use ada_program::{Program, Stmt};
use std::alloc::{AllocError, Global};

/// Whether the objects have controlled parts that an access type designates, or that are known by a type (3.10, 3.3.1).
pub(crate) fn holds_parts(types: &[TypeDefinition], number: usize) -> bool
    ensures { result ≡ rules.holds_parts (types_in types.now) number }
{
    match types.get(number) {
        Some(
            TypeDefinition::Access {
                name: _,
                designated,
                pool: _,
            },
        ) => finalization_of(types, designated.0).is_some(),
        Some(TypeDefinition::Object { record }) => finalization_of(types, record.0).is_some(),
        _ => false,
    }
}

/// Whether what is assigned is a new object with controlled parts (4.8), and not only copies count.
fn right_makes_parts(types: &[TypeDefinition], copies: bool, right: &Right) -> bool
    ensures { result ≡ rules.right_makes_parts (types_in types.now) copies (right_form right.now) }
{
    match right {
        Right::Null | Right::Path(_) | Right::Value(_) => false,
        Right::Allocator { access, items: _ } => !copies && holds_parts(types, access.0),
        Right::Default(access) => !copies && holds_parts(types, access.0),
    }
}

/// Whether what a variable is given at first is one, if it is given something (3.3.1).
fn initial_makes_parts(types: &[TypeDefinition], copies: bool, initial: &Option<Right>) -> bool
    ensures { result ≡ rules.right_makes_parts (types_in types.now) copies (initial_form initial.now) }
{
    match initial {
        None => false,
        Some(right) => right_makes_parts(types, copies, right),
    }
}

/// Whether a declaration creates an object with controlled parts, or gives a variable one at first (3.3.1); where only copies count, it
/// gives such an object an initial value.
fn declaration_makes_parts(
    types: &[TypeDefinition],
    copies: bool,
    declaration: &Declaration,
) -> bool
    ensures { result ≡ rules.declaration_makes_parts (types_in types.now) copies (declaration_form declaration.now) }
{
    match declaration {
        Declaration::Pool(_) | Declaration::Collection(_) => false,
        Declaration::Variable {
            variable: _,
            initial,
        } => initial_makes_parts(types, copies, initial),
        Declaration::Record {
            variable: _,
            object,
            initial,
        } => (initial.is_some() || !copies) && holds_parts(types, object.0),
    }
}

/// Whether one of these declarations does.
fn declarations_make_parts(
    types: &[TypeDefinition],
    copies: bool,
    declarations: &[Declaration],
) -> bool
    ensures { result ≡ rules.declarations_make_parts (types_in types.now) copies (map declaration_form declarations.now) }
{
    'declarations: for declaration in declarations {
        if declaration_makes_parts(types, copies, declaration) {
            return true;
        }
    }
    false
}

/// Whether a statement creates an object with controlled parts, or assigns a record with some as a whole (5.2), by itself or by one
/// inside it.
#[cycle(statements)]
#[tactic(auto, using(std::proofs::lemmas::Grind::common_steps, ada_program::specs::Form::statement_rules))]
fn stmt_makes_parts(types: &[TypeDefinition], copies: bool, statement: &Stmt) -> bool
    ensures { result ≡ rules.stmt_makes_parts (types_in types.now) copies (stmt_form statement.now) }
{
    match statement {
        Stmt::Null
        | Stmt::Free { .. }
        | Stmt::Get(_)
        | Stmt::PutImage(_)
        | Stmt::PutText(_)
        | Stmt::Exit { .. }
        | Stmt::Call { .. }
        | Stmt::Return(_)
        | Stmt::Raise(_) => false,
        Stmt::Assign { target: _, value } => right_makes_parts(types, copies, value),
        Stmt::AssignRecord { target, items: _ } => {
            finalization_of(types, target.record.0).is_some()
        }
        Stmt::If {
            branches,
            otherwise,
        } => branches_make_parts(types, copies, branches)
            || stmts_make_parts(types, copies, otherwise),
        Stmt::Loop {
            condition: _,
            statements,
            end: _,
        } => stmts_make_parts(types, copies, statements),
        Stmt::For {
            parameter: _,
            first: _,
            last: _,
            statements,
            end: _,
        } => stmts_make_parts(types, copies, statements),
        Stmt::Block {
            declarations,
            statements,
            handlers,
        } => declarations_make_parts(types, copies, declarations)
            || stmts_make_parts(types, copies, statements)
            || handlers_make_parts(types, copies, handlers),
    }
}

/// Whether one of these statements does.
#[cycle(statements)]
fn stmts_make_parts(types: &[TypeDefinition], copies: bool, statements: &[Stmt]) -> bool
    ensures { result ≡ rules.stmts_make_parts (types_in types.now) copies (stmts_form statements.now) }
{
    'statements: for statement in statements {
        if stmt_makes_parts(types, copies, statement) {
            return true;
        }
    }
    false
}

/// Whether one in these branches does (5.3).
#[cycle(statements)]
fn branches_make_parts(types: &[TypeDefinition], copies: bool, branches: &[Branch]) -> bool
    ensures { (others : StmtsForm) → rules.branches_make_parts (types_in types.now) copies (branches_form branches.now others)
        ≡ (result || rules.stmts_make_parts (types_in types.now) copies others) }
{
    'branches: for branch in branches {
        if stmts_make_parts(types, copies, &branch.statements) {
            return true;
        }
    }
    false
}

/// Whether one in these handlers does (11.2).
#[cycle(statements)]
fn handlers_make_parts(types: &[TypeDefinition], copies: bool, handlers: &[Handler]) -> bool
    ensures { result ≡ rules.handlers_make_parts (types_in types.now) copies (handlers_form handlers.now) }
{
    'handlers: for handler in handlers {
        if stmts_make_parts(types, copies, &handler.statements) {
            return true;
        }
    }
    false
}

/// Whether something in the body of one of these procedures does. Linear in the bodies.
fn bodies_make_parts(types: &[TypeDefinition], copies: bool, procedures: &[Procedure]) -> bool
    ensures { result ≡ list_any (rules.body_makes_parts (types_in types.now) copies) (map body_form procedures.now) }
{
    'procedures: for procedure in procedures {
        if declarations_make_parts(types, copies, &procedure.declarations) {
            return true;
        }
        if stmts_make_parts(types, copies, &procedure.statements) {
            return true;
        }
        if handlers_make_parts(types, copies, &procedure.handlers) {
            return true;
        }
    }
    false
}

/// Whether something in the main procedure's body does. Linear in the body.
fn main_makes_parts(copies: bool, program: &Program) -> bool
    ensures { let p = program_form program.now in result ≡ rules.body_makes_parts p.types copies (main_body p) }
{
    declarations_make_parts(&program.types, copies, &program.declarations)
        || stmts_make_parts(&program.types, copies, &program.statements)
        || handlers_make_parts(&program.types, copies, &program.handlers)
}

/// Whether something in the text of a program does. Linear in all bodies.
fn text_makes_parts(copies: bool, program: &Program) -> bool
    ensures { result ≡ rules.text_makes_parts copies (program_form program.now) }
{
    main_makes_parts(copies, program)
        || bodies_make_parts(&program.types, copies, &program.procedures)
}

/// Whether something in the text of a program creates an object with controlled parts (3.3.1, 4.8), or assigns a record with some
/// (5.2): where nothing does, no operation of a controlled type is called. Linear in all bodies.
pub(crate) fn makes_parts(program: &Program) -> bool
    ensures { result ≡ rules.makes_parts (program_form program.now) }
{
    text_makes_parts(false, program)
}

/// Whether operations stand in order in a program: they stand apart, and the components of each record stand in order. Linear in the
/// types, their components, and all bodies.
///
/// # Errors
/// `AllocError` where memory was refused.
fn stand_in_order(alloc: Global, program: &Program) -> Result<bool, AllocError>
    ensures { IfOk result (λ answer. answer ≡ in_use.operations_stand_in_order (program_form program.now)) }
{
    Ok(operations_stand_apart(alloc, program)? && are_copied_in_order(&program.types))
}

/// Whether an Adjust is never called in a program: nothing in its text copies a record with controlled parts, and operations stand in
/// order. Linear in the types, their components, and all bodies.
///
/// # Errors
/// `AllocError` where memory was refused.
pub(crate) fn adjusts_nothing(alloc: Global, program: &Program) -> Result<bool, AllocError>
    ensures { IfOk result (λ answer. answer ≡ in_use.adjusts_nothing (program_form program.now)) }
{
    Ok(!text_makes_parts(true, program) && stand_in_order(alloc, program)?)
}

/// Whether operations are idle in a program: nothing in its text creates an object with controlled parts, or assigns a record with some,
/// and operations stand in order. Linear in the types, their components, and all bodies.
///
/// # Errors
/// `AllocError` where memory was refused.
pub(crate) fn are_idle(alloc: Global, program: &Program) -> Result<bool, AllocError>
    ensures { IfOk result (λ answer. answer ≡ in_use.operations_are_idle (program_form program.now)) }
{
    Ok(!makes_parts(program) && stand_in_order(alloc, program)?)
}

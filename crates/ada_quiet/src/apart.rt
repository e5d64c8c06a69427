//! Where the operations of controlled types stand apart (7.6): no body calls the procedures that override an Adjust which tracks
//! components (6.4), and they override no other operation; and no allocator gives values to the components of an object with
//! controlled parts, or copies a record with some (4.8): so each such object that is allocated is initialized by default.

ghost use Rattle.std.specs.Prelude.{◌≡◌, ◌&&◌, ◌||◌, ◌==◌, ℕ, Some, IfOk, OnOk, map};
ghost use Rattle.std.specs.List.{list_all};
ghost use Rattle.ada_program.specs.Form.{StmtsForm, branches_form, declaration_form, handlers_form, initial_form, item_form, right_form, stmt_form, stmts_form};
ghost use Rattle.ada_program.specs.Kept.{types_in};
ghost use Rattle.ada_program.specs.ProgramForm.{body_form, main_body, program_form, type_form};
ghost use Rattle.ada_program.specs.WellFormed.{finalization_in};
ghost use Rattle.ada_quiet.specs.Apart as rules;
ghost use Rattle.ada_quiet.specs.Known.{is_marked};
ghost use Rattle.ada_quiet.specs.Quiet.{has_access};

use crate::bare::has_bare_objects;
use crate::marks::{has_mark, mark};
use crate::operations::have_access;
use ada_program::parts::finalization_of;
use ada_program::program::{
    Branch, Declaration, Finalization, Handler, Item, Procedure, Right, TypeDefinition,
};
use ada_program::{ProcedureNo, Program, Stmt};
use std::alloc::{AllocError, Global};

/// What overrides Adjust of a type that has operations, if something does.
fn adjust_of(finalization: Option<Finalization>) -> Option<ProcedureNo>
    ensures { (n : ℕ) → rules.is_this_one n result ≡ rules.is_adjust_of n finalization }
{
    finalization?.operations.adjust
}

/// What tracks among the operations of a type, if one does.
fn tracker_in(definition: &TypeDefinition) -> Option<ProcedureNo>
    ensures { (n : ℕ) → rules.is_this_one n result
        ≡ (has_access (Some (type_form definition.now)) && rules.is_adjust_of n (finalization_in (Some (type_form definition.now)))) }
{
    let TypeDefinition::Record {
        name: _,
        parts,
        components: _,
        finalization,
    } = definition
    else {
        return None;
    };
    if !have_access(parts) {
        return None;
    }
    adjust_of(*finalization)
}

/// What tracks among the operations of a type is marked, if one does.
fn mark_tracker(marks: &mut Vec<bool>, definition: &TypeDefinition) -> Result<(), AllocError>
    ensures { OnOk result ((n : ℕ) → is_marked marks.new.items n ≡ (is_marked marks.old.items n
        || (has_access (Some (type_form definition.now)) && rules.is_adjust_of n (finalization_in (Some (type_form definition.now)))))) }
{
    if let Some(procedure) = tracker_in(definition) {
        mark(marks, procedure.0)?;
    }
    Ok(())
}

/// Of each procedure, by its number, whether it tracks. Linear in the types, their components, and the procedures.
///
/// # Errors
/// `AllocError` where memory was refused.
fn trackers(alloc: Global, program: &Program) -> Result<Vec<bool>, AllocError>
    ensures { IfOk result (λ marks. (n : ℕ) → is_marked marks.items n ≡ rules.is_tracker (program_form program.now) n) }
{
    let mut marks = Vec::new(alloc);
    'types: for definition in &program.types {
        mark_tracker(&mut marks, definition)?;
    }
    Ok(marks)
}

/// Whether an item of an aggregate copies no record with controlled parts (4.3.1, 7.6).
fn is_bare_item(types: &[TypeDefinition], item: &Item) -> bool
    ensures { result ≡ rules.is_bare_item (types_in types.now) (item_form item.now) }
{
    match item {
        Item::Null | Item::Path(_) | Item::Value(_) => true,
        Item::Record(path) => finalization_of(types, path.record.0).is_none(),
    }
}

/// Whether that is so with each of these items.
pub(crate) fn are_bare_items(types: &[TypeDefinition], items: &[Item]) -> bool
    ensures { result ≡ list_all (rules.is_bare_item (types_in types.now)) (map item_form items.now) }
{
    'items: for item in items {
        if !is_bare_item(types, item) {
            return false;
        }
    }
    true
}

/// Whether what is assigned copies none (5.2), where it is a new object with items for its components (4.8), and that has no controlled
/// parts.
fn is_bare_right(types: &[TypeDefinition], right: &Right) -> bool
    ensures { result ≡ rules.is_bare_right (types_in types.now) (right_form right.now) }
{
    match right {
        Right::Null | Right::Path(_) | Right::Default(_) | Right::Value(_) => true,
        Right::Allocator { access, items } => {
            has_bare_objects(types, *access) && are_bare_items(types, items)
        }
    }
}

/// Whether that is so with what a variable is given at first, if it is given something (3.3.1).
fn is_bare_initial(types: &[TypeDefinition], initial: &Option<Right>) -> bool
    ensures { result ≡ rules.is_bare_right (types_in types.now) (initial_form initial.now) }
{
    match initial {
        None => true,
        Some(right) => is_bare_right(types, right),
    }
}

/// Whether that is so with what a declaration gives to a variable at first, if it gives something (3.3.1).
fn declares_apart(types: &[TypeDefinition], declaration: &Declaration) -> bool
    ensures { result ≡ rules.declares_apart (types_in types.now) (declaration_form declaration.now) }
{
    match declaration {
        Declaration::Variable {
            variable: _,
            initial,
        } => is_bare_initial(types, initial),
        Declaration::Pool(_) | Declaration::Collection(_) | Declaration::Record { .. } => true,
    }
}

/// Whether that is so with each of these declarations.
fn declare_apart(types: &[TypeDefinition], declarations: &[Declaration]) -> bool
    ensures { result ≡ rules.declare_apart (types_in types.now) (map declaration_form declarations.now) }
{
    'declarations: for declaration in declarations {
        if !declares_apart(types, declaration) {
            return false;
        }
    }
    true
}

/// Whether a statement calls no procedure that is marked (6.4), and its allocator with items makes no object with controlled parts and
/// copies no record with some (4.8).
#[cycle(statements)]
#[tactic(auto, using(std::proofs::lemmas::Grind::common_steps, ada_program::specs::Form::statement_rules))]
fn calls_apart(types: &[TypeDefinition], marks: &[bool], statement: &Stmt) -> bool
    ensures { result ≡ rules.calls_apart (types_in types.now) (is_marked marks.now) (stmt_form statement.now) }
{
    match statement {
        Stmt::Null
        | Stmt::AssignRecord { .. }
        | Stmt::Free { .. }
        | Stmt::Get(_)
        | Stmt::PutImage(_)
        | Stmt::PutText(_)
        | Stmt::Exit { .. }
        | Stmt::Return(_)
        | Stmt::Raise(_) => true,
        Stmt::Assign { target: _, value } => is_bare_right(types, value),
        Stmt::Call {
            procedure,
            actuals: _,
        } => !has_mark(marks, procedure.0),
        Stmt::If {
            branches,
            otherwise,
        } => branches_call_apart(types, marks, branches) && all_call_apart(types, marks, otherwise),
        Stmt::Loop {
            condition: _,
            statements,
            end: _,
        } => all_call_apart(types, marks, statements),
        Stmt::For {
            parameter: _,
            first: _,
            last: _,
            statements,
            end: _,
        } => all_call_apart(types, marks, statements),
        Stmt::Block {
            declarations,
            statements,
            handlers,
        } => declare_apart(types, declarations)
            && all_call_apart(types, marks, statements)
            && handlers_call_apart(types, marks, handlers),
    }
}

/// Whether that is so with statements.
#[cycle(statements)]
fn all_call_apart(types: &[TypeDefinition], marks: &[bool], statements: &[Stmt]) -> bool
    ensures { result ≡ rules.all_call_apart (types_in types.now) (is_marked marks.now) (stmts_form statements.now) }
{
    'statements: for statement in statements {
        if !calls_apart(types, marks, statement) {
            return false;
        }
    }
    true
}

/// Whether that is so with branches (5.3).
#[cycle(statements)]
fn branches_call_apart(types: &[TypeDefinition], marks: &[bool], branches: &[Branch]) -> bool
    ensures { (others : StmtsForm) → rules.branches_call_apart (types_in types.now) (is_marked marks.now) (branches_form branches.now others)
        ≡ (result && rules.all_call_apart (types_in types.now) (is_marked marks.now) others) }
{
    'branches: for branch in branches {
        if !all_call_apart(types, marks, &branch.statements) {
            return false;
        }
    }
    true
}

/// Whether that is so with handlers (11.2).
#[cycle(statements)]
fn handlers_call_apart(types: &[TypeDefinition], marks: &[bool], handlers: &[Handler]) -> bool
    ensures { result ≡ rules.handlers_call_apart (types_in types.now) (is_marked marks.now) (handlers_form handlers.now) }
{
    'handlers: for handler in handlers {
        if !all_call_apart(types, marks, &handler.statements) {
            return false;
        }
    }
    true
}

/// Whether that is so with the bodies of these procedures. Linear in the bodies.
fn bodies_call_apart(types: &[TypeDefinition], marks: &[bool], procedures: &[Procedure]) -> bool
    ensures { result ≡ list_all (rules.body_calls_apart (types_in types.now) (is_marked marks.now)) (map body_form procedures.now) }
{
    'procedures: for procedure in procedures {
        if !declare_apart(types, &procedure.declarations) {
            return false;
        }
        if !all_call_apart(types, marks, &procedure.statements) {
            return false;
        }
        if !handlers_call_apart(types, marks, &procedure.handlers) {
            return false;
        }
    }
    true
}

/// Whether that is so with the main procedure's body. Linear in the body.
fn main_calls_apart(marks: &[bool], program: &Program) -> bool
    ensures { let p = program_form program.now in result ≡ rules.body_calls_apart p.types (is_marked marks.now) (main_body p) }
{
    declare_apart(&program.types, &program.declarations)
        && all_call_apart(&program.types, marks, &program.statements)
        && handlers_call_apart(&program.types, marks, &program.handlers)
}

/// Whether what overrides an operation is not marked, if one is overridden.
fn overrides_apart(marks: &[bool], operation: Option<ProcedureNo>) -> bool
    ensures { result ≡ rules.overrides_apart (is_marked marks.now) operation }
{
    match operation {
        None => true,
        Some(procedure) => !has_mark(marks, procedure.0),
    }
}

/// Whether none of a type's operations is marked but its Adjust, and that only where the type declares a component of an access type.
fn operations_apart(marks: &[bool], owns: bool, finalization: Option<Finalization>) -> bool
    ensures { result ≡ rules.operations_apart (is_marked marks.now) owns finalization }
{
    let Some(finalization) = finalization else {
        return true;
    };
    let operations = finalization.operations;
    overrides_apart(marks, operations.initialize)
        && (owns || overrides_apart(marks, operations.adjust))
        && overrides_apart(marks, operations.finalize)
}

/// Whether that is so with a type.
fn is_apart(marks: &[bool], definition: &TypeDefinition) -> bool
    ensures { result ≡ rules.operations_apart (is_marked marks.now)
        (has_access (Some (type_form definition.now))) (finalization_in (Some (type_form definition.now))) }
{
    match definition {
        TypeDefinition::Record {
            name: _,
            parts,
            components: _,
            finalization,
        } => operations_apart(marks, have_access(parts), *finalization),
        TypeDefinition::Access { .. } | TypeDefinition::Object { .. } => true,
    }
}

/// Whether that is so with each of these types. Linear in the types and their components.
fn are_apart(marks: &[bool], types: &[TypeDefinition]) -> bool
    ensures { result ≡ list_all (λ t. rules.operations_apart (is_marked marks.now) (has_access (Some t)) (finalization_in (Some t)))
        (types_in types.now) }
{
    'types: for definition in types {
        if !is_apart(marks, definition) {
            return false;
        }
    }
    true
}

/// Whether what is marked stands apart in a program: no body calls it, and it overrides nothing but Adjust of types that declare such a
/// component; and no allocator with items makes an object with controlled parts, or copies a record with some.
fn marked_stand_apart(marks: &[bool], program: &Program) -> bool
    ensures { let p = program_form program.now in
        let tracks = is_marked marks.now in
        result ≡ (rules.body_calls_apart p.types tracks (main_body p) && list_all (rules.body_calls_apart p.types tracks) p.bodies
        && list_all (λ t. rules.operations_apart tracks (has_access (Some t)) (finalization_in (Some t))) p.types) }
{
    main_calls_apart(marks, program)
        && bodies_call_apart(&program.types, marks, &program.procedures)
        && are_apart(marks, &program.types)
}

/// Whether operations stand apart in a program: no body calls what tracks, and that overrides nothing else; and no allocator with items
/// makes an object with controlled parts, or copies a record with some. Linear in the types, their components, and all bodies.
///
/// # Errors
/// `AllocError` where memory was refused.
pub(crate) fn operations_stand_apart(alloc: Global, program: &Program) -> Result<bool, AllocError>
    ensures { IfOk result (λ answer. answer ≡ rules.operations_stand_apart (program_form program.now)) }
{
    let marks = trackers(alloc, program)?;
    Ok(marked_stand_apart(&marks, program))
}

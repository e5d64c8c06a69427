//! Declarations, statements and bodies, where they are frugal: they allocate, move, follow and free objects (4.8, 13.11.2), assign records
//! without controlled parts, and others that lie at hand (5.2), call procedures with frugal bodies alone (6.4), and
//! declare variables, and record objects. What has controlled parts of these objects is initialized by default, or is a copy for which no
//! Adjust is called, unless none tracks in the program (3.3.1, 7.6); and of what they allocate, by default.

ghost use Rattle.std.specs.Prelude.{◌≡◌, ◌&&◌, false, [], map, slice_index_or, IfOk};
ghost use Rattle.ada_program.specs.Form.{StmtsForm, assigns_record, branches_form, declaration_form, handlers_form, initial_form, item_form, record_path_form, right_form, stmt_form, stmts_form};
ghost use Rattle.ada_program.specs.Kept.{types_in};
ghost use Rattle.ada_program.specs.ProgramForm.{body_form, program_form};
ghost use Rattle.ada_quiet.specs.Apart as apart;
ghost use Rattle.ada_quiet.specs.Calm as calm;
ghost use Rattle.ada_quiet.specs.Frugal as rules;
ghost use Rattle.ada_quiet.specs.Known.{thrift_in};

use crate::apart::are_bare_items;
use crate::bare::has_bare_objects;
use crate::calm::{inheriting_types, is_known_calm};
use crate::idle::holds_parts;
use crate::tracking::leave_access;
use ada_effects::record_path_raises;
use ada_program::parts::finalization_of;
use ada_program::program::{
    Branch, Declaration, Handler, Item, Procedure, RecordPath, Right, TypeDefinition,
};
use ada_program::{ProcedureNo, Program, Stmt, TypeNo, VariableNo};
use std::alloc::{AllocError, Global};

/// What frugal bodies go by.
#[derive(Clone, Copy)]
struct Thrift<'a> {
    /// The types of the program.
    types: &'a [TypeDefinition],
    /// Of each record type with controlled parts, by its number among these, whether it overrides no Adjust, neither itself nor in a part
    /// of it (7.6).
    unadjusted: &'a [bool],
    /// And whether it overrides no Finalize so.
    unfinalized: &'a [bool],
    /// Whether no Adjust of the program tracks.
    untracked: bool,
    /// Of each procedure that is known, by its number, whether its body is frugal where it is called.
    procedures: &'a [bool],
    /// Whether the body is that of an operation (7.6).
    operation: bool,
    /// How many formal parameters it has, which are its first variables (6.1).
    formals: usize,
}

/// Whether what is assigned is no new object (4.8), or one that has no controlled parts, or is initialized by default (7.6).
fn allocates_frugally(thrift: Thrift<'_>, right: &Right) -> bool
    ensures { result ≡ rules.allocates_frugally (thrift_in thrift.entry) (right_form right.now) }
{
    match right {
        Right::Null | Right::Path(_) | Right::Default(_) | Right::Value(_) => true,
        Right::Allocator { access, items: _ } => has_bare_objects(thrift.types, *access),
    }
}

/// Whether what a variable is given at first is, if it is given something (3.3.1).
fn initial_allocates_frugally(thrift: Thrift<'_>, initial: &Option<Right>) -> bool
    ensures { result ≡ rules.allocates_frugally (thrift_in thrift.entry) (initial_form initial.now) }
{
    match initial {
        None => true,
        Some(right) => allocates_frugally(thrift, right),
    }
}

/// Whether a record object has no controlled parts, and neither has what its initial value copies as a whole (3.3.1, 4.3.1, 7.6).
fn is_bare_initial(types: &[TypeDefinition], object: TypeNo, items: &[Item]) -> bool
    ensures { result ≡ rules.is_bare_initial (types_in types.now) object.0 (map item_form items.now) }
{
    !holds_parts(types, object.0) && are_bare_items(types, items)
}

/// Whether it is known of a record type that nothing is called as an object is adjusted (7.6).
fn is_unadjusted(thrift: Thrift<'_>, record: TypeNo) -> bool
    ensures { result ≡ rules.is_unadjusted (thrift_in thrift.entry) record.0 }
{
    is_known_calm(thrift.unadjusted, finalization_of(thrift.types, record.0))
}

/// Whether a record object is of a type of which it is known that nothing is called as it is adjusted (7.6).
fn is_unadjusted_initial(thrift: Thrift<'_>, object: TypeNo) -> bool
    ensures { result ≡ rules.is_unadjusted_initial (thrift_in thrift.entry) object.0 }
{
    match thrift.types.get(object.0) {
        Some(
            TypeDefinition::Access {
                name: _,
                designated,
                pool: _,
            },
        ) => is_unadjusted(thrift, *designated),
        Some(TypeDefinition::Object { record }) => is_unadjusted(thrift, *record),
        _ => false,
    }
}

/// Whether a record object may get an initial value: no Adjust tracks, or nothing is called as it is adjusted (3.3.1, 7.6).
fn is_copied_initial(thrift: Thrift<'_>, object: TypeNo) -> bool
    ensures { result ≡ rules.is_copied_initial (thrift_in thrift.entry) object.0 }
{
    thrift.untracked || is_unadjusted_initial(thrift, object)
}

/// Whether a declaration is that of a variable, and so it is with what that is given at first (3.3.1), or that of a record object that is
/// initialized by default, or may get its initial value.
fn is_frugal_declaration(thrift: Thrift<'_>, declaration: &Declaration) -> bool
    ensures { result ≡ rules.is_frugal_declaration (thrift_in thrift.entry) (declaration_form declaration.now) }
{
    match declaration {
        Declaration::Variable {
            variable: _,
            initial,
        } => initial_allocates_frugally(thrift, initial),
        Declaration::Record {
            variable: _,
            object: _,
            initial: None,
        } => true,
        Declaration::Record {
            variable: _,
            object,
            initial: Some(items),
        } => is_bare_initial(thrift.types, *object, items) || is_copied_initial(thrift, *object),
        Declaration::Pool(_) | Declaration::Collection(_) => false,
    }
}

/// Whether each of these declarations is.
fn are_frugal_declarations(thrift: Thrift<'_>, declarations: &[Declaration]) -> bool
    ensures { result ≡ rules.are_frugal_declarations (thrift_in thrift.entry) (map declaration_form declarations.now) }
{
    'declarations: for declaration in declarations {
        if !is_frugal_declaration(thrift, declaration) {
            return false;
        }
    }
    true
}

/// Whether what is called has a frugal body, by what is known of the procedures (6.4).
fn is_frugal_call(frugal: &[bool], procedure: ProcedureNo) -> bool
    ensures { result ≡ slice_index_or frugal.now procedure.0 false }
{
    match frugal.get(procedure.0) {
        Some(is_frugal) => *is_frugal,
        None => false,
    }
}

/// Whether nothing is called as a value of a record type ends to which another record is assigned (5.2, 7.6).
fn is_unfinalized(thrift: Thrift<'_>, record: TypeNo) -> bool
    ensures { result ≡ rules.is_unfinalized (thrift_in thrift.entry) record.0 }
{
    is_known_calm(thrift.unfinalized, finalization_of(thrift.types, record.0))
}

/// Whether nothing is called as it is adjusted, either.
fn is_inert(thrift: Thrift<'_>, record: TypeNo) -> bool
    ensures { result ≡ rules.is_inert (thrift_in thrift.entry) record.0 }
{
    is_unfinalized(thrift, record) && is_unadjusted(thrift, record)
}

/// Whether another record may be copied to one of a type: no Adjust tracks, or none is called for it (5.2, 7.6).
fn is_copied(thrift: Thrift<'_>, record: TypeNo) -> bool
    ensures { result ≡ rules.is_copied (thrift_in thrift.entry) record.0 }
{
    thrift.untracked || is_unadjusted(thrift, record)
}

/// Whether a variable of the body is a formal parameter: these are the first ones (6.1).
fn is_formal(thrift: Thrift<'_>, variable: VariableNo) -> bool
    ensures { result ≡ rules.is_formal (thrift_in thrift.entry) variable.0 }
{
    variable.0 < thrift.formals
}

/// Whether another record may be copied to one with controlled parts that a body assigns to as a whole (5.2), which lies at hand: in a
/// record variable, and no access value is followed on the way (4.1). If that is a formal parameter, the body is that of an operation,
/// nothing is called for the record at all, and it is not the formal parameter as a whole.
fn assigns_at_hand(thrift: Thrift<'_>, target: &RecordPath) -> bool
    ensures { result ≡ rules.assigns_at_hand (thrift_in thrift.entry) (record_path_form target.now) }
{
    is_copied(thrift, target.record)
        && !record_path_raises(target)
        && (!is_formal(thrift, target.object.root)
            || (thrift.operation && is_inert(thrift, target.record) && target.part.0 != 0))
}

/// Whether a record that is assigned to as a whole lies so, if it has controlled parts; and else whether nothing is copied into it that
/// has some (5.2).
fn assigns_frugally(thrift: Thrift<'_>, target: &RecordPath, items: &[Item]) -> bool
    ensures { result ≡ rules.is_frugal_stmt (thrift_in thrift.entry) (assigns_record (record_path_form target.now) (map item_form items.now)) }
{
    if finalization_of(thrift.types, target.record.0).is_some() {
        assigns_at_hand(thrift, target)
    } else {
        are_bare_items(thrift.types, items)
    }
}

/// Whether a statement assigns a record with controlled parts as a whole only where that lies at hand, and copies none into
/// another one (5.2), gives values to the components of no new object with such parts (4.8), and calls procedures with frugal bodies alone
/// (6.4).
#[cycle(statements)]
#[tactic(auto, using(std::proofs::lemmas::Grind::common_steps, ada_program::specs::Form::statement_rules))]
fn is_frugal_stmt(thrift: Thrift<'_>, statement: &Stmt) -> bool
    ensures { result ≡ rules.is_frugal_stmt (thrift_in thrift.entry) (stmt_form statement.now) }
{
    match statement {
        Stmt::Null
        | Stmt::Get(_)
        | Stmt::PutImage(_)
        | Stmt::PutText(_)
        | Stmt::Free { .. }
        | Stmt::Exit { .. }
        | Stmt::Return(_)
        | Stmt::Raise(_) => true,
        Stmt::AssignRecord { target, items } => assigns_frugally(thrift, target, items),
        Stmt::Assign { target: _, value } => allocates_frugally(thrift, value),
        Stmt::Call {
            procedure,
            actuals: _,
        } => is_frugal_call(thrift.procedures, *procedure),
        Stmt::If {
            branches,
            otherwise,
        } => are_frugal_branches(thrift, branches) && are_frugal(thrift, otherwise),
        Stmt::Loop {
            condition: _,
            statements,
            end: _,
        } => are_frugal(thrift, statements),
        Stmt::For {
            parameter: _,
            first: _,
            last: _,
            statements,
            end: _,
        } => are_frugal(thrift, statements),
        Stmt::Block {
            declarations,
            statements,
            handlers,
        } => are_frugal_declarations(thrift, declarations)
            && are_frugal(thrift, statements)
            && are_frugal_handlers(thrift, handlers),
    }
}

/// Whether statements are frugal.
#[cycle(statements)]
fn are_frugal(thrift: Thrift<'_>, statements: &[Stmt]) -> bool
    ensures { result ≡ rules.are_frugal (thrift_in thrift.entry) (stmts_form statements.now) }
{
    'statements: for statement in statements {
        if !is_frugal_stmt(thrift, statement) {
            return false;
        }
    }
    true
}

/// Whether branches are (5.3).
#[cycle(statements)]
fn are_frugal_branches(thrift: Thrift<'_>, branches: &[Branch]) -> bool
    ensures { (others : StmtsForm) → rules.are_frugal_branches (thrift_in thrift.entry) (branches_form branches.now others)
        ≡ (result && rules.are_frugal (thrift_in thrift.entry) others) }
{
    'branches: for branch in branches {
        if !are_frugal(thrift, &branch.statements) {
            return false;
        }
    }
    true
}

/// Whether handlers are (11.2).
#[cycle(statements)]
fn are_frugal_handlers(thrift: Thrift<'_>, handlers: &[Handler]) -> bool
    ensures { result ≡ rules.are_frugal_handlers (thrift_in thrift.entry) (handlers_form handlers.now) }
{
    'handlers: for handler in handlers {
        if !are_frugal(thrift, &handler.statements) {
            return false;
        }
    }
    true
}

/// Whether a body is frugal: it allocates objects, moves, follows and frees; it calls procedures with frugal bodies alone, assigns records
/// with controlled parts as wholes only where these lie at hand, gives values to the components of no new one, and declares variables and record objects. An exception may come out of it. Linear in the body.
fn is_frugal_body(thrift: Thrift<'_>, procedure: &Procedure) -> bool
    ensures { result ≡ rules.is_frugal_body (thrift_in thrift.entry) (body_form procedure.now) }
{
    are_frugal_declarations(thrift, &procedure.declarations)
        && are_frugal(thrift, &procedure.statements)
        && are_frugal_handlers(thrift, &procedure.handlers)
}

/// Of each procedure, by its number, whether its body is frugal where it is called, where these types override no Adjust, and these no
/// Finalize, and no Adjust tracks, or some may: it calls those before it. Linear in the bodies.
///
/// # Errors
/// `AllocError` where memory was refused.
fn frugal_by(
    alloc: Global,
    program: &Program,
    unadjusted: &[bool],
    unfinalized: &[bool],
    untracked: bool,
) -> Result<Vec<bool>, AllocError>
    requires adjusted { unadjusted.now ≡ calm.unadjusted_types (program_form program.now).types }
    requires finalized { unfinalized.now ≡ calm.unfinalized_types (program_form program.now).types }
    requires tracked { untracked ≡ apart.leave_access (program_form program.now).types }
    ensures { IfOk result (λ frugal. frugal.items
        ≡ rules.frugal_from (program_form program.now).types [] (program_form program.now).bodies) }
{
    let mut frugal = Vec::new(alloc);
    'procedures: for procedure in &program.procedures {
        let thrift = Thrift {
            types: &program.types,
            unadjusted,
            unfinalized,
            untracked,
            procedures: &frugal,
            operation: false,
            formals: procedure.formals.len(),
        };
        let is_frugal = is_frugal_body(thrift, procedure);
        frugal.push(is_frugal)?;
    }
    Ok(frugal)
}

/// Of each procedure, by its number, whether its body is frugal by what is known. Linear in the bodies.
///
/// # Errors
/// `AllocError` where memory was refused.
fn are_frugal_bodies(
    alloc: Global,
    program: &Program,
    thrift: Thrift<'_>,
) -> Result<Vec<bool>, AllocError>
    ensures { IfOk result (λ frugal. frugal.items
        ≡ map (rules.is_frugal_body (thrift_in thrift.entry)) (program_form program.now).bodies) }
{
    let mut frugal = Vec::new(alloc);
    'procedures: for procedure in &program.procedures {
        let is_frugal = is_frugal_body(thrift, procedure);
        frugal.push(is_frugal)?;
    }
    Ok(frugal)
}

/// Of each procedure, by its number, whether its body is frugal as that of an operation. Linear in the types and the bodies.
///
/// # Errors
/// `AllocError` where memory was refused.
pub(crate) fn frugal_operations(alloc: Global, program: &Program) -> Result<Vec<bool>, AllocError>
    ensures { IfOk result (λ frugal. frugal.items ≡ rules.frugal_operations (program_form program.now)) }
{
    let unadjusted = inheriting_types(alloc, false, &program.types)?;
    let unfinalized = inheriting_types(alloc, true, &program.types)?;
    let untracked = leave_access(&program.types);
    let procedures = frugal_by(alloc, program, &unadjusted, &unfinalized, untracked)?;
    let thrift = Thrift {
        types: &program.types,
        unadjusted: &unadjusted,
        unfinalized: &unfinalized,
        untracked,
        procedures: &procedures,
        operation: true,
        formals: 1,
    };
    are_frugal_bodies(alloc, program, thrift)
}

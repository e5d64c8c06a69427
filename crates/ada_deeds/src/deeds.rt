//! Which procedures do which deeds, all found at once.

ghost use Rattle.std.specs.Prelude.{◌≡◌, ◌<◌, ℕ, false, length, slice_index_or, IfOk};
ghost use Rattle.ada_deeds.specs.Graph.{starts_of, MarksDoers, MarksReached};
ghost use Rattle.ada_deeds.specs.Rows.{deed_numbered, has_marks, row_at};
ghost use Rattle.ada_deeds.specs.declared.deed.Deed.TheVariants as deed;
ghost use Rattle.ada_program.specs.declared.program.Exception.TheVariants.{Declared};
ghost use Rattle.ada_program.specs.ProgramForm.{program_form};
ghost use Rattle.ada_reach.specs.View.{graph_of};

use crate::calls::Calls;
use crate::deed::{Callee, Deed, Operation};
use crate::nodes::Nodes;
use crate::raisers::raisers;
use crate::search::Search;
use ada_program::program::{Exception, ExceptionNo};
use ada_program::{ProcedureNo, Program, TypeNo};
use std::alloc::{AllocError, Global};

/// The deeds of access types.
#[derive(Clone, Copy)]
pub(crate) enum Kind {
    Frees,
    Follows,
}

/// For each deed of a program, which callees do it: a mark for each node, and no marks where nothing does it.
#[derive(Drop)]
pub struct Deeds {
    nodes: Nodes,
    constraint_error: Vec<bool>,
    program_error: Vec<bool>,
    storage_error: Vec<bool>,
    end_error: Vec<bool>,
    allocates: Vec<bool>,
    // By the numbers of declared exceptions, and twice by those of types.
    declared: Vec<Vec<bool>>,
    frees: Vec<Vec<bool>>,
    follows: Vec<Vec<bool>>,
}

/// The deed of an access type.
fn numbered(kind: Kind, number: usize) -> Deed
    ensures { result ≡ deed_numbered kind number }
{
    match kind {
        Kind::Frees => Deed::Frees(TypeNo(number)),
        Kind::Follows => Deed::Follows(TypeNo(number)),
    }
}

/// The marks for each declared exception.
fn raised_rows(
    alloc: Global,
    program: &Program,
    nodes: Nodes,
    count: usize,
) -> Result<Vec<Vec<bool>>, AllocError>
    requires procedures { nodes.procedures ≡ length program.now.procedures.items }
    requires types { nodes.types ≡ length program.now.types.items }
    requires count { count ≡ length (program_form program.now).exceptions }
    ensures size { IfOk result (λ rows. length rows.items ≡ count) }
    ensures rows { IfOk result (λ rows. (n : ℕ) → n < count → MarksDoers (program_form program.now)
        (deed.Raises (Declared (record { 0 = n }))) nodes.procedures nodes.types (row_at rows.items n)) }
{
    let mut rows = Vec::new(alloc);
    'numbers: for number in 0..count {
        let row = raisers(
            alloc,
            program,
            nodes,
            Exception::Declared(ExceptionNo(number)),
        )?;
        rows.push(row)?;
    }
    Ok(rows)
}

/// The marks for a deed of each type.
fn rows_of(
    alloc: Global,
    calls: &Calls,
    kind: Kind,
    count: usize,
) -> Result<Vec<Vec<bool>>, AllocError>
    ensures size { IfOk result (λ rows. length rows.items ≡ count) }
    ensures rows { IfOk result (λ rows. (n : ℕ) → n < count → MarksReached (graph_of calls.now.callers.items)
        (starts_of calls.now (deed_numbered kind n)) (row_at rows.items n)) }
{
    let mut rows = Vec::new(alloc);
    'numbers: for number in 0..count {
        let row = calls.doers(alloc, numbered(kind, number))?;
        rows.push(row)?;
    }
    Ok(rows)
}

/// The marks of a number.
fn row_at(rows: &[Vec<bool>], number: usize) -> &[bool]
    ensures { result.now ≡ row_at rows.now number }
{
    match rows.get(number) {
        None => &[],
        Some(row) => row,
    }
}

impl Deeds {
    ghost use Rattle.std.specs.Prelude.{true};
    ghost use Rattle.ada_deeds.specs.Rows.{does_in, is_raised, is_freed, is_used, row_of, exception_row, KnowsDeeds, RaisesSome, RaisesNone, RaisesNoDeclared};
    ghost use Rattle.ada_deeds.specs.declared.deed.Callee.TheVariants as callee;

    /// Finds which callees of a program do which deeds. The bodies are read once for each exception, and once for all other deeds;
    /// besides, each deed that some body does takes time and memory linear in the graph of calls.
    ///
    /// # Errors
    /// `AllocError` where memory was refused.
    pub fn new(alloc: Global, program: &Program) -> Result<Deeds, AllocError>
        ensures { IfOk result (λ deeds. KnowsDeeds deeds (program_form program.now)) }
    {
        let nodes = Nodes::of(program)?;
        let exceptions = program.exceptions.len();
        let types = program.types.len();
        let constraint_error = raisers(alloc, program, nodes, Exception::ConstraintError)?;
        let program_error = raisers(alloc, program, nodes, Exception::ProgramError)?;
        let storage_error = raisers(alloc, program, nodes, Exception::StorageError)?;
        let end_error = raisers(alloc, program, nodes, Exception::EndError)?;
        let declared = raised_rows(alloc, program, nodes, exceptions)?;
        let calls = Calls::of(alloc, program, nodes, Search::Others)?;
        let allocates = calls.doers(alloc, Deed::Allocates)?;
        let frees = rows_of(alloc, &calls, Kind::Frees, types)?;
        let follows = rows_of(alloc, &calls, Kind::Follows, types)?;
        Ok(Deeds {
            nodes,
            constraint_error,
            program_error,
            storage_error,
            end_error,
            allocates,
            declared,
            frees,
            follows,
        })
    }

    /// Whether a procedure does a deed. Constant.
    pub fn does(&self, procedure: ProcedureNo, deed: Deed) -> bool
        ensures { result ≡ does_in self.now deed (callee.Procedure procedure) }
    {
        self.callee_does(Callee::Procedure(procedure), deed)
    }

    /// Whether an operation of the controlled parts of an object of a record type does (7.6). Constant.
    pub fn parts_do(&self, operation: Operation, record_type: TypeNo, deed: Deed) -> bool
        ensures { result ≡ does_in self.now deed (callee.Parts operation record_type) }
    {
        self.callee_does(Callee::Parts(operation, record_type), deed)
    }

    /// Whether some exception comes out of a procedure (11.4). Linear in the declared exceptions.
    pub fn raises(&self, procedure: ProcedureNo) -> bool
        ensures some { result ≡ true → RaisesSome self.now (callee.Procedure procedure) }
        ensures none { result ≡ false → RaisesNone self.now (callee.Procedure procedure) }
    {
        self.does(procedure, Deed::Raises(Exception::ConstraintError))
            || self.does(procedure, Deed::Raises(Exception::ProgramError))
            || self.does(procedure, Deed::Raises(Exception::StorageError))
            || self.does(procedure, Deed::Raises(Exception::EndError))
            || self.raises_declared(procedure)
    }

    /// Whether a declared exception does.
    fn raises_declared(&self, procedure: ProcedureNo) -> bool
        ensures some { result ≡ true → RaisesSome self.now (callee.Procedure procedure) }
        ensures none { result ≡ false → RaisesNoDeclared self.now (callee.Procedure procedure) }
    {
        'numbers: for number in 0..self.declared.len() {
            if self.does(
                procedure,
                Deed::Raises(Exception::Declared(ExceptionNo(number))),
            ) {
                return true;
            }
        }
        false
    }

    /// Whether a callee does.
    #[tactic(auto, unfolding(crate::specs::Rows::does_in))]
    pub(crate) fn callee_does(&self, callee: Callee, deed: Deed) -> bool
        ensures { result ≡ does_in self.now deed callee }
    {
        match self.nodes.node(callee) {
            None => false,
            Some(node) => is_marked(self.row(deed), node),
        }
    }

    /// Whether an exception may come out of something.
    pub(crate) fn is_raised(&self, exception: Exception) -> bool
        ensures { result ≡ is_raised self.now exception }
    {
        has_marks(self.exception_row(exception))
    }

    /// Whether something may free objects of an access type.
    pub(crate) fn is_freed(&self, access: TypeNo) -> bool
        ensures { result ≡ is_freed self.now access.0 }
    {
        has_marks(row_at(&self.frees, access.0))
    }

    /// Whether something may free them, or follow its values.
    pub(crate) fn is_used(&self, access: TypeNo) -> bool
        ensures { result ≡ is_used self.now access.0 }
    {
        self.is_freed(access) || has_marks(row_at(&self.follows, access.0))
    }

    /// The marks of a deed.
    fn row(&self, deed: Deed) -> &[bool]
        ensures { result.now ≡ row_of self.now deed }
    {
        match deed {
            Deed::Raises(exception) => self.exception_row(exception),
            Deed::Frees(access) => row_at(&self.frees, access.0),
            Deed::Follows(access) => row_at(&self.follows, access.0),
            Deed::Allocates => &self.allocates,
            Deed::Calls => &[],
        }
    }

    /// The marks of an exception.
    fn exception_row(&self, exception: Exception) -> &[bool]
        ensures { result.now ≡ exception_row self.now exception }
    {
        match exception {
            Exception::ConstraintError => &self.constraint_error,
            Exception::ProgramError => &self.program_error,
            Exception::StorageError => &self.storage_error,
            Exception::EndError => &self.end_error,
            Exception::Declared(number) => row_at(&self.declared, number.0),
        }
    }
}

/// Whether a mark is kept.
fn has_marks(marks: &[bool]) -> bool
    ensures { result ≡ has_marks marks.now }
{
    match marks.get(0) {
        None => false,
        Some(_) => true,
    }
}

/// Whether a node is marked.
pub(crate) fn is_marked(marks: &[bool], node: usize) -> bool
    ensures { result ≡ slice_index_or marks.now node false }
{
    match marks.get(node) {
        None => false,
        Some(mark) => *mark,
    }
}

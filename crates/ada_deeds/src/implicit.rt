//! What the operations of controlled types may do that are called implicitly (7.6): a table with a row for each type.

ghost use Rattle.std.specs.Prelude.{◌≡◌, ◌++◌, ◌∷◌, ℕ, [], length, IfOk, OnOk};
ghost use Rattle.std.specs.List.{filter, slice_get};
ghost use Rattle.ada_deeds.specs.Forms as rules;
ghost use Rattle.ada_deeds.specs.Implicit as table;
ghost use Rattle.ada_deeds.specs.Implicit.{implicit_of};
ghost use Rattle.ada_deeds.specs.Rows.{does_in, is_raised, KnowsDeeds};
ghost use Rattle.ada_deeds.specs.Table.{coming_out, is_in, is_in_among, raised_among, is_freed_among, is_used_among, IsStart, IsListed};
ghost use Rattle.ada_deeds.specs.declared.deed.Deed.TheVariants as deed;
ghost use Rattle.ada_deeds.specs.declared.implicit.Column.TheVariants as column;
ghost use Rattle.ada_effects.specs.Found.{implicit_in, has_number};
ghost use Rattle.ada_program.specs.Kept.{types_in};
ghost use Rattle.ada_program.specs.ProgramForm.{program_form};

use crate::deed::{Deed, Operation};
use crate::deeds::Deeds;
use ada_effects::{AccessTypes, Effect, Implicit};
use ada_program::program::{Exception, ExceptionNo, TypeDefinition};
use ada_program::{Program, TypeNo};
use std::alloc::{AllocError, Global};

/// The columns of the table, each with access types.
#[derive(Clone, Copy)]
pub(crate) enum Column {
    Starts,
    Adjusts,
    Ends,
    Reached,
}

/// The record type of the objects of a type: that type itself, the one that an access type designates, or that of a record object.
fn record_at(types: &[TypeDefinition], number: usize) -> Option<usize>
    ensures { result ≡ table.record_at (types_in types.now) number }
{
    match types.get(number) {
        None => None,
        Some(TypeDefinition::Record { .. }) => Some(number),
        Some(
            TypeDefinition::Access {
                name: _,
                designated,
                pool: _,
            },
        ) => Some(designated.0),
        Some(TypeDefinition::Object { record }) => Some(record.0),
    }
}

impl Deeds {
    /// What implicit calls may do in a program whose deeds these are. For each type it asks for each exception and each access type
    /// of which something does a deed; of the others nothing is asked.
    ///
    /// # Errors
    /// `AllocError` where memory was refused.
    pub fn implicit(&self, alloc: Global, program: &Program) -> Result<Implicit, AllocError>
        requires { KnowsDeeds self.now (program_form program.now) }
        ensures { IfOk result (λ known. implicit_in known ≡ implicit_of (program_form program.now)) }
    {
        let raised = self.raised(alloc, program.exceptions.len())?;
        let freed = self.freed(alloc, program.types.len())?;
        let used = self.used(alloc, program.types.len())?;
        let starts = self.start_rows(alloc, program, &raised, &freed)?;
        let adjusts = self.column_rows(alloc, program, &freed, Column::Adjusts)?;
        let ends = self.column_rows(alloc, program, &freed, Column::Ends)?;
        let reached = self.column_rows(alloc, program, &used, Column::Reached)?;
        Ok(Implicit {
            starts,
            adjusts,
            ends,
            reached,
        })
    }

    /// The exceptions that may come out of something, each once: the predefined ones, and so many declared ones.
    fn raised(&self, alloc: Global, exceptions: usize) -> Result<Vec<Exception>, AllocError>
        ensures { IfOk result (λ list. list.items ≡ raised_among exceptions self.now) }
    {
        let mut list = Vec::new(alloc);
        self.add_raised(Exception::ConstraintError, &mut list)?;
        self.add_raised(Exception::ProgramError, &mut list)?;
        self.add_raised(Exception::StorageError, &mut list)?;
        self.add_raised(Exception::EndError, &mut list)?;
        'numbers: for number in 0..exceptions {
            self.add_raised(Exception::Declared(ExceptionNo(number)), &mut list)?;
        }
        Ok(list)
    }

    /// One more of them, if it may.
    fn add_raised(&self, exception: Exception, list: &mut Vec<Exception>) -> Result<(), AllocError>
        ensures { OnOk result (list.new.items
            ≡ list.old.items ++ filter (is_raised self.now) (exception ∷ [])) }
    {
        if self.is_raised(exception) {
            list.push(exception)?;
        }
        Ok(())
    }

    /// The access types of which something may free objects, each once.
    fn freed(&self, alloc: Global, types: usize) -> Result<Vec<TypeNo>, AllocError>
        ensures { IfOk result (λ list. (t : ℕ) → has_number list.items t ≡ is_freed_among types self.now t) }
    {
        let mut list = Vec::new(alloc);
        'numbers: for number in 0..types {
            if self.is_freed(TypeNo(number)) {
                list.push(TypeNo(number))?;
            }
        }
        Ok(list)
    }

    /// Those of which something may free objects, or follow values, each once.
    fn used(&self, alloc: Global, types: usize) -> Result<Vec<TypeNo>, AllocError>
        ensures { IfOk result (λ list. (t : ℕ) → has_number list.items t ≡ is_used_among types self.now t) }
    {
        let mut list = Vec::new(alloc);
        'numbers: for number in 0..types {
            if self.is_used(TypeNo(number)) {
                list.push(TypeNo(number))?;
            }
        }
        Ok(list)
    }

    /// For each type, what may happen where an object is created without an initial value: of these exceptions and access types.
    fn start_rows(
        &self,
        alloc: Global,
        program: &Program,
        raised: &[Exception],
        used: &[TypeNo],
    ) -> Result<Vec<Effect>, AllocError>
        ensures { IfOk result (λ rows. (u : ℕ) →
            IsStart raised.now (has_number used.now) (does_in self.now)
            (table.record_at (types_in program.now.types.items) u) (slice_get rows.items u)) }
    {
        let types = program.types.len();
        let mut rows = Vec::new(alloc);
        'numbers: for number in 0..types {
            let record_type = record_at(&program.types, number);
            let row = self.start_row(alloc, raised, used, record_type)?;
            rows.push(row)?;
        }
        Ok(rows)
    }

    /// For each type, those of these access types that stand in another column.
    fn column_rows(
        &self,
        alloc: Global,
        program: &Program,
        used: &[TypeNo],
        column: Column,
    ) -> Result<Vec<AccessTypes>, AllocError>
        ensures { IfOk result (λ rows. (u : ℕ) →
            IsListed (has_number used.now) (does_in self.now)
            (table.record_at (types_in program.now.types.items) u) column (slice_get rows.items u)) }
    {
        let types = program.types.len();
        let mut rows = Vec::new(alloc);
        'numbers: for number in 0..types {
            let record_type = record_at(&program.types, number);
            let list = self.access_types(alloc, used, record_type, column)?;
            rows.push(AccessTypes { list })?;
        }
        Ok(rows)
    }

    /// What may happen there, for one type.
    fn start_row(
        &self,
        alloc: Global,
        raised: &[Exception],
        used: &[TypeNo],
        record_type: Option<usize>,
    ) -> Result<Effect, AllocError>
        ensures raises { IfOk result (λ row. row.raises.items ≡ coming_out (does_in self.now) record_type raised.now) }
        ensures frees { IfOk result (λ row. (t : ℕ) → has_number row.frees.items t
            ≡ is_in_among (has_number used.now) (does_in self.now) record_type column.Starts t) }
    {
        let raises = self.start_exceptions(alloc, raised, record_type)?;
        let frees = self.access_types(alloc, used, record_type, Column::Starts)?;
        Ok(Effect { raises, frees })
    }

    /// Those of these exceptions that may come out there.
    fn start_exceptions(
        &self,
        alloc: Global,
        raised: &[Exception],
        record_type: Option<usize>,
    ) -> Result<Vec<Exception>, AllocError>
        ensures { IfOk result (λ list. list.items ≡ coming_out (does_in self.now) record_type raised.now) }
    {
        let mut list = Vec::new(alloc);
        'exceptions: for exception in raised {
            if self.creation_does(record_type, Deed::Raises(*exception)) {
                list.push(*exception)?;
            }
        }
        Ok(list)
    }

    /// Those of these access types that are in a column.
    fn access_types(
        &self,
        alloc: Global,
        used: &[TypeNo],
        record_type: Option<usize>,
        column: Column,
    ) -> Result<Vec<TypeNo>, AllocError>
        ensures { IfOk result (λ list. (t : ℕ) → has_number list.items t
            ≡ is_in_among (has_number used.now) (does_in self.now) record_type column t) }
    {
        let mut list = Vec::new(alloc);
        'types: for access in used {
            if self.is_in_column(record_type, column, *access) {
                list.push(*access)?;
            }
        }
        Ok(list)
    }

    /// Whether an access type is in a column.
    fn is_in_column(&self, record_type: Option<usize>, column: Column, access: TypeNo) -> bool
        ensures { result ≡ is_in (does_in self.now) record_type column access.0 }
    {
        match column {
            Column::Starts => self.creation_does(record_type, Deed::Frees(access)),
            Column::Adjusts => {
                self.operation_does(Operation::Adjust, record_type, Deed::Frees(access))
            }
            Column::Ends => {
                self.operation_does(Operation::Finalize, record_type, Deed::Frees(access))
            }
            Column::Reached => {
                self.operation_does(Operation::Finalize, record_type, Deed::Frees(access))
                    || self.operation_does(Operation::Finalize, record_type, Deed::Follows(access))
            }
        }
    }

    /// Whether the creation of an object without an initial value does: its initialization, or its finalization where that fails (7.6.1).
    fn creation_does(&self, record_type: Option<usize>, deed: Deed) -> bool
        ensures { result ≡ rules.creation_does (does_in self.now deed) record_type }
    {
        self.operation_does(Operation::Initialize, record_type, deed)
            || self.operation_does(Operation::Finalize, record_type, deed)
    }

    /// Whether an operation of the controlled parts of an object does, where it has a record type.
    fn operation_does(&self, operation: Operation, record_type: Option<usize>, deed: Deed) -> bool
        ensures { result ≡ rules.parts_do (does_in self.now deed) operation record_type }
    {
        match record_type {
            None => false,
            Some(number) => self.parts_do(operation, TypeNo(number), deed),
        }
    }
}

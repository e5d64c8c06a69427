//! What is found in a form: what it does itself of the deeds that are sought, and what it calls.

ghost use Rattle.std.specs.Prelude.{◌≡◌, ◌||◌, Bool, false, OnOk};
ghost use Rattle.ada_deeds.specs.Forms as rules;
ghost use Rattle.ada_deeds.specs.View.{does_found, does_itself, Calls};
ghost use Rattle.ada_deeds.specs.declared.deed.Callee.{Callee};
ghost use Rattle.ada_deeds.specs.declared.deed.Deed.{Deed};
ghost use Rattle.ada_effects.specs.Found.{has_number};

use crate::deed::{Callee, Deed, Operation};
use ada_program::{ProcedureNo, TypeNo};
use std::alloc::{AllocError, Global};

/// What is found.
#[derive(Drop)]
pub(crate) struct Found {
    /// The exception that is sought comes out of the form, or, where all other deeds are sought, it allocates.
    pub(crate) itself: bool,
    /// The access types of which it frees objects, in the order in which they are found.
    pub(crate) freed: Vec<TypeNo>,
    /// Those of which it follows values.
    pub(crate) followed: Vec<TypeNo>,
    /// What it calls, in the order in which it is found.
    pub(crate) callees: Vec<Callee>,
}

/// Whether an access type is among these.
fn has_number(types: &[TypeNo], access: TypeNo) -> bool
    ensures { result ≡ has_number types.now access.0 }
{
    'types: for number in types {
        if number.0 == access.0 {
            return true;
        }
    }
    false
}

impl Found {
    /// Nothing is found yet.
    pub(crate) fn nothing(alloc: Global) -> Found
        ensures { (d : Deed) (known : Callee → Bool) → does_found result d known ≡ false }
    {
        Found {
            itself: false,
            freed: Vec::new(alloc),
            followed: Vec::new(alloc),
            callees: Vec::new(alloc),
        }
    }

    /// Whether a deed that was sought is done by the form itself.
    pub(crate) fn does_itself(&self, deed: Deed) -> bool
        ensures { result ≡ does_itself self.now.itself self.now.freed.items self.now.followed.items deed }
    {
        match deed {
            Deed::Raises(_) | Deed::Allocates => self.itself,
            Deed::Frees(access) => has_number(&self.freed, access),
            Deed::Follows(access) => has_number(&self.followed, access),
            Deed::Calls => false,
        }
    }

    /// A part calls something.
    #[tactic(auto, unfolding(crate::specs::View::does_found))]
    pub(crate) fn call(&mut self, callee: Callee) -> Result<(), AllocError>
        ensures { Calls result self.old self.new (λ known. known callee) }
    {
        self.callees.push(callee)?;
        Ok(())
    }

    /// A part calls a procedure (6.4).
    pub(crate) fn call_procedure(&mut self, procedure: ProcedureNo) -> Result<(), AllocError>
        ensures { Calls result self.old self.new (λ known. rules.procedure_does known procedure.0) }
    {
        self.call(Callee::Procedure(procedure))
    }

    /// A part calls an operation of the controlled parts of an object of a record type, where there is one (7.6).
    pub(crate) fn call_parts(
        &mut self,
        operation: Operation,
        record_type: Option<usize>,
    ) -> Result<(), AllocError>
        ensures { Calls result self.old self.new (λ known. rules.parts_do known operation record_type) }
    {
        match record_type {
            None => Ok(()),
            Some(number) => self.call(Callee::Parts(operation, TypeNo(number))),
        }
    }

    /// An object is created without an initial value (7.6).
    pub(crate) fn create(&mut self, record_type: Option<usize>) -> Result<(), AllocError>
        ensures { Calls result self.old self.new (λ known. rules.creation_does known record_type) }
    {
        self.call_parts(Operation::Initialize, record_type)?;
        self.call_parts(Operation::Finalize, record_type)
    }

    /// A value is assigned to an object (7.6).
    pub(crate) fn assign(&mut self, record_type: TypeNo) -> Result<(), AllocError>
        ensures { Calls result self.old self.new (λ known. rules.assignment_does known record_type.0) }
    {
        self.call(Callee::Parts(Operation::Adjust, record_type))?;
        self.call(Callee::Parts(Operation::Finalize, record_type))
    }
}

//! Resolution of specifications of the operations of controlled types (7.6, 6.1).

ghost use Rattle.std.specs.Prelude.{◌≡◌, map, OnOk, IfErr};
ghost use Rattle.ada_tree.specs.Declarations.{formal_of, head_of};
ghost use Rattle.ada_tree.specs.Statements.{specification};
ghost use Rattle.ada_resolve.specs.Method.{known, IsNoted, Changes, Declares};
ghost use Rattle.ada_resolve.specs.Primitives.{formal_name};
ghost use Rattle.ada_resolve.specs.Specifications.{operand_remark, with_specification};
ghost use Rattle.ada_resolve.specs.View.{optional_number};

use crate::fault::{NameFault, NameRule};
use crate::notes::Notes;
use crate::primitives::{Operation, operation_named};
use crate::resolver::Resolver;
use crate::spots::head_spot;
use ada_program::TypeNo;
use ada_tree::declarations::{Formal, ProcedureHead};

impl<'t> Resolver<'t> {
    /// `overriding procedure Finalize (X : in out T);` (7.6): no name stands for it.
    pub(crate) fn specification(
        &mut self,
        head: &ProcedureHead<'t>,
        notes: &mut Notes,
    ) -> Result<(), NameFault>
        ensures { Declares result self notes (specification (head_of head.now)) }
    {
        let first = head_spot(head);
        let Some(operation) = operation_named(head.name.text) else {
            notes.note(first, NameRule::NotInProfile);
            return notes.settle();
        };
        self.type_begins(first, notes);
        let formals = self.formals(&head.formals, notes)?;
        let number = self.operand(operation, &formals);
        self.specifiable(operation, number, head, notes);
        notes.settle()?;
        match number {
            Some(number) => self.specify(operation, number, formal_name(&head.formals)),
            None => Ok(()),
        }
    }

    /// A specification is the only one of an operation of its type, no instance has frozen the type, and the part has room for it.
    fn specifiable(
        &self,
        operation: Operation,
        number: Option<TypeNo>,
        head: &ProcedureHead<'t>,
        notes: &mut Notes,
    )
        ensures { IsNoted notes (operand_remark (optional_number number) (known self) operation (head_of head.now)) }
    {
        let first = head_spot(head);
        let name = head.name.spot;
        let Some(number) = number else {
            notes.note(first, NameRule::NotInProfile);
            return;
        };
        let specified = self.formal_specified(operation, number).is_some();
        notes.note_if(specified, name, NameRule::DeclaredTwice);
        notes.note_if(self.is_frozen(number), first, NameRule::Layout);
        notes.note_if(!self.has_room(), name, NameRule::Limit);
    }

    /// An operation of a type is specified, with a formal of this name.
    #[tactic(auto, unfolding(crate::specs::View::known_of))]
    fn specify(
        &mut self,
        operation: Operation,
        number: TypeNo,
        formal: &'t str,
    ) -> Result<(), NameFault>
        ensures known { OnOk result (Changes self (with_specification operation number.0 formal.now)) }
        ensures memory { IfErr result (λ e. e ≡ NameFault.NoMemory) }
    {
        self.here.specify(operation, number, formal)
    }
}

/// The name of the first formal that is written.
pub(crate) fn formal_name<'t>(formals: &[Formal<'t>]) -> &'t str
    ensures { result.now ≡ formal_name (map formal_of formals.now) }
{
    match formals.first() {
        Some(formal) => formal.name.text,
        None => "",
    }
}

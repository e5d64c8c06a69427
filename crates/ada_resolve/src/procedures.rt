//! Procedures: where their bodies begin, and where they end (6.1, 6.3).

ghost use Rattle.std.specs.Prelude.{◌≡◌, Some, OnOk, IfErr};
ghost use Rattle.ada_tree.specs.Declarations.{head_of};
ghost use Rattle.ada_tree.specs.Names.{optional_ident_of};
ghost use Rattle.ada_resolve.specs.Method.{known, IsNoted, Changes, Takes, begun_with, ended_with};
ghost use Rattle.ada_resolve.specs.Known.{next_procedure};
ghost use Rattle.ada_resolve.specs.Primitives.{formal_specified, specified_for};
ghost use Rattle.ada_resolve.specs.Procedures.{head_name_remark, keeps_its_operand, operand_for, operand_wanted, overriding_unless};
ghost use Rattle.ada_resolve.specs.Resolution.{head_told_of, same_name};
ghost use Rattle.ada_resolve.specs.View.{done, formals_in, optional_number, text_of, Tells};

use crate::fault::{NameFault, NameRule};
use crate::formals::Formals;
use crate::notes::Notes;
use crate::primitives::{Operation, operation_named};
use crate::resolver::Resolver;
use crate::scope::Entity;
use crate::specifications::formal_name;
use crate::spots::head_spot;
use ada_program::program::{Handler, ProcedureNo, Stmt};
use ada_program::{Spot, TypeNo};
use ada_tree::declarations::ProcedureHead;
use ada_tree::names::Identifier;

/// What the statements of a part do, and what handles their exceptions (11.2).
#[derive(Drop)]
pub(crate) struct Sequence {
    pub(crate) statements: Vec<Stmt>,
    pub(crate) handlers: Vec<Handler>,
}

impl<'t> Resolver<'t> {
    /// `procedure P (..) is` (6.1, 6.3): behind it the body of the procedure begins.
    #[tactic(auto, unfolding(crate::specs::Procedures::body_head_remark, crate::specs::Procedures::behind_head))]
    pub(crate) fn body_head(
        &mut self,
        head: &ProcedureHead<'t>,
        notes: &mut Notes,
    ) -> Result<(), NameFault>
        ensures { Takes result self notes (head_told_of (head_of head.now)) }
    {
        let first = head_spot(head);
        notes.node(first);
        notes.note_if(!self.no_object_yet(), first, NameRule::Layout);
        let operation = operation_named(head.name.text);
        overriding_unless(operation, head.overriding, notes);
        let formals = self.formals(&head.formals, notes)?;
        let number = self.operand_if(operation, &formals);
        self.head_name(operation, number, head, notes);
        notes.settle()?;
        self.begin_body(head.name, formals)
    }

    /// The type of which a procedure with these formals is the operation, where it is one by its name.
    fn operand_if(&self, operation: Option<Operation>, formals: &Formals<'t>) -> Option<TypeNo>
        ensures { optional_number result ≡ operand_for operation (known self) (formals_in formals.now) }
    {
        self.operand(operation?, formals)
    }

    /// The name of a body is new, or that of an operation that its part specifies.
    fn head_name(
        &self,
        operation: Option<Operation>,
        number: Option<TypeNo>,
        head: &ProcedureHead<'t>,
        notes: &mut Notes,
    )
        ensures { IsNoted notes (head_name_remark operation (optional_number number) (known self) (head_of head.now)) }
    {
        match operation {
            None => self.new_name(head.name, head_spot(head), notes),
            Some(operation) => match number {
                None => notes.note(head_spot(head), NameRule::NotInProfile),
                Some(number) => self.specified_wanted(operation, number, head, notes),
            },
        }
    }

    /// The body of an operation of a type is for a specification, is the first one for it, and its formal has the same name.
    fn specified_wanted(
        &self,
        operation: Operation,
        number: TypeNo,
        head: &ProcedureHead<'t>,
        notes: &mut Notes,
    )
        ensures { IsNoted notes (operand_wanted (Some number.0) (known self) operation (head_of head.now)) }
    {
        let name = head.name.spot;
        let Some(formal) = self.formal_specified(operation, number) else {
            notes.note(head_spot(head), NameRule::NotInProfile);
            return;
        };
        let overridden = self.overrider(operation, number).is_some();
        notes.note_if(overridden, name, NameRule::DeclaredTwice);
        notes.note_if(
            formal_name(&head.formals) != formal,
            name,
            NameRule::WrongType,
        );
    }

    /// The name of the formal in the specification of an operation of a type, if the innermost part has one.
    #[tactic(auto, unfolding(crate::specs::View::known_of))]
    pub(crate) fn formal_specified(&self, operation: Operation, number: TypeNo) -> Option<&'t str>
        ensures { text_of result
            ≡ formal_specified number.0 (specified_for operation (known self).here.specified) }
    {
        self.here.formal_specified(operation, number)
    }

    /// The name stands for a procedure whose body has not ended, unless it is an operation's, and the body begins. The variables
    /// of the body around are put aside.
    fn begin_body(&mut self, name: Identifier<'t>, formals: Formals<'t>) -> Result<(), NameFault>
        ensures known { OnOk result (Changes self (begun_with name.entry formals.entry)) }
        ensures memory { IfErr result (λ e. e ≡ NameFault.NoMemory) }
    {
        let operation = operation_named(name.text);
        let keeps_operand = self.keeps_operand(operation, &formals);
        self.declare_unless(operation, name.text, Entity::Procedure)?;
        self.enter_body(formals, keeps_operand)
    }

    /// Whether the body of a procedure with these formals keeps its operand, if it is an operation by its name.
    fn keeps_operand(&self, operation: Option<Operation>, formals: &Formals<'t>) -> bool
        ensures { result ≡ keeps_its_operand operation (known self) (formals_in formals.now) }
    {
        match self.operand_if(operation, formals) {
            Some(number) => self.is_operand_kept(number),
            None => false,
        }
    }

    /// The body of a procedure, whose first token and whose last `end` stand there, ends behind its handlers (6.3): the procedure
    /// may be called.
    pub(crate) fn end_body(
        &mut self,
        name: Identifier<'t>,
        start: Spot,
        end: Spot,
        body: Sequence,
    ) -> Result<(), NameFault>
        ensures known { OnOk result (Changes self (ended_with name.entry body start end)) }
        ensures memory { IfErr result (λ e. e ≡ NameFault.NoMemory) }
    {
        let procedure = self.next_procedure();
        let number = self.own_operand();
        self.leave_body(start, end, body)?;
        self.close(name.text, procedure, number)
    }

    /// The number of the next procedure whose body ends.
    #[tactic(auto, unfolding(crate::specs::View::known_of))]
    fn next_procedure(&self) -> ProcedureNo
        ensures { result ≡ next_procedure (known self) }
    {
        ProcedureNo(self.procedures.len())
    }
}

/// `overriding` is not in use, but for operations (8.3.1).
fn overriding_unless(operation: Option<Operation>, overriding: Option<Spot>, notes: &mut Notes)
    ensures { IsNoted notes (overriding_unless operation overriding) }
{
    if let (None, Some(spot)) = (operation, overriding) {
        notes.note(spot, NameRule::NotInProfile);
    }
}

/// The name after `end` is the procedure's own, where one is written (6.3).
pub(crate) fn same_name(name: Identifier<'_>, last: Option<Identifier<'_>>) -> Result<(), NameFault>
    ensures { Tells result done
        (same_name name.entry.text.now (optional_ident_of last.entry) done) }
{
    match last {
        Some(end) if end.text != name.text => Err(NameFault::Broken {
            spot: end.spot,
            rule: NameRule::UnknownName,
        }),
        _ => Ok(()),
    }
}

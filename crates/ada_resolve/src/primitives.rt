//! The operations Initialize, Adjust and Finalize of controlled types (7.6): which a procedure is, and those that a part specifies.

ghost use Rattle.std.specs.Prelude.{◌≡◌, map, slice_get, Some, OnOk, IfErr};
ghost use Rattle.ada_program.specs.WellFormed.{object_in};
ghost use Rattle.ada_resolve.specs.Kept.{known_type_form};
ghost use Rattle.ada_resolve.specs.Method.{known, with_answered, with_overridden, Changes};
ghost use Rattle.ada_resolve.specs.Known.{no_specifications};
ghost use Rattle.ada_resolve.specs.Primitives.{answered, chosen, declared_unless, exists_for, formal_specified, has_operation, is_controlled_type, operand, operand_by, operand_kept, operand_of, operation_named, overrider, sole_operand, specified_for, specified_more, finalized_by, overridden, type_overridden, with_chosen};
ghost use Rattle.ada_resolve.specs.Procedures.{closed};
ghost use Rattle.ada_resolve.specs.View.{formals_in, optional_number, specifications_in, specified_of, text_of};

use crate::components::KnownType;
use crate::fault::NameFault;
use crate::formals::Formals;
use crate::resolver::Resolver;
use crate::scope::Entity;
use ada_program::TypeNo;
use ada_program::program::{Finalization, FormalMode, Operations, ProcedureNo, VariableKind};
use indexmap::IndexMap;
use std::alloc::Global;

/// An operation of a controlled type (7.6).
#[derive(Clone, Copy)]
pub(crate) enum Operation {
    Initialize,
    Adjust,
    Finalize,
}

/// The specifications of operations in a part: the name of each one's formal, by its type.
#[derive(Drop)]
pub(crate) struct Specifications<'t> {
    initializes: IndexMap<usize, &'t str>,
    adjusts: IndexMap<usize, &'t str>,
    finalizes: IndexMap<usize, &'t str>,
    /// How many there are.
    count: usize,
    /// How many of them wait for their bodies.
    awaited: usize,
}

impl<'t> Specifications<'t> {
    /// No operation is specified yet.
    #[tactic(auto, unfolding(crate::specs::View::specifications_in))]
    pub(crate) fn new(alloc: Global) -> Specifications<'t>
        ensures { specifications_in result ≡ no_specifications }
    {
        Specifications {
            initializes: IndexMap::new(alloc),
            adjusts: IndexMap::new(alloc),
            finalizes: IndexMap::new(alloc),
            count: 0,
            awaited: 0,
        }
    }

    /// How many there are.
    #[tactic(auto, unfolding(crate::specs::View::specifications_in))]
    pub(crate) fn count(&self) -> usize
        ensures { result ≡ (specifications_in self.now).count }
    {
        self.count
    }

    /// How many of them wait for their bodies.
    #[tactic(auto, unfolding(crate::specs::View::specifications_in))]
    pub(crate) fn awaited(&self) -> usize
        ensures { result ≡ (specifications_in self.now).awaited }
    {
        self.awaited
    }

    /// The name of the formal in the specification of an operation of a type, if it has one here.
    #[tactic(auto, using(crate::proofs::Specified::formal_map))]
    pub(crate) fn formal(&self, operation: Operation, number: TypeNo) -> Option<&'t str>
        ensures { text_of result ≡ formal_specified number.0 (specified_for operation (specifications_in self.now)) }
    {
        self.of(operation).get(&number.0).copied()
    }

    /// Those of an operation.
    #[tactic(auto, unfolding(crate::specs::View::specifications_in))]
    fn of(&self, operation: Operation) -> &IndexMap<usize, &'t str>
        ensures { map specified_of result.now.entries ≡ specified_for operation (specifications_in self.now) }
    {
        match operation {
            Operation::Initialize => &self.initializes,
            Operation::Adjust => &self.adjusts,
            Operation::Finalize => &self.finalizes,
        }
    }

    /// One more, of an operation of a type, with a formal of this name. It waits for its body.
    #[tactic(auto, unfolding(crate::specs::View::specifications_in), using(crate::proofs::Specified::specified_map))]
    pub(crate) fn add(
        &mut self,
        operation: Operation,
        number: TypeNo,
        formal: &'t str,
    ) -> Result<(), NameFault>
        ensures known { OnOk result
            (specifications_in self.new ≡ specified_more operation number.0 formal.now (specifications_in self.old)) }
        ensures memory { IfErr result (λ e. e ≡ NameFault.NoMemory) }
    {
        match operation {
            Operation::Initialize => self.initializes.insert(number.0, formal)?,
            Operation::Adjust => self.adjusts.insert(number.0, formal)?,
            Operation::Finalize => self.finalizes.insert(number.0, formal)?,
        };
        self.count = self.count.checked_add(1).ok_or(NameFault::NoMemory)?;
        self.awaited = self.awaited.checked_add(1).ok_or(NameFault::NoMemory)?;
        Ok(())
    }

    /// The body of one has ended.
    #[tactic(auto, unfolding(crate::specs::View::specifications_in))]
    pub(crate) fn answer(&mut self, operation: Operation)
        ensures { specifications_in self.new ≡ answered (Some operation) (specifications_in self.old) }
    {
        self.awaited = self.awaited.saturating_sub(1);
    }
}

impl<'t> Resolver<'t> {
    /// The type of which a procedure with these formals is the operation, if it is one.
    #[tactic(auto, unfolding(crate::specs::Primitives::operand))]
    pub(crate) fn operand(&self, operation: Operation, formals: &Formals<'t>) -> Option<TypeNo>
        ensures { optional_number result
            ≡ operand (known self) operation (formals_in formals.now).modes (formals_in formals.now).types }
    {
        let number = sole_operand(&formals.modes, &formals.types)?;
        if self.has_operation(operation, number) {
            Some(number)
        } else {
            None
        }
    }

    /// Whether a type is a controlled type of the innermost part, which has the operation.
    #[tactic(auto, unfolding(crate::specs::View::known_of, crate::specs::View::part_of, crate::specs::Primitives::has_operation))]
    fn has_operation(&self, operation: Operation, number: TypeNo) -> bool
        ensures { result ≡ has_operation (known self) operation number.0 }
    {
        self.here.first_type <= number.0
            && self.is_controlled_type(number)
            && exists_for(operation, self.limited.contains(&number.0))
    }

    /// Whether an operation of a type keeps its operand: one of a type derived from Controlled does.
    #[tactic(auto, unfolding(crate::specs::View::known_of))]
    pub(crate) fn is_operand_kept(&self, number: TypeNo) -> bool
        ensures { result ≡ operand_kept (known self) (Some number.0) }
    {
        !self.limited.contains(&number.0)
    }

    /// Whether a type is controlled.
    #[tactic(auto, unfolding(crate::specs::View::known_of), using(crate::proofs::Names::map_get))]
    fn is_controlled_type(&self, number: TypeNo) -> bool
        ensures { result ≡ is_controlled_type (slice_get (known self).types number.0) }
    {
        match self.types.get(number.0) {
            Some(KnownType::Record { components, .. }) => components.begin_with_parent(),
            _ => false,
        }
    }

    /// The type of which the body at work is an operation, if it is one: that of its one formal.
    #[tactic(auto, unfolding(crate::specs::View::known_of, crate::specs::View::part_of))]
    pub(crate) fn own_operand(&self) -> Option<TypeNo>
        ensures { optional_number result ≡ operand_of (known self).types (known self).here.modes (known self).variables }
    {
        let kind = self.here.sole_changed(&self.variables)?;
        self.operand_by(kind)
    }

    /// The type of the record for which a formal stands.
    #[tactic(auto, unfolding(crate::specs::View::known_of), using(crate::proofs::Names::map_get))]
    fn operand_by(&self, kind: VariableKind) -> Option<TypeNo>
        ensures { optional_number result ≡ operand_by (known self).types kind }
    {
        let VariableKind::Record(own) = kind else {
            return None;
        };
        object_of(self.types.get(own.0)?)
    }

    /// A name stands for this from now on, unless it is an operation's.
    pub(crate) fn declare_unless(
        &mut self,
        operation: Option<Operation>,
        text: &'t str,
        entity: Entity,
    ) -> Result<(), NameFault>
        ensures known { OnOk result (Changes self (λ k. declared_unless operation k text.now entity)) }
        ensures memory { IfErr result (λ e. e ≡ NameFault.NoMemory) }
    {
        match operation {
            Some(_) => Ok(()),
            None => self.declare(text, entity),
        }
    }

    /// What overrides an operation of a type.
    #[tactic(auto, unfolding(crate::specs::View::known_of, crate::specs::Primitives::overrider), using(crate::proofs::Names::map_get))]
    pub(crate) fn overrider(&self, operation: Operation, number: TypeNo) -> Option<ProcedureNo>
        ensures { result ≡ overrider operation (known self).types number.0 }
    {
        match self.types.get(number.0) {
            Some(
                KnownType::Record {
                    finalization: Some(finalization),
                    ..
                },
            ) => { chosen(operation, finalization.operations) }
            _ => None,
        }
    }
}

impl<'t> Resolver<'t> {
    /// Behind the body of a procedure of this number its name stands for it; or it is an operation of a type, and overrides that.
    pub(crate) fn close(
        &mut self,
        text: &'t str,
        procedure: ProcedureNo,
        number: Option<TypeNo>,
    ) -> Result<(), NameFault>
        ensures known { OnOk result
            (Changes self (closed (operation_named text.now) text.now procedure (optional_number number))) }
        ensures memory { IfErr result (λ e. e ≡ NameFault.NoMemory) }
    {
        let Some(operation) = operation_named(text) else {
            return self.declare(text, Entity::Callable(procedure));
        };
        self.answer(operation);
        self.override_if(operation, procedure, number);
        Ok(())
    }

    /// The body of an operation that the part specifies has ended.
    #[tactic(auto, unfolding(crate::specs::View::known_of))]
    fn answer(&mut self, operation: Operation)
        ensures { Changes self (with_answered operation) }
    {
        self.here.answer(operation);
    }

    /// A procedure overrides an operation of a type from now on, where that is known.
    #[tactic(auto, unfolding(crate::specs::View::known_of))]
    fn override_if(&mut self, operation: Operation, procedure: ProcedureNo, number: Option<TypeNo>)
        ensures { Changes self (with_overridden operation procedure (optional_number number)) }
    {
        if let Some(number) = number {
            override_operation(&mut self.types, operation, procedure, number);
        }
    }
}

/// A procedure overrides an operation of a type from now on.
#[tactic(auto, using(crate::proofs::Specified::override_there, crate::proofs::Specified::override_past))]
fn override_operation(
    types: &mut [KnownType<'_>],
    operation: Operation,
    procedure: ProcedureNo,
    number: TypeNo,
)
    ensures { map known_type_form types.new ≡ overridden operation procedure (map known_type_form types.old) number.0 }
{
    if number.0 < types.len() {
        override_in(&mut types[number.0], operation, procedure);
    }
}

/// A procedure overrides an operation of this type from now on, if it is a record type.
fn override_in(known: &mut KnownType<'_>, operation: Operation, procedure: ProcedureNo)
    ensures { known_type_form known.new ≡ type_overridden operation procedure (known_type_form known.old) }
{
    if let KnownType::Record {
        name: _,
        components: _,
        finalization,
    } = known
    {
        *finalization = finalized_by(operation, procedure, *finalization);
    }
}

/// How objects of a record type are finalized once a procedure overrides an operation of it.
fn finalized_by(
    operation: Operation,
    procedure: ProcedureNo,
    finalization: Option<Finalization>,
) -> Option<Finalization>
    ensures { result ≡ finalized_by operation procedure finalization }
{
    let before = finalization?;
    Some(Finalization {
        operations: with_chosen(operation, procedure, before.operations),
        ..before
    })
}

/// The operation of a name, if it is one of the three.
#[tactic(auto, unfolding(crate::specs::Primitives::operation_named))]
pub(crate) fn operation_named(text: &str) -> Option<Operation>
    ensures { result ≡ operation_named text.now }
{
    match text {
        "INITIALIZE" => Some(Operation::Initialize),
        "ADJUST" => Some(Operation::Adjust),
        "FINALIZE" => Some(Operation::Finalize),
        _ => None,
    }
}

/// Whether a controlled type has an operation: only one that is not derived from Limited_Controlled has Adjust.
fn exists_for(operation: Operation, limited: bool) -> bool
    ensures { result ≡ exists_for operation limited }
{
    match operation {
        Operation::Initialize | Operation::Finalize => true,
        Operation::Adjust => !limited,
    }
}

/// The record type of the one formal, of mode `in out`, if there is no other.
fn sole_operand(modes: &[FormalMode], types: &[KnownType<'_>]) -> Option<TypeNo>
    ensures { optional_number result ≡ sole_operand modes.now (map known_type_form types.now) }
{
    match (modes, types) {
        ([FormalMode::InOut], [known]) => object_of(known),
        _ => None,
    }
}

/// The record type of the object that is known by a type.
fn object_of(known: &KnownType<'_>) -> Option<TypeNo>
    ensures { optional_number result ≡ object_in (Some (known_type_form known.now)) }
{
    match known {
        KnownType::Object { record } => Some(*record),
        _ => None,
    }
}

/// What overrides an operation.
fn chosen(operation: Operation, operations: Operations) -> Option<ProcedureNo>
    ensures { result ≡ chosen operation operations }
{
    match operation {
        Operation::Initialize => operations.initialize,
        Operation::Adjust => operations.adjust,
        Operation::Finalize => operations.finalize,
    }
}

/// The operations of a type once a procedure overrides one of them.
fn with_chosen(operation: Operation, procedure: ProcedureNo, operations: Operations) -> Operations
    ensures { result ≡ with_chosen operation procedure operations }
{
    match operation {
        Operation::Initialize => Operations {
            initialize: Some(procedure),
            ..operations
        },
        Operation::Adjust => Operations {
            adjust: Some(procedure),
            ..operations
        },
        Operation::Finalize => Operations {
            finalize: Some(procedure),
            ..operations
        },
    }
}

//! The first rule on operations that a program breaks.

ghost use Rattle.std.specs.Prelude.{◌≡◌, ◌<◌, length, IfOk};
ghost use Rattle.ada_deeds.specs.Implicit.{implicit_of};
ghost use Rattle.ada_effects.specs.Found.{implicit_in};
ghost use Rattle.ada_operations.specs.Operations.{HasFault};
ghost use Rattle.ada_operations.specs.View.{Answers, BreaksIn, HasFaultAt, HasFaultIn, IsFirst, IsFirstRule, Knows, found_form};
ghost use Rattle.ada_program.specs.ProgramForm.{program_form};
ghost use Rattle.ada_program.specs.WellFormed.{IsWellFormed};

use crate::facts::Facts;
use crate::fault::{Fault, OperationFault, first_of};
use crate::late::uses_too_late;
use crate::rule::OperationRule;
use ada_deeds::{Deed, Operation};
use ada_effects::Implicit;
use ada_program::parts::finalization_of;
use ada_program::{ProcedureNo, Program};
use ada_quiet::operations_are_quiet;
use std::alloc::{AllocError, Global};

/// The rule with the least number that the body of a procedure breaks, where it overrides an operation of a record type.
fn broken_rule(
    alloc: Global,
    program: &Program,
    facts: &Facts,
    operation: Operation,
    record_type: usize,
    procedure: ProcedureNo,
) -> Result<Option<OperationRule>, AllocError>
    requires facts { Knows (program_form program.now) facts.now }
    requires record { record_type < length program.now.types.items }
    ensures { IfOk result (IsFirstRule (BreaksIn (program_form program.now) procedure operation record_type)) }
{
    let late = uses_too_late(alloc, program, facts, procedure, record_type)?;
    if late {
        return Ok(Some(OperationRule::FinalizeOrder));
    }
    if facts.deeds.raises(procedure) {
        return Ok(Some(OperationRule::MayPropagate));
    }
    match operation {
        Operation::Finalize => if facts.deeds.does(procedure, Deed::Allocates) {
            Ok(Some(OperationRule::FinalizeAllocates))
        } else {
            Ok(None)
        },
        Operation::Initialize | Operation::Adjust => Ok(None),
    }
}

/// The first fault of what overrides an operation of a record type, where it is overridden.
fn fault_of(
    alloc: Global,
    program: &Program,
    facts: &Facts,
    operation: Operation,
    record_type: usize,
    overriding: Option<ProcedureNo>,
) -> Result<Option<Fault>, AllocError>
    requires facts { Knows (program_form program.now) facts.now }
    requires record { record_type < length program.now.types.items }
    ensures { IfOk result (λ first.
        IsFirst (HasFaultIn (program_form program.now) overriding operation record_type) (found_form first)) }
{
    let Some(number) = overriding else {
        return Ok(None);
    };
    let Some(procedure) = program.procedures.get(number.0) else {
        return Ok(None);
    };
    let broken = broken_rule(alloc, program, facts, operation, record_type, number)?;
    match broken {
        None => Ok(None),
        Some(rule) => Ok(Some(Fault {
            spot: procedure.start,
            rule,
        })),
    }
}

/// The first fault of what overrides Adjust or Finalize of the type of a number.
fn fault_at(
    alloc: Global,
    program: &Program,
    facts: &Facts,
    number: usize,
) -> Result<Option<Fault>, AllocError>
    requires facts { Knows (program_form program.now) facts.now }
    requires number { number < length program.now.types.items }
    ensures { IfOk result (λ first. IsFirst (HasFaultAt (program_form program.now) number) (found_form first)) }
{
    match finalization_of(&program.types, number) {
        None => Ok(None),
        Some(finalization) => {
            let operations = finalization.operations;
            let adjust = fault_of(
                alloc,
                program,
                facts,
                Operation::Adjust,
                number,
                operations.adjust,
            )?;
            let finalize = fault_of(
                alloc,
                program,
                facts,
                Operation::Finalize,
                number,
                operations.finalize,
            )?;
            Ok(first_of(adjust, finalize))
        }
    }
}

/// The first fault of a program.
fn first_fault(alloc: Global, program: &Program, facts: &Facts) -> Result<Option<Fault>, AllocError>
    requires { Knows (program_form program.now) facts.now }
    ensures { IfOk result (λ first. IsFirst (HasFault (program_form program.now)) (found_form first)) }
{
    let mut first = None;
    'types: for number in 0..program.types.len() {
        let found = fault_at(alloc, program, facts, number)?;
        first = first_of(first, found);
    }
    Ok(first)
}

/// Whether the bodies that override Adjust and Finalize of controlled types obey the rules on operations (7.6, 7.6.1), and what is
/// known then of the operations that are called implicitly. Of the faults of all bodies, the first one in the text is told, and
/// there the rule with the least number. Linear in the program, if all operations are quiet: then there is nothing to examine, and
/// what is called implicitly does nothing.
///
/// # Errors
/// The first rule that is broken, with the first token of the body, or want of memory.
pub fn operations(alloc: Global, program: &Program) -> Result<Implicit, OperationFault>
    requires { IsWellFormed (program_form program.now) }
    ensures obey { Answers (program_form program.now) result }
    ensures known { IfOk result (λ implicit. implicit_in implicit ≡ implicit_of (program_form program.now)) }
{
    let quiet = operations_are_quiet(alloc, program)?;
    if quiet {
        return Ok(Implicit::nothing(alloc));
    }
    let facts = Facts::of(alloc, program)?;
    match first_fault(alloc, program, &facts)? {
        None => Ok(facts.deeds.implicit(alloc, program)?),
        Some(fault) => Err(OperationFault::from(fault)),
    }
}

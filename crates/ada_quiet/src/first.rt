//! The first body in the text that overrides an operation of a controlled type and is not in use, in a program that may call some:
//! Initialize is neither plain nor frugal, where it may be, Adjust is neither quiet nor, where none is called or it may be, frugal, or, of a
//! type with a component of an access type, not simple, or may not track, or frees objects where a record of the program has two controlled
//! parts, or Finalize is neither quiet nor, where it may be, frugal.

ghost use Rattle.std.specs.Prelude.{◌≡◌, ◌↔◌, None, true, IfOk};
ghost use Rattle.ada_program.specs.ProgramForm.{program_form};
ghost use Rattle.ada_quiet.specs.First as rules;
ghost use Rattle.ada_quiet.specs.First.{BeginsUnused, IsFirst, IsFirstUnused};
ghost use Rattle.ada_quiet.specs.Frugal as spent;
ghost use Rattle.ada_quiet.specs.InUse.{operations_are_in_use, operations_may_be_called};
ghost use Rattle.ada_quiet.specs.Quiet as quiet;

use crate::frugal::frugal_operations;
use crate::idle::are_idle;
use crate::operations::has_access;
use crate::uses::{Allowed, allowed_in, uses_adjust, uses_finalize, uses_initialize};
use ada_program::parts::finalization_of;
use ada_program::program::Finalization;
use ada_program::{ProcedureNo, Program, Spot};
use std::alloc::{AllocError, Global};

/// Whether a place stands before another one in the text.
fn stands_before(one: Spot, other: Spot) -> bool
    ensures { result ≡ rules.stands_before one other }
{
    one.line < other.line || one.line == other.line && one.column < other.column
}

/// The first one of two places in the text, where they are there.
pub fn first_of(one: Option<Spot>, other: Option<Spot>) -> Option<Spot>
    ensures { result ≡ rules.first_of one other }
{
    match (one, other) {
        (None, other) => other,
        (Some(place), None) => Some(place),
        (Some(place), Some(another)) => if stands_before(another, place) {
            other
        } else {
            one
        },
    }
}

/// Where the body of an operation begins, if there is one and it does not fit.
pub fn start_unless(program: &Program, fits: bool, operation: Option<ProcedureNo>) -> Option<Spot>
    ensures { result ≡ rules.start_unless fits (quiet.operation_body (program_form program.now) operation) }
{
    if fits {
        return None;
    }
    let number = operation?;
    let procedure = program.procedures.get(number.0)?;
    Some(procedure.start)
}

/// The first one of those that override the operations of a type and are not in use, by the procedures whose bodies are frugal, where
/// this is allowed, and the type has such a component or not.
fn unused_in(
    alloc: Global,
    program: &Program,
    frugal: &[bool],
    may: Allowed,
    owns: bool,
    finalization: Option<Finalization>,
) -> Result<Option<Spot>, AllocError>
    requires { frugal.now ≡ spent.frugal_operations (program_form program.now) }
    ensures { IfOk result (λ first. first
        ≡ rules.unused_in (program_form program.now) may.frugal may.nothing may.freely may.tracks owns finalization) }
{
    let Some(finalization) = finalization else {
        return Ok(None);
    };
    let operations = finalization.operations;
    let begins = uses_initialize(program, frugal, may.frugal, operations.initialize);
    let adjusts = uses_adjust(alloc, program, frugal, may, owns, operations.adjust)?;
    let ends = uses_finalize(alloc, program, frugal, may.frugal, operations.finalize)?;
    let initialize = start_unless(program, begins, operations.initialize);
    let adjust = start_unless(program, adjusts, operations.adjust);
    let finalize = start_unless(program, ends, operations.finalize);
    Ok(first_of(initialize, first_of(adjust, finalize)))
}

/// Where the first body in the text begins that overrides an operation and would not be in use, if it were called. Linear in the types,
/// their components, and all bodies.
///
/// # Errors
/// `AllocError` where memory was refused.
#[tactic(auto, using(std::proofs::lemmas::Grind::common_steps, crate::proofs::Unused::first_steps))]
fn first_uncallable(alloc: Global, program: &Program) -> Result<Option<Spot>, AllocError>
    ensures first { IfOk result (IsFirst (BeginsUnused (program_form program.now))) }
    ensures called { IfOk result (λ first. (first ≡ None) ↔ (operations_may_be_called (program_form program.now) ≡ true)) }
{
    let frugal = frugal_operations(alloc, program)?;
    let may = allowed_in(alloc, program)?;
    let mut first = None;
    'types: for number in 0..program.types.len() {
        let owns = has_access(&program.types, number);
        let found = unused_in(
            alloc,
            program,
            &frugal,
            may,
            owns,
            finalization_of(&program.types, number),
        )?;
        first = first_of(first, found);
    }
    Ok(first)
}

/// Where the first body in the text begins that overrides an operation of a controlled type (7.6) and is not in use, in a program
/// whose operations are not idle: one that overrides Initialize and is not plain, since it touches storage or calls, nor frugal in a
/// program in which operations may be; one that overrides Adjust, is not frugal in a program in which none is called, and is not quiet,
/// since it is not plain or lets an exception out, or, of a type with a component of an access type, declared in it directly, is not
/// simple, or stands in a program in which an Adjust may not track; or one that overrides Finalize and is neither quiet nor, where
/// operations may be frugal, frugal. Linear in the types, their components, and all bodies.
///
/// # Errors
/// `AllocError` where memory was refused.
#[tactic(auto, using(std::proofs::lemmas::Grind::common_steps, crate::proofs::Unused::idle_steps))]
pub fn first_unused(alloc: Global, program: &Program) -> Result<Option<Spot>, AllocError>
    ensures first { IfOk result (IsFirstUnused (program_form program.now)) }
    ensures used { IfOk result (λ first. (first ≡ None) ↔ (operations_are_in_use (program_form program.now) ≡ true)) }
{
    if are_idle(alloc, program)? {
        return Ok(None);
    }
    first_uncallable(alloc, program)
}

//! The first body in the text that overrides Initialize or Adjust of a controlled type and calls itself.

ghost use Rattle.std.specs.Prelude.{◌≡◌, true, false, IfOk};
ghost use Rattle.ada_deeds.specs.Rounds.{KnowsCalls};
ghost use Rattle.ada_program.specs.Kept.{types_in};
ghost use Rattle.ada_program.specs.ProgramForm.{program_form};
ghost use Rattle.ada_quiet.specs.First.{IsFirst};
ghost use Rattle.ada_rounds.specs.FirstRound as rules;
ghost use Rattle.ada_rounds.specs.FirstRound.{HasRoundIn, HasRoundOf, IsFirstRound, NoneIsAsked, SomeIsAsked};

use ada_deeds::Rounds;
use ada_program::parts::finalization_of;
use ada_program::program::{Finalization, TypeDefinition};
use ada_program::{ProcedureNo, Program, Spot};
use ada_quiet::{first_of, start_unless};
use std::alloc::{AllocError, Global};

/// Whether Initialize or Adjust of a type is overridden.
fn is_asked(finalization: Option<Finalization>) -> bool
    ensures { result ≡ rules.is_asked finalization }
{
    match finalization {
        None => false,
        Some(finalization) => {
            finalization.operations.initialize.is_some() || finalization.operations.adjust.is_some()
        }
    }
}

/// Whether that of some type is. Linear in the types.
fn some_is_asked(types: &[TypeDefinition]) -> bool
    ensures some { result ≡ true → SomeIsAsked (types_in types.now) }
    ensures none { result ≡ false → NoneIsAsked (types_in types.now) }
{
    'types: for number in 0..types.len() {
        if is_asked(finalization_of(types, number)) {
            return true;
        }
    }
    false
}

/// Where the body of what overrides an operation begins, if it calls itself.
fn round_of(
    alloc: Global,
    program: &Program,
    rounds: &Rounds,
    operation: Option<ProcedureNo>,
) -> Result<Option<Spot>, AllocError>
    requires { KnowsCalls rounds.now (program_form program.now) }
    ensures { IfOk result (IsFirst (HasRoundOf (program_form program.now) operation)) }
{
    let Some(number) = operation else {
        return Ok(None);
    };
    let circles = rounds.calls_itself(alloc, number)?;
    Ok(start_unless(program, !circles, operation))
}

/// The first one of what overrides Initialize and Adjust of a type.
fn round_in(
    alloc: Global,
    program: &Program,
    rounds: &Rounds,
    finalization: Option<Finalization>,
) -> Result<Option<Spot>, AllocError>
    requires { KnowsCalls rounds.now (program_form program.now) }
    ensures { IfOk result (IsFirst (HasRoundIn (program_form program.now) finalization)) }
{
    let Some(finalization) = finalization else {
        return Ok(None);
    };
    let initialize = round_of(alloc, program, rounds, finalization.operations.initialize)?;
    let adjust = round_of(alloc, program, rounds, finalization.operations.adjust)?;
    Ok(first_of(initialize, adjust))
}

/// The first one of all types.
fn first_among(
    alloc: Global,
    program: &Program,
    rounds: &Rounds,
) -> Result<Option<Spot>, AllocError>
    requires { KnowsCalls rounds.now (program_form program.now) }
    ensures { IfOk result (IsFirstRound (program_form program.now)) }
{
    let mut first = None;
    'types: for number in 0..program.types.len() {
        let found = round_in(
            alloc,
            program,
            rounds,
            finalization_of(&program.types, number),
        )?;
        first = first_of(first, found);
    }
    Ok(first)
}

/// Where the first body in the text begins that overrides Initialize or Adjust of a controlled type and calls itself, directly or by way
/// of other procedures and operations (7.6). Linear in the types where none overrides these; else linear in the program, and besides
/// once for each body that does.
///
/// # Errors
/// `AllocError` where memory was refused.
pub fn first_round(alloc: Global, program: &Program) -> Result<Option<Spot>, AllocError>
    ensures { IfOk result (IsFirstRound (program_form program.now)) }
{
    if !some_is_asked(&program.types) {
        return Ok(None);
    }
    let rounds = Rounds::new(alloc, program)?;
    first_among(alloc, program, &rounds)
}

//! The checker: one phase after another, and the program that it accepts.

ghost use Rattle.std.specs.Prelude.{◌≡◌, true, IfOk, IfErr};
ghost use Rattle.ada_deeds.specs.Implicit.{implicit_of};
ghost use Rattle.ada_effects.specs.Found.{implicit_in};
ghost use Rattle.ada_flow.specs.Flow.{ObeysRules};
ghost use Rattle.ada_flow.specs.Told.{IsFirstFault as IsFirstFlowFault};
ghost use Rattle.ada_meaning.specs.Pace.{DeclarationsSettle};
ghost use Rattle.ada_meaning.specs.Safe.{Safe};
ghost use Rattle.ada_program.specs.Freed.{FreesItsOwn};
ghost use Rattle.ada_program.specs.Nested.{CollectionsNest};
ghost use Rattle.ada_program.specs.ProgramForm.{body_forms, program_form};
ghost use Rattle.ada_program.specs.WellFormed.{IsWellFormed};
ghost use Rattle.ada_quiet.specs.InUse.{operations_are_in_use};
ghost use Rattle.ada_sound.specs.Always.{IsChecked};
ghost use Rattle.ada_tree.specs.StatementView.{unit_of};
ghost use Rattle.ada_verdict.specs.First.{HasNoFault, IsAccepted, IsFirst, IsFirstBehindUse, IsFirstCircling, IsFirstIn, IsFirstUnused, IsProgramOf, IsSourceOf, NoneCallsItself, NoneLeadsBack, OperationsAreInUse, RefusesRightly};

use crate::early::first_told;
use crate::fault::{RoundFault, UnusedFault, Verdict};
use crate::laws::accepted_sources_have_no_fault;
use ada_circles::first_circle;
use ada_effects::Implicit;
use ada_flow::{FlowFault, flow};
use ada_operations::laws::{
    adjusts_spare_their_own, ends_spare_newer, ends_spare_their_own, obeying_propagates_nothing,
};
use ada_operations::operations;
use ada_parser::parse;
use ada_program::Program;
use ada_quiet::first_unused;
use ada_resolve::resolve;
use ada_rounds::first_round;
use ada_settled::laws::no_circle_settles;
use ada_sound::laws::rules_imply_safety;
use ada_tree::unit::Unit;
use std::alloc::Global;
use std::marker::Model;

/// A program that has passed all checks. Only `check` makes one.
#[derive(Drop)]
pub struct Accepted {
    program: Program,
}

impl Model for Accepted {
    ghost use Rattle.ada_program.specs.declared.program.Program.{Program};

    ghost Value = { Program };

    ghost use Rattle.ada_program.specs.contracts.program.Program as contract;

    ghost coded = { contract.the_row.coded };

    ghost use Rattle.ada_sound.specs.Always.{IsChecked};
    ghost use Rattle.ada_verdict.specs.First.{NoneLeadsBack};

    ghost view = { λ a. a.program };

    ghost invariant = { λ a. IsChecked a.program × NoneLeadsBack a.program };
}

impl Accepted {
    /// The program, which is safe: no run of it comes to an erroneous action, and every run keeps the laws of
    /// finalization. Statements keep beginning in it, or it ends.
    pub fn program(&self) -> &Program
        ensures program { result.now ≡ self.now }
        ensures formed { IsWellFormed (program_form self.now) }
        ensures in_use { operations_are_in_use (program_form self.now) ≡ true }
        ensures rules { ObeysRules self.now }
        ensures settles { DeclarationsSettle self.now.types.items (body_forms self.now) }
        ensures safe { Safe self.now }
    {
        rules_imply_safety();
        no_circle_settles();
        &self.program
    }
}

/// Checks a source: it is accepted exactly where it is a program that obeys the rules, out of memory aside, and then
/// the program is safe; else this is its first fault. The phases are text, syntax, names, which operations of controlled types call
/// themselves, the rules on what operations do, flow, and which operations are in use; a fault is that of the first phase that has one.
/// An operation that calls itself by what stands before a fault of the names is told instead of that.
///
/// # Errors
/// The first fault, or want of memory.
pub fn check(alloc: Global, source: &[u8]) -> Result<Accepted, Verdict>
    ensures accepted { IfOk result (λ program. IsAccepted source.now program) }
    ensures safe { IfOk result (λ program. Safe program) }
    ensures refused { IfErr result (λ verdict. IsFirst source.now verdict) }
    // No source that could be accepted is refused; want of memory is no refusal.
    ensures only { IfErr result (λ verdict. RefusesRightly source.now verdict) }
{
    accepted_sources_have_no_fault();
    rules_imply_safety();
    checked(alloc, source)
}

/// The phases, one after another.
///
/// # Errors
/// The first fault, or want of memory.
fn checked(alloc: Global, source: &[u8]) -> Result<Accepted, Verdict>
    ensures accepted { IfOk result (λ program. IsAccepted source.now program) }
    ensures sound { IfOk result (λ program. IsChecked program) }
    ensures refused { IfErr result (λ verdict. IsFirst source.now verdict) }
{
    ends_spare_their_own();
    ends_spare_newer();
    adjusts_spare_their_own();
    obeying_propagates_nothing();
    let program = program_of(alloc, source)?;
    judge(alloc, &program)?;
    Ok(Accepted { program })
}

/// The phases behind names, one after another: no Initialize and no Adjust calls itself, operations obey the rules on what they may do,
/// the flow of values obeys its rules, where what they may do counts, and each operation is in use.
///
/// # Errors
/// The first fault, or want of memory.
fn judge(alloc: Global, program: &Program) -> Result<(), Verdict>
    requires { IsWellFormed (program_form program.now) }
    ensures fine { IfOk result (λ _. HasNoFault program.now) }
    ensures in_use { IfOk result (λ _. operations_are_in_use (program_form program.now) ≡ true) }
    ensures back { IfOk result (λ _. NoneLeadsBack program.now) }
    ensures refused { IfErr result (λ verdict. IsFirstIn program.now verdict) }
{
    shun_rounds(alloc, program)?;
    let implicit = operations(alloc, program)?;
    obey(alloc, program, &implicit)?;
    use_all(alloc, program)?;
    Ok(())
}

/// No Initialize and no Adjust calls itself.
///
/// # Errors
/// The first one in the text that does, or want of memory.
fn shun_rounds(alloc: Global, program: &Program) -> Result<(), RoundFault>
    ensures none { IfOk result (λ _. NoneCallsItself program.now) }
    ensures refused { IfErr result (λ fault. IsFirstCircling program.now fault) }
{
    match first_round(alloc, program)? {
        Some(spot) => Err(RoundFault::CallsItself(spot)),
        None => Ok(()),
    }
}

/// The flow of values obeys its rules, where this is known of the operations that are called implicitly.
///
/// # Errors
/// The first rule that is broken, or want of memory.
fn obey(alloc: Global, program: &Program, implicit: &Implicit) -> Result<(), FlowFault>
    requires { implicit_in implicit.now ≡ implicit_of (program_form program.now) }
    ensures obeys { IfOk result (λ _. ObeysRules program.now) }
    ensures refused { IfErr result (λ fault. IsFirstFlowFault program.now fault) }
{
    flow(alloc, program, implicit)
}

/// Each operation is in use: Initialize is plain or, where it may be, frugal, Adjust is quiet, or, of a type that declares a component
/// of an access type, simple, where it may track, and Finalize is quiet or, where it may be, frugal. And what the declarations of bodies
/// create leads back to none of them.
///
/// # Errors
/// The first one that is not, or the first body that leads back to itself, or want of memory.
fn use_all(alloc: Global, program: &Program) -> Result<(), UnusedFault>
    requires { ObeysRules program.now }
    ensures used { IfOk result (λ _. OperationsAreInUse program.now) }
    ensures in_use { IfOk result (λ _. operations_are_in_use (program_form program.now) ≡ true) }
    ensures refused { IfErr result (λ fault. IsFirstUnused program.now fault) }
{
    match first_unused(alloc, program)? {
        Some(spot) => Err(UnusedFault::Operation(spot)),
        None => shun_circles(alloc, program),
    }
}

/// No body leads back to itself by what its own declarations create.
///
/// # Errors
/// The first body that does, or want of memory.
fn shun_circles(alloc: Global, program: &Program) -> Result<(), UnusedFault>
    ensures back { IfOk result (λ _. NoneLeadsBack program.now) }
    ensures refused { IfErr result (λ fault. IsFirstBehindUse program.now fault) }
{
    match first_circle(alloc, program)? {
        Some(spot) => Err(UnusedFault::Circle(spot)),
        None => Ok(()),
    }
}

/// The program of a source.
///
/// # Errors
/// The first fault of the text, the syntax or the names, or what is told before that, or want of memory.
fn program_of(alloc: Global, source: &[u8]) -> Result<Program, Verdict>
    ensures meant { IfOk result (λ program. IsProgramOf source.now program) }
    ensures formed { IfOk result (λ program. IsWellFormed (program_form program)) }
    ensures nests { IfOk result (λ program. CollectionsNest (program_form program)) }
    ensures frees_own { IfOk result (λ program. FreesItsOwn (program_form program)) }
    ensures refused { IfErr result (λ verdict. IsFirst source.now verdict) }
{
    let tokens = ada_text::tokens(alloc, source)?;
    let mut parsed = parse(alloc, &tokens)?;
    meaning(alloc, source, &mut parsed.unit)
}

/// The program of a source that has this tree. Where it is none, the tree is cut.
///
/// # Errors
/// The first fault of the names, or the first Initialize or Adjust before it that calls itself, or want of memory.
fn meaning(alloc: Global, source: &[u8], unit: &mut Unit<'_>) -> Result<Program, Verdict>
    requires { IsSourceOf source.now (unit_of unit.old) }
    ensures meant { IfOk result (λ program. IsProgramOf source.now program) }
    ensures formed { IfOk result (λ program. IsWellFormed (program_form program)) }
    ensures nests { IfOk result (λ program. CollectionsNest (program_form program)) }
    ensures frees_own { IfOk result (λ program. FreesItsOwn (program_form program)) }
    ensures refused { IfErr result (λ verdict. IsFirst source.now verdict) }
{
    match resolve(alloc, unit) {
        Ok(program) => Ok(program),
        Err(fault) => Err(first_told(alloc, source, unit, fault)),
    }
}

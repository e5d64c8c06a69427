//! The answer to a source: the source is checked, and run on its input if it is accepted and a run is asked for.

ghost use Rattle.std.specs.Prelude.{◌≡◌, ◌≢◌, ◌++◌, ◌-◌, take, length, [], true, None, Err, IfOk, IfErr, OnOk};
ghost use Rattle.ada_untouched.specs.Past.{StatesButForPast};
ghost use Rattle.ada_interpreter.specs.Machine.{state_in, program_of, choices_of, halt_of};
ghost use Rattle.ada_meaning.specs.declared.event.Halt.TheVariants.{Memory};
ghost use Rattle.ada_meaning.specs.Event.{event_of};
ghost use Rattle.ada_meaning.specs.Pace.{DeclarationsSettle};
ghost use Rattle.ada_meaning.specs.Safe.{Safe};
ghost use Rattle.ada_meaning.specs.Run.{first_state};
ghost use Rattle.ada_pools.specs.View.{runner_of};
ghost use Rattle.ada_program.specs.ProgramForm.{body_forms};
ghost use Rattle.ada_serve.specs.Answer.{IsRefusal, IsProgramAnswer, GivesNumbers};
ghost use Rattle.ada_serve.specs.Calls.{IsRead, IsKept, FaultReads, OnlyWrites, WriterEnds};
ghost use Rattle.ada_serve.specs.Runner.{runner_before, end_text, status_of, event_text, TurnsOn, HasRun};
ghost use Rattle.ada_serve.specs.Served.{PromisesSafe, IsOfInput, FaultGives, InputTurns, ReadersEnd, Serves, TellsPools};
ghost use Rattle.ada_serve.specs.Texts.{exceptions_of, stopped_text};
ghost use Rattle.ada_serve.specs.Written.{Writes, SaysFront};

use crate::output::write_all;
use crate::settings::Options;
use crate::streams::{ByteReader, ByteWriter, Failed};
use crate::texts::{put_event, put_refusal, put_stopped, put_unhandled};
use ada_input::{InputFault, numbers};
use ada_interpreter::Machine;
use ada_meaning::laws::{operations_grow_fewer, states_go_on};
use ada_meaning::{Event, Halt};
use ada_pools::{PoolChoices, name_pools};
use ada_program::Program;
use ada_untouched::laws::{
    forgetting_changes_past_objects_alone, past_objects_do_not_matter, past_objects_weigh_nothing,
};
use ada_verdict::{Accepted, Verdict, check};
use std::alloc::{AllocError, AllocFailed, Global};
use thiserror::Error;

/// How an answer ends.
#[derive(Clone, Copy, Debug, PartialEq, Eq)]
pub enum Status {
    Accepted,
    Refused,
    Finished,
    Unhandled,
    /// The limit of statements stopped the run.
    Stopped,
    /// The next action would be erroneous, or has no meaning, or an exception would leave an Adjust or a Finalize; no
    /// accepted program comes to that.
    Erroneous,
}

/// Why the answer is not whole. It prints its number and name.
#[derive(Clone, Copy, Debug, PartialEq, Eq, Error)]
pub enum ServeFault {
    /// The input has a word that is no number. The place is its first byte's, counted from 1. Nothing was written.
    #[error("F70 bad-input {place}")]
    BadInput { place: usize },
    /// The input has more than 1048576 bytes. Nothing was written.
    #[error("F71 input-too-long")]
    InputTooLong,
    /// A read failed, or the last call that a reader is allowed did not reach its end. Nothing was written.
    #[error("F72 read-failed")]
    ReadFailed,
    /// A write failed or took nothing. What was written is a front of the answer.
    #[error("F73 write-failed")]
    WriteFailed,
    /// A size is given for a name that no pool of the program has. Nothing was written.
    #[error("F74 no-such-pool")]
    NoSuchPool,
    /// Memory ran out. What was written is a front of the answer.
    #[error("F90 no-memory")]
    NoMemory,
}

impl From<AllocError> for ServeFault {
    ghost use Rattle.ada_serve.specs.declared.serve.ServeFault.TheVariants.{NoMemory};

    ghost from_gives = { λ _ e. e ≡ NoMemory };

    fn from(_error: AllocError) -> ServeFault {
        ServeFault::NoMemory
    }
}

impl<T: Drop> From<AllocFailed<T>> for ServeFault {
    ghost use Rattle.ada_serve.specs.declared.serve.ServeFault.TheVariants.{NoMemory};

    ghost from_gives = { λ _ e. e ≡ NoMemory };

    fn from(_failed: AllocFailed<T>) -> ServeFault {
        ServeFault::NoMemory
    }
}

impl From<Failed> for ServeFault {
    ghost use Rattle.ada_serve.specs.declared.serve.ServeFault.TheVariants.{ReadFailed};

    ghost from_gives = { λ _ e. e ≡ ReadFailed };

    fn from(_failed: Failed) -> ServeFault {
        ServeFault::ReadFailed
    }
}

impl From<InputFault> for ServeFault {
    ghost use Rattle.ada_serve.specs.Served.{fault_of};

    ghost from_gives = { λ fault e. e ≡ fault_of fault };

    fn from(fault: InputFault) -> ServeFault {
        match fault {
            InputFault::BadWord { place } => ServeFault::BadInput { place },
            InputFault::NoMemory => ServeFault::NoMemory,
        }
    }
}

/// How often a reader is called at most.
const MOST_CALLS: usize = 2_097_152;
/// How many bytes an input may have.
const LONGEST_INPUT: usize = 1_048_576;
/// How many bytes of a source or of an input are kept: one more than either may have, so that a longer one is told.
const MOST_KEPT: usize = 1_048_577;

/// Writes the answer to a source: the line of its first fault, or `accepted`, or the lines of its run and how it ended.
/// A run is stopped where it would begin one statement more than `options.steps`; its request for storage whose number
/// is `options.refuse` is refused, and so is one for which its pool has no room. With `options.trace` its lines tell, too,
/// when the storage of an allocated object goes back.
///
/// The input is read before the run begins, and each line is written as the run comes to it. A check, and a source that
/// is refused, leave the input unread.
///
/// # Errors
/// Where a run is asked for and a size is for no pool of the program; where reading, writing or memory failed, or the
/// input is too long or has a word that is no number. Where a pool is missing, a read failed, or the input has no
/// numbers, nothing was written.
pub fn serve<S: ByteReader, I: ByteReader, W: ByteWriter>(
    alloc: Global,
    source: &mut S,
    input: &mut I,
    options: &Options,
    out: &mut W,
) -> Result<Status, ServeFault>
    // What was written is the answer to the bytes that the source and the input gave; after a fault it is a front of it.
    ensures answer { Serves (IsRead S.remaining S.reads source.old source.new) (IsRead I.remaining I.reads input.old input.new)
        options.now (W.contents out.old) (W.contents out.new) result }
    // A source that is not refused is a program that is safe in every run.
    ensures safe { PromisesSafe (IsRead S.remaining S.reads source.old source.new) result }
    // A run never comes to an erroneous action.
    ensures status { IfOk result (λ status. status ≢ Status.Erroneous) }
    // A fault of reading is reported exactly where a read failed, one of the input's words exactly where it was read to
    // its end and has it, a missing pool exactly where a run would come to read its input and a size is for no pool, and
    // a fault of writing exactly where a write failed.
    ensures readers { ReadersEnd S.remaining S.reads source.old source.new I.remaining I.reads input.old input.new options.now result }
    ensures writer { WriterEnds W.writes out.old out.new result }
{
    states_go_on();
    let text = read_all(alloc, source)?;
    match check(alloc, &text) {
        Ok(accepted) => answer(alloc, &accepted, input, options, out),
        Err(verdict) => refuse(alloc, &verdict, out),
    }
}

/// Writes the answer to an accepted source.
fn answer<I: ByteReader, W: ByteWriter>(
    alloc: Global,
    accepted: &Accepted,
    input: &mut I,
    options: &Options,
    out: &mut W,
) -> Result<Status, ServeFault>
    ensures text { SaysFront (IsProgramAnswer (IsRead I.remaining I.reads input.old input.new)
        accepted.now options.now.run options.now.trace options.now.steps (runner_before accepted.now options.now))
        (W.contents out.old) (W.contents out.new) result }
    ensures writer { WriterEnds W.writes out.old out.new result }
    ensures input { InputTurns I.remaining I.reads input.old input.new result }
    ensures asked { IfErr result (λ fault. IsOfInput fault → options.now.run ≡ true) }
    ensures sizes { TellsPools accepted.now options.now result }
    ensures safe { Safe accepted.now }
{
    let program = accepted.program();
    if options.run {
        if !name_pools(program, &options.sizes) {
            return Err(ServeFault::NoSuchPool);
        }
        let numbers = read_numbers(alloc, input)?;
        return run(alloc, program, numbers, options, out);
    }
    write_all(out, b"accepted\n")?;
    Ok(Status::Accepted)
}

/// Reads an input to its end, and returns its numbers.
fn read_numbers<I: ByteReader>(alloc: Global, input: &mut I) -> Result<Vec<i32>, ServeFault>
    ensures numbers { IfOk result
        (λ found. GivesNumbers (IsRead I.remaining I.reads input.old input.new) found.items) }
    ensures faults { IfErr result (λ fault. FaultGives I.remaining I.reads input.old input.new fault) }
{
    let bytes = read_all(alloc, input)?;
    if bytes.len() > LONGEST_INPUT {
        return Err(ServeFault::InputTooLong);
    }
    Ok(numbers(alloc, &bytes)?)
}

/// Reads to the reader's end, and returns its bytes, or as many as are kept.
fn read_all<R: ByteReader>(alloc: Global, reader: &mut R) -> Result<Vec<u8>, ServeFault>
    ensures kept { IfOk result (λ kept. IsKept R.remaining R.reads reader.old reader.new kept.items) }
    ensures faults { IfErr result (λ fault. FaultReads R.reads reader.old reader.new fault) }
{
    let mut kept = Vec::new(alloc);
    let mut buffer = [0u8; 4096];
    for _call in 0..MOST_CALLS {
        let count = reader.read(&mut buffer)?;
        if count == 0 {
            return Ok(kept);
        }
        keep(&mut kept, &buffer[..count])?;
    }
    Err(ServeFault::ReadFailed)
}

/// Keeps as many of the bytes as there is room for.
fn keep(kept: &mut Vec<u8>, bytes: &[u8]) -> Result<(), AllocError>
    ensures { OnOk result (kept.new.items ≡ kept.old.items ++ take (MOST_KEPT - length kept.old.items) bytes.now) }
{
    let room = MOST_KEPT.saturating_sub(kept.len());
    kept.extend_from_slice(&bytes[..room.min(bytes.len())])
}

/// Writes the line of a source's first fault.
fn refuse<W: ByteWriter>(
    alloc: Global,
    verdict: &Verdict,
    out: &mut W,
) -> Result<Status, ServeFault>
    ensures text { SaysFront (IsRefusal verdict.now) (W.contents out.old) (W.contents out.new) result }
    ensures writer { OnlyWrites W.writes out.old out.new result }
{
    let Some(refusal) = verdict.refusal() else {
        return Err(ServeFault::NoMemory);
    };
    let mut page = Vec::new(alloc);
    put_refusal(&mut page, refusal)?;
    write_all(out, &page)?;
    Ok(Status::Refused)
}

/// Runs a program on these numbers, and writes its lines and how it ended. What the operations of its controlled types
/// create in their declarations leads through other operations only so deep. Its pools have the sizes that are asked for,
/// one request for storage is refused, or none, and so many statements may begin.
fn run<W: ByteWriter>(
    alloc: Global,
    program: &Program,
    numbers: Vec<i32>,
    options: &Options,
    out: &mut W,
) -> Result<Status, ServeFault>
    requires operations { DeclarationsSettle program.now.types.items (body_forms program.now) }
    ensures text { SaysFront (HasRun program.now options.now.trace numbers.items options.now.steps
        (runner_before program.now options.now)) (W.contents out.old) (W.contents out.new) result }
    ensures writer { OnlyWrites W.writes out.old out.new result }
{
    let choices = PoolChoices::new(
        alloc,
        program,
        options.standard,
        &options.sizes,
        options.refuse,
    )?;
    let mut machine = Machine::new(alloc, program, numbers, choices)?;
    let mut page = Vec::new(alloc);
    take_turns(&mut machine, program, options, &mut page, out)
}

/// Takes the turns of a run that has just begun, up to its end or to the limit of statements.
fn take_turns<W: ByteWriter>(
    machine: &mut Machine<'_, PoolChoices>,
    program: &Program,
    options: &Options,
    page: &mut Vec<u8>,
    out: &mut W,
) -> Result<Status, ServeFault>
    requires first { state_in machine.old ≡ first_state program.now (state_in machine.old).input }
    requires runs { halt_of machine.old ≡ None }
    requires same { program_of machine.old ≡ program.now }
    requires operations { DeclarationsSettle program.now.types.items (body_forms program.now) }
    ensures text { SaysFront (HasRun program.now options.now.trace (state_in machine.old).input options.now.steps
        (runner_of (choices_of machine.old))) (W.contents out.old) (W.contents out.new) result }
    ensures writer { OnlyWrites W.writes out.old out.new result }
{
    operations_grow_fewer();
    states_go_on();
    past_objects_do_not_matter();
    past_objects_weigh_nothing();
    let mut left = options.steps;
    'statements: loop {
        'steps: while !machine.begins() {
            if let Some(status) = take_turn(machine, program, options.trace, page, out)? {
                return Ok(status);
            }
        }
        if left == 0 {
            return stop(page, out, options.steps);
        }
        left -= 1;
        if let Some(status) = take_turn(machine, program, options.trace, page, out)? {
            return Ok(status);
        }
        left = machine.make_common_steps(left)?;
    }
}

/// Makes one step and writes its line, and then forgets the object whose storage is back by it, if one's is; or writes how the
/// run ended, and returns that status.
fn take_turn<W: ByteWriter>(
    machine: &mut Machine<'_, PoolChoices>,
    program: &Program,
    trace: bool,
    page: &mut Vec<u8>,
    out: &mut W,
) -> Result<Option<Status>, ServeFault>
    requires runs { halt_of machine.old ≡ None }
    requires same { program_of machine.old ≡ program.now }
    ensures text { TurnsOn program.now trace machine.old machine.new (W.contents out.old) (W.contents out.new) result }
    ensures writer { OnlyWrites W.writes out.old out.new result }
    ensures runs { IfOk result (λ ended. ended ≡ None → halt_of machine.new ≡ None) }
    ensures same { program_of machine.new ≡ program.now }
{
    page.clear();
    match machine.step() {
        Ok(event) => {
            write_event(page, program, machine, trace, out, event)?;
            forget_past(machine, event);
            Ok(None)
        }
        Err(halt) => Ok(Some(finish(page, program, out, halt)?)),
    }
}

/// Forgets the object whose storage is back by an event.
fn forget_past(machine: &mut Machine<'_, PoolChoices>, event: Event)
    ensures forgets { StatesButForPast (state_in machine.old) (state_in machine.new) }
    ensures choices { choices_of machine.new ≡ choices_of machine.old }
    ensures halted { halt_of machine.new ≡ halt_of machine.old }
    ensures program { program_of machine.new ≡ program_of machine.old }
{
    forgetting_changes_past_objects_alone();
    if let Event::Back { object, .. } = event {
        machine.forget(object);
    }
}

/// Writes that the limit of statements stopped a run.
fn stop<W: ByteWriter>(page: &mut Vec<u8>, out: &mut W, limit: u32) -> Result<Status, ServeFault>
    ensures text { Writes (W.contents out.old) (W.contents out.new) (stopped_text limit) result }
    ensures writer { OnlyWrites W.writes out.old out.new result }
    ensures status { IfOk result (λ status. status ≡ Status.Stopped) }
{
    page.clear();
    put_stopped(page, limit)?;
    write_all(out, page)?;
    Ok(Status::Stopped)
}

/// Writes the line of an event that has one.
fn write_event<W: ByteWriter>(
    page: &mut Vec<u8>,
    program: &Program,
    machine: &Machine<'_, PoolChoices>,
    trace: bool,
    out: &mut W,
    event: Event,
) -> Result<(), ServeFault>
    requires empty { page.old.items ≡ [] }
    requires same { program_of machine.now ≡ program.now }
    ensures text { Writes (W.contents out.old) (W.contents out.new) (event_text program.now trace (event_of event)) result }
    ensures writer { OnlyWrites W.writes out.old out.new result }
{
    put_event(page, program, machine, trace, event)?;
    write_all(out, page)
}

/// Writes how a run ended.
fn finish<W: ByteWriter>(
    page: &mut Vec<u8>,
    program: &Program,
    out: &mut W,
    halt: Halt,
) -> Result<Status, ServeFault>
    requires { page.old.items ≡ [] }
    ensures text { Writes (W.contents out.old) (W.contents out.new) (end_text (exceptions_of program.now) halt) result }
    ensures writer { OnlyWrites W.writes out.old out.new result }
    ensures status { IfOk result (λ status. status ≡ status_of halt) }
    ensures memory { IfOk result (λ _. halt ≢ Memory) }
{
    match halt {
        Halt::Finished => {
            write_all(out, b"finished\n")?;
            Ok(Status::Finished)
        }
        Halt::Unhandled(exception) => {
            put_unhandled(page, program, exception)?;
            write_all(out, page)?;
            Ok(Status::Unhandled)
        }
        Halt::Escaped(_) | Halt::Erroneous(_) | Halt::Stuck => {
            write_all(out, b"erroneous\n")?;
            Ok(Status::Erroneous)
        }
        Halt::Memory => Err(ServeFault::NoMemory),
    }
}

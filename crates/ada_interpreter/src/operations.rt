//! Operations of controlled types (7.6, 7.6.1): their bodies begin and end, and an exception comes out of one.

ghost use Rattle.std.specs.Prelude.{◌≡◌, false, Some, IfOk, OnOk};
ghost use Rattle.ada_program.specs.ProgramForm.{body_form};
ghost use Rattle.ada_meaning.specs.Event.{event_of};
ghost use Rattle.ada_meaning.specs.Frame as frame;
ghost use Rattle.ada_meaning.specs.Heap.{Cell as CellOf};
ghost use Rattle.ada_meaning.specs.Step as step;
ghost use Rattle.ada_meaning.specs.Named.{named, look};
ghost use Rattle.ada_program.specs.Controlled.{procedure_number};
ghost use Rattle.ada_interpreter.specs.Objects.{part_at};
ghost use Rattle.ada_interpreter.specs.Treatment.{part_form, done_parts};
ghost use Rattle.ada_interpreter.specs.Process.{state_of, pushed, Turns};

use crate::allocators::counted;
use crate::frame::Frame;
use crate::process::Process;
use crate::treatment::{Done, PartState, Treated, Treatment, undoing_tasks};
use crate::turn::{QUIET, Turn};
use ada_meaning::{Birth, Cause, Controlled, Event, Exception, Halt, Id, Mode, Place, Value, Why};
use ada_program::RecordNo;
use ada_program::program::{Operations, Procedure, ProcedureNo};
use std::alloc::{AllocError, Global};

impl<'a> Process<'a> {
    /// The body of an operation begins (7.6, 6.4): its one formal parameter stands for a part of an object. What the running
    /// body has computed waits.
    pub(crate) fn operate(
        &mut self,
        alloc: Global,
        procedure: ProcedureNo,
        body: &'a Procedure,
        reference: Value,
    ) -> Result<(), AllocError>
        ensures { let s = state_of self.old in
            OnOk result
            (state_of self.new ≡ step.operating named procedure.0 (body_form body.now) reference s.control s) }
    {
        self.activations
            .begin_operation(procedure, body.variables.as_slice(), reference)?;
        self.push(Frame::Returns {
            actuals: &[],
            references: Vec::new(alloc),
        })?;
        self.push(Frame::Elaborates {
            declarations: body.declarations.as_slice(),
            statements: body.statements.as_slice(),
            handlers: body.handlers.as_slice(),
        })?;
        self.enter()
    }

    /// A part comes to have a value (7.6), and what is left of the treatment goes on.
    #[tactic(auto, using(crate::proofs::TurnLemmas::one_done))]
    pub(crate) fn bear(
        &mut self,
        treated: Box<Treated>,
        by: Birth,
        of: usize,
        part: usize,
        state: PartState,
    ) -> Result<Event, AllocError>
        requires { part_at (state_of self.old).heap treated.value.object part ≡ Some (part_form state) }
        ensures { let t = treated.value in let v = Value.Names t.object in
            let done = done_parts t.done.items in
            let now = Some (part_form state) in
            IfOk result
            (λ event. step.moves (event_of event) (state_of self.new) ≡ step.born_next named v by done of part t.tasks now (state_of self.old)) }
    {
        let object = treated.object;
        let number = counted(self.born);
        self.objects.bear(object, part, state, number);
        self.born = number;
        let mut treated = treated;
        treated.treatment = Treatment::Begins(by);
        treated.done.push(Done { of, part })?;
        self.treat_on(treated)?;
        Ok(Event::Born {
            value: Controlled {
                object,
                part,
                turn: state.turn,
            },
            record: RecordNo(of),
            number,
            by,
        })
    }

    /// The body of the operation has ended that was to begin a part of an object: the part has its value (7.6). What waited
    /// for it has been taken off.
    pub(crate) fn bear_awaited(
        &mut self,
        by: Birth,
        treated: Box<Treated>,
        of: usize,
        part: usize,
    ) -> Result<Turn, AllocError>
        ensures { let t = treated.value in let v = Value.Names t.object in
            let s = state_of self.old in
            let done = done_parts t.done.items in
            Turns (step.awaited_next named v by done of part t.tasks (look s.heap v) s)
            (pushed (frame.Awaits v by done of part t.tasks) s) result (state_of self.new) }
    {
        if self.objects.existing(treated.object).is_none() {
            self.push(Frame::Awaits {
                by,
                treated,
                of,
                part,
            })?;
            return Ok(Turn::Halts(Halt::Erroneous(Why::FinalizesTwice)));
        }
        let Some(state) = self.objects.part_state(treated.object, part) else {
            self.push(Frame::Awaits {
                by,
                treated,
                of,
                part,
            })?;
            return Ok(Turn::Halts(Halt::Stuck));
        };
        Ok(Turn::Moves(self.bear(treated, by, of, part, state)?))
    }

    /// A jump comes out of the operation that was to begin a part of an object (7.6.1): only an exception does. What waited
    /// for its end has been taken off.
    pub(crate) fn break_off(
        &mut self,
        alloc: Global,
        mode: Mode,
        by: Birth,
        treated: Box<Treated>,
        of: usize,
        part: usize,
    ) -> Result<Turn, AllocError>
        ensures { let t = treated.value in let v = Value.Names t.object in
            let s = state_of self.old in
            let awaits = frame.Awaits v by (done_parts t.done.items) of part t.tasks in
            Turns (step.pass_next named false (frame.landing mode awaits) mode s)
            (pushed awaits s) result (state_of self.new) }
    {
        match mode {
            Mode::Running => Ok(QUIET),
            Mode::Raising(exception) => match by {
                Birth::Creation => self.undo(alloc, exception, treated, of, part),
                Birth::Copy | Birth::Adjustment { number: _ } => {
                    self.push(Frame::Awaits {
                        by,
                        treated,
                        of,
                        part,
                    })?;
                    Ok(Turn::Halts(Halt::Escaped(exception)))
                }
            },
            Mode::Exiting | Mode::Returning => {
                self.push(Frame::Awaits {
                    by,
                    treated,
                    of,
                    part,
                })?;
                Ok(Turn::Halts(Halt::Stuck))
            }
        }
    }

    /// An exception comes out of an Initialize (7.6.1).
    fn undo(
        &mut self,
        alloc: Global,
        exception: Exception,
        treated: Box<Treated>,
        of: usize,
        part: usize,
    ) -> Result<Turn, AllocError>
        ensures { let t = treated.value in let v = Value.Names t.object in
            let s = state_of self.old in
            let done = done_parts t.done.items in
            Turns (step.undo_next named exception v done (look s.heap v) s)
            (pushed (frame.Awaits v Birth.Creation done of part t.tasks) s) result (state_of self.new) }
    {
        match self.objects.existing(treated.object) {
            None => {
                self.push(Frame::Awaits {
                    by: Birth::Creation,
                    treated,
                    of,
                    part,
                })?;
                Ok(Turn::Halts(Halt::Erroneous(Why::EndsTwice)))
            }
            Some(cell) => {
                let pool = cell.home.pool;
                self.undo_creation(alloc, exception, treated, pool)?;
                Ok(QUIET)
            }
        }
    }

    /// What has begun of an object whose creation an exception breaks off is finalized, the newest part first; the object
    /// ceases to exist, its storage goes back, and then the exception goes on (7.6.1).
    fn undo_creation(
        &mut self,
        alloc: Global,
        exception: Exception,
        treated: Box<Treated>,
        pool: Option<usize>,
    ) -> Result<(), AllocError>
        ensures { let t = treated.value in let v = Value.Names t.object in
            let s = state_of self.old in
            let done = done_parts t.done.items in
            (cell : CellOf Value) → cell.home.pool ≡ pool →
            OnOk result (state_of self.new ≡ step.undone named exception v done cell s) }
    {
        let number = self.next;
        let Some(next) = number.checked_add(1) else {
            return Err(AllocError);
        };
        let object = treated.object;
        let cause = Cause::Undoing { number };
        self.push(Frame::Resumes(Mode::Raising(exception)))?;
        self.push(Frame::GivesBack {
            object: Value::Names(object),
            cause,
            pool,
        })?;
        self.push(Frame::Ends(Value::Names(object)))?;
        let mut treated = treated;
        treated.treatment = Treatment::Ends(cause);
        treated.tasks = undoing_tasks(alloc, treated.done.as_slice())?;
        self.treat_on(treated)?;
        self.objects.part(object);
        self.activations.drop_operands();
        self.next = next;
        self.mode = Mode::Running;
        Ok(())
    }
}

/// The operation that begins a value so (7.6): Initialize as its object is created, Adjust where it is copied.
pub(crate) fn beginning(by: Birth, operations: Operations) -> Option<ProcedureNo>
    ensures { procedure_number result ≡ step.beginning by operations }
{
    match by {
        Birth::Creation => operations.initialize,
        Birth::Copy | Birth::Adjustment { number: _ } => operations.adjust,
    }
}

/// What refers to a part of an object (6.2).
pub(crate) fn part_reference(object: Id, part: usize, state: PartState) -> Value
    ensures { result ≡ step.part_reference named (Value.Names object) part (part_form state) }
{
    Value::Part {
        object,
        place: Place {
            component: state.first,
            part,
        },
    }
}

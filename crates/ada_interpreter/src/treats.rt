//! Treatments of objects (7.6, 7.6.1): their controlled parts are initialized, or finalized.

ghost use Rattle.std.specs.Prelude.{◌≡◌, [], OnOk};
ghost use Rattle.ada_parts.specs.Task.{next as task_next, performed};
ghost use Rattle.ada_program.specs.Controlled.{operations_of, procedure_number};
ghost use Rattle.ada_program.specs.ProgramForm.{body_forms};
ghost use Rattle.ada_meaning.specs.Frame as frame;
ghost use Rattle.ada_meaning.specs.Step as step;
ghost use Rattle.ada_meaning.specs.Named.{named, look};
ghost use Rattle.ada_interpreter.specs.Objects.{part_at};
ghost use Rattle.ada_interpreter.specs.Treatment.{done_parts, treatment_form, treated_form};
ghost use Rattle.ada_interpreter.specs.Process.{state_of, pushed, picked, Turns, TurnsOf};

use crate::frame::Frame;
use crate::loaded::Loaded;
use crate::operations::{beginning, part_reference};
use crate::process::Process;
use crate::treatment::{Treated, Treatment};
use crate::turn::{Open, QUIET, Turn};
use ada_meaning::{Birth, Cause, Controlled, Event, Halt, Id, Value, Why};
use ada_parts::{Next, Tasks};
use ada_program::{RecordNo, TypeNo};
use std::alloc::{AllocError, Global};

impl<'a> Process<'a> {
    /// The controlled parts of an object are treated before all else that is left to do, if it has some (7.6, 7.6.1).
    pub(crate) fn begin_treatment(
        &mut self,
        loaded: &Loaded<'a>,
        object: Id,
        access: TypeNo,
        treatment: Treatment,
    ) -> Result<(), AllocError>
        ensures { let s = state_of self.old in let form = treatment_form treatment [] in
            let tasks = step.all_tasks loaded.now.program.now.types.items access.0 (step.direction_of form) in
            OnOk result (state_of self.new ≡ step.treated_on named (Value.Names object) form tasks s) }
    {
        let tasks = loaded.tasks(access, treatment.direction())?;
        self.treat_first(loaded.alloc, object, treatment, tasks)
    }

    /// The same of a record that lies in an object, where its first part has this number.
    pub(crate) fn begin_record_treatment(
        &mut self,
        loaded: &Loaded<'a>,
        object: Id,
        record_type: TypeNo,
        first: usize,
        treatment: Treatment,
    ) -> Result<(), AllocError>
        ensures { let s = state_of self.old in let form = treatment_form treatment [] in
            let types = loaded.now.program.now.types.items in
            let tasks = step.record_tasks types record_type.0 (step.direction_of form) first in
            OnOk result (state_of self.new ≡ step.treated_on named (Value.Names object) form tasks s) }
    {
        let tasks = loaded.record_tasks(record_type, treatment.direction(), first)?;
        self.treat_first(loaded.alloc, object, treatment, tasks)
    }

    /// A treatment comes before all else that is left to do, if anything is to be done in it.
    #[tactic(auto, using(crate::proofs::TurnLemmas::treating_none, crate::proofs::TurnLemmas::treating_some))]
    fn treat_first(
        &mut self,
        alloc: Global,
        object: Id,
        treatment: Treatment,
        tasks: Tasks,
    ) -> Result<(), AllocError>
        ensures { let s = state_of self.old in let form = treatment_form treatment [] in
            OnOk result (state_of self.new ≡ step.treated_on named (Value.Names object) form tasks s) }
    {
        if tasks.is_empty() {
            return Ok(());
        }
        let treated = Treated {
            object,
            treatment,
            done: Vec::new(alloc),
            tasks,
        };
        self.push(Frame::Treats(Box::new(alloc, treated)?))
    }

    /// What is left of a treatment goes on, if anything is.
    #[tactic(auto, using(crate::proofs::TurnLemmas::treating_none, crate::proofs::TurnLemmas::treating_some))]
    pub(crate) fn treat_on(&mut self, treated: Box<Treated>) -> Result<(), AllocError>
        ensures { let t = treated.value in let v = Value.Names t.object in
            OnOk result
            (state_of self.new ≡ step.treated_on named v (treated_form t) t.tasks (state_of self.old)) }
    {
        if treated.tasks.is_empty() {
            return Ok(());
        }
        self.push(Frame::Treats(treated))
    }

    /// The next step of a treatment, which has been taken off.
    pub(crate) fn treat(
        &mut self,
        loaded: &Loaded<'a>,
        treated: Box<Treated>,
    ) -> Result<Turn, AllocError>
        ensures { let t = treated.value in let v = Value.Names t.object in
            let s = state_of self.old in
            let form = treated_form t in
            let types = loaded.now.program.now.types.items in
            let bodies = body_forms loaded.now.program.now in
            TurnsOf types (step.treats_next named types bodies v form t.tasks (task_next t.tasks) s)
            (pushed (frame.Treats v form t.tasks) s) result (state_of self.new) }
    {
        match treated.tasks.next() {
            Next::Done => Ok(QUIET),
            Next::Pick { count } => {
                self.push(Frame::Treats(treated))?;
                if count == 0 {
                    return Ok(Turn::Halts(Halt::Stuck));
                }
                Ok(Turn::PicksComponent(Open { count }))
            }
            Next::Perform { of, part } => self.perform(loaded, treated, of, part),
        }
    }

    /// The operation of a part is called (7.6, 7.6.1). To treat a part of an object that is gone is erroneous.
    fn perform(
        &mut self,
        loaded: &Loaded<'a>,
        treated: Box<Treated>,
        of: usize,
        part: usize,
    ) -> Result<Turn, AllocError>
        ensures { let t = treated.value in let v = Value.Names t.object in
            let s = state_of self.old in
            let form = treated_form t in
            let types = loaded.now.program.now.types.items in
            let bodies = body_forms loaded.now.program.now in
            Turns (step.performed_next named types bodies v form of part (performed t.tasks) (look s.heap v) s)
            (pushed (frame.Treats v form t.tasks) s) result (state_of self.new) }
    {
        if self.objects.existing(treated.object).is_none() {
            self.push(Frame::Treats(treated))?;
            return Ok(Turn::Halts(Halt::Erroneous(Why::FinalizesTwice)));
        }
        match treated.treatment {
            Treatment::Begins(by) => self.begin_part(loaded, treated, of, part, by),
            Treatment::Ends(cause) => self.end_part(loaded, treated, of, part, cause),
        }
    }

    /// The operation that begins a part is called (7.6). Where the type doesn't override it, the part has its value at once.
    fn begin_part(
        &mut self,
        loaded: &Loaded<'a>,
        treated: Box<Treated>,
        of: usize,
        part: usize,
        by: Birth,
    ) -> Result<Turn, AllocError>
        ensures { let t = treated.value in let v = Value.Names t.object in
            let s = state_of self.old in
            let bodies = body_forms loaded.now.program.now in
            let operation = step.beginning by (operations_of loaded.now.program.now.types.items of) in
            let now = part_at s.heap t.object part in
            let done = done_parts t.done.items in
            Turns (step.begun_next named bodies v by done of part (performed t.tasks) operation now s)
            (pushed (frame.Treats v (treated_form t) t.tasks) s) result (state_of self.new) }
    {
        let Some(state) = self.objects.part_state(treated.object, part) else {
            self.push(Frame::Treats(treated))?;
            return Ok(Turn::Halts(Halt::Stuck));
        };
        match beginning(by, loaded.operations(of)) {
            None => {
                let mut treated = treated;
                treated.tasks.performed();
                Ok(Turn::Moves(self.bear(treated, by, of, part, state)?))
            }
            Some(procedure) => match loaded.program.procedures.get(procedure.0) {
                None => {
                    self.push(Frame::Treats(treated))?;
                    Ok(Turn::Halts(Halt::Stuck))
                }
                Some(body) => {
                    let reference = part_reference(treated.object, part, state);
                    let mut treated = treated;
                    treated.tasks.performed();
                    self.push(Frame::Awaits {
                        by,
                        treated,
                        of,
                        part,
                    })?;
                    self.operate(loaded.alloc, procedure, body, reference)?;
                    Ok(QUIET)
                }
            },
        }
    }

    /// Finalize of a part is called (7.6.1): to finalize one that has no value is erroneous. Where the type doesn't override
    /// it, what is left of the treatment goes on.
    fn end_part(
        &mut self,
        loaded: &Loaded<'a>,
        treated: Box<Treated>,
        of: usize,
        part: usize,
        cause: Cause,
    ) -> Result<Turn, AllocError>
        requires { treated.value.treatment ≡ Treatment.Ends cause }
        ensures { let t = treated.value in let v = Value.Names t.object in
            let s = state_of self.old in
            let bodies = body_forms loaded.now.program.now in
            let operation = procedure_number (operations_of loaded.now.program.now.types.items of).finalize in
            let now = part_at s.heap t.object part in
            Turns (step.finalized_next named bodies v cause of part (performed t.tasks) operation now s)
            (pushed (frame.Treats v (treated_form t) t.tasks) s) result (state_of self.new) }
    {
        let object = treated.object;
        let Some(state) = self.objects.part_state(object, part) else {
            self.push(Frame::Treats(treated))?;
            return Ok(Turn::Halts(Halt::Stuck));
        };
        if !state.alive {
            self.push(Frame::Treats(treated))?;
            return Ok(Turn::Halts(Halt::Erroneous(Why::FinalizesTwice)));
        }
        let event = Event::Finalized {
            value: Controlled {
                object,
                part,
                turn: state.turn,
            },
            record: RecordNo(of),
            number: state.number,
            cause,
        };
        match loaded.operations(of).finalize {
            None => {
                self.objects.finalize(object, part, state)?;
                self.perform_next(treated)?;
                Ok(Turn::Moves(event))
            }
            Some(procedure) => match loaded.program.procedures.get(procedure.0) {
                None => {
                    self.push(Frame::Treats(treated))?;
                    Ok(Turn::Halts(Halt::Stuck))
                }
                Some(body) => {
                    self.objects.finalize(object, part, state)?;
                    self.perform_next(treated)?;
                    self.push(Frame::Confines)?;
                    let reference = part_reference(object, part, state);
                    self.operate(loaded.alloc, procedure, body, reference)?;
                    Ok(Turn::Moves(event))
                }
            },
        }
    }

    /// The operation that was due has been called, and what is left of the treatment goes on.
    fn perform_next(&mut self, treated: Box<Treated>) -> Result<(), AllocError>
        ensures { let t = treated.value in let v = Value.Names t.object in
            OnOk result
            (state_of self.new ≡ step.treated_on named v (treated_form t) (performed t.tasks) (state_of self.old)) }
    {
        let mut treated = treated;
        treated.tasks.performed();
        self.treat_on(treated)
    }

    /// One of the components that are open is picked: it is treated next (7.6, 7.6.1). Where the first of what is left to do is
    /// no treatment, nothing changes.
    pub(crate) fn take_component(&mut self, loaded: &Loaded<'a>, i: usize) -> Result<(), AllocError>
        ensures { OnOk result
            (state_of self.new ≡ picked loaded.now.program.now.types.items i (state_of self.old)) }
    {
        match self.frames.top() {
            Some(Frame::Treats(_)) => {
                let Some(Frame::Treats(treated)) = self.frames.pop() else {
                    unreachable!()
                };
                let mut treated = treated;
                let direction = treated.treatment.direction();
                loaded.take(&mut treated.tasks, direction, i)?;
                self.treat_on(treated)
            }
            _ => Ok(()),
        }
    }
}

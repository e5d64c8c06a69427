//! Calls of procedures: actual parameters, the beginning of a body, and its end.

ghost use Rattle.std.specs.Prelude.{◌≡◌, map, false, OnOk};
ghost use Rattle.std.specs.List.{slice_get};
ghost use Rattle.ada_program.specs.Form.{actual_form};
ghost use Rattle.ada_program.specs.ProgramForm.{body_form, body_forms};
ghost use Rattle.ada_meaning.specs.Event.{Quiet};
ghost use Rattle.ada_meaning.specs.Frame.{landing};
ghost use Rattle.ada_meaning.specs.Frame as frame;
ghost use Rattle.ada_meaning.specs.Step as step;
ghost use Rattle.ada_meaning.specs.Named.{named};
ghost use Rattle.ada_interpreter.specs.Process.{frame_of, state_of, passed, replaced, Turns};

use crate::frame::Frame;
use crate::process::Process;
use crate::turn::{QUIET, Turn};
use crate::values::{base, whole};
use ada_meaning::{Halt, Mode, Value};
use ada_program::Program;
use ada_program::program::{Actual, Procedure, ProcedureNo};
use std::alloc::AllocError;

impl<'a> Process<'a> {
    /// A call (6.4): its actual parameters are evaluated, in order, and then the procedure's body begins.
    pub(crate) fn call(
        &mut self,
        program: &'a Program,
        procedure: ProcedureNo,
        actuals: &'a [Actual],
        rest: Frame<'a>,
    ) -> Result<Turn, AllocError>
        ensures { let s = replaced (frame_of rest.entry) (state_of self.old) in
            let body = slice_get (body_forms program.now) procedure.0 in
            Turns (step.call_next named procedure.0 (map actual_form actuals.now) body s)
            (state_of self.old) result (state_of self.new) }
    {
        match program.procedures.get(procedure.0) {
            None => Ok(Turn::Halts(Halt::Stuck)),
            Some(body) => {
                let calls = Frame::Calls {
                    procedure,
                    body,
                    actuals,
                };
                self.replace_by_two(calls, rest)?;
                self.compute_all(actuals)?;
                Ok(QUIET)
            }
        }
    }

    /// Actual parameters are evaluated one after another, before what else is left to do.
    fn compute_all(&mut self, actuals: &'a [Actual]) -> Result<(), AllocError>
        ensures { let s = state_of self.old in
            let given = map actual_form actuals.now in
            OnOk result (state_of self.new ≡ step.at (step.computing named given s.control) s) }
    {
        let mut left = actuals.len();
        'actuals: while left > 0 {
            left -= 1;
            self.push(Frame::evaluating(&actuals[left]))?;
        }
        Ok(())
    }

    /// The body of a procedure begins (6.4): its activation holds the values of the actual parameters, which are among the
    /// newest operands, and the body is a master of its own (7.6.1).
    pub(crate) fn begin_body(
        &mut self,
        procedure: ProcedureNo,
        body: &'a Procedure,
        actuals: &'a [Actual],
    ) -> Result<Turn, AllocError>
        ensures { let s = passed (state_of self.old) in
            let given = map actual_form actuals.now in
            let computed = step.newest_ones named (step.operand_count given) s in
            Turns (step.moves Quiet (step.begun named procedure.0 (body_form body.now) given computed s))
            (state_of self.old) result (state_of self.new) }
    {
        let references = self
            .activations
            .begin(procedure, body.variables.as_slice(), actuals)?;
        self.replace_by_two(
            Frame::Elaborates {
                declarations: body.declarations.as_slice(),
                statements: body.statements.as_slice(),
                handlers: body.handlers.as_slice(),
            },
            Frame::Returns {
                actuals,
                references,
            },
        )?;
        self.enter()?;
        Ok(QUIET)
    }

    /// A call's body ends normally (6.4.1, 6.5): its caller gets back what it is to get, and goes on. What goes to components
    /// is stored in them next.
    pub(crate) fn resume(
        &mut self,
        actuals: &[Actual],
        references: &[Value],
    ) -> Result<(), AllocError>
        ensures { let given = map actual_form actuals.now in
            OnOk result
            (state_of self.new ≡ step.returned named given references.now (state_of self.old)) }
    {
        self.activations.end_normally(actuals)?;
        self.store_all(references)
    }

    /// The components to which values refer get the newest operands, one after another, before what else is left to do.
    fn store_all(&mut self, references: &[Value]) -> Result<(), AllocError>
        ensures { let s = state_of self.old in
            OnOk result (state_of self.new ≡ step.at (step.storing named references.now s.control) s) }
    {
        let mut left = references.len();
        'references: while left > 0 {
            left -= 1;
            let reference = references[left];
            self.push(Frame::StoresIn {
                object: whole(reference),
                component: base(reference),
            })?;
        }
        Ok(())
    }

    /// A jump comes to the end of a call's body. A return ends here, and the body ends normally (6.5). Any other jump
    /// passes, and nothing is given back (6.4.1, 11.4).
    pub(crate) fn leave_body(
        &mut self,
        mode: Mode,
        actuals: &[Actual],
        references: &[Value],
    ) -> Result<(), AllocError>
        ensures { let given = map actual_form actuals.now in
            let returns = frame.Returns given references.now in
            let s = step.left_by named mode given references.now (state_of self.old) in
            OnOk result
            (step.moves Quiet (state_of self.new) ≡ step.pass_next named false (landing mode returns) mode s) }
    {
        match mode {
            Mode::Returning => {
                self.mode = Mode::Running;
                self.resume(actuals, references)
            }
            Mode::Running | Mode::Raising(_) | Mode::Exiting => {
                self.activations.end();
                Ok(())
            }
        }
    }
}

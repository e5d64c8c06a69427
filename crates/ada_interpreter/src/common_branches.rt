//! Common steps of branches, loops and exits. Where a condition is known at once, what it decides is done with it.

ghost use Rattle.std.specs.Prelude.{◌≡◌, ◌∷◌, Some, pos, ◌+ℤ◌, OnOk};
ghost use Rattle.std.specs.Option.{option_copied};
ghost use Rattle.ada_program.specs.Form.{expression_form, condition_form, stmts_form, branches_form};
ghost use Rattle.ada_meaning.specs.Frame as frame;
ghost use Rattle.ada_meaning.specs.Step as step;
ghost use Rattle.ada_meaning.specs.Named.{named, reads_boolean};
ghost use Rattle.ada_interpreter.specs.CommonSteps.{MayMove, GoesOn, MayGoOn};
ghost use Rattle.ada_interpreter.specs.Process.{state_of, passed, replaced};

use crate::frame::Frame;
use crate::process::Process;
use crate::values::truth;
use ada_meaning::{Mode, Value};
use ada_program::program::{Branch, Expression};
use ada_program::{Program, Stmt, VariableNo};
use ada_values::Value as Scalar;
use std::alloc::AllocError;

impl<'a> Process<'a> {
    /// An exit on a condition (5.7), if that is known at once.
    pub(crate) fn exit_at_once(
        &mut self,
        condition: Option<&'a Expression>,
        rest: &'a [Stmt],
    ) -> Result<bool, AllocError>
        ensures { let s = replaced (frame.Does (stmts_form rest.now)) (state_of self.old) in
            (program : Program) → s.mode ≡ Mode.Running →
            MayGoOn program (step.exit_next named (condition_form (option_copied condition.entry)) s)
            self.old result self.new }
    {
        let Some(condition) = condition else {
            return Ok(false);
        };
        let Some(leaves) = self.truth_at_once(condition) else {
            return Ok(false);
        };
        if leaves {
            self.replace(Frame::Does(rest))?;
            self.jump(Mode::Exiting);
        } else {
            self.go_behind_statement(rest)?;
        }
        Ok(true)
    }

    /// The branches that are left (5.3): where the conditions are known at once, a branch is taken.
    pub(crate) fn choose_next(
        &mut self,
        branches: &'a [Branch],
        otherwise: &'a [Stmt],
    ) -> Result<(), AllocError>
        ensures { let s = state_of self.old in (program : Program) → s.mode ≡ Mode.Running →
            OnOk result
            (GoesOn program (step.branches_next named (branches_form branches.now (stmts_form otherwise.now)) s)
            (state_of self.new)) }
    {
        match self.chosen_at_once(branches, otherwise) {
            Some(statements) => self.push(Frame::Does(statements)),
            None => self.choose(branches, otherwise),
        }
    }

    /// A loop comes to its next turn (5.5), and its condition is evaluated.
    pub(crate) fn repeat_next(
        &mut self,
        condition: &'a Expression,
        statements: &'a [Stmt],
    ) -> Result<bool, AllocError>
        ensures { let s = passed (state_of self.old) in
            MayMove
            (step.repeats_next named (Some (expression_form condition.now)) (stmts_form statements.now) s)
            self.old result self.new }
    {
        self.replace_by_two(
            Frame::Computes(condition),
            Frame::Turns {
                condition,
                statements,
            },
        )?;
        Ok(true)
    }

    /// The condition of a loop is known (5.5).
    pub(crate) fn turn_next(
        &mut self,
        condition: &'a Expression,
        statements: &'a [Stmt],
    ) -> Result<bool, AllocError>
        ensures { let s = passed (state_of self.old) in
            MayMove
            (step.turned_next named (expression_form condition.now) (stmts_form statements.now) (reads_boolean (step.newest named s)) (step.popped s))
            self.old result self.new }
    {
        match truth(self.newest()) {
            None => Ok(false),
            Some(true) => match statements.first() {
                None => Ok(false),
                Some(_) => {
                    self.pop();
                    self.replace_by_two(
                        Frame::Does(statements),
                        Frame::Repeats {
                            condition: Some(condition),
                            statements,
                        },
                    )?;
                    Ok(true)
                }
            },
            Some(false) => {
                self.pass();
                self.pop();
                Ok(true)
            }
        }
    }

    /// The condition of a branch is known (5.3).
    pub(crate) fn decide_next(
        &mut self,
        statements: &'a [Stmt],
        branches: &'a [Branch],
        otherwise: &'a [Stmt],
    ) -> Result<bool, AllocError>
        ensures { let s = passed (state_of self.old) in
            let left = branches_form branches.now (stmts_form otherwise.now) in
            (program : Program) → s.mode ≡ Mode.Running →
            MayGoOn program
            (step.decided_next named (stmts_form statements.now) left (reads_boolean (step.newest named s)) (step.popped s))
            self.old result self.new }
    {
        match truth(self.newest()) {
            None => Ok(false),
            Some(true) => {
                self.pop();
                self.replace(Frame::Does(statements))?;
                Ok(true)
            }
            Some(false) => {
                self.pass();
                self.pop();
                self.choose_next(branches, otherwise)?;
                Ok(true)
            }
        }
    }
}

//! Branches, loops and exits.

ghost use Rattle.std.specs.Prelude.{◌≡◌, pos, ◌+ℤ◌, OnOk};
ghost use Rattle.std.specs.Option.{option_copied};
ghost use Rattle.ada_program.specs.Form.{expression_form, condition_form, stmts_form, branches_form};
ghost use Rattle.ada_meaning.specs.Frame as frame;
ghost use Rattle.ada_meaning.specs.Event.{Quiet};
ghost use Rattle.ada_meaning.specs.Step as step;
ghost use Rattle.ada_meaning.specs.Named.{named, reads_integer, reads_boolean, an_integer};
ghost use Rattle.ada_interpreter.specs.Process.{frame_of, state_of, passed, replaced, pushed, Turns, IsTurn};

use crate::frame::Frame;
use crate::process::Process;
use crate::turn::{QUIET, Turn};
use crate::values::{number, truth};
use ada_meaning::{Halt, Mode, Value};
use ada_program::program::{Branch, Expression};
use ada_program::{Stmt, VariableNo};
use ada_values::Value as Scalar;
use std::alloc::AllocError;

impl<'a> Process<'a> {
    /// The branches that are left (5.3): the condition of the first is evaluated next, or no branch is taken.
    pub(crate) fn choose(
        &mut self,
        branches: &'a [Branch],
        otherwise: &'a [Stmt],
    ) -> Result<(), AllocError>
        ensures { OnOk result
            (step.moves Quiet (state_of self.new) ≡
            step.branches_next named (branches_form branches.now (stmts_form otherwise.now)) (state_of self.old)) }
    {
        match branches.split_first() {
            None => self.push(Frame::Does(otherwise)),
            Some((first, rest)) => {
                self.push(Frame::Decides {
                    statements: first.statements.as_slice(),
                    branches: rest,
                    otherwise,
                })?;
                self.push(Frame::Computes(&first.condition))
            }
        }
    }

    /// The condition of a branch is known (5.3): its statements are done, or another branch is chosen.
    pub(crate) fn decide(
        &mut self,
        statements: &'a [Stmt],
        branches: &'a [Branch],
        otherwise: &'a [Stmt],
    ) -> Result<Turn, AllocError>
        ensures { let s = passed (state_of self.old) in
            let left = branches_form branches.now (stmts_form otherwise.now) in
            Turns
            (step.decided_next named (stmts_form statements.now) left (reads_boolean (step.newest named s)) (step.popped s))
            (state_of self.old) result (state_of self.new) }
    {
        match truth(self.newest()) {
            None => Ok(Turn::Halts(Halt::Stuck)),
            Some(taken) => {
                self.pass();
                self.pop();
                if taken {
                    self.push(Frame::Does(statements))?;
                } else {
                    self.choose(branches, otherwise)?;
                }
                Ok(QUIET)
            }
        }
    }

    /// A loop comes to its next turn (5.5): that begins with the condition, where there is one.
    pub(crate) fn repeat(
        &mut self,
        condition: Option<&'a Expression>,
        statements: &'a [Stmt],
    ) -> Result<Turn, AllocError>
        ensures { let s = state_of self.old in
            Turns
            (step.repeats_next named (condition_form (option_copied condition.entry)) (stmts_form statements.now) (passed s))
            s result (state_of self.new) }
    {
        match condition {
            None => match statements.first() {
                None => Ok(Turn::Halts(Halt::Stuck)),
                Some(_) => {
                    self.pass();
                    self.begin_turn(None, statements)?;
                    Ok(QUIET)
                }
            },
            Some(condition) => {
                self.replace_by_two(
                    Frame::Computes(condition),
                    Frame::Turns {
                        condition,
                        statements,
                    },
                )?;
                Ok(QUIET)
            }
        }
    }

    /// The condition of a loop is known (5.5): there is a turn, or the loop is done.
    pub(crate) fn go_round(
        &mut self,
        condition: &'a Expression,
        statements: &'a [Stmt],
    ) -> Result<Turn, AllocError>
        ensures { let s = passed (state_of self.old) in
            Turns
            (step.turned_next named (expression_form condition.now) (stmts_form statements.now) (reads_boolean (step.newest named s)) (step.popped s))
            (state_of self.old) result (state_of self.new) }
    {
        match truth(self.newest()) {
            None => Ok(Turn::Halts(Halt::Stuck)),
            Some(true) => match statements.first() {
                None => Ok(Turn::Halts(Halt::Stuck)),
                Some(_) => {
                    self.pass();
                    self.pop();
                    self.begin_turn(Some(condition), statements)?;
                    Ok(QUIET)
                }
            },
            Some(false) => {
                self.pass();
                self.pop();
                Ok(QUIET)
            }
        }
    }

    /// A turn begins (5.5): the statements are done, and then the loop comes to its next turn.
    fn begin_turn(
        &mut self,
        condition: Option<&'a Expression>,
        statements: &'a [Stmt],
    ) -> Result<(), AllocError>
        ensures { let s = state_of self.old in let form = stmts_form statements.now in
            OnOk result
            (state_of self.new ≡
            pushed (frame.Does form) (pushed (frame.Repeats (condition_form (option_copied condition.entry)) form) s)) }
    {
        self.push(Frame::Repeats {
            condition,
            statements,
        })?;
        self.push(Frame::Does(statements))
    }

    /// The bounds of a `for` loop are known (5.5): there is a turn for each value from the first to the last.
    pub(crate) fn count(
        &mut self,
        parameter: VariableNo,
        statements: &'a [Stmt],
    ) -> Result<Turn, AllocError>
        ensures { let s = passed (state_of self.old) in
            let low = reads_integer (step.newest named (step.popped s)) in
            let high = reads_integer (step.newest named s) in
            Turns
            (step.ranges_next named parameter.0 (stmts_form statements.now) low high (step.popped (step.popped s)))
            (state_of self.old) result (state_of self.new) }
    {
        match (number(self.second()), number(self.newest())) {
            (Some(first), Some(last)) => {
                if first > last {
                    self.pass_operands();
                    Ok(QUIET)
                } else {
                    match statements.first() {
                        None => Ok(Turn::Halts(Halt::Stuck)),
                        Some(_) => {
                            self.pass_operands();
                            self.begin_count(parameter, first, last, statements)?;
                            Ok(QUIET)
                        }
                    }
                }
            }
            _ => Ok(Turn::Halts(Halt::Stuck)),
        }
    }

    /// The first of what is left to do is taken off, with the two newest operands.
    fn pass_operands(&mut self)
        ensures { state_of self.new ≡ step.popped (step.popped (passed (state_of self.old))) }
    {
        self.pass();
        self.pop();
        self.pop();
    }

    /// A `for` loop comes to its next turn (5.5): the parameter has had a value, and gets the next one, up to the last.
    pub(crate) fn count_on(
        &mut self,
        parameter: VariableNo,
        value: i32,
        last: i32,
        statements: &'a [Stmt],
    ) -> Result<Turn, AllocError>
        ensures { let s = state_of self.old in
            Turns
            (step.counts_next named parameter.0 (value +ℤ pos 1) last (stmts_form statements.now) (passed s))
            s result (state_of self.new) }
    {
        if value >= last {
            self.pass();
            Ok(QUIET)
        } else {
            match statements.first() {
                None => Ok(Turn::Halts(Halt::Stuck)),
                Some(_) => {
                    self.pass();
                    self.begin_count(parameter, value + 1, last, statements)?;
                    Ok(QUIET)
                }
            }
        }
    }

    /// A turn of a `for` loop begins (5.5): the parameter gets its value, the statements are done, and then the loop
    /// comes to its next turn.
    fn begin_count(
        &mut self,
        parameter: VariableNo,
        value: i32,
        last: i32,
        statements: &'a [Stmt],
    ) -> Result<(), AllocError>
        ensures { let s = state_of self.old in let form = stmts_form statements.now in
            let turns = frame.Counts parameter.0 (value +ℤ pos 1) last form in
            OnOk result
            (state_of self.new ≡ step.put parameter.0 (an_integer value) (pushed (frame.Does form) (pushed turns s))) }
    {
        self.push(Frame::Counts {
            parameter,
            value,
            last,
            statements,
        })?;
        self.push(Frame::Does(statements))?;
        self.put(parameter, Value::Scalar(Scalar::Integer(value)));
        Ok(())
    }

    /// An exit (5.7), at once or on a condition.
    pub(crate) fn exit(
        &mut self,
        condition: Option<&'a Expression>,
        rest: Frame<'a>,
    ) -> Result<Turn, AllocError>
        ensures { let s = state_of self.old in
            Turns
            (step.exit_next named (condition_form (option_copied condition.entry)) (replaced (frame_of rest.entry) s))
            s result (state_of self.new) }
    {
        match condition {
            None => {
                self.replace(rest)?;
                self.jump(Mode::Exiting);
                Ok(QUIET)
            }
            Some(condition) => {
                self.replace_by_three(Frame::Computes(condition), Frame::Exits, rest)?;
                Ok(QUIET)
            }
        }
    }

    /// The condition of an exit is known (5.7).
    pub(crate) fn exit_where_true(&mut self) -> Turn
        ensures { let s = passed (state_of self.old) in
            IsTurn (step.exited_next named (reads_boolean (step.newest named s)) (step.popped s))
            (state_of self.old) result (state_of self.new) }
    {
        match truth(self.newest()) {
            None => Turn::Halts(Halt::Stuck),
            Some(leaves) => {
                self.pass();
                self.pop();
                if leaves {
                    self.jump(Mode::Exiting);
                }
                QUIET
            }
        }
    }
}

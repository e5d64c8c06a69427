//! Turns of loops, one after another, as long as all of each is done at once.

ghost use Rattle.std.specs.Prelude.{◌≡◌, ◌-◌, ◌≤◌, true, ◌∷◌, IfOk, OnOk};
ghost use Rattle.std.specs.Option.{option_copied};
ghost use Rattle.ada_program.specs.Form.{stmts_form, condition_form};
ghost use Rattle.ada_meaning.specs.Frame as frame;
ghost use Rattle.ada_meaning.specs.Step as step;
ghost use Rattle.ada_interpreter.specs.declared.frame.Frame.TheVariants as held;
ghost use Rattle.ada_interpreter.specs.AtOnce.{HasStatement};
ghost use Rattle.ada_interpreter.specs.CommonSteps.{GoesQuietly, ComesToTurn, Runs, RunsBefore, TurnsFrames, CountsOn, counting};
ghost use Rattle.ada_interpreter.specs.Process.{state_of, pushed};

use crate::frame::Frame;
use crate::process::Process;
use crate::turn::{NextTurn, Run};
use ada_meaning::{Mode, Value};
use ada_program::program::Expression;
use ada_program::{Program, Stmt, VariableNo};
use ada_values::Value as Scalar;
use std::alloc::AllocError;

impl<'a> Process<'a> {
    /// A loop that is first of what is left to do comes to its next turn (5.5): what is known of that at once is done.
    pub(crate) fn turn_at_once(&mut self) -> NextTurn<'a>
        ensures steps { (program : Program) → (state_of self.old).mode ≡ Mode.Running →
            ComesToTurn program self.old result self.new }
        ensures mode { self.new.mode ≡ self.old.mode }
    {
        match self.frames.top() {
            Some(
                Frame::Repeats {
                    condition,
                    statements,
                },
            ) => {
                let condition = *condition;
                let statements = *statements;
                self.repeat_at_once(condition, statements)
            }
            Some(
                Frame::Counts {
                    parameter,
                    value,
                    last,
                    statements,
                },
            ) => {
                let parameter = *parameter;
                let value = *value;
                let last = *last;
                let statements = *statements;
                self.count_at_once(parameter, value, last, statements)
            }
            _ => NextTurn::Unknown,
        }
    }

    /// A loop comes to its next turn (5.5), whose condition may be known at once.
    #[inline(always)]
    fn repeat_at_once(
        &mut self,
        condition: Option<&'a Expression>,
        statements: &'a [Stmt],
    ) -> NextTurn<'a>
        requires { let s = state_of self.old in
            s.control ≡ frame.Repeats (condition_form (option_copied condition)) (stmts_form statements.now) ∷ step.older s.control }
        ensures steps { (program : Program) → (state_of self.old).mode ≡ Mode.Running →
            ComesToTurn program self.old result self.new }
        ensures some { HasStatement result }
        ensures mode { self.new.mode ≡ self.old.mode }
        ensures frames { TurnsFrames self.old.frames result self.new.frames }
    {
        if statements.is_empty() {
            return NextTurn::Unknown;
        }
        let Some(condition) = condition else {
            return NextTurn::Begins(statements);
        };
        match self.truth_at_once(condition) {
            Some(true) => NextTurn::Begins(statements),
            Some(false) => {
                self.frames.shorten();
                NextTurn::Ends
            }
            None => NextTurn::Unknown,
        }
    }

    /// A `for` loop comes to its next turn (5.5): the parameter has had a value, and gets the next one, up to the last.
    #[inline(always)]
    fn count_at_once(
        &mut self,
        parameter: VariableNo,
        value: i32,
        last: i32,
        statements: &'a [Stmt],
    ) -> NextTurn<'a>
        requires { self.old.frames
            ≡ held.Counts parameter value last statements ∷ step.older self.old.frames }
        ensures steps { (program : Program) → (state_of self.old).mode ≡ Mode.Running →
            ComesToTurn program self.old result self.new }
        ensures some { HasStatement result }
        ensures mode { self.new.mode ≡ self.old.mode }
        ensures frames { CountsOn value last self.old.frames result self.new.frames }
    {
        if value >= last {
            self.frames.shorten();
            return NextTurn::Ends;
        }
        if statements.is_empty() {
            return NextTurn::Unknown;
        }
        self.frames.set_count(value + 1);
        self.put(parameter, Value::Scalar(Scalar::Integer(value + 1)));
        NextTurn::Begins(statements)
    }

    /// Makes turns of the loop that is first of what is left to do, as long as all of each is done at once, and at most
    /// `limit` statements begin. Returns how many may still begin.
    pub(crate) fn make_turns(&mut self, limit: u32) -> Result<u32, AllocError>
        ensures steps { (program : Program) → self.old.mode ≡ Mode.Running →
            IfOk result (λ left. GoesQuietly program (state_of self.old) (limit - left) (state_of self.new)) }
        ensures left { IfOk result (λ left. left ≤ limit) }
    {
        match self.frames.top() {
            Some(
                Frame::Repeats {
                    condition,
                    statements,
                },
            ) => {
                let condition = *condition;
                let statements = *statements;
                let run = self.repeat_turns(condition, statements, limit)?;
                Ok(run.left)
            }
            Some(
                Frame::Counts {
                    parameter,
                    value,
                    last,
                    statements,
                },
            ) => {
                let parameter = *parameter;
                let value = *value;
                let last = *last;
                let statements = *statements;
                let run = self.count_turns(parameter, value, last, statements, limit)?;
                Ok(run.left)
            }
            _ => Ok(limit),
        }
    }

    /// Makes turns of a loop, as `make_turns` does. It is done where there is no further turn.
    #[cycle(run)]
    fn repeat_turns(
        &mut self,
        condition: Option<&'a Expression>,
        statements: &'a [Stmt],
        limit: u32,
    ) -> Result<Run, AllocError>
        requires { let s = state_of self.old in
            s.control ≡ frame.Repeats (condition_form (option_copied condition)) (stmts_form statements.now) ∷ step.older s.control }
        ensures steps { (program : Program) → self.old.mode ≡ Mode.Running →
            Runs program (state_of self.old) limit result (state_of self.new) }
        ensures left { IfOk result (λ run. run.left ≤ limit) }
        ensures frames { IfOk result
            (λ run. run.is_done ≡ true → self.new.frames ≡ step.older self.old.frames) }
        ensures mode { OnOk result (self.new.mode ≡ self.old.mode) }
    {
        let mut left = limit;
        'turns: loop {
            match self.repeat_at_once(condition, statements) {
                NextTurn::Begins(statements) => {
                    let run = self.run_through(statements, left)?;
                    if run.is_done {
                        left = run.left;
                    } else {
                        return Ok(run);
                    }
                }
                NextTurn::Ends => return Ok(Run {
                    is_done: true,
                    left,
                }),
                NextTurn::Unknown => return Ok(Run {
                    is_done: false,
                    left,
                }),
            }
        }
    }

    /// Makes turns of a `for` loop, as `make_turns` does. It is done where there is no further turn.
    #[cycle(run)]
    fn count_turns(
        &mut self,
        parameter: VariableNo,
        value: i32,
        last: i32,
        statements: &'a [Stmt],
        limit: u32,
    ) -> Result<Run, AllocError>
        requires { self.old.frames
            ≡ held.Counts parameter value last statements ∷ step.older self.old.frames }
        ensures steps { (program : Program) → self.old.mode ≡ Mode.Running →
            Runs program (state_of self.old) limit result (state_of self.new) }
        ensures left { IfOk result (λ run. run.left ≤ limit) }
        ensures frames { IfOk result
            (λ run. run.is_done ≡ true → self.new.frames ≡ step.older self.old.frames) }
        ensures mode { OnOk result (self.new.mode ≡ self.old.mode) }
    {
        let mut left = limit;
        let mut count = value;
        'turns: loop {
            match self.count_at_once(parameter, count, last, statements) {
                NextTurn::Begins(statements) => {
                    count += 1;
                    let run = self.run_through(statements, left)?;
                    if run.is_done {
                        left = run.left;
                    } else {
                        return Ok(run);
                    }
                }
                NextTurn::Ends => return Ok(Run {
                    is_done: true,
                    left,
                }),
                NextTurn::Unknown => return Ok(Run {
                    is_done: false,
                    left,
                }),
            }
        }
    }

    /// Makes the turns of a loop, in front of the statements behind it, as `run_through` does statements.
    #[cycle(run)]
    pub(crate) fn run_loop(
        &mut self,
        condition: Option<&'a Expression>,
        statements: &'a [Stmt],
        behind: &'a [Stmt],
        limit: u32,
    ) -> Result<Run, AllocError>
        ensures steps { let rest = stmts_form behind.now in
            let turns = frame.Repeats (condition_form (option_copied condition.entry)) (stmts_form statements.now) in
            let first = pushed turns (pushed (frame.Does rest) (state_of self.old)) in
            (program : Program) → self.old.mode ≡ Mode.Running →
            RunsBefore rest program first limit result (state_of self.new) }
        ensures left { IfOk result (λ run. run.left ≤ limit) }
        ensures frames { IfOk result (λ run. run.is_done ≡ true → self.new.frames ≡ self.old.frames) }
        ensures mode { OnOk result (self.new.mode ≡ self.old.mode) }
    {
        self.frames.push(Frame::Does(behind))?;
        self.frames.push(Frame::Repeats {
            condition,
            statements,
        })?;
        let run = self.repeat_turns(condition, statements, limit)?;
        if run.is_done {
            self.frames.shorten();
        }
        Ok(run)
    }

    /// Makes the turns of a `for` loop, in front of the statements behind it, as `run_through` does statements. The
    /// parameter gets its first value.
    #[cycle(run)]
    pub(crate) fn run_count(
        &mut self,
        parameter: VariableNo,
        first: i32,
        last: i32,
        statements: &'a [Stmt],
        behind: &'a [Stmt],
        limit: u32,
    ) -> Result<Run, AllocError>
        ensures steps { let rest = stmts_form behind.now in
            let turns = pushed (frame.Does rest) (state_of self.old) in
            let begun = counting parameter.0 first last (stmts_form statements.now) turns in
            (program : Program) → self.old.mode ≡ Mode.Running →
            RunsBefore rest program begun limit result (state_of self.new) }
        ensures left { IfOk result (λ run. run.left ≤ limit) }
        ensures frames { IfOk result (λ run. run.is_done ≡ true → self.new.frames ≡ self.old.frames) }
        ensures mode { OnOk result (self.new.mode ≡ self.old.mode) }
    {
        self.frames.push(Frame::Does(behind))?;
        self.frames.push(Frame::Counts {
            parameter,
            value: first,
            last,
            statements,
        })?;
        self.put(parameter, Value::Scalar(Scalar::Integer(first)));
        let begun = self.run_through(statements, limit)?;
        if !begun.is_done {
            return Ok(begun);
        }
        let run = self.count_turns(parameter, first, last, statements, begun.left)?;
        if run.is_done {
            self.frames.shorten();
        }
        Ok(run)
    }
}

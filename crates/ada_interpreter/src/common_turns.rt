//! Statements, and turns of loops, that are done at once, one after another.

ghost use Rattle.std.specs.Prelude.{◌≡◌, ◌+◌, ◌-◌, ◌≤◌, true, false, List, ◌∷◌, length, IfOk, OnOk, IfSome};
ghost use Rattle.std.specs.Option.{option_copied};
ghost use Rattle.ada_program.specs.Form.{stmt_form, stmts_form, expression_form, condition_form, branches_form};
ghost use Rattle.ada_program.specs.ProgramForm.{body_forms};
ghost use Rattle.ada_meaning.specs.declared.state.Value.{Value as ValueOf};
ghost use Rattle.ada_meaning.specs.Frame.{Frame as FrameOf};
ghost use Rattle.ada_meaning.specs.Frame as frame;
ghost use Rattle.ada_meaning.specs.Step as step;
ghost use Rattle.ada_meaning.specs.Named.{named};
ghost use Rattle.ada_interpreter.specs.CommonSteps.{GoesQuietly, GoesOn, GoesWithin, IsDone, Runs, RunsBefore, begun_with_inner};
ghost use Rattle.ada_interpreter.specs.Process.{state_of, pushed};

use crate::frame::Frame;
use crate::process::Process;
use crate::turn::{Inner, Run};
use ada_meaning::{Mode, Value};
use ada_program::program::{Branch, Expression};
use ada_program::{Program, Stmt, VariableNo};
use std::alloc::AllocError;

impl<'a> Process<'a> {
    /// Does a statement, if it is done at once: it is null, a variable gets a value that is known at once, or the condition
    /// of an exit is false (5.1, 5.2, 5.7).
    #[tactic(auto, using(std::proofs::lemmas::Grind::common_steps, ada_program::specs::Form::statement_rules))]
    #[inline(always)]
    fn do_at_once(&mut self, statement: &Stmt) -> bool
        ensures done { IsDone (stmt_form statement.now) self.old result self.new }
        ensures frames { self.new.frames ≡ self.old.frames }
        ensures mode { self.new.mode ≡ self.old.mode }
    {
        match statement {
            Stmt::Null => true,
            Stmt::Assign { target, value } if target.selectors.is_empty() => {
                match self.right_at_once(value) {
                    None => false,
                    Some(value) => {
                        self.put(target.root, Value::Scalar(value));
                        true
                    }
                }
            }
            Stmt::Exit { condition, spot: _ } if self.stays_at_once(condition.as_ref()) => true,
            _ => false,
        }
    }

    /// Is it known at once that an exit on a condition doesn't leave its loop (5.7)?
    fn stays_at_once(&self, condition: Option<&Expression>) -> bool
        ensures { (program : Program) (k : List (FrameOf ValueOf)) → result ≡ true → self.now.mode ≡ Mode.Running →
            GoesOn program
            (step.exit_next named (condition_form (option_copied condition.entry)) (step.at k (state_of self.now)))
            (step.at k (state_of self.now)) }
    {
        let Some(condition) = condition else {
            return false;
        };
        match self.truth_at_once(condition) {
            Some(false) => true,
            _ => false,
        }
    }

    /// Does statements from the first on, as long as they are done at once, and at most `limit` of them. Returns those that
    /// are left, and how many may still begin.
    #[inline(always)]
    fn run_at_once(&mut self, statements: &'a [Stmt], limit: u32) -> (&'a [Stmt], u32)
        ensures steps { (program : Program) (k : List (FrameOf ValueOf)) → self.old.mode ≡ Mode.Running →
            GoesQuietly program (step.at (frame.Does (stmts_form statements.now) ∷ k) (state_of self.old)) (limit - result.1)
            (step.at (frame.Does (stmts_form result.0.now) ∷ k) (state_of self.new)) }
        ensures left { result.1 ≤ limit }
        ensures counted { length statements.now + result.1 ≡ length result.0.now + limit }
        ensures unchanged { result.1 ≡ limit → self.new ≡ self.old }
        ensures rest { result.1 ≡ limit → result.0.now ≡ statements.now }
        ensures frames { self.new.frames ≡ self.old.frames }
        ensures mode { self.new.mode ≡ self.old.mode }
    {
        let mut rest = statements;
        let mut left = limit;
        'statements: while let Some((first, behind)) = rest.split_first() {
            if left == 0 || !self.do_at_once(first) {
                break 'statements;
            }
            left -= 1;
            rest = behind;
        }
        (rest, left)
    }

    /// Runs statements from the first on, those of branches that are taken at once, too, as long as all is done at once, and
    /// at most `limit` statements begin. What is left of them is then first of what is left to do.
    #[cycle(run)]
    #[inline(always)]
    pub(crate) fn run_through(
        &mut self,
        statements: &'a [Stmt],
        limit: u32,
    ) -> Result<Run, AllocError>
        ensures steps { let first = pushed (frame.Does (stmts_form statements.now)) (state_of self.old) in
            (program : Program) → self.old.mode ≡ Mode.Running →
            Runs program first limit result (state_of self.new) }
        ensures left { IfOk result (λ run. run.left ≤ limit) }
        ensures counted { IfOk result
            (λ run. run.is_done ≡ true → length statements.now + run.left ≤ limit) }
        ensures unchanged { let first = pushed (frame.Does (stmts_form statements.now)) (state_of self.old) in
            IfOk result
            (λ run. run.is_done ≡ false → run.left ≡ limit → state_of self.new ≡ first) }
        ensures frames { IfOk result (λ run. run.is_done ≡ true → self.new.frames ≡ self.old.frames) }
        ensures mode { OnOk result (self.new.mode ≡ self.old.mode) }
    {
        let (rest, left) = self.run_at_once(statements, limit);
        if rest.is_empty() {
            return Ok(Run {
                is_done: true,
                left,
            });
        }
        self.run_on(rest, left)
    }

    /// Runs statements as `run_through` does, where the first isn't done at once by itself.
    #[cycle(run)]
    fn run_on(&mut self, statements: &'a [Stmt], limit: u32) -> Result<Run, AllocError>
        ensures steps { let first = pushed (frame.Does (stmts_form statements.now)) (state_of self.old) in
            (program : Program) → self.old.mode ≡ Mode.Running →
            Runs program first limit result (state_of self.new) }
        ensures left { IfOk result (λ run. run.left ≤ limit) }
        ensures counted { IfOk result
            (λ run. run.is_done ≡ true → length statements.now + run.left ≤ limit) }
        ensures unchanged { let first = pushed (frame.Does (stmts_form statements.now)) (state_of self.old) in
            IfOk result
            (λ run. run.is_done ≡ false → run.left ≡ limit → state_of self.new ≡ first) }
        ensures frames { IfOk result (λ run. run.is_done ≡ true → self.new.frames ≡ self.old.frames) }
        ensures mode { OnOk result (self.new.mode ≡ self.old.mode) }
    {
        let mut rest = statements;
        let mut left = limit;
        'statements: while let Some((first, behind)) = rest.split_first() {
            if left == 0 {
                return self.stop_before(rest, left);
            }
            let Some(inner) = self.inner_at_once(first) else {
                return self.stop_before(rest, left);
            };
            let run = self.run_inner(inner, behind, left - 1)?;
            if run.is_done {
                let (after, now) = self.run_at_once(behind, run.left);
                rest = after;
                left = now;
            } else {
                return Ok(run);
            }
        }
        Ok(Run {
            is_done: true,
            left,
        })
    }

    /// Runs what a statement begins with, in front of the statements behind it, as `run_through` does.
    #[cycle(run)]
    #[inline(always)]
    fn run_inner(
        &mut self,
        inner: Inner<'a>,
        behind: &'a [Stmt],
        limit: u32,
    ) -> Result<Run, AllocError>
        ensures steps { let rest = stmts_form behind.now in
            let first = begun_with_inner inner.entry (pushed (frame.Does rest) (state_of self.old)) in
            (program : Program) → self.old.mode ≡ Mode.Running →
            RunsBefore rest program first limit result (state_of self.new) }
        ensures left { IfOk result (λ run. run.left ≤ limit) }
        ensures frames { IfOk result (λ run. run.is_done ≡ true → self.new.frames ≡ self.old.frames) }
        ensures mode { OnOk result (self.new.mode ≡ self.old.mode) }
    {
        match inner {
            Inner::Branch(statements) => self.run_branch(statements, behind, limit),
            Inner::Turns {
                condition,
                statements,
            } => self.run_loop(condition, statements, behind, limit),
            Inner::Counts {
                parameter,
                first,
                last,
                statements,
            } => self.run_count(parameter, first, last, statements, behind, limit),
        }
    }

    /// Runs the statements of a branch, in front of those behind its `if`, as `run_through` does.
    #[cycle(run)]
    fn run_branch(
        &mut self,
        statements: &'a [Stmt],
        behind: &'a [Stmt],
        limit: u32,
    ) -> Result<Run, AllocError>
        ensures steps { let rest = stmts_form behind.now in
            let branch = frame.Does (stmts_form statements.now) in
            let first = pushed branch (pushed (frame.Does rest) (state_of self.old)) in
            (program : Program) → self.old.mode ≡ Mode.Running →
            RunsBefore rest program first limit result (state_of self.new) }
        ensures left { IfOk result (λ run. run.left ≤ limit) }
        ensures frames { IfOk result (λ run. run.is_done ≡ true → self.new.frames ≡ self.old.frames) }
        ensures mode { OnOk result (self.new.mode ≡ self.old.mode) }
    {
        let (rest, left) = self.run_at_once(statements, limit);
        if rest.is_empty() {
            return Ok(Run {
                is_done: true,
                left,
            });
        }
        self.frames.push(Frame::Does(behind))?;
        let run = self.run_on(rest, left)?;
        if run.is_done {
            self.frames.shorten();
        }
        Ok(run)
    }

    /// Statements that are left are put in front of what is left to do.
    fn stop_before(&mut self, statements: &'a [Stmt], left: u32) -> Result<Run, AllocError>
        ensures stops { let last = pushed (frame.Does (stmts_form statements.now)) (state_of self.old) in
            IfOk result
            (λ run. (run ≡ record { is_done = false; left = left }) × (state_of self.new ≡ last)) }
        ensures mode { OnOk result (self.new.mode ≡ self.old.mode) }
    {
        self.push(Frame::Does(statements))?;
        Ok(Run {
            is_done: false,
            left,
        })
    }

    /// What a statement in which others stand begins with, where that is known at once: its branch, or the bounds of its
    /// loop (5.3, 5.5); none for any other statement.
    #[tactic(auto, using(std::proofs::lemmas::Grind::common_steps, ada_program::specs::Form::statement_rules))]
    #[inline(always)]
    fn inner_at_once(&self, statement: &'a Stmt) -> Option<Inner<'a>>
        ensures { (program : Program) (k : List (FrameOf ValueOf)) → self.now.mode ≡ Mode.Running →
            let s = step.at k (state_of self.now) in
            let coming = step.stmt_next named program.types.items (body_forms program) (stmt_form statement.now) s in
            IfSome result (λ inner. GoesOn program coming (begun_with_inner inner s)) }
    {
        match statement {
            Stmt::If {
                branches,
                otherwise,
            } => {
                let statements = self.chosen_at_once(branches.as_slice(), otherwise.as_slice())?;
                Some(Inner::Branch(statements))
            }
            Stmt::Loop {
                condition,
                statements,
                end: _,
            } => Some(Inner::Turns {
                condition: condition.as_ref(),
                statements: statements.as_slice(),
            }),
            Stmt::For {
                parameter,
                first,
                last,
                statements,
                end: _,
            } => self.counts_at_once(*parameter, first, last, statements.as_slice()),
            _ => None,
        }
    }

    /// The turns of a `for` loop, where both bounds are known at once, and there is one (5.5).
    fn counts_at_once(
        &self,
        parameter: VariableNo,
        first: &Expression,
        last: &Expression,
        statements: &'a [Stmt],
    ) -> Option<Inner<'a>>
        ensures { (program : Program) (k : List (FrameOf ValueOf)) → self.now.mode ≡ Mode.Running →
            let s = step.at k (state_of self.now) in
            let fs = stmts_form statements.now in
            let low = frame.Computes (expression_form first.now) in
            let high = frame.Computes (expression_form last.now) in
            let bounds = step.at (low ∷ high ∷ frame.Ranges parameter.0 fs ∷ k) s in
            IfSome result (λ inner. GoesWithin program bounds (begun_with_inner inner s)) }
    {
        let low = self.number_at_once(first)?;
        let high = self.number_at_once(last)?;
        if low > high || statements.is_empty() {
            return None;
        }
        Some(Inner::Counts {
            parameter,
            first: low,
            last: high,
            statements,
        })
    }

    /// The statements of the first branch whose condition is true, or the others, where the conditions are known at once
    /// (5.3).
    pub(crate) fn chosen_at_once(
        &self,
        branches: &'a [Branch],
        otherwise: &'a [Stmt],
    ) -> Option<&'a [Stmt]>
        ensures { (program : Program) (k : List (FrameOf ValueOf)) → self.now.mode ≡ Mode.Running →
            let s = step.at k (state_of self.now) in
            let coming = step.branches_next named (branches_form branches.now (stmts_form otherwise.now)) s in
            IfSome result
            (λ statements. GoesOn program coming (pushed (frame.Does (stmts_form statements.now)) s)) }
    {
        let mut left = branches;
        'branches: while let Some((first, rest)) = left.split_first() {
            if self.truth_at_once(&first.condition)? {
                return Some(first.statements.as_slice());
            }
            left = rest;
        }
        Some(otherwise)
    }
}

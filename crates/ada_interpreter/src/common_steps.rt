//! The steps that most of a run consists of: statements, loops and expressions that go on without anybody being told or
//! asked. Each is made with small answers, and copies no frame.

ghost use Rattle.std.specs.Prelude.{◌≡◌, ◌<◌, ◌≤◌, ◌-◌, List, [], ◌∷◌, length, IfOk, OnOk};
ghost use Rattle.ada_program.specs.declared.program.TypeDefinition.{TypeDefinition};
ghost use Rattle.ada_program.specs.ProgramForm.{BodyForm, body_forms};
ghost use Rattle.ada_program.specs.Form.{right_form, stmt_form, stmts_form};
ghost use Rattle.ada_meaning.specs.Frame as frame;
ghost use Rattle.ada_meaning.specs.Step as step;
ghost use Rattle.ada_meaning.specs.Named.{next, named};
ghost use Rattle.ada_interpreter.specs.CommonSteps.{MayMove, MayGoOn, CallsNone, MayBegin, GoesQuietly, statements_left};
ghost use Rattle.ada_interpreter.specs.Process.{state_of, passed, replaced};

use crate::frame::Frame;
use crate::process::Process;
use crate::turn::NextTurn;
use ada_meaning::Mode;
use ada_meaning::laws::steps_make_lighter;
use ada_program::program::Right;
use ada_program::{Path, Program, Stmt};
use std::alloc::AllocError;

impl<'a> Process<'a> {
    /// Makes common steps, up to a step of another kind, or up to one that would begin more statements than `limit`.
    /// Returns how many may still begin.
    pub(crate) fn make_common_steps(
        &mut self,
        program: &Program,
        limit: u32,
    ) -> Result<u32, AllocError>
        ensures steps { IfOk result
            (λ left. GoesQuietly program.now (state_of self.old) (limit - left) (state_of self.new)) }
        ensures left { IfOk result (λ left. left ≤ limit) }
    {
        steps_make_lighter();
        let mut left = limit;
        'statements: loop {
            'steps: while !self.begins() {
                if !self.make_common_step()? {
                    return Ok(left);
                }
            }
            if left == 0 {
                return Ok(left);
            }
            match self.begin_common_statements(left)? {
                None => return Ok(left),
                Some(now) => left = now,
            }
        }
    }

    /// Makes the next step, if it is a common one that begins no statement; else nothing changes.
    #[tactic(auto, unfolding(ada_meaning::specs::Named::next))]
    fn make_common_step(&mut self) -> Result<bool, AllocError>
        ensures steps { (program : Program) →
            MayGoOn program (next program.types.items (body_forms program) (state_of self.old)) self.old result self.new }
        ensures calls { (program : Program) → CallsNone program self.old result }
    {
        match self.mode {
            Mode::Running => self.go_on_commonly(),
            _ => Ok(false),
        }
    }

    /// Begins the next statement, if it is a common one, and those behind it that are done at once, at most `limit` in all.
    /// Returns how many may still begin; none where nothing changes.
    fn begin_common_statements(&mut self, limit: u32) -> Result<Option<u32>, AllocError>
        requires some { 0 < limit }
        ensures { (program : Program) → MayBegin program limit (state_of self.old) result (state_of self.new) }
    {
        match self.mode {
            Mode::Running => self.begin_commonly(limit),
            _ => Ok(None),
        }
    }

    /// Begins the statements that are first of what is left to do.
    fn begin_commonly(&mut self, limit: u32) -> Result<Option<u32>, AllocError>
        requires some { 0 < limit }
        ensures { (program : Program) → (state_of self.old).mode ≡ Mode.Running →
            MayBegin program limit (state_of self.old) result (state_of self.new) }
    {
        match self.frames.top() {
            Some(Frame::Does(statements)) => {
                let statements = *statements;
                if statements.is_empty() {
                    return Ok(None);
                }
                self.do_next(statements, limit)
            }
            _ => Ok(None),
        }
    }

    /// Makes the step of the first of what is left to do. Where a condition is known at once, what it decides is done, too.
    fn go_on_commonly(&mut self) -> Result<bool, AllocError>
        ensures steps { let s = state_of self.old in (program : Program) → s.mode ≡ Mode.Running →
            MayGoOn program (step.running_next named program.types.items (body_forms program) s.control s)
            self.old result self.new }
        ensures calls { (program : Program) → (state_of self.old).mode ≡ Mode.Running → CallsNone program self.old result }
    {
        match self.turn_at_once() {
            NextTurn::Begins(statements) => {
                self.push(Frame::Does(statements))?;
                Ok(true)
            }
            NextTurn::Ends => Ok(true),
            NextTurn::Unknown => self.decide_or_go_on(),
        }
    }

    /// Makes the step of the first of what is left to do, where that is no turn of a loop that is known at once.
    #[tactic(auto, using(crate::proofs::CommonStepLemmas::calls_none))]
    fn decide_or_go_on(&mut self) -> Result<bool, AllocError>
        ensures steps { let s = state_of self.old in (program : Program) → s.mode ≡ Mode.Running →
            MayGoOn program (step.running_next named program.types.items (body_forms program) s.control s)
            self.old result self.new }
        ensures calls { (program : Program) → CallsNone program self.old result }
    {
        match self.frames.top() {
            Some(
                Frame::Decides {
                    statements,
                    branches,
                    otherwise,
                },
            ) => {
                let statements = *statements;
                let branches = *branches;
                let otherwise = *otherwise;
                self.decide_next(statements, branches, otherwise)
            }
            _ => self.go_on_by_one(),
        }
    }

    /// Makes the step of the first of what is left to do.
    #[tactic(auto, using(crate::proofs::CommonStepLemmas::calls_none))]
    fn go_on_by_one(&mut self) -> Result<bool, AllocError>
        ensures steps { let s = state_of self.old in (types : List TypeDefinition) (bodies : List BodyForm) →
            MayMove (step.running_next named types bodies s.control s) self.old result self.new }
        ensures calls { (program : Program) → CallsNone program self.old result }
    {
        match self.frames.top() {
            None => Ok(false),
            Some(frame) => match frame {
                Frame::Does(statements) => {
                    let statements = *statements;
                    self.pass_done(statements)
                }
                Frame::Computes(expression) => {
                    let expression = *expression;
                    self.compute_next(expression)
                }
                Frame::Reads(path) | Frame::Names(path) => {
                    let path = *path;
                    self.read_next(path)
                }
                Frame::Continues(links) => {
                    let links = *links;
                    self.go_on(links)?;
                    Ok(true)
                }
                Frame::Applies(operator) => {
                    let operator = *operator;
                    self.apply_next(operator)
                }
                Frame::Evaluates(right) => {
                    let right = *right;
                    self.evaluate_next(right)
                }
                Frame::Stores(variable) => {
                    let variable = *variable;
                    self.put_newest(variable);
                    Ok(true)
                }
                Frame::Repeats {
                    condition: Some(condition),
                    statements,
                } => {
                    let condition = *condition;
                    let statements = *statements;
                    self.repeat_next(condition, statements)
                }
                Frame::Turns {
                    condition,
                    statements,
                } => {
                    let condition = *condition;
                    let statements = *statements;
                    self.turn_next(condition, statements)
                }
                _ => Ok(false),
            },
        }
    }

    /// The statements that are left, where none is (5.1).
    fn pass_done(&mut self, statements: &'a [Stmt]) -> Result<bool, AllocError>
        ensures { let s = state_of self.old in (types : List TypeDefinition) (bodies : List BodyForm) →
            MayMove (step.stmts_next named types bodies (stmts_form statements.now) (passed s)) self.old result self.new }
    {
        match statements.first() {
            None => {
                self.pass();
                Ok(true)
            }
            Some(_) => Ok(false),
        }
    }

    /// The statements that are left (5.1): those that are done at once, or else the first of them.
    fn do_next(&mut self, statements: &'a [Stmt], limit: u32) -> Result<Option<u32>, AllocError>
        requires some { 0 < limit }
        requires statements { 0 < length statements.now }
        requires top { let s = state_of self.old in
            s.control ≡ frame.Does (stmts_form statements.now) ∷ step.older s.control }
        ensures { (program : Program) → (state_of self.old).mode ≡ Mode.Running →
            MayBegin program limit (state_of self.old) result (state_of self.new) }
    {
        self.pass();
        let run = self.run_through(statements, limit)?;
        if run.is_done {
            return Ok(Some(self.make_turns(run.left)?));
        }
        if run.left < limit {
            return Ok(Some(run.left));
        }
        self.begin_first(statements, limit)
    }

    /// The first of the statements that are left (5.1).
    fn begin_first(&mut self, statements: &'a [Stmt], limit: u32) -> Result<Option<u32>, AllocError>
        requires some { 0 < limit }
        requires top { let s = state_of self.old in
            s.control ≡ frame.Does (stmts_form statements.now) ∷ step.older s.control }
        ensures { (program : Program) → (state_of self.old).mode ≡ Mode.Running →
            MayBegin program limit (state_of self.old) result (state_of self.new) }
    {
        match statements.split_first() {
            None => Ok(None),
            Some((first, rest)) => {
                if self.execute_next(first, rest)? {
                    Ok(Some(limit - 1))
                } else {
                    Ok(None)
                }
            }
        }
    }

    /// A statement, in front of the others (5.1).
    #[tactic(auto, using(std::proofs::lemmas::Grind::common_steps, ada_program::specs::Form::statement_rules))]
    fn execute_next(&mut self, statement: &'a Stmt, rest: &'a [Stmt]) -> Result<bool, AllocError>
        ensures { let s = replaced (frame.Does (stmts_form rest.now)) (state_of self.old) in
            (program : Program) → s.mode ≡ Mode.Running →
            MayGoOn program (step.stmt_next named program.types.items (body_forms program) (stmt_form statement.now) s)
            self.old result self.new }
    {
        match statement {
            Stmt::Assign { target, value } if target.selectors.is_empty() => {
                self.assign_next(target, value, rest)
            }
            Stmt::If {
                branches,
                otherwise,
            } => {
                self.replace(Frame::Does(rest))?;
                self.choose(branches.as_slice(), otherwise.as_slice())?;
                Ok(true)
            }
            Stmt::Loop {
                condition,
                statements,
                end: _,
            } => {
                self.replace_by_two(
                    Frame::Repeats {
                        condition: condition.as_ref(),
                        statements: statements.as_slice(),
                    },
                    Frame::Does(rest),
                )?;
                Ok(true)
            }
            Stmt::Exit { condition, spot: _ } => self.exit_at_once(condition.as_ref(), rest),
            _ => Ok(false),
        }
    }

    /// A variable is assigned (5.2).
    fn assign_next(
        &mut self,
        target: &'a Path,
        value: &'a Right,
        rest: &'a [Stmt],
    ) -> Result<bool, AllocError>
        requires { target.now.selectors.items ≡ [] }
        ensures { let s = replaced (frame.Does (stmts_form rest.now)) (state_of self.old) in
            (program : Program) →
            MayGoOn program (step.assign_next named [] target.now.root.0 (right_form value.now) s)
            self.old result self.new }
    {
        self.replace_by_three(
            Frame::Evaluates(Some(value)),
            Frame::Stores(target.root),
            Frame::Does(rest),
        )?;
        Ok(true)
    }

    /// The statements behind one that is done are left to do (5.1): nothing, where there are none.
    pub(crate) fn go_behind_statement(&mut self, rest: &'a [Stmt]) -> Result<(), AllocError>
        ensures { let s = state_of self.old in
            OnOk result
            (state_of self.new ≡ step.at (statements_left (stmts_form rest.now) (step.older s.control)) s) }
    {
        if rest.is_empty() {
            self.pass();
            Ok(())
        } else {
            self.replace(Frame::Does(rest))
        }
    }
}

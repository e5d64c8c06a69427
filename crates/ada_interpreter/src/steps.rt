//! Declarations and statements.

ghost use Rattle.std.specs.Prelude.{◌≡◌, map};
ghost use Rattle.ada_program.specs.Form.{stmt_form, stmts_form, handlers_form, declaration_form};
ghost use Rattle.ada_program.specs.ProgramForm.{body_forms};
ghost use Rattle.ada_meaning.specs.Frame as frame;
ghost use Rattle.ada_meaning.specs.Event.{Quiet};
ghost use Rattle.ada_meaning.specs.Step as step;
ghost use Rattle.ada_meaning.specs.Named.{named, reads_integer};
ghost use Rattle.ada_interpreter.specs.Process.{frame_of, state_of, passed, replaced, pushed, Turns, IsTurn};

use crate::frame::Frame;
use crate::loaded::Loaded;
use crate::process::Process;
use crate::turn::{QUIET, Turn};
use ada_meaning::{Event, Halt, Line, Mode, Value};
use ada_program::program::{Declaration, Handler};
use ada_program::{Program, Stmt};
use ada_values::Value as Scalar;
use std::alloc::AllocError;

impl<'a> Process<'a> {
    /// The declarations that are left (3.11). Then the statements come, with their handlers.
    pub(crate) fn elaborate(
        &mut self,
        loaded: &Loaded<'a>,
        declarations: &'a [Declaration],
        statements: &'a [Stmt],
        handlers: &'a [Handler],
    ) -> Result<Turn, AllocError>
        ensures { let s = state_of self.old in let hs = handlers_form handlers.now in
            Turns
            (step.declarations_next named loaded.now.program.now.types.items (map declaration_form declarations.now) (stmts_form statements.now) hs (passed s))
            s result (state_of self.new) }
    {
        match declarations.split_first() {
            None => {
                self.replace_by_three(
                    Frame::Does(statements),
                    Frame::Handles(handlers),
                    Frame::Closes,
                )?;
                Ok(QUIET)
            }
            Some((first, rest)) => self.declare(
                loaded,
                first,
                Frame::Elaborates {
                    declarations: rest,
                    statements,
                    handlers,
                },
            ),
        }
    }

    /// A declaration (3.11): a pool, or a collection, is created; a variable is created once its initial value is known; a
    /// record object is created, once the items of its initial value are known where they are written.
    fn declare(
        &mut self,
        loaded: &Loaded<'a>,
        declaration: &'a Declaration,
        rest: Frame<'a>,
    ) -> Result<Turn, AllocError>
        ensures { let s = state_of self.old in
            Turns
            (step.declaration_next named loaded.now.program.now.types.items (declaration_form declaration.now) (replaced (frame_of rest.entry) s))
            s result (state_of self.new) }
    {
        match declaration {
            Declaration::Pool(declaration) => self.begin_pool(*declaration, rest),
            Declaration::Collection(access) => self.collect(loaded.program, *access, rest),
            Declaration::Variable { variable, initial } => {
                self.replace_by_three(
                    Frame::Evaluates(initial.as_ref()),
                    Frame::Declares(*variable),
                    rest,
                )?;
                Ok(QUIET)
            }
            Declaration::Record {
                variable,
                object,
                initial: None,
            } => {
                self.replace(rest)?;
                self.make_initial(loaded, *variable, *object)?;
                Ok(QUIET)
            }
            Declaration::Record {
                variable,
                object,
                initial: Some(items),
            } => {
                self.replace_by_three(
                    Frame::Fills(items.as_slice()),
                    Frame::DeclaresRecord {
                        variable: *variable,
                        object: *object,
                    },
                    rest,
                )?;
                Ok(QUIET)
            }
        }
    }

    /// The statements that are left (5.1).
    pub(crate) fn begin(
        &mut self,
        loaded: &Loaded<'a>,
        statements: &'a [Stmt],
    ) -> Result<Turn, AllocError>
        ensures { let s = state_of self.old in
            Turns (step.stmts_next named loaded.now.program.now.types.items (body_forms loaded.now.program.now) (stmts_form statements.now) (passed s))
            s result (state_of self.new) }
    {
        match statements.split_first() {
            None => {
                self.pass();
                Ok(QUIET)
            }
            Some((first, rest)) => self.execute(loaded, first, Frame::Does(rest)),
        }
    }

    /// A statement (5.1).
    #[tactic(auto, using(std::proofs::lemmas::Grind::common_steps, ada_program::specs::Form::statement_rules))]
    fn execute(
        &mut self,
        loaded: &Loaded<'a>,
        statement: &'a Stmt,
        rest: Frame<'a>,
    ) -> Result<Turn, AllocError>
        ensures { let s = state_of self.old in
            Turns
            (step.stmt_next named loaded.now.program.now.types.items (body_forms loaded.now.program.now) (stmt_form statement.now) (replaced (frame_of rest.entry) s))
            s result (state_of self.new) }
    {
        match statement {
            Stmt::Null => {
                self.replace(rest)?;
                Ok(QUIET)
            }
            Stmt::Assign { target, value } => self.assign(target, value, rest),
            Stmt::AssignRecord { target, items } => {
                self.assign_record(loaded.program, target, items.as_slice(), rest)
            }
            Stmt::Free { access, path } => self.free(loaded, *access, path, rest),
            Stmt::Get(target) => self.get(target, rest),
            Stmt::PutImage(expression) => {
                self.replace_by_three(Frame::Computes(expression), Frame::Writes, rest)?;
                Ok(QUIET)
            }
            Stmt::PutText(text) => {
                self.replace(rest)?;
                Ok(Turn::Moves(Event::Line(Line::Literal(*text))))
            }
            Stmt::If {
                branches,
                otherwise,
            } => {
                self.replace(rest)?;
                self.choose(branches.as_slice(), otherwise.as_slice())?;
                Ok(QUIET)
            }
            Stmt::Loop {
                condition,
                statements,
                end: _,
            } => {
                self.replace_by_two(
                    Frame::Repeats {
                        condition: condition.as_ref(),
                        statements: statements.as_slice(),
                    },
                    rest,
                )?;
                Ok(QUIET)
            }
            Stmt::For {
                parameter,
                first,
                last,
                statements,
                end: _,
            } => {
                self.replace_by_four(
                    Frame::Computes(first),
                    Frame::Computes(last),
                    Frame::Ranges {
                        parameter: *parameter,
                        statements: statements.as_slice(),
                    },
                    rest,
                )?;
                Ok(QUIET)
            }
            Stmt::Exit { condition, spot: _ } => self.exit(condition.as_ref(), rest),
            Stmt::Call { procedure, actuals } => {
                self.call(loaded.program, *procedure, actuals.as_slice(), rest)
            }
            Stmt::Return(_) => {
                self.replace(rest)?;
                self.jump(Mode::Returning);
                Ok(QUIET)
            }
            Stmt::Raise(exception) => {
                self.replace(rest)?;
                self.raise(*exception);
                Ok(QUIET)
            }
            Stmt::Block {
                declarations,
                statements,
                handlers,
            } => self.enclose(
                declarations.as_slice(),
                statements.as_slice(),
                handlers.as_slice(),
                rest,
            ),
        }
    }

    /// A block (5.6): a master is entered, and its declarations are elaborated. Its handlers don't cover these (11.4).
    fn enclose(
        &mut self,
        declarations: &'a [Declaration],
        statements: &'a [Stmt],
        handlers: &'a [Handler],
        rest: Frame<'a>,
    ) -> Result<Turn, AllocError>
        ensures { let s = replaced (frame_of rest.entry) (state_of self.old) in
            let hs = handlers_form handlers.now in
            let block = frame.Elaborates (map declaration_form declarations.now) (stmts_form statements.now) hs in
            Turns (step.moves Quiet (step.entered (pushed block s))) (state_of self.old) result (state_of self.new) }
    {
        self.replace(rest)?;
        self.push(Frame::Elaborates {
            declarations,
            statements,
            handlers,
        })?;
        self.enter()?;
        Ok(QUIET)
    }

    /// The line of an Integer (3.5).
    pub(crate) fn write(&mut self) -> Turn
        ensures { let s = state_of self.old in
            IsTurn
            (step.line_next named (reads_integer (step.newest named (passed s))) (step.popped (passed s)))
            s result (state_of self.new) }
    {
        match self.newest() {
            Value::Scalar(Scalar::Integer(value)) => {
                self.pass();
                self.pop();
                Turn::Moves(Event::Line(Line::Image(value)))
            }
            _ => Turn::Halts(Halt::Stuck),
        }
    }

    /// The statements of the innermost master are done: it is left (7.6.1).
    pub(crate) fn close(&mut self) -> Result<Turn, AllocError>
        ensures { let s = state_of self.old in
            Turns (step.moves Quiet (replaced (frame.Leaves Mode.Running) s))
            s result (state_of self.new) }
    {
        self.replace(Frame::Leaves(Mode::Running))?;
        Ok(QUIET)
    }
}

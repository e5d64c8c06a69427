//! What is assigned, and the variable that gets it.

ghost use Rattle.std.specs.Prelude.{◌≡◌};
ghost use Rattle.std.specs.Option.{option_copied};
ghost use Rattle.ada_program.specs.Form.{initial_form, right_form};
ghost use Rattle.ada_meaning.specs.Event.{Quiet};
ghost use Rattle.ada_meaning.specs.State.{declared};
ghost use Rattle.ada_meaning.specs.Step as step;
ghost use Rattle.ada_meaning.specs.Named.{named};
ghost use Rattle.ada_interpreter.specs.Process.{state_of, passed, Turns, IsTurn};

use crate::frame::Frame;
use crate::masters::Owned;
use crate::process::Process;
use crate::turn::{QUIET, Turn};
use ada_meaning::Value;
use ada_program::program::Right;
use ada_program::{Program, VariableNo};
use std::alloc::AllocError;

impl<'a> Process<'a> {
    /// What is assigned is evaluated (4.1, 4.8); null where nothing is written.
    pub(crate) fn evaluate(
        &mut self,
        program: &Program,
        right: Option<&'a Right>,
    ) -> Result<Turn, AllocError>
        ensures { let s = state_of self.old in let form = initial_form (option_copied right.entry) in
            Turns (step.right_next named program.now.types.items form (passed s))
            s result (state_of self.new) }
    {
        match right {
            None => {
                self.give(Value::Null)?;
                Ok(QUIET)
            }
            Some(right) => self.value(program, right),
        }
    }

    /// A right side is evaluated (4.1, 4.8): the items of an allocator before its object is asked for.
    fn value(&mut self, program: &Program, right: &'a Right) -> Result<Turn, AllocError>
        ensures { let s = state_of self.old in
            Turns (step.right_next named program.now.types.items (right_form right.now) (passed s))
            s result (state_of self.new) }
    {
        match right {
            Right::Null => {
                self.give(Value::Null)?;
                Ok(QUIET)
            }
            Right::Path(path) => self.read(path),
            Right::Allocator { access, items } => {
                self.replace_by_two(
                    Frame::Fills(items.as_slice()),
                    Frame::Creates {
                        access: *access,
                        count: program.words(*access),
                    },
                )?;
                Ok(QUIET)
            }
            Right::Default(access) => self.initialize(program, *access),
            Right::Value(expression) => {
                self.replace(Frame::Computes(expression))?;
                Ok(QUIET)
            }
        }
    }

    /// The newest operand goes to a variable (5.2).
    pub(crate) fn store(&mut self, variable: VariableNo) -> Turn
        ensures { let s = passed (state_of self.old) in
            IsTurn (step.moves Quiet (step.put variable.0 (step.newest named s) (step.popped s)))
            (state_of self.old) result (state_of self.new) }
    {
        self.put_newest(variable);
        QUIET
    }

    /// The newest operand goes to a variable, and what was to do that is taken off.
    pub(crate) fn put_newest(&mut self, variable: VariableNo)
        ensures { let s = passed (state_of self.old) in
            state_of self.new ≡ step.put variable.0 (step.newest named s) (step.popped s) }
    {
        let value = self.newest();
        self.pass();
        self.pop();
        self.put(variable, value);
    }

    /// A variable is created, with the newest operand for its value (3.3.1).
    pub(crate) fn create(&mut self, variable: VariableNo) -> Result<Turn, AllocError>
        ensures { let s = passed (state_of self.old) in
            Turns
            (step.moves Quiet (step.owned (declared variable.0) (step.put variable.0 (step.newest named s) (step.popped s))))
            (state_of self.old) result (state_of self.new) }
    {
        self.put_newest(variable);
        self.masters.own(Owned::Declared(variable))?;
        Ok(QUIET)
    }
}

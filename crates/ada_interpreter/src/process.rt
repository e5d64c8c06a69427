//! A run in progress: what is left to do, what is computed, and what variables hold.

ghost use Rattle.std.specs.Prelude.{◌≡◌, IfOk, OnOk};
ghost use Rattle.ada_meaning.specs.State.{begins};
ghost use Rattle.ada_meaning.specs.Step.{jumping, raised, computed, popped, put, entered, newest, held};
ghost use Rattle.ada_meaning.specs.Named.{named};
ghost use Rattle.ada_meaning.specs.Run.{first_state};
ghost use Rattle.ada_untouched.specs.Past.{forgetting};
ghost use Rattle.ada_interpreter.specs.Process.{frame_of, state_of, passed, replaced, pushed};

use crate::activations::Activations;
use crate::frame::Frame;
use crate::input::Input;
use crate::masters::Masters;
use crate::objects::Objects;
use crate::stack::Stack;
use ada_meaning::{Exception, Id, Mode, Value};
use ada_program::{Program, VariableNo};
use std::alloc::{AllocError, Global};

/// The state of a run of a program.
#[derive(Drop)]
pub(crate) struct Process<'a> {
    /// What is left to do, the innermost first.
    pub(crate) frames: Stack<Frame<'a>>,
    /// What variables hold, and what pending forms have computed.
    pub(crate) activations: Activations,
    pub(crate) objects: Objects,
    pub(crate) masters: Masters,
    pub(crate) mode: Mode,
    pub(crate) input: Input,
    /// The next number of a master or a cause.
    pub(crate) next: u64,
    /// How many objects have been allocated. Declared ones are not counted.
    pub(crate) allocated: u64,
    /// How many controlled values have been born.
    pub(crate) born: u64,
}

impl<'a> Process<'a> {
    /// The first state (10.2): the main procedure is entered, and all of it is left to do.
    pub(crate) fn new(
        alloc: Global,
        program: &'a Program,
        input: Vec<i32>,
    ) -> Result<Process<'a>, AllocError>
        ensures { IfOk result (λ p. state_of p ≡ first_state program.now input.items) }
    {
        let mut frames = Stack::new(alloc);
        frames.push(Frame::Elaborates {
            declarations: program.declarations.as_slice(),
            statements: program.statements.as_slice(),
            handlers: program.handlers.as_slice(),
        })?;
        Ok(Process {
            frames,
            activations: Activations::new(alloc, program.variables.as_slice())?,
            objects: Objects::new(alloc),
            masters: Masters::new(alloc)?,
            mode: Mode::Running,
            input: Input::new(input),
            next: 1,
            allocated: 0,
            born: 0,
        })
    }

    /// Does the next step begin a statement?
    pub(crate) fn begins(&self) -> bool
        ensures { result ≡ begins (state_of self.now) }
    {
        match self.mode {
            Mode::Running => match self.frames.top() {
                Some(frame) => frame.begins(),
                None => false,
            },
            Mode::Raising(_) | Mode::Exiting | Mode::Returning => false,
        }
    }

    /// The first of what is left to do is taken off.
    pub(crate) fn pass(&mut self)
        ensures { state_of self.new ≡ passed (state_of self.old) }
    {
        self.frames.shorten();
    }

    /// One more thing is left to do.
    pub(crate) fn push(&mut self, frame: Frame<'a>) -> Result<(), AllocError>
        ensures { OnOk result
            (state_of self.new ≡ pushed (frame_of frame.entry) (state_of self.old)) }
    {
        self.frames.push(frame)
    }

    /// Another thing is left to do in place of the first.
    pub(crate) fn replace(&mut self, frame: Frame<'a>) -> Result<(), AllocError>
        ensures { OnOk result
            (state_of self.new ≡ replaced (frame_of frame.entry) (state_of self.old)) }
    {
        self.frames.replace(frame)
    }

    /// Two things are left to do in place of the first.
    pub(crate) fn replace_by_two(
        &mut self,
        inner: Frame<'a>,
        outer: Frame<'a>,
    ) -> Result<(), AllocError>
        ensures { OnOk result
            (state_of self.new ≡
            pushed (frame_of inner.entry) (replaced (frame_of outer.entry) (state_of self.old))) }
    {
        self.replace(outer)?;
        self.push(inner)
    }

    /// Three things are left to do in place of the first.
    pub(crate) fn replace_by_three(
        &mut self,
        inner: Frame<'a>,
        middle: Frame<'a>,
        outer: Frame<'a>,
    ) -> Result<(), AllocError>
        ensures { let s = replaced (frame_of outer.entry) (state_of self.old) in
            OnOk result
            (state_of self.new ≡ pushed (frame_of inner.entry) (pushed (frame_of middle.entry) s)) }
    {
        self.replace(outer)?;
        self.push(middle)?;
        self.push(inner)
    }

    /// Four things are left to do in place of the first.
    pub(crate) fn replace_by_four(
        &mut self,
        inner: Frame<'a>,
        second: Frame<'a>,
        third: Frame<'a>,
        outer: Frame<'a>,
    ) -> Result<(), AllocError>
        ensures { let s = replaced (frame_of outer.entry) (state_of self.old) in
            OnOk result
            (state_of self.new ≡
            pushed (frame_of inner.entry) (pushed (frame_of second.entry) (pushed (frame_of third.entry) s))) }
    {
        self.replace(outer)?;
        self.push(third)?;
        self.push(second)?;
        self.push(inner)
    }

    /// A jump begins (5.7, 6.5, 11.3), and what pending forms have computed is dropped.
    pub(crate) fn jump(&mut self, mode: Mode)
        ensures { state_of self.new ≡ jumping mode (state_of self.old) }
    {
        self.activations.drop_operands();
        self.mode = mode;
    }

    /// An exception is raised (11.3).
    pub(crate) fn raise(&mut self, exception: Exception)
        ensures { state_of self.new ≡ raised exception (state_of self.old) }
    {
        self.jump(Mode::Raising(exception));
    }

    /// A master is entered (7.6.1), with a number that no other has.
    pub(crate) fn enter(&mut self) -> Result<(), AllocError>
        ensures { OnOk result (state_of self.new ≡ entered (state_of self.old)) }
    {
        let number = self.next;
        let Some(next) = number.checked_add(1) else {
            return Err(AllocError);
        };
        self.masters.enter(number)?;
        self.next = next;
        Ok(())
    }

    /// A value is kept for the form that waits for it.
    pub(crate) fn keep(&mut self, value: Value) -> Result<(), AllocError>
        ensures { OnOk result (state_of self.new ≡ computed value (state_of self.old)) }
    {
        self.activations.push(value)
    }

    /// The first of what is left to do gives a value.
    pub(crate) fn give(&mut self, value: Value) -> Result<(), AllocError>
        ensures { OnOk result (state_of self.new ≡ computed value (passed (state_of self.old))) }
    {
        self.pass();
        self.keep(value)
    }

    /// The newest operand; null, if there is none.
    pub(crate) fn newest(&self) -> Value
        ensures { result ≡ newest named (state_of self.now) }
    {
        self.activations.newest()
    }

    /// The operand before the newest; null, if there is none.
    pub(crate) fn second(&self) -> Value
        ensures { result ≡ newest named (popped (state_of self.now)) }
    {
        self.activations.second()
    }

    /// The newest operand is taken away.
    pub(crate) fn pop(&mut self)
        ensures { state_of self.new ≡ popped (state_of self.old) }
    {
        self.activations.pop();
    }

    /// What a variable holds.
    pub(crate) fn held(&self, variable: VariableNo) -> Value
        ensures { result ≡ held named (state_of self.now) variable.0 }
    {
        self.activations.held(variable)
    }

    /// Nothing more is remembered of the object of a name, if it is past.
    pub(crate) fn forget(&mut self, object: Id)
        ensures { state_of self.new ≡ forgetting object (state_of self.old) }
    {
        self.objects.forget(object);
    }

    /// A variable gets a value (5.2).
    pub(crate) fn put(&mut self, variable: VariableNo, value: Value)
        ensures state { state_of self.new ≡ put variable.0 value (state_of self.old) }
        ensures frames { self.new.frames ≡ self.old.frames }
    {
        self.activations.put(variable, value);
    }
}

//! The machine: a run in progress, and who answers what it leaves open.

ghost use Rattle.std.specs.Prelude.{◌≡◌, ◌⊎◌, ◌≤◌, ◌-◌, false, Some, None, Ok, Err, IfOk, IfErr, OnOk, OnErr, IfSome};
ghost use Rattle.std.specs.Option.{option_copied};
ghost use Rattle.ada_program.specs.Controlled.{type_numbered};
ghost use Rattle.ada_meaning.specs.declared.event.Halt.TheVariants.{Memory};
ghost use Rattle.ada_meaning.specs.State.{begins};
ghost use Rattle.ada_meaning.specs.Run.{first_state};
ghost use Rattle.ada_interpreter.specs.CommonSteps.{GoesQuietly};
ghost use Rattle.ada_interpreter.specs.Process.{shown};
ghost use Rattle.ada_untouched.specs.Past.{forgetting};
ghost use Rattle.ada_interpreter.specs.Machine.{state_in, program_of, choices_of, halt_of, MakesStep, EndsRun, Settles, EndsTurn};

use crate::choices::Choices;
use crate::loaded::Loaded;
use crate::process::Process;
use crate::turn::{Allocation, Leaving, Open, Turn};
use ada_meaning::{Event, Halt, Id, Request};
use ada_program::program::TypeDefinition;
use ada_program::{Program, RecordNo};
use std::alloc::{AllocError, Global};

/// A machine that runs a program, step by step.
#[derive(Drop)]
pub struct Machine<'a, C: Choices + Drop> {
    loaded: Loaded<'a>,
    process: Process<'a>,
    choices: C,
    /// How the run has ended, if it has.
    halted: Option<Halt>,
}

impl<'a, C: Choices + Drop> Machine<'a, C> {
    /// The machine in the program's first state.
    ///
    /// # Errors
    /// Where its memory can't grow.
    pub fn new(
        alloc: Global,
        program: &'a Program,
        input: Vec<i32>,
        choices: C,
    ) -> Result<Machine<'a, C>, AllocError>
        ensures first { IfOk result
            (λ machine. state_in machine ≡ first_state program.now input.items) }
        ensures program { IfOk result (λ machine. program_of machine ≡ program.now) }
        ensures choices { IfOk result (λ machine. choices_of machine ≡ choices) }
        ensures runs { IfOk result (λ machine. halt_of machine ≡ None) }
    {
        Ok(Machine {
            loaded: Loaded::new(alloc, program)?,
            process: Process::new(alloc, program, input)?,
            choices,
            halted: None,
        })
    }

    /// Does the next step begin a statement? No step of a run that has ended does.
    pub fn begins(&self) -> bool
        ensures runs { halt_of self.now ≡ None → result ≡ begins (state_in self.now) }
        ensures halted { IfSome (halt_of self.now) (λ _. result ≡ false) }
    {
        match self.halted {
            None => self.process.begins(),
            Some(_) => false,
        }
    }

    /// Makes one step, and tells what it does.
    ///
    /// # Errors
    /// How the run has ended; each further call answers the same, and changes nothing.
    pub fn step(&mut self) -> Result<Event, Halt>
        // One step of the definition, as the choices answered: each request is asked or told once.
        ensures steps { IfOk result (λ event. MakesStep C.grants C.picks self.old event self.new) }
        // A run ends where there is no step, and then nothing was asked or told; or where memory was refused.
        ensures ends { halt_of self.old
            ≡ None → IfErr result (λ halt. EndsRun self.old halt self.new) }
        ensures again { IfSome (halt_of self.old)
            (λ halt. (result ≡ Err halt) × (self.new ≡ self.old)) }
        ensures halted { IfErr result (λ halt. halt_of self.new ≡ Some halt) }
        ensures runs { OnOk result (halt_of self.new ≡ None) }
        ensures program { program_of self.new ≡ program_of self.old }
    {
        match self.halted {
            Some(halt) => Err(halt),
            None => self.go(),
        }
    }

    /// Makes quiet steps of the common kinds, one after another, as long as they come and at most `limit` statements
    /// begin. Returns how many may still begin. In a run that has ended it makes none.
    ///
    /// # Errors
    /// Where the machine's memory can't grow. The run has ended then.
    pub fn make_common_steps(&mut self, limit: u32) -> Result<u32, AllocError>
        ensures steps { IfOk result
            (λ left. GoesQuietly (program_of self.old) (state_in self.old) (limit - left) (state_in self.new)) }
        ensures left { IfOk result (λ left. left ≤ limit) }
        ensures choices { choices_of self.new ≡ choices_of self.old }
        ensures halted { OnOk result (halt_of self.new ≡ halt_of self.old) }
        ensures memory { OnErr result (halt_of self.new ≡ Some Memory) }
        ensures program { program_of self.new ≡ program_of self.old }
    {
        if self.halted.is_some() {
            return Ok(limit);
        }
        match self.process.make_common_steps(self.loaded.program, limit) {
            Ok(left) => Ok(left),
            Err(AllocError) => {
                self.halted = Some(Halt::Memory);
                Err(AllocError)
            }
        }
    }

    /// Forgets what lies in an object, if that is past: it has ceased to exist, is in no collection, and its storage is back. No
    /// step looks for that any more, so memory need follow only the objects that there are, and not all that ever were.
    pub fn forget(&mut self, object: Id)
        ensures state { state_in self.new ≡ forgetting object (state_in self.old) }
        ensures choices { choices_of self.new ≡ choices_of self.old }
        ensures halted { halt_of self.new ≡ halt_of self.old }
        ensures program { program_of self.new ≡ program_of self.old }
    {
        self.process.forget(object);
    }

    /// The record type that has a number among those that have controlled parts, as events tell it, if there is one. In a
    /// well-formed program this costs constant time.
    pub fn controlled_type(&self, number: RecordNo) -> Option<&'a TypeDefinition>
        ensures { let types = (program_of self.now).types.items in
            option_copied result ≡ type_numbered types number.0 }
    {
        self.loaded.controlled_type(number)
    }

    /// A step of a run that has not ended.
    fn go(&mut self) -> Result<Event, Halt>
        requires { halt_of self.old ≡ None }
        ensures steps { IfOk result (λ event. MakesStep C.grants C.picks self.old event self.new) }
        ensures ends { IfErr result (λ halt. EndsRun self.old halt self.new) }
        ensures halted { IfErr result (λ halt. halt_of self.new ≡ Some halt) }
        ensures runs { OnOk result (halt_of self.new ≡ None) }
        ensures program { program_of self.new ≡ program_of self.old }
    {
        match self.advance() {
            Ok(event) => Ok(event),
            Err(halt) => {
                self.halted = Some(halt);
                Err(halt)
            }
        }
    }

    /// Makes one step, with the answers to what it leaves open.
    fn advance(&mut self) -> Result<Event, Halt>
        ensures steps { IfOk result (λ event. MakesStep C.grants C.picks self.old event self.new) }
        ensures ends { IfErr result (λ halt. EndsRun self.old halt self.new) }
        ensures same { halt_of self.new ≡ halt_of self.old }
        ensures program { program_of self.new ≡ program_of self.old }
    {
        match self.process.turn(&self.loaded) {
            Ok(turn) => self.settle(turn),
            Err(AllocError) => Err(Halt::Memory),
        }
    }

    /// Completes a turn. A notice is passed on to the choices; a question is put to them, and the run resumes with the
    /// reply.
    fn settle(&mut self, turn: Turn) -> Result<Event, Halt>
        ensures steps { IfOk result
            (λ event. Settles C.grants C.picks (shown (program_of self.old).types.items turn (state_in self.old)) self.old event self.new) }
        ensures ends { IfErr result (λ halt. EndsTurn turn self.old halt self.new) }
        ensures same { halt_of self.new ≡ halt_of self.old }
        ensures program { program_of self.new ≡ program_of self.old }
    {
        match turn {
            Turn::Halts(halt) => Err(halt),
            Turn::Moves(event) => Ok(event),
            Turn::Tells(request, event) => self.tell(request, event),
            Turn::Asks(allocation) => self.ask(allocation),
            Turn::Picks(leaving) => self.pick(leaving),
            Turn::PicksComponent(choice) => self.pick_component(choice),
        }
    }

    /// The pools are told.
    fn tell(&mut self, request: Request, event: Event) -> Result<Event, Halt>
        ensures steps { IfOk result
            (λ shows. Settles C.grants C.picks (shown (program_of self.old).types.items (Turn.Tells request event) (state_in self.old)) self.old shows self.new) }
        ensures ends { IfErr result (λ halt. halt ≡ Memory) }
        ensures same { halt_of self.new ≡ halt_of self.old }
        ensures program { program_of self.new ≡ program_of self.old }
    {
        match self.choices.grant(&request) {
            Ok(_) => Ok(event),
            Err(AllocError) => Err(Halt::Memory),
        }
    }

    /// A pool is asked.
    fn ask(&mut self, allocation: Allocation) -> Result<Event, Halt>
        ensures steps { IfOk result
            (λ shows. Settles C.grants C.picks (shown (program_of self.old).types.items (Turn.Asks allocation) (state_in self.old)) self.old shows self.new) }
        ensures ends { IfErr result (λ halt. halt ≡ Memory) }
        ensures same { halt_of self.new ≡ halt_of self.old }
        ensures program { program_of self.new ≡ program_of self.old }
    {
        match self.choices.grant(&allocation.request()) {
            Ok(granted) => match self.process.answer(&self.loaded, &allocation, granted) {
                Ok(()) => Ok(Event::Quiet),
                Err(AllocError) => Err(Halt::Memory),
            },
            Err(AllocError) => Err(Halt::Memory),
        }
    }

    /// One of the members is taken.
    fn pick(&mut self, leaving: Leaving) -> Result<Event, Halt>
        ensures steps { IfOk result
            (λ shows. Settles C.grants C.picks (shown (program_of self.old).types.items (Turn.Picks leaving) (state_in self.old)) self.old shows self.new) }
        ensures ends { IfErr result (λ halt. halt ≡ Memory) }
        ensures same { halt_of self.new ≡ halt_of self.old }
        ensures program { program_of self.new ≡ program_of self.old }
    {
        let i = self.choices.pick(leaving.count);
        match self.process.take(&self.loaded, &leaving, i) {
            Ok(()) => Ok(Event::Quiet),
            Err(AllocError) => Err(Halt::Memory),
        }
    }
    /// One of the components that are open is picked (7.6, 7.6.1).
    fn pick_component(&mut self, choice: Open) -> Result<Event, Halt>
        ensures steps { let types = (program_of self.old).types.items in IfOk result
            (λ shows. Settles C.grants C.picks (shown types (Turn.PicksComponent choice) (state_in self.old)) self.old shows self.new) }
        ensures ends { IfErr result (λ halt. halt ≡ Memory) }
        ensures same { halt_of self.new ≡ halt_of self.old }
        ensures program { program_of self.new ≡ program_of self.old }
    {
        let i = self.choices.pick(choice.count);
        match self.process.take_component(&self.loaded, i) {
            Ok(()) => Ok(Event::Quiet),
            Err(AllocError) => Err(Halt::Memory),
        }
    }
}

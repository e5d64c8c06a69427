//! Turns: what the first of what is left to do does.

ghost use Rattle.std.specs.Prelude.{◌≡◌, true, false};
ghost use Rattle.ada_program.specs.ProgramForm.{body_forms};
ghost use Rattle.ada_meaning.specs.Step.{running_next};
ghost use Rattle.ada_meaning.specs.Named.{next, named};
ghost use Rattle.ada_interpreter.specs.Process.{state_of, asks_first, Turns, TurnsOf};

use crate::frame::Frame;
use crate::loaded::Loaded;
use crate::process::Process;
use crate::turn::{QUIET, Turn};
use ada_meaning::{Halt, Mode};
use std::alloc::AllocError;

impl<'a> Process<'a> {
    /// What comes next; the step is made, up to what it asks.
    #[tactic(auto, unfolding(ada_meaning::specs::Named::next))]
    pub(crate) fn turn(&mut self, loaded: &Loaded<'a>) -> Result<Turn, AllocError>
        ensures { TurnsOf loaded.now.program.now.types.items (next loaded.now.program.now.types.items (body_forms loaded.now.program.now) (state_of self.old))
            (state_of self.old) result (state_of self.new) }
    {
        match self.mode {
            Mode::Running => self.run(loaded),
            // One temporary for all jumps, and a running process doesn't pay for it.
            mode => Ok(self.unwind(loaded.alloc, mode)?),
        }
    }

    /// What comes next where no jump is on its way.
    fn run(&mut self, loaded: &Loaded<'a>) -> Result<Turn, AllocError>
        ensures { let s = state_of self.old in let types = loaded.now.program.now.types.items in
            TurnsOf types (running_next named types (body_forms loaded.now.program.now) s.control s)
            s result (state_of self.new) }
    {
        if self.asks() {
            self.run_asking(loaded)
        } else {
            self.run_quietly(loaded)
        }
    }

    /// May the next step leave open which answer comes?
    fn asks(&self) -> bool
        ensures { result ≡ asks_first (state_of self.now).control }
    {
        match self.frames.top() {
            None => false,
            Some(frame) => frame.asks(),
        }
    }

    /// What comes next where it may be left open which answer comes.
    fn run_asking(&mut self, loaded: &Loaded<'a>) -> Result<Turn, AllocError>
        requires { asks_first (state_of self.old).control ≡ true }
        ensures { let s = state_of self.old in let types = loaded.now.program.now.types.items in
            TurnsOf types (running_next named types (body_forms loaded.now.program.now) s.control s)
            s result (state_of self.new) }
    {
        match self.frames.top() {
            None => Ok(Turn::Halts(Halt::Finished)),
            Some(frame) => match *frame {
                Frame::Leaves(mode) => self.leave(mode),
                Frame::Creates { access, count } => { Ok(self.ask(loaded.program, access, count)) }
                Frame::Treats(_) => {
                    let Some(Frame::Treats(treated)) = self.frames.pop() else {
                        unreachable!()
                    };
                    self.treat(loaded, treated)
                }
                _ => unreachable!(),
            },
        }
    }

    /// What comes next where that is not left open.
    fn run_quietly(&mut self, loaded: &Loaded<'a>) -> Result<Turn, AllocError>
        requires { asks_first (state_of self.old).control ≡ false }
        ensures { let s = state_of self.old in
            Turns (running_next named loaded.now.program.now.types.items (body_forms loaded.now.program.now) s.control s)
            s result (state_of self.new) }
    {
        match self.frames.top() {
            None => Ok(Turn::Halts(Halt::Finished)),
            Some(frame) => match *frame {
                Frame::Elaborates {
                    declarations,
                    statements,
                    handlers,
                } => self.elaborate(loaded, declarations, statements, handlers),
                Frame::Does(statements) => self.begin(loaded, statements),
                Frame::Decides {
                    statements,
                    branches,
                    otherwise,
                } => self.decide(statements, branches, otherwise),
                Frame::Repeats {
                    condition,
                    statements,
                } => self.repeat(condition, statements),
                Frame::Turns {
                    condition,
                    statements,
                } => self.go_round(condition, statements),
                Frame::Ranges {
                    parameter,
                    statements,
                } => self.count(parameter, statements),
                Frame::Counts {
                    parameter,
                    value,
                    last,
                    statements,
                } => self.count_on(parameter, value, last, statements),
                Frame::Exits => Ok(self.exit_where_true()),
                Frame::Handles(_) => {
                    self.pass();
                    Ok(QUIET)
                }
                Frame::Closes => self.close(),
                Frame::Leaves(_) => unreachable!(),
                Frame::Calls {
                    procedure,
                    body,
                    actuals,
                } => self.begin_body(procedure, body, actuals),
                Frame::Returns {
                    actuals: _,
                    references: _,
                } => {
                    let Some(
                        Frame::Returns {
                            actuals,
                            references,
                        },
                    ) = self.frames.pop()
                    else {
                        unreachable!()
                    };
                    self.resume(actuals, references.as_slice())?;
                    self.activations.put_by(references);
                    Ok(QUIET)
                }
                Frame::Evaluates(right) => self.evaluate(loaded.program, right),
                Frame::Computes(expression) => self.compute(expression),
                Frame::Reads(path) | Frame::Names(path) => self.read(path),
                Frame::Follows(selectors) => self.follow(selectors),
                Frame::TestsNull { equal } => self.test_null(equal),
                Frame::Refers(path) => self.refer(path),
                Frame::RefersIn { place, record_type } => self.refer_in(
                    loaded.program,
                    place,
                    record_type,
                ),
                Frame::Opens(path) => self.open(path),
                Frame::OpensIn(component) => self.open_in(component),
                Frame::Continues(links) => {
                    self.go_on(links)?;
                    Ok(QUIET)
                }
                Frame::Applies(operator) => self.apply(operator),
                Frame::AppliesAlone(operator) => self.apply_alone(operator),
                Frame::Fills(items) => self.fill(items),
                Frame::Copies { first, record_type } => self.copy(
                    loaded.program,
                    first,
                    record_type,
                ),
                Frame::Creates {
                    access: _,
                    count: _,
                } => unreachable!(),
                Frame::Stores(variable) => Ok(self.store(variable)),
                Frame::Targets { component, right } => self.target(component, right),
                Frame::StoresIn { object, component } => Ok(self.store_in(object, component)),
                Frame::TargetsRecord {
                    first,
                    record_type,
                    items,
                } => self.target_record(loaded.program, first, record_type, items),
                Frame::StoresRecord {
                    object,
                    first,
                    count,
                } => Ok(self.store_record(object, first, count)),
                Frame::Assigns(record_type) => self.assign_parts(loaded, record_type),
                Frame::Receives(component) => Ok(self.receive(component)),
                Frame::FreesIn { access, component } => self.free_in(loaded, access, component),
                Frame::Declares(variable) => self.create(variable),
                Frame::DeclaresRecord { variable, object } => {
                    self.declare_record(loaded, variable, object)
                }
                Frame::Treats(_) => unreachable!(),
                Frame::Awaits {
                    by: _,
                    treated: _,
                    of: _,
                    part: _,
                } => {
                    let Some(
                        Frame::Awaits {
                            by,
                            treated,
                            of,
                            part,
                        },
                    ) = self.frames.pop()
                    else {
                        unreachable!()
                    };
                    self.bear_awaited(by, treated, of, part)
                }
                Frame::Confines => {
                    self.pass();
                    Ok(QUIET)
                }
                Frame::Resumes(mode) => {
                    self.pass();
                    self.mode = mode;
                    Ok(QUIET)
                }
                Frame::Writes => Ok(self.write()),
                Frame::Ends(object) => Ok(self.end(object)),
                Frame::GivesBack {
                    object,
                    cause,
                    pool,
                } => Ok(self.give_back(object, cause, pool)),
                Frame::Clears(variable) => Ok(self.clear(variable)),
                Frame::ClearsIn { object, component } => Ok(self.clear_in(object, component)),
            },
        }
    }
}

//! Jumps: how they pass what is left to do, and where they land.

ghost use Rattle.std.specs.Prelude.{◌≡◌, false};
ghost use Rattle.ada_meaning.specs.declared.state.Mode.{Mode as ModeOf};
ghost use Rattle.ada_meaning.specs.Frame as frame;
ghost use Rattle.ada_meaning.specs.Step.{jump_next, pass_next, landed, end_of, escaped};
ghost use Rattle.ada_meaning.specs.Named.{named};
ghost use Rattle.ada_interpreter.specs.Process.{landing_of, state_of, passed, Turns, IsTurn};

use crate::frame::Frame;
use crate::handling::Landing;
use crate::process::Process;
use crate::turn::{QUIET, Turn};
use ada_meaning::{Halt, Mode};
use std::alloc::{AllocError, Global};

impl<'a> Process<'a> {
    /// What comes next while a jump is on its way (5.7, 6.5, 11.4).
    pub(crate) fn unwind(&mut self, alloc: Global, mode: Mode) -> Result<Turn, AllocError>
        ensures { let s = state_of self.old in
            Turns (jump_next named mode s.control s) s result (state_of self.new) }
    {
        match self.frames.top() {
            None => Ok(Turn::Halts(end_of(mode))),
            Some(
                Frame::Returns {
                    actuals: _,
                    references: _,
                },
            ) => {
                let Some(
                    Frame::Returns {
                        actuals,
                        references,
                    },
                ) = self.frames.pop()
                else {
                    unreachable!()
                };
                self.leave_body(mode, actuals, references.as_slice())?;
                self.activations.put_by(references);
                Ok(QUIET)
            }
            Some(
                Frame::Awaits {
                    by: _,
                    treated: _,
                    of: _,
                    part: _,
                },
            ) => {
                let Some(
                    Frame::Awaits {
                        by,
                        treated,
                        of,
                        part,
                    },
                ) = self.frames.pop()
                else {
                    unreachable!()
                };
                self.break_off(alloc, mode, by, treated, of, part)
            }
            Some(Frame::Confines) => Ok(self.confine(mode)),
            Some(frame) => {
                let is_master = frame.is_master();
                let landing = frame.landing(mode);
                self.discard(mode, is_master, landing)
            }
        }
    }

    /// A jump comes out of a Finalize (7.6.1): the run ends there.
    fn confine(&mut self, mode: Mode) -> Turn
        ensures { let s = state_of self.old in
            IsTurn (pass_next named false (frame.landing mode frame.Confines) mode (passed s)) s result (state_of self.new) }
    {
        match mode {
            Mode::Running => {
                self.pass();
                QUIET
            }
            Mode::Raising(_) | Mode::Exiting | Mode::Returning => Turn::Halts(escaped(mode)),
        }
    }

    /// A jump discards pending work, up to where it lands. A master interrupts it: that is left first.
    fn discard(
        &mut self,
        mode: Mode,
        is_master: bool,
        landing: Landing<'a>,
    ) -> Result<Turn, AllocError>
        ensures { let s = state_of self.old in
            Turns (pass_next named is_master (landing_of landing.entry) mode (passed s)) s result (state_of self.new) }
    {
        if is_master {
            self.replace(Frame::Leaves(mode))?;
            self.mode = Mode::Running;
            Ok(QUIET)
        } else {
            self.land(landing)
        }
    }

    /// A jump passes, or lands: behind the first of what is left to do, or in the statements of a handler.
    fn land(&mut self, landing: Landing<'a>) -> Result<Turn, AllocError>
        ensures { let s = state_of self.old in
            (mode : ModeOf) →
            Turns (landed named (landing_of landing.entry) mode (passed s)) s result (state_of self.new) }
    {
        match landing {
            Landing::PassesOn => {
                self.pass();
                Ok(QUIET)
            }
            Landing::GoesBehind => {
                self.pass();
                self.mode = Mode::Running;
                Ok(QUIET)
            }
            Landing::GoesIn(statements) => match statements.first() {
                None => Ok(Turn::Halts(Halt::Stuck)),
                Some(_) => {
                    self.replace(Frame::Does(statements))?;
                    self.mode = Mode::Running;
                    Ok(QUIET)
                }
            },
        }
    }
}

/// How a run ends where a jump comes out of a Finalize (7.6.1): only an exception does.
fn escaped(mode: Mode) -> Halt
    ensures { result ≡ escaped named mode }
{
    match mode {
        Mode::Raising(exception) => Halt::Escaped(exception),
        Mode::Running | Mode::Exiting | Mode::Returning => Halt::Stuck,
    }
}

/// How a run ends where nothing is left to do, or to pass: an exit always has a loop.
fn end_of(mode: Mode) -> Halt
    ensures { result ≡ end_of mode }
{
    match mode {
        Mode::Running | Mode::Returning => Halt::Finished,
        Mode::Raising(exception) => Halt::Unhandled(exception),
        Mode::Exiting => Halt::Stuck,
    }
}

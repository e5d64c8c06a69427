//! Storage pools (13.11): how declared ones begin, and which one a collection has.

ghost use Rattle.std.specs.Prelude.{◌≡◌, ◌+◌};
ghost use Rattle.ada_program.specs.Typed.{pool_named};
ghost use Rattle.ada_meaning.specs.Event.{Quiet};
ghost use Rattle.ada_meaning.specs.State.{collection, pool_for, pools_in};
ghost use Rattle.ada_meaning.specs.Step as step;
ghost use Rattle.ada_meaning.specs.Named.{named};
ghost use Rattle.ada_interpreter.specs.Process.{frame_of, state_of, replaced, Turns};

use crate::frame::Frame;
use crate::masters::Owned;
use crate::process::Process;
use crate::turn::{QUIET, Turn};
use ada_meaning::{Event, Request};
use ada_program::{PoolNo, Program, TypeNo};
use std::alloc::AllocError;

impl<'a> Process<'a> {
    /// A declared pool begins (13.11), under a number that is one more than how many exist.
    pub(crate) fn begin_pool(
        &mut self,
        declaration: PoolNo,
        rest: Frame<'a>,
    ) -> Result<Turn, AllocError>
        ensures { let s = replaced (frame_of rest.entry) (state_of self.old) in
            Turns (step.pool_next named declaration.0 (pools_in s.masters + 1) s)
            (state_of self.old) result (state_of self.new) }
    {
        let Some(number) = self.masters.pool_count().checked_add(1) else {
            return Err(AllocError);
        };
        self.replace(rest)?;
        self.masters.own(Owned::Pool {
            declaration,
            number,
        })?;
        Ok(Turn::Tells(
            Request::New {
                pool: number,
                declaration,
            },
            Event::Quiet,
        ))
    }

    /// The collection of an access type is created (7.6.1), with the pool of its objects.
    pub(crate) fn collect(
        &mut self,
        program: &Program,
        access: TypeNo,
        rest: Frame<'a>,
    ) -> Result<Turn, AllocError>
        ensures { let s = replaced (frame_of rest.entry) (state_of self.old) in
            let pool = pool_for (pool_named program.now.types.items access.0) s.masters in
            Turns (step.moves Quiet (step.owned (collection access.0 pool) s))
            (state_of self.old) result (state_of self.new) }
    {
        let pool = self.pool_for(program, access);
        self.replace(rest)?;
        self.masters.own(Owned::Collection { access, pool })?;
        Ok(QUIET)
    }

    /// The pool of a collection that is created here (13.11): the standard one, where its access type has no declared
    /// pool; none, where the declared one doesn't exist.
    fn pool_for(&self, program: &Program, access: TypeNo) -> Option<usize>
        ensures { let masters = (state_of self.now).masters in
            result ≡ pool_for (pool_named program.now.types.items access.0) masters }
    {
        match program.pool(access) {
            None => Some(0),
            Some(declaration) => self.masters.pool(declaration),
        }
    }
}

//! The ends of objects, and the leaving of masters.

ghost use Rattle.std.specs.Prelude.{◌≡◌, List, OnOk};
ghost use Rattle.ada_program.specs.declared.program.TypeDefinition.{TypeDefinition};
ghost use Rattle.ada_meaning.specs.Event.{Quiet, Gone};
ghost use Rattle.ada_meaning.specs.Frame as frame;
ghost use Rattle.ada_meaning.specs.Step as step;
ghost use Rattle.ada_meaning.specs.Named.{named, look, lent, members};
ghost use Rattle.ada_meaning.specs.declared.event.Cause.TheVariants.{Leaving as leaving};
ghost use Rattle.ada_interpreter.specs.Process.{state_of, passed, replaced, Turns, TurnsOf, IsTurn, ending, finalized_first};

use crate::frame::Frame;
use crate::loaded::Loaded;
use crate::masters::Remains;
use crate::process::Process;
use crate::treatment::Treatment;
use crate::turn::{Leaving, QUIET, Turn};
use ada_meaning::{Cause, Event, Halt, Id, Mode, Request, Value, Why};
use std::alloc::AllocError;

impl<'a> Process<'a> {
    /// An object leaves its collection; its controlled parts are finalized, it is to cease to exist, and its storage is to go
    /// back, to a pool if it is from one.
    pub(crate) fn dispose(
        &mut self,
        loaded: &Loaded<'a>,
        object: Value,
        cause: Cause,
        pool: Option<usize>,
    ) -> Result<(), AllocError>
        ensures { let types = loaded.now.program.now.types.items in
            OnOk result (state_of self.new ≡ ending types object cause pool (state_of self.old)) }
    {
        self.push(Frame::GivesBack {
            object,
            cause,
            pool,
        })?;
        self.push(Frame::Ends(object))?;
        if let Value::Names(object) = object {
            self.finalize_parts(loaded, object, cause)?;
            self.objects.part(object);
        }
        Ok(())
    }

    /// The controlled parts of the object of a name are finalized next, if it exists (7.6.1).
    fn finalize_parts(
        &mut self,
        loaded: &Loaded<'a>,
        object: Id,
        cause: Cause,
    ) -> Result<(), AllocError>
        ensures { let s = state_of self.old in let v = Value.Names object in
            OnOk result
            (state_of self.new ≡ finalized_first loaded.now.program.now.types.items v cause (look s.heap v) s) }
    {
        match self.objects.existing(object) {
            None => Ok(()),
            Some(cell) => {
                let access = cell.access;
                self.begin_treatment(loaded, object, access, Treatment::Ends(cause))
            }
        }
    }

    /// An object ceases to exist (13.11.2): twice is erroneous.
    pub(crate) fn end(&mut self, object: Value) -> Turn
        ensures { let s = state_of self.old in
            IsTurn (step.end_next named object (look s.heap object) (passed s))
            s result (state_of self.new) }
    {
        match object {
            Value::Names(object) => self.end_object(object),
            _ => Turn::Halts(Halt::Stuck),
        }
    }

    /// The object of a name ceases to exist.
    fn end_object(&mut self, object: Id) -> Turn
        ensures { let s = state_of self.old in let v = Value.Names object in
            IsTurn (step.end_next named v (look s.heap v) (passed s)) s result (state_of self.new) }
    {
        match self.objects.existing(object) {
            None => Turn::Halts(Halt::Erroneous(Why::EndsTwice)),
            Some(_) => {
                self.pass();
                self.objects.finish(object);
                QUIET
            }
        }
    }

    /// The storage of an object goes back (13.11.2): to another pool than its own is erroneous, and so is twice.
    pub(crate) fn give_back(&mut self, object: Value, cause: Cause, pool: Option<usize>) -> Turn
        ensures { let s = state_of self.old in
            IsTurn (step.back_next named object cause pool (lent s.heap object) (passed s))
            s result (state_of self.new) }
    {
        match object {
            Value::Names(object) => self.give_back_object(object, cause, pool),
            _ => Turn::Halts(Halt::Stuck),
        }
    }

    /// The storage of the object of a name goes back. Of a declared one no pool is told.
    fn give_back_object(&mut self, object: Id, cause: Cause, pool: Option<usize>) -> Turn
        ensures { let s = state_of self.old in let v = Value.Names object in
            IsTurn (step.back_next named v cause pool (lent s.heap v) (passed s))
            s result (state_of self.new) }
    {
        let Some(cell) = self.objects.lent(object) else {
            return Turn::Halts(Halt::Erroneous(Why::EndsTwice));
        };
        let home = cell.home;
        if !same_pool(pool, home.pool) {
            return Turn::Halts(Halt::Erroneous(Why::GivesElsewhere));
        }
        let event = Event::Back {
            object,
            access: cell.access,
            number: cell.number,
            pool: home.pool,
            subpool: home.subpool,
            cause,
        };
        self.pass();
        self.objects.give_back(object);
        match home.pool {
            None => Turn::Moves(event),
            Some(_) => Turn::Tells(Request::Back { object }, event),
        }
    }

    /// The leaving of the innermost master (7.6.1), newest item first; when no item is left, it has been left.
    pub(crate) fn leave(&mut self, mode: Mode) -> Result<Turn, AllocError>
        ensures { let s = state_of self.old in (types : List TypeDefinition) →
            TurnsOf types (step.leave_next named types mode s.masters (passed s)) s result (state_of self.new) }
    {
        match self.masters.remains() {
            Remains::NoMaster => Ok(Turn::Halts(Halt::Stuck)),
            Remains::NoItem { master } => {
                self.pass();
                self.masters.leave();
                self.mode = mode;
                Ok(Turn::Moves(Event::Left { master }))
            }
            Remains::Variable => self.leave_item(mode),
            Remains::Pool { number } => self.leave_pool(mode, number),
            Remains::Home { master, item, pool } => {
                let count = self.objects.count(item);
                if count == 0 {
                    self.leave_item(mode)
                } else {
                    self.replace(Frame::Leaves(mode))?;
                    Ok(Turn::Picks(Leaving {
                        master,
                        item,
                        pool,
                        count,
                    }))
                }
            }
        }
    }

    /// The newest item of the innermost master is left, a declared pool, and that is told (13.11).
    fn leave_pool(&mut self, mode: Mode, number: usize) -> Result<Turn, AllocError>
        ensures { let s = replaced (frame.Leaves mode) (state_of self.old) in
            Turns (step.tells (Gone number) Quiet (record s { masters = step.shorter s.masters }))
            (state_of self.old) result (state_of self.new) }
    {
        self.replace(Frame::Leaves(mode))?;
        self.masters.shorten();
        Ok(Turn::Tells(Request::Gone { pool: number }, Event::Quiet))
    }

    /// The newest item of the innermost master is left.
    fn leave_item(&mut self, mode: Mode) -> Result<Turn, AllocError>
        ensures { let s = replaced (frame.Leaves mode) (state_of self.old) in
            Turns (step.moves Quiet (record s { masters = step.shorter s.masters }))
            (state_of self.old) result (state_of self.new) }
    {
        self.replace(Frame::Leaves(mode))?;
        self.masters.shorten();
        Ok(QUIET)
    }

    /// One of the objects of the item that is left is taken, counted from the newest: it is to end.
    pub(crate) fn take(
        &mut self,
        loaded: &Loaded<'a>,
        place: &Leaving,
        i: usize,
    ) -> Result<(), AllocError>
        ensures { let l = place.now in let s = state_of self.old in let types = loaded.now.program.now.types.items in
            OnOk result
            (state_of self.new ≡ step.taken named types (leaving l.master l.item) l.pool (members s.heap l.item) s i) }
    {
        let object = self.objects.member(place.item, i);
        self.dispose(
            loaded,
            object,
            Cause::Leaving {
                master: place.master,
                item: place.item,
            },
            place.pool,
        )
    }
}

/// Are these one pool, or none?
pub(crate) fn same_pool(pool: Option<usize>, other: Option<usize>) -> bool
    ensures { result ≡ step.same_pool pool other }
{
    match pool {
        None => other.is_none(),
        Some(pool) => match other {
            None => false,
            Some(other) => pool == other,
        },
    }
}

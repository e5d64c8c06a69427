//! Free (13.11.2): of what a variable, or a component of an object, gives access to.

ghost use Rattle.std.specs.Prelude.{◌≡◌, ℕ, OnOk};
ghost use Rattle.ada_program.specs.Form.{path_form};
ghost use Rattle.ada_meaning.specs.Event.{Quiet};
ghost use Rattle.ada_meaning.specs.Step as step;
ghost use Rattle.ada_meaning.specs.Named.{named, look, standing};
ghost use Rattle.ada_interpreter.specs.Process.{frame_of, state_of, passed, replaced, Turns, IsTurn, IsFreed, releasing};

use crate::endings::same_pool;
use crate::frame::Frame;
use crate::loaded::Loaded;
use crate::process::Process;
use crate::treatment::Treatment;
use crate::turn::{QUIET, Turn};
use ada_meaning::{Cause, Event, Exception, Halt, Id, Value, Why};
use ada_program::program::ComponentNo;
use ada_program::{Path, TypeNo, VariableNo};
use std::alloc::AllocError;

/// How a Free ends an object: by the type that it is known by, and its words go back to a pool.
#[derive(Clone, Copy)]
struct Freed {
    known_by: TypeNo,
    pool: usize,
}

impl<'a> Process<'a> {
    /// A Free: of a variable, or of a component, whose object is found first.
    pub(crate) fn free(
        &mut self,
        loaded: &Loaded<'a>,
        access: TypeNo,
        path: &'a Path,
        rest: Frame<'a>,
    ) -> Result<Turn, AllocError>
        ensures { let s = replaced (frame_of rest.entry) (state_of self.old) in
            let form = path_form path.now in
            Turns (step.frees_next named loaded.now.program.now.types.items form.selectors access.0 form.root s)
            (state_of self.old) result (state_of self.new) }
    {
        match path.selectors.as_slice().split_last() {
            None => self.free_variable(loaded, access, path.root, rest),
            Some((last, before)) => {
                let component = self.number_in(path.root, before, *last)?;
                self.find(
                    path.root,
                    before,
                    Frame::FreesIn { access, component },
                    rest,
                )
            }
        }
    }

    /// Free (X): null has no effect; else the object leaves its collection, and is to end.
    fn free_variable(
        &mut self,
        loaded: &Loaded<'a>,
        access: TypeNo,
        variable: VariableNo,
        rest: Frame<'a>,
    ) -> Result<Turn, AllocError>
        ensures { let s = replaced (frame_of rest.entry) (state_of self.old) in
            let v = step.held named s variable.0 in
            Turns (step.free_next named loaded.now.program.now.types.items access.0 variable.0 v (standing s.heap v) s)
            (state_of self.old) result (state_of self.new) }
    {
        match self.held(variable) {
            Value::Null => {
                self.replace(rest)?;
                Ok(QUIET)
            }
            Value::Scalar(_)
            | Value::Part {
                object: _,
                place: _,
            } => { Ok(Turn::Halts(Halt::Stuck)) }
            Value::Names(object) => self.free_object(loaded, access, object, variable, rest),
        }
    }

    /// The object that a variable names is to end, and the variable is to become null.
    fn free_object(
        &mut self,
        loaded: &Loaded<'a>,
        access: TypeNo,
        object: Id,
        variable: VariableNo,
        rest: Frame<'a>,
    ) -> Result<Turn, AllocError>
        ensures { let s = replaced (frame_of rest.entry) (state_of self.old) in
            let v = Value.Names object in
            Turns (step.free_next named loaded.now.program.now.types.items access.0 variable.0 v (standing s.heap v) s)
            (state_of self.old) result (state_of self.new) }
    {
        let freed = match self.freed(loaded, access, object) {
            Ok(freed) => freed,
            Err(halt) => return Ok(Turn::Halts(halt)),
        };
        self.replace(rest)?;
        self.push(Frame::Clears(variable))?;
        self.release(loaded, object, freed)?;
        Ok(QUIET)
    }

    /// Free (P.C): the newest operand gives access to the object of the component. Null raises Constraint_Error.
    pub(crate) fn free_in(
        &mut self,
        loaded: &Loaded<'a>,
        access: TypeNo,
        component: ComponentNo,
    ) -> Result<Turn, AllocError>
        ensures { let s = passed (state_of self.old) in
            let v = step.newest named s in
            Turns (step.free_in_next named loaded.now.program.now.types.items access.0 v component.0 (look s.heap v) (step.popped s))
            (state_of self.old) result (state_of self.new) }
    {
        match self.newest() {
            Value::Null => {
                self.pass();
                self.raise(Exception::ConstraintError);
                Ok(QUIET)
            }
            Value::Scalar(_)
            | Value::Part {
                object: _,
                place: _,
            } => { Ok(Turn::Halts(Halt::Stuck)) }
            Value::Names(holder) => self.free_in_object(loaded, access, holder, component),
        }
    }

    /// A component of the object of a name is freed: to follow one that is gone is erroneous.
    fn free_in_object(
        &mut self,
        loaded: &Loaded<'a>,
        access: TypeNo,
        holder: Id,
        component: ComponentNo,
    ) -> Result<Turn, AllocError>
        ensures { let s = step.popped (passed (state_of self.old)) in
            let v = Value.Names holder in
            Turns (step.free_in_next named loaded.now.program.now.types.items access.0 v component.0 (look s.heap v) s)
            (state_of self.old) result (state_of self.new) }
    {
        let Some(cell) = self.objects.existing(holder) else {
            return Ok(Turn::Halts(Halt::Erroneous(Why::FollowsGone)));
        };
        match cell.values.get(component.0) {
            None => Ok(Turn::Halts(Halt::Stuck)),
            Some(value) => {
                let value = *value;
                self.free_component(loaded, access, holder, component, value)
            }
        }
    }

    /// What a component holds is freed: null has no effect.
    fn free_component(
        &mut self,
        loaded: &Loaded<'a>,
        access: TypeNo,
        holder: Id,
        component: ComponentNo,
        value: Value,
    ) -> Result<Turn, AllocError>
        ensures { let s = step.popped (passed (state_of self.old)) in
            let o = Value.Names holder in
            let found = standing s.heap value in
            Turns (step.freed_next named loaded.now.program.now.types.items access.0 o component.0 value found s)
            (state_of self.old) result (state_of self.new) }
    {
        match value {
            Value::Null => {
                self.pass();
                self.pop();
                Ok(Turn::Moves(Event::Followed { object: holder }))
            }
            Value::Scalar(_)
            | Value::Part {
                object: _,
                place: _,
            } => { Ok(Turn::Halts(Halt::Stuck)) }
            Value::Names(object) => self.free_component_object(
                loaded, access, holder, component, object,
            ),
        }
    }

    /// The object that a component names is to end, and the component is to become null.
    fn free_component_object(
        &mut self,
        loaded: &Loaded<'a>,
        access: TypeNo,
        holder: Id,
        component: ComponentNo,
        object: Id,
    ) -> Result<Turn, AllocError>
        ensures { let s = step.popped (passed (state_of self.old)) in
            let o = Value.Names holder in
            let v = Value.Names object in
            Turns (step.freed_next named loaded.now.program.now.types.items access.0 o component.0 v (standing s.heap v) s)
            (state_of self.old) result (state_of self.new) }
    {
        let freed = match self.freed(loaded, access, object) {
            Ok(freed) => freed,
            Err(halt) => return Ok(Turn::Halts(halt)),
        };
        let clears = Frame::ClearsIn {
            object: Value::Names(holder),
            component,
        };
        self.pop();
        self.replace(clears)?;
        self.release(loaded, object, freed)?;
        Ok(Turn::Moves(Event::Followed { object: holder }))
    }

    /// How a Free ends the object of a name. Where it is erroneous, how the run ends: the object doesn't stand any more, or is of
    /// another pool than the access type's objects (7.6.1, 13.11.2).
    fn freed(&self, loaded: &Loaded<'a>, access: TypeNo, object: Id) -> Result<Freed, Halt>
        ensures { let s = state_of self.now in
            let found = standing s.heap (Value.Names object) in
            IsFreed loaded.now.program.now.types.items access.0 s.masters found result }
    {
        let Some(cell) = self.objects.standing(object) else {
            return Err(Halt::Erroneous(loaded.ends_again(access)));
        };
        let pool = self.masters.pool_freed_to(access);
        if !same_pool(Some(pool), cell.home.pool) {
            return Err(Halt::Erroneous(Why::GivesElsewhere));
        }
        Ok(Freed {
            known_by: cell.access,
            pool,
        })
    }

    /// The object of a name is to end by a Free: it leaves its collection, its controlled parts are finalized, and its words are
    /// to go back (13.11.2).
    fn release(&mut self, loaded: &Loaded<'a>, object: Id, freed: Freed) -> Result<(), AllocError>
        ensures { let types = loaded.now.program.now.types.items in
            let v = Value.Names object in
            OnOk result (state_of self.new ≡ releasing types freed.known_by.0 freed.pool v (state_of self.old)) }
    {
        let number = self.next;
        let Some(next) = number.checked_add(1) else {
            return Err(AllocError);
        };
        let cause = Cause::Freeing { number };
        self.push(Frame::GivesBack {
            object: Value::Names(object),
            cause,
            pool: Some(freed.pool),
        })?;
        self.push(Frame::Ends(Value::Names(object)))?;
        self.begin_treatment(loaded, object, freed.known_by, Treatment::Ends(cause))?;
        self.objects.part(object);
        self.next = next;
        Ok(())
    }

    /// A variable becomes null: the end of a Free.
    pub(crate) fn clear(&mut self, variable: VariableNo) -> Turn
        ensures { let s = state_of self.old in
            IsTurn (step.moves Quiet (step.put variable.0 Value.Null (passed s)))
            s result (state_of self.new) }
    {
        self.pass();
        self.put(variable, Value::Null);
        QUIET
    }

    /// A component of an object becomes null: the end of a Free. To store in an object that is gone is erroneous.
    pub(crate) fn clear_in(&mut self, object: Value, component: ComponentNo) -> Turn
        ensures { let s = passed (state_of self.old) in
            IsTurn (step.store_next named object component.0 Value.Null (look s.heap object) s)
            (state_of self.old) result (state_of self.new) }
    {
        match object {
            Value::Names(object) => self.clear_in_object(object, component),
            _ => Turn::Halts(Halt::Stuck),
        }
    }

    /// A component of the object of a name becomes null.
    fn clear_in_object(&mut self, object: Id, component: ComponentNo) -> Turn
        ensures { let s = passed (state_of self.old) in
            let v = Value.Names object in
            IsTurn (step.store_next named v component.0 Value.Null (look s.heap v) s)
            (state_of self.old) result (state_of self.new) }
    {
        let Some(cell) = self.objects.existing(object) else {
            return Turn::Halts(Halt::Erroneous(Why::FollowsGone));
        };
        match cell.values.get(component.0) {
            None => Turn::Halts(Halt::Stuck),
            Some(_) => {
                self.pass();
                self.objects.store(object, component, Value::Null);
                Turn::Moves(Event::Followed { object })
            }
        }
    }
}

//! Actual parameters that are records, which are passed by reference (6.2), and those that are components (6.4.1).

ghost use Rattle.std.specs.Prelude.{◌≡◌};
ghost use Rattle.ada_program.specs.Form.{path_form, record_path_form};
ghost use Rattle.ada_program.specs.Typed.{width_of};
ghost use Rattle.ada_meaning.specs.Frame as frame;
ghost use Rattle.ada_meaning.specs.Step as step;
ghost use Rattle.ada_meaning.specs.Named.{named, look};
ghost use Rattle.ada_interpreter.specs.Process.{state_of, passed, Turns};

use crate::frame::Frame;
use crate::process::Process;
use crate::turn::{QUIET, Turn};
use crate::values::record_in;
use ada_meaning::{Event, Exception, Halt, Id, Place, Value, Why};
use ada_program::program::{ComponentNo, RecordPath};
use ada_program::{Path, Program, TypeNo};
use std::alloc::AllocError;

impl<'a> Process<'a> {
    /// A record is given (6.2): the object in which it lies is found first.
    pub(crate) fn refer(&mut self, path: &'a RecordPath) -> Result<Turn, AllocError>
        ensures { let s = passed (state_of self.old) in
            let form = record_path_form path.now in
            Turns
            (step.record_holder_next named form (λ place. frame.RefersIn place form.record_type) s)
            (state_of self.old) result (state_of self.new) }
    {
        let place = self.place_in(path)?;
        self.read_then(
            path.object.root,
            path.object.selectors.as_slice(),
            Frame::RefersIn {
                place,
                record_type: path.record,
            },
        )
    }

    /// The newest operand gives access to the object in which a record lies that is given (6.2). Null raises
    /// Constraint_Error.
    pub(crate) fn refer_in(
        &mut self,
        program: &Program,
        place: Place,
        record_type: TypeNo,
    ) -> Result<Turn, AllocError>
        ensures { let s = passed (state_of self.old) in
            let v = step.newest named s in
            let count = width_of program.now.types.items record_type.0 in
            Turns (step.refers_next named v place count (look s.heap v) (step.popped s))
            (state_of self.old) result (state_of self.new) }
    {
        match self.newest() {
            Value::Null => {
                self.pass();
                self.raise(Exception::ConstraintError);
                Ok(QUIET)
            }
            Value::Scalar(_)
            | Value::Part {
                object: _,
                place: _,
            } => { Ok(Turn::Halts(Halt::Stuck)) }
            Value::Names(object) => {
                self.refer_in_object(object, place, program.width(record_type))
            }
        }
    }

    /// What refers to the record becomes the newest operand: to follow an object that is gone is erroneous.
    fn refer_in_object(
        &mut self,
        object: Id,
        place: Place,
        count: usize,
    ) -> Result<Turn, AllocError>
        ensures { let s = passed (state_of self.old) in
            let v = Value.Names object in
            Turns (step.refers_next named v place count (look s.heap v) (step.popped s))
            (state_of self.old) result (state_of self.new) }
    {
        let Some(cell) = self.objects.existing(object) else {
            return Ok(Turn::Halts(Halt::Erroneous(Why::FollowsGone)));
        };
        match record_in(cell.values.as_slice(), place.component, count) {
            None => Ok(Turn::Halts(Halt::Stuck)),
            Some(_) => {
                self.pop();
                self.give(Value::Part { object, place })?;
                Ok(Turn::Moves(Event::Followed { object }))
            }
        }
    }

    /// A component is given for a formal parameter of mode `in out` (6.4.1): the object in which it lies is found first.
    pub(crate) fn open(&mut self, path: &'a Path) -> Result<Turn, AllocError>
        ensures { let s = passed (state_of self.old) in
            let form = path_form path.now in
            Turns (step.open_next named form.selectors form.root s)
            (state_of self.old) result (state_of self.new) }
    {
        match path.selectors.as_slice().split_last() {
            None => Ok(Turn::Halts(Halt::Stuck)),
            Some((last, before)) => {
                let component = self.number_in(path.root, before, *last)?;
                self.read_then(path.root, before, Frame::OpensIn(component))
            }
        }
    }

    /// The newest operand gives access to the object whose component is given (6.4.1). Null raises Constraint_Error.
    pub(crate) fn open_in(&mut self, component: ComponentNo) -> Result<Turn, AllocError>
        ensures { let s = passed (state_of self.old) in
            let v = step.newest named s in
            Turns (step.opens_next named v component.0 (look s.heap v) (step.popped s))
            (state_of self.old) result (state_of self.new) }
    {
        match self.newest() {
            Value::Null => {
                self.pass();
                self.raise(Exception::ConstraintError);
                Ok(QUIET)
            }
            Value::Scalar(_)
            | Value::Part {
                object: _,
                place: _,
            } => { Ok(Turn::Halts(Halt::Stuck)) }
            Value::Names(object) => self.open_in_object(object, component),
        }
    }

    /// What refers to the component becomes an operand, and its value the newest one, so that it gets back what the formal
    /// parameter holds whatever is assigned meanwhile: to follow an object that is gone is erroneous.
    fn open_in_object(&mut self, object: Id, component: ComponentNo) -> Result<Turn, AllocError>
        ensures { let s = passed (state_of self.old) in
            let v = Value.Names object in
            Turns (step.opens_next named v component.0 (look s.heap v) (step.popped s))
            (state_of self.old) result (state_of self.new) }
    {
        let Some(cell) = self.objects.existing(object) else {
            return Ok(Turn::Halts(Halt::Erroneous(Why::FollowsGone)));
        };
        match cell.values.get(component.0) {
            None => Ok(Turn::Halts(Halt::Stuck)),
            Some(value) => {
                let value = *value;
                self.pop();
                self.give(Value::Part {
                    object,
                    place: Place {
                        component: component.0,
                        part: 0,
                    },
                })?;
                self.keep(value)?;
                Ok(Turn::Moves(Event::Followed { object }))
            }
        }
    }
}

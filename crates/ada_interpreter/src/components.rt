//! Targets of assignments and of Run_Input.Get: variables, and components of objects (5.2).

ghost use Rattle.std.specs.Prelude.{◌≡◌, [], map};
ghost use Rattle.ada_program.specs.Form.{component_number, path_form, right_form};
ghost use Rattle.ada_meaning.specs.Step as step;
ghost use Rattle.ada_meaning.specs.Named.{named, look};
ghost use Rattle.ada_interpreter.specs.Process.{frame_of, state_of, passed, replaced, pushed, Turns, IsTurn};

use crate::frame::Frame;
use crate::process::Process;
use crate::turn::{QUIET, Turn};
use ada_meaning::{Event, Exception, Halt, Id, Value, Why};
use ada_program::program::{ComponentNo, Right};
use ada_program::{Path, VariableNo};
use ada_values::Value as Scalar;
use std::alloc::AllocError;

impl<'a> Process<'a> {
    /// An assignment (5.2): the object of a component that is assigned to is found before the right side is evaluated.
    pub(crate) fn assign(
        &mut self,
        target: &'a Path,
        value: &'a Right,
        rest: Frame<'a>,
    ) -> Result<Turn, AllocError>
        ensures { let s = replaced (frame_of rest.entry) (state_of self.old) in
            let form = path_form target.now in
            Turns (step.assign_next named form.selectors form.root (right_form value.now) s)
            (state_of self.old) result (state_of self.new) }
    {
        match target.selectors.as_slice().split_last() {
            None => {
                self.replace_by_three(
                    Frame::Evaluates(Some(value)),
                    Frame::Stores(target.root),
                    rest,
                )?;
                Ok(QUIET)
            }
            Some((last, before)) => {
                let component = self.number_in(target.root, before, *last)?;
                self.find(
                    target.root,
                    before,
                    Frame::Targets {
                        component,
                        right: value,
                    },
                    rest,
                )
            }
        }
    }

    /// The next number of the input goes to a variable, or to a component, whose object is found first.
    pub(crate) fn get(&mut self, target: &'a Path, rest: Frame<'a>) -> Result<Turn, AllocError>
        ensures { let s = replaced (frame_of rest.entry) (state_of self.old) in
            let form = path_form target.now in
            Turns (step.gets_next named form.selectors form.root s.input s)
            (state_of self.old) result (state_of self.new) }
    {
        match target.selectors.as_slice().split_last() {
            None => self.get_variable(target.root, rest),
            Some((last, before)) => {
                let component = self.number_in(target.root, before, *last)?;
                self.find(target.root, before, Frame::Receives(component), rest)
            }
        }
    }

    /// The next number of the input goes to a variable; where there is none, End_Error is raised.
    fn get_variable(&mut self, variable: VariableNo, rest: Frame<'a>) -> Result<Turn, AllocError>
        ensures { let s = replaced (frame_of rest.entry) (state_of self.old) in
            Turns (step.gets_next named [] variable.0 s.input s)
            (state_of self.old) result (state_of self.new) }
    {
        self.replace(rest)?;
        match self.input.next() {
            None => self.raise(Exception::EndError),
            Some(number) => self.put(variable, Value::Scalar(Scalar::Integer(number))),
        }
        Ok(QUIET)
    }

    /// The access value to the object of a component is read (4.1), and then something is to be done with it.
    pub(crate) fn find(
        &mut self,
        variable: VariableNo,
        selectors: &'a [ComponentNo],
        then: Frame<'a>,
        rest: Frame<'a>,
    ) -> Result<Turn, AllocError>
        ensures { let after = replaced (frame_of rest.entry) (state_of self.old) in
            let s = pushed (frame_of then.entry) after in
            Turns (step.named_next named (map component_number selectors.now) variable.0 s)
            (state_of self.old) result (state_of self.new) }
    {
        let value = self.held(variable);
        match self.reach_from(value, selectors) {
            Err(halt) => Ok(Turn::Halts(halt)),
            Ok(outcome) => {
                self.replace_by_two(then, rest)?;
                Ok(Turn::Moves(self.proceed(outcome)?))
            }
        }
    }

    /// The newest operand gives access to the object whose component is assigned to (5.2). Null raises Constraint_Error.
    pub(crate) fn target(
        &mut self,
        component: ComponentNo,
        right: &'a Right,
    ) -> Result<Turn, AllocError>
        ensures { let s = passed (state_of self.old) in
            let v = step.newest named s in
            let form = right_form right.now in
            Turns (step.target_next named v component.0 form (look s.heap v) (step.popped s))
            (state_of self.old) result (state_of self.new) }
    {
        match self.newest() {
            Value::Null => {
                self.pass();
                self.raise(Exception::ConstraintError);
                Ok(QUIET)
            }
            Value::Scalar(_)
            | Value::Part {
                object: _,
                place: _,
            } => { Ok(Turn::Halts(Halt::Stuck)) }
            Value::Names(object) => self.target_object(object, component, right),
        }
    }

    /// The object is there whose component is assigned to, and the right side is evaluated next.
    fn target_object(
        &mut self,
        object: Id,
        component: ComponentNo,
        right: &'a Right,
    ) -> Result<Turn, AllocError>
        ensures { let s = passed (state_of self.old) in
            let v = Value.Names object in
            let form = right_form right.now in
            Turns (step.target_next named v component.0 form (look s.heap v) (step.popped s))
            (state_of self.old) result (state_of self.new) }
    {
        match self.objects.existing(object) {
            None => Ok(Turn::Halts(Halt::Erroneous(Why::FollowsGone))),
            Some(_) => {
                self.pop();
                self.replace_by_two(
                    Frame::Evaluates(Some(right)),
                    Frame::StoresIn {
                        object: Value::Names(object),
                        component,
                    },
                )?;
                Ok(Turn::Moves(Event::Followed { object }))
            }
        }
    }

    /// The newest operand goes to a component of an object (5.2): to store in one that is gone is erroneous.
    pub(crate) fn store_in(&mut self, object: Value, component: ComponentNo) -> Turn
        ensures { let s = passed (state_of self.old) in
            let value = step.newest named s in
            IsTurn (step.store_next named object component.0 value (look s.heap object) (step.popped s))
            (state_of self.old) result (state_of self.new) }
    {
        match object {
            Value::Names(object) => self.store_in_object(object, component),
            _ => Turn::Halts(Halt::Stuck),
        }
    }

    /// The newest operand goes to a component of the object of a name.
    fn store_in_object(&mut self, object: Id, component: ComponentNo) -> Turn
        ensures { let s = passed (state_of self.old) in
            let v = Value.Names object in
            let value = step.newest named s in
            IsTurn (step.store_next named v component.0 value (look s.heap v) (step.popped s))
            (state_of self.old) result (state_of self.new) }
    {
        let Some(cell) = self.objects.existing(object) else {
            return Turn::Halts(Halt::Erroneous(Why::FollowsGone));
        };
        match cell.values.get(component.0) {
            None => Turn::Halts(Halt::Stuck),
            Some(_) => {
                let value = self.newest();
                self.pass();
                self.pop();
                self.objects.store(object, component, value);
                Turn::Moves(Event::Followed { object })
            }
        }
    }

    /// The newest operand gives access to the object whose component takes the next number of the input. Null raises
    /// Constraint_Error.
    pub(crate) fn receive(&mut self, component: ComponentNo) -> Turn
        ensures { let s = passed (state_of self.old) in
            let v = step.newest named s in
            IsTurn (step.receive_next named v component.0 (look s.heap v) (step.popped s))
            (state_of self.old) result (state_of self.new) }
    {
        match self.newest() {
            Value::Null => {
                self.pass();
                self.raise(Exception::ConstraintError);
                QUIET
            }
            Value::Scalar(_)
            | Value::Part {
                object: _,
                place: _,
            } => Turn::Halts(Halt::Stuck),
            Value::Names(object) => self.receive_in_object(object, component),
        }
    }

    /// A component of the object of a name takes the next number of the input; where there is none, End_Error is raised.
    fn receive_in_object(&mut self, object: Id, component: ComponentNo) -> Turn
        ensures { let s = passed (state_of self.old) in
            let v = Value.Names object in
            IsTurn (step.receive_next named v component.0 (look s.heap v) (step.popped s))
            (state_of self.old) result (state_of self.new) }
    {
        let Some(cell) = self.objects.existing(object) else {
            return Turn::Halts(Halt::Erroneous(Why::FollowsGone));
        };
        match cell.values.get(component.0) {
            None => Turn::Halts(Halt::Stuck),
            Some(_) => {
                self.pass();
                self.pop();
                match self.input.next() {
                    None => self.raise(Exception::EndError),
                    Some(number) => {
                        let value = Value::Scalar(Scalar::Integer(number));
                        self.objects.store(object, component, value);
                    }
                }
                Turn::Moves(Event::Followed { object })
            }
        }
    }
}

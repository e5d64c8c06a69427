//! Paths and expressions: each step evaluates one part of them.

ghost use Rattle.std.specs.Prelude.{◌≡◌, ◌+◌, map, IfOk, OnOk};
ghost use Rattle.ada_program.specs.Form.{component_number, path_form, record_path_form, expression_form};
ghost use Rattle.ada_meaning.specs.Event.{Quiet, event_of};
ghost use Rattle.ada_meaning.specs.Frame as frame;
ghost use Rattle.ada_meaning.specs.Step as step;
ghost use Rattle.ada_meaning.specs.Named.{State, named, look, whole};
ghost use Rattle.ada_interpreter.specs.Objects.{first_in};
ghost use Rattle.ada_interpreter.specs.Process.{frame_of, state_of, passed, replaced, pushed, Turns, behind, going_by, outcome_of};

use crate::frame::Frame;
use crate::process::Process;
use crate::turn::{QUIET, Turn};
use crate::values::{first_in, place_in, values_behind, whole};
use ada_meaning::{Event, Exception, Halt, Id, Place, Value, Why};
use ada_program::program::{ComponentNo, Expression, RecordPath};
use ada_program::{Path, VariableNo};
use ada_values::Value as Scalar;
use std::alloc::AllocError;

/// What comes of a path or of an operator.
#[derive(Clone, Copy)]
pub(crate) enum Outcome<'a> {
    /// A value; nothing is named behind it.
    Value(Value),
    /// Constraint_Error is raised.
    Raises,
    /// An object is followed, to this component of it; more may be named behind that.
    Component {
        object: Id,
        value: Value,
        rest: &'a [ComponentNo],
    },
}

impl<'a> Process<'a> {
    /// An expression is evaluated (4.4), its left operand before the right one.
    #[tactic(auto, using(std::proofs::lemmas::Grind::common_steps, ada_program::specs::Form::expression_rules))]
    pub(crate) fn compute(&mut self, expression: &'a Expression) -> Result<Turn, AllocError>
        ensures { let s = state_of self.old in
            Turns (step.expression_next named (expression_form expression.now) (passed s))
            s result (state_of self.new) }
    {
        match expression {
            Expression::Integer(value) => {
                self.give(Value::Scalar(Scalar::Integer(*value)))?;
                Ok(QUIET)
            }
            Expression::Boolean(value) => {
                self.give(Value::Scalar(Scalar::Boolean(*value)))?;
                Ok(QUIET)
            }
            Expression::Path(path) => self.read(path),
            Expression::NullTest { path, equal } => self.read_then(
                path.root,
                path.selectors.as_slice(),
                Frame::TestsNull { equal: *equal },
            ),
            Expression::Unary { operator, operand } => {
                self.compute_then(operand, Frame::AppliesAlone(*operator))
            }
            Expression::Chain { first, links } => {
                self.compute_then(first, Frame::Continues(links.as_slice()))
            }
        }
    }

    /// An operand is evaluated in place of the first of what is left to do, and then this is to be done.
    fn compute_then(&mut self, operand: &'a Expression, then: Frame<'a>) -> Result<Turn, AllocError>
        ensures { let s = replaced (frame_of then.entry) (state_of self.old) in
            Turns
            (step.moves Quiet (pushed (frame.Computes (expression_form operand.now)) s))
            (state_of self.old) result (state_of self.new) }
    {
        self.replace_by_two(Frame::Computes(operand), then)?;
        Ok(QUIET)
    }

    /// A path is read (4.1): null raises Constraint_Error, and to follow an object that is gone is erroneous (13.11.2).
    pub(crate) fn read(&mut self, path: &'a Path) -> Result<Turn, AllocError>
        ensures { let s = state_of self.old in let form = path_form path.now in
            Turns
            (step.named_next named form.selectors form.root (passed s))
            s result (state_of self.new) }
    {
        match path.selectors.as_slice().split_first() {
            None => {
                let value = whole(self.held(path.root));
                self.give(value)?;
                Ok(QUIET)
            }
            Some(_) => self.read_behind(path),
        }
    }

    /// A path is read that goes on behind its variable.
    fn read_behind(&mut self, path: &'a Path) -> Result<Turn, AllocError>
        ensures { let s = state_of self.old in let form = path_form path.now in
            Turns
            (step.named_next named form.selectors form.root (passed s))
            s result (state_of self.new) }
    {
        let value = self.held(path.root);
        match self.reach_from(value, path.selectors.as_slice()) {
            Err(halt) => Ok(Turn::Halts(halt)),
            Ok(outcome) => {
                self.pass();
                Ok(Turn::Moves(self.proceed(outcome)?))
            }
        }
    }

    /// A path is read, and then something is to be done with its value, in place of the first of what is left to do.
    pub(crate) fn read_then(
        &mut self,
        variable: VariableNo,
        selectors: &'a [ComponentNo],
        then: Frame<'a>,
    ) -> Result<Turn, AllocError>
        ensures { let s = replaced (frame_of then.entry) (state_of self.old) in
            Turns (step.named_next named (map component_number selectors.now) variable.0 s)
            (state_of self.old) result (state_of self.new) }
    {
        let value = self.held(variable);
        match self.reach_from(value, selectors) {
            Err(halt) => Ok(Turn::Halts(halt)),
            Ok(outcome) => {
                self.replace(then)?;
                Ok(Turn::Moves(self.proceed(outcome)?))
            }
        }
    }

    /// The newest operand is followed to what is named behind it.
    pub(crate) fn follow(&mut self, selectors: &'a [ComponentNo]) -> Result<Turn, AllocError>
        ensures { let s = state_of self.old in
            Turns
            (step.path_next named (map component_number selectors.now) (step.newest named (passed s)) (step.popped (passed s)))
            s result (state_of self.new) }
    {
        let value = self.newest();
        match self.reach(value, selectors) {
            Err(halt) => Ok(Turn::Halts(halt)),
            Ok(outcome) => {
                self.pass();
                self.pop();
                Ok(Turn::Moves(self.proceed(outcome)?))
            }
        }
    }

    /// What comes of the components that are named behind a value.
    pub(crate) fn reach(
        &self,
        value: Value,
        selectors: &'a [ComponentNo],
    ) -> Result<Outcome<'a>, Halt>
        ensures { (s : State) → s.heap ≡ self.now.objects →
            step.path_next named (map component_number selectors.now) value s ≡ outcome_of result s }
    {
        match selectors.split_first() {
            None => Ok(Outcome::Value(value)),
            Some((first, rest)) => match value {
                Value::Null => Ok(Outcome::Raises),
                Value::Scalar(_)
                | Value::Part {
                    object: _,
                    place: _,
                } => Err(Halt::Stuck),
                Value::Names(object) => self.component(object, *first, rest),
            },
        }
    }

    /// What comes of the components that are named behind what a variable holds (4.1, 6.2). A record parameter stands for a
    /// record that lies in an object, so the first of them is a component of that.
    pub(crate) fn reach_from(
        &self,
        value: Value,
        selectors: &'a [ComponentNo],
    ) -> Result<Outcome<'a>, Halt>
        ensures { let named_behind = step.selected named value (map component_number selectors.now) in
            (s : State) → s.heap ≡ self.now.objects →
            step.path_next named named_behind (whole value) s ≡ outcome_of result s }
    {
        match selectors.split_first() {
            None => Ok(Outcome::Value(whole(value))),
            Some((component, rest)) => match value {
                Value::Null => Ok(Outcome::Raises),
                Value::Scalar(_) => Err(Halt::Stuck),
                Value::Names(object) => self.component(object, *component, rest),
                Value::Part { object, place } => {
                    self.component_behind(object, place.component, *component, rest)
                }
            },
        }
    }

    /// What comes of a component of an object: to follow one that is gone is erroneous (13.11.2).
    fn component(
        &self,
        object: Id,
        component: ComponentNo,
        rest: &'a [ComponentNo],
    ) -> Result<Outcome<'a>, Halt>
        ensures { let v = Value.Names object in (s : State) → s.heap ≡ self.now.objects →
            step.follow_next named v component.0 (map component_number rest.now) (look s.heap v) s ≡ outcome_of result s }
    {
        match self.objects.existing(object) {
            None => Err(Halt::Erroneous(Why::FollowsGone)),
            Some(cell) => match cell.values.get(component.0) {
                None => Err(Halt::Stuck),
                Some(value) => Ok(Outcome::Component {
                    object,
                    value: *value,
                    rest,
                }),
            },
        }
    }

    /// What comes of a component of a record that lies in an object from its component `first` on (6.2).
    fn component_behind(
        &self,
        object: Id,
        first: usize,
        component: ComponentNo,
        rest: &'a [ComponentNo],
    ) -> Result<Outcome<'a>, Halt>
        ensures { let v = Value.Names object in (s : State) → s.heap ≡ self.now.objects →
            step.follow_next named v (first + component.0) (map component_number rest.now) (look s.heap v) s ≡ outcome_of result s }
    {
        match self.objects.existing(object) {
            None => Err(Halt::Erroneous(Why::FollowsGone)),
            Some(cell) => match values_behind(cell.values.as_slice(), first).get(component.0) {
                None => Err(Halt::Stuck),
                Some(value) => Ok(Outcome::Component {
                    object,
                    value: *value,
                    rest,
                }),
            },
        }
    }

    /// The number that a component has in the object to which a path leads from a variable (4.1.3, 6.2).
    pub(crate) fn number_in(
        &self,
        variable: VariableNo,
        selectors: &[ComponentNo],
        component: ComponentNo,
    ) -> Result<ComponentNo, AllocError>
        ensures { let v = step.held named (state_of self.now) variable.0 in
            IfOk result
            (λ number. number.0 ≡ first_in v (map component_number selectors.now) component.0) }
    {
        first_in(self.held(variable), selectors, component)
    }

    /// Where a record begins in the object to which its path leads (4.1, 6.2).
    pub(crate) fn place_in(&self, path: &RecordPath) -> Result<Place, AllocError>
        ensures { let form = record_path_form path.now in
            let v = step.held named (state_of self.now) form.object.root in
            IfOk result (λ place. place ≡ step.place_in named v form.object.selectors form) }
    {
        place_in(self.held(path.object.root), path)
    }

    /// The run goes on by an outcome.
    pub(crate) fn proceed(&mut self, outcome: Outcome<'a>) -> Result<Event, AllocError>
        ensures { IfOk result
            (λ event. step.moves (event_of event) (state_of self.new) ≡
            going_by outcome.entry (state_of self.old)) }
    {
        match outcome {
            Outcome::Value(value) => {
                self.keep(value)?;
                Ok(Event::Quiet)
            }
            Outcome::Raises => {
                self.raise(Exception::ConstraintError);
                Ok(Event::Quiet)
            }
            Outcome::Component {
                object,
                value,
                rest,
            } => {
                self.keep(value)?;
                self.go_behind(rest)?;
                Ok(Event::Followed { object })
            }
        }
    }

    /// What is named behind a component is followed next.
    fn go_behind(&mut self, rest: &'a [ComponentNo]) -> Result<(), AllocError>
        ensures { OnOk result
            (state_of self.new ≡ behind (map component_number rest.now) (state_of self.old)) }
    {
        if rest.is_empty() {
            Ok(())
        } else {
            self.push(Frame::Follows(rest))
        }
    }
}

//! Operators: the chains of one level, and the tests of an access value against null.

ghost use Rattle.std.specs.Prelude.{◌≡◌, OnOk};
ghost use Rattle.ada_program.specs.Form.{links_form};
ghost use Rattle.ada_meaning.specs.Event.{Quiet};
ghost use Rattle.ada_meaning.specs.Step as step;
ghost use Rattle.ada_meaning.specs.Named.{State, named, reads_boolean, reads_null, unary_given, binary_given, as_value};
ghost use Rattle.ada_interpreter.specs.Process.{state_of, passed, Turns, outcome_of};

use crate::expressions::Outcome;
use crate::frame::Frame;
use crate::process::Process;
use crate::turn::{QUIET, Turn};
use ada_meaning::{Halt, Value};
use ada_program::program::Link;
use ada_values::operator::{BinaryOperator, UnaryOperator};
use ada_values::{OperatorFault, Value as Scalar};
use std::alloc::AllocError;

impl<'a> Process<'a> {
    /// The operators of a chain that are left, from left to right (4.5).
    pub(crate) fn go_on(&mut self, links: &'a [Link]) -> Result<(), AllocError>
        ensures { let s = passed (state_of self.old) in
            OnOk result (step.moves Quiet (state_of self.new) ≡ step.links_next named (links_form links.now) s) }
    {
        match links.split_first() {
            None => {
                self.pass();
                Ok(())
            }
            Some((first, rest)) => {
                if is_decided(first.operator, self.newest()) {
                    self.replace(Frame::Continues(rest))
                } else {
                    self.replace_by_three(
                        Frame::Computes(&first.operand),
                        Frame::Applies(first.operator),
                        Frame::Continues(rest),
                    )
                }
            }
        }
    }

    /// An operator is applied to the two newest operands (4.5).
    pub(crate) fn apply(&mut self, operator: BinaryOperator) -> Result<Turn, AllocError>
        ensures { let s = passed (state_of self.old) in
            Turns
            (step.outcome_next named (binary_given operator (step.newest named (step.popped s)) (step.newest named s)) (step.popped (step.popped s)))
            (state_of self.old) result (state_of self.new) }
    {
        match binary(operator, self.second(), self.newest()) {
            Err(halt) => Ok(Turn::Halts(halt)),
            Ok(outcome) => {
                self.pass();
                self.pop();
                self.pop();
                Ok(Turn::Moves(self.proceed(outcome)?))
            }
        }
    }

    /// An operator is applied to the newest operand (4.5.4, 4.5.6).
    pub(crate) fn apply_alone(&mut self, operator: UnaryOperator) -> Result<Turn, AllocError>
        ensures { let s = passed (state_of self.old) in
            Turns
            (step.outcome_next named (unary_given operator (step.newest named s)) (step.popped s))
            (state_of self.old) result (state_of self.new) }
    {
        match unary(operator, self.newest()) {
            Err(halt) => Ok(Turn::Halts(halt)),
            Ok(outcome) => {
                self.pass();
                self.pop();
                Ok(Turn::Moves(self.proceed(outcome)?))
            }
        }
    }

    /// Whether the newest operand, an access value, is null, or is not (4.5.2).
    pub(crate) fn test_null(&mut self, equal: bool) -> Result<Turn, AllocError>
        ensures { let s = passed (state_of self.old) in
            Turns (step.null_test_next named equal (reads_null (step.newest named s)) (step.popped s))
            (state_of self.old) result (state_of self.new) }
    {
        match self.newest() {
            Value::Null => {
                self.exchange(Value::Scalar(Scalar::Boolean(equal)))?;
                Ok(QUIET)
            }
            Value::Names(_) => {
                self.exchange(Value::Scalar(Scalar::Boolean(!equal)))?;
                Ok(QUIET)
            }
            Value::Scalar(_)
            | Value::Part {
                object: _,
                place: _,
            } => { Ok(Turn::Halts(Halt::Stuck)) }
        }
    }

    /// The first of what is left to do gives a value in place of the newest operand.
    fn exchange(&mut self, value: Value) -> Result<(), AllocError>
        ensures { OnOk result
            (state_of self.new ≡ step.computed value (step.popped (passed (state_of self.old)))) }
    {
        self.pop();
        self.give(value)
    }
}

/// Does the left operand decide a short-circuit form (4.5.1)? Its right operand isn't evaluated then.
pub(crate) fn is_decided(operator: BinaryOperator, left: Value) -> bool
    ensures { result ≡ step.is_decided named operator (reads_boolean left) }
{
    match (operator, left) {
        (BinaryOperator::AndThen, Value::Scalar(Scalar::Boolean(truth))) => !truth,
        (BinaryOperator::OrElse, Value::Scalar(Scalar::Boolean(truth))) => truth,
        _ => false,
    }
}

/// What comes of an operator between values (4.5).
fn binary<'a>(operator: BinaryOperator, left: Value, right: Value) -> Result<Outcome<'a>, Halt>
    ensures { (s : State) → step.outcome_next named (binary_given operator left right) s
        ≡ outcome_of result s }
{
    match (left, right) {
        (Value::Scalar(left), Value::Scalar(right)) => {
            given(ada_values::binary(operator, left, right))
        }
        _ => Err(Halt::Stuck),
    }
}

/// What comes of an operator before a value (4.5.4, 4.5.6).
fn unary<'a>(operator: UnaryOperator, operand: Value) -> Result<Outcome<'a>, Halt>
    ensures { (s : State) → step.outcome_next named (unary_given operator operand) s
        ≡ outcome_of result s }
{
    match operand {
        Value::Scalar(operand) => given(ada_values::unary(operator, operand)),
        _ => Err(Halt::Stuck),
    }
}

/// What comes of what an operator gives (4.5): a value, or Constraint_Error.
fn given<'a>(outcome: Result<Scalar, OperatorFault>) -> Result<Outcome<'a>, Halt>
    ensures { (s : State) → step.outcome_next named (as_value outcome) s ≡ outcome_of result s }
{
    match outcome {
        Ok(value) => Ok(Outcome::Value(Value::Scalar(value))),
        Err(OperatorFault::Overflow | OperatorFault::DivisionByZero) => Ok(Outcome::Raises),
        Err(OperatorFault::WrongType) => Err(Halt::Stuck),
    }
}

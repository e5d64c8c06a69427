//! Common steps of expressions: values that are given without anybody being told or asked.

ghost use Rattle.std.specs.Prelude.{◌≡◌, List};
ghost use Rattle.std.specs.Option.{option_copied};
ghost use Rattle.ada_program.specs.declared.program.TypeDefinition.{TypeDefinition};
ghost use Rattle.ada_program.specs.Form.{initial_form, path_form, expression_form};
ghost use Rattle.ada_meaning.specs.Step as step;
ghost use Rattle.ada_meaning.specs.Named.{named, binary_given};
ghost use Rattle.ada_interpreter.specs.CommonSteps.{MayMove};
ghost use Rattle.ada_interpreter.specs.Process.{state_of, passed};

use crate::frame::Frame;
use crate::process::Process;
use crate::values::whole;
use ada_meaning::Value;
use ada_program::Path;
use ada_program::program::{Expression, Right};
use ada_values::Value as Scalar;
use ada_values::operator::BinaryOperator;
use std::alloc::AllocError;

impl<'a> Process<'a> {
    /// What is assigned (5.2): a variable, or the value of an expression.
    pub(crate) fn evaluate_next(&mut self, right: Option<&'a Right>) -> Result<bool, AllocError>
        ensures { let s = passed (state_of self.old) in
            let form = initial_form (option_copied right.entry) in
            (types : List TypeDefinition) → MayMove (step.right_next named types form s) self.old result self.new }
    {
        match right {
            Some(Right::Value(expression)) => {
                self.replace(Frame::Computes(expression))?;
                Ok(true)
            }
            Some(Right::Path(path)) => self.read_next(path),
            _ => Ok(false),
        }
    }

    /// An expression (4.4).
    #[tactic(auto, using(std::proofs::lemmas::Grind::common_steps, ada_program::specs::Form::expression_rules))]
    pub(crate) fn compute_next(&mut self, expression: &'a Expression) -> Result<bool, AllocError>
        ensures { let s = passed (state_of self.old) in
            MayMove (step.expression_next named (expression_form expression.now) s) self.old result self.new }
    {
        match expression {
            Expression::Integer(value) => {
                self.give(Value::Scalar(Scalar::Integer(*value)))?;
                Ok(true)
            }
            Expression::Boolean(value) => {
                self.give(Value::Scalar(Scalar::Boolean(*value)))?;
                Ok(true)
            }
            Expression::Path(path) => self.read_next(path),
            Expression::Chain { first, links } => {
                self.replace_by_two(Frame::Computes(first), Frame::Continues(links.as_slice()))?;
                Ok(true)
            }
            _ => Ok(false),
        }
    }

    /// A path that is a variable (4.1).
    pub(crate) fn read_next(&mut self, path: &'a Path) -> Result<bool, AllocError>
        ensures { let s = passed (state_of self.old) in let form = path_form path.now in
            MayMove (step.named_next named form.selectors form.root s) self.old result self.new }
    {
        match path.selectors.as_slice().first() {
            None => {
                let value = whole(self.held(path.root));
                self.give(value)?;
                Ok(true)
            }
            Some(_) => Ok(false),
        }
    }

    /// An operator between the two newest operands, where it gives a value (4.5).
    pub(crate) fn apply_next(&mut self, operator: BinaryOperator) -> Result<bool, AllocError>
        ensures { let s = passed (state_of self.old) in
            MayMove
            (step.outcome_next named (binary_given operator (step.newest named (step.popped s)) (step.newest named s)) (step.popped (step.popped s)))
            self.old result self.new }
    {
        match (self.second(), self.newest()) {
            (Value::Scalar(left), Value::Scalar(right)) => {
                match ada_values::binary(operator, left, right) {
                    Ok(value) => {
                        self.pop();
                        self.pop();
                        self.give(Value::Scalar(value))?;
                        Ok(true)
                    }
                    Err(_) => Ok(false),
                }
            }
            _ => Ok(false),
        }
    }
}

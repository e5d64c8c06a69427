//! Actual parameters: which values and references they are, what they give to formal ones, and what these give back.

ghost use Rattle.std.specs.Prelude.{◌≡◌, [], ◌∷◌, ◌++◌, take, drop, map, OnOk};
ghost use Rattle.ada_program.specs.Form.{actual_form};
ghost use Rattle.ada_program.specs.ProgramForm.{variable_form};
ghost use Rattle.ada_meaning.specs.Step.{blank, blanks, given_places, copied_back, stored_back, operand_count, given_values, references_in};
ghost use Rattle.ada_meaning.specs.Named.{named};
ghost use Rattle.ada_interpreter.specs.Activations.{is_component};

use crate::stack::Stack;
use crate::values::{set_value, values_behind};
use ada_meaning::Value;
use ada_program::program::{Actual, Variable, VariableKind};
use ada_values::Value as Scalar;
use std::alloc::AllocError;

/// The formal parameters in the places from `callee` on give back what they hold to their caller's variables, whose places
/// are those from `caller` on in front of them.
pub(crate) fn copy_back_behind(
    places: &mut [Value],
    caller: usize,
    callee: usize,
    actuals: &[Actual],
)
    ensures given { let held = drop caller (take callee places.old) in
        drop caller (take callee places.new)
        ≡ copied_back (map actual_form actuals.now) (drop callee places.old) held }
    ensures before { take caller (take callee places.new) ≡ take caller (take callee places.old) }
    ensures formals { drop callee places.new ≡ drop callee places.old }
{
    if callee < places.len() {
        let (callers, formals) = places.split_at_mut(callee);
        if caller < callers.len() {
            let (_, variables) = callers.split_at_mut(caller);
            copy_back(variables, formals, actuals);
        }
    }
}

/// Each formal parameter of mode `in out` gives back what it holds to the variable for which it stands, from left to right
/// (6.4.1).
fn copy_back(variables: &mut [Value], formals: &[Value], actuals: &[Actual])
    ensures { variables.new ≡ copied_back (map actual_form actuals.now) formals.now variables.old }
{
    for (actual, held) in actuals.iter().zip(formals) {
        match actual {
            Actual::InOut(path) | Actual::InOutAccess(path) => {
                set_value(variables, path.root.0, *held);
            }
            Actual::In(_)
            | Actual::InNull
            | Actual::InAccess(_)
            | Actual::InRecord(_)
            | Actual::InOutComponent(_)
            | Actual::InOutRecord(_) => {}
        }
    }
}

/// Is an actual parameter a component, for a formal one of mode `in out`? It takes two operands: what refers to it, and its
/// value (6.4.1).
fn is_component(actual: &Actual) -> bool
    ensures { result ≡ is_component (actual_form actual.now) }
{
    match actual {
        Actual::InOutComponent(_) => true,
        Actual::In(_)
        | Actual::InNull
        | Actual::InAccess(_)
        | Actual::InRecord(_)
        | Actual::InOut(_)
        | Actual::InOutAccess(_)
        | Actual::InOutRecord(_) => false,
    }
}

/// How many operands the values of actual parameters are.
pub(crate) fn operand_count(actuals: &[Actual]) -> usize
    ensures { result ≡ operand_count (map actual_form actuals.now) }
{
    let mut count = 0;
    for actual in actuals {
        count += if is_component(actual) { 2 } else { 1 };
    }
    count
}

/// The places of a body's variables are laid behind others: the first ones hold the values of the actual parameters (6.4.1),
/// which are among these operands.
pub(crate) fn lay_places(
    places: &mut Vec<Value>,
    actuals: &[Actual],
    computed: &[Value],
    variables: &[Variable],
) -> Result<(), AllocError>
    ensures { let values = given_values (map actual_form actuals.now) computed.now in
        OnOk result
        (places.new.items ≡ places.old.items ++ given_places named values (map variable_form variables.now)) }
{
    let base = places.len();
    lay_values(places, actuals, computed)?;
    let formals = places.len() - base;
    lay_blanks(places, variables_behind(variables, formals))
}

/// The places of the variables of an operation's body are laid behind others (7.6): the first one holds what stands for its
/// formal parameter.
pub(crate) fn lay_parameter(
    places: &mut Vec<Value>,
    reference: Value,
    variables: &[Variable],
) -> Result<(), AllocError>
    ensures { let all = given_places named (reference ∷ []) (map variable_form variables.now) in
        OnOk result (places.new.items ≡ places.old.items ++ all) }
{
    places.push(reference)?;
    lay_blanks(places, variables_behind(variables, 1))
}

/// The values of actual parameters are laid behind other places, in order: that of a component stands behind what refers to
/// it.
fn lay_values(
    places: &mut Vec<Value>,
    actuals: &[Actual],
    computed: &[Value],
) -> Result<(), AllocError>
    ensures { let values = given_values (map actual_form actuals.now) computed.now in
        OnOk result (places.new.items ≡ places.old.items ++ values) }
{
    let mut left = computed;
    for actual in actuals {
        if is_component(actual) {
            left = values_behind(left, 1);
        }
        match left.split_first() {
            None => return Ok(()),
            Some((value, behind)) => {
                places.push(*value)?;
                left = behind;
            }
        }
    }
    Ok(())
}

/// What refers to the components that are given is put behind other references, in order.
pub(crate) fn push_references(
    references: &mut Vec<Value>,
    actuals: &[Actual],
    computed: &[Value],
) -> Result<(), AllocError>
    ensures { let given = references_in (map actual_form actuals.now) computed.now in
        OnOk result (references.new.items ≡ references.old.items ++ given) }
{
    let mut left = computed;
    for actual in actuals {
        let Some((first, behind)) = left.split_first() else {
            return Ok(());
        };
        if is_component(actual) {
            let Some((_, others)) = behind.split_first() else {
                return Ok(());
            };
            references.push(*first)?;
            left = others;
        } else {
            left = behind;
        }
    }
    Ok(())
}

/// What formal parameters hold that give it back to components (6.4.1) is put onto operands: the first one becomes the newest.
pub(crate) fn push_stored(
    operands: &mut Stack<Value>,
    formals: &[Value],
    actuals: &[Actual],
) -> Result<(), AllocError>
    ensures { let stored = stored_back (map actual_form actuals.now) formals.now in
        OnOk result (operands.new ≡ stored ++ operands.old) }
{
    let mut left = if actuals.len() < formals.len() {
        actuals.len()
    } else {
        formals.len()
    };
    'actuals: while left > 0 {
        left -= 1;
        if is_component(&actuals[left]) {
            operands.push(formals[left])?;
        }
    }
    Ok(())
}

/// The variables from a number on.
fn variables_behind(variables: &[Variable], first: usize) -> &[Variable]
    ensures { result.now ≡ drop first variables.now }
{
    if first < variables.len() {
        &variables[first..]
    } else {
        &[]
    }
}

/// What lies in the places of variables before their declarations are elaborated is laid behind other places.
pub(crate) fn lay_blanks(places: &mut Vec<Value>, variables: &[Variable]) -> Result<(), AllocError>
    ensures { OnOk result
        (places.new.items ≡ places.old.items ++ blanks named (map variable_form variables.now)) }
{
    for variable in variables {
        places.push(blank(variable.kind))?;
    }
    Ok(())
}

/// What lies in a variable's place before its declaration is elaborated: a value of its kind.
fn blank(kind: VariableKind) -> Value
    ensures { result ≡ blank named kind }
{
    match kind {
        VariableKind::Integer => Value::Scalar(Scalar::Integer(0)),
        VariableKind::Boolean => Value::Scalar(Scalar::Boolean(false)),
        VariableKind::Access(_) | VariableKind::Record(_) => Value::Null,
    }
}

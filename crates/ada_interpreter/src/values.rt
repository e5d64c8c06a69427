//! Values by number: total reads and writes.

ghost use Rattle.std.specs.Prelude.{◌≡◌, take, drop, map, IfOk};
ghost use Rattle.std.specs.List.{slice_index_or, slice_set};
ghost use Rattle.std.specs.Option.{option_copied};
ghost use Rattle.ada_program.specs.Form.{component_number, record_path_form};
ghost use Rattle.ada_meaning.specs.Step.{initial_value, record_in, place_in};
ghost use Rattle.ada_meaning.specs.Named.{named, reads_boolean, reads_integer, whole, base, inside, part_inside};
ghost use Rattle.ada_interpreter.specs.Objects.{set_from, first_in};

use ada_meaning::{Place, Value};
use ada_program::program::{ComponentKind, ComponentNo, RecordPath};
use ada_values::Value as Scalar;
use std::alloc::{AllocError, Global};

/// The value at a number; null, if there is none.
pub(crate) fn value_at(values: &[Value], i: usize) -> Value
    ensures { result ≡ slice_index_or values.now i Value.Null }
{
    if i < values.len() {
        values[i]
    } else {
        Value::Null
    }
}

/// The value at a number becomes another; nothing, if there is none.
pub(crate) fn set_value(values: &mut [Value], i: usize, value: Value)
    ensures { values.new ≡ slice_set values.old i value }
{
    if i < values.len() {
        values[i] = value;
    }
}

/// The value at a number becomes another, counted from the first of those behind some; nothing, if there is none.
pub(crate) fn set_value_behind(values: &mut [Value], first: usize, i: usize, value: Value)
    ensures behind { drop first values.new ≡ slice_set (drop first values.old) i value }
    ensures before { take first values.new ≡ take first values.old }
{
    if i < values.len().saturating_sub(first) {
        values[first + i] = value;
    }
}

/// Values become others, from a number on; what would come behind the end is dropped.
pub(crate) fn set_values(values: &mut [Value], first: usize, others: &[Value])
    ensures { values.new ≡ set_from values.old first others.now }
{
    let mut i = first;
    for value in others {
        if i >= values.len() {
            break;
        }
        values[i] = *value;
        i += 1;
    }
}

/// The values of a record that lies among these, from a number on; none, if there are too few.
pub(crate) fn record_in(values: &[Value], first: usize, count: usize) -> Option<&[Value]>
    ensures { option_copied result ≡ record_in values.now first count }
{
    let behind = values_behind(values, first);
    if count <= behind.len() {
        Some(&behind[..count])
    } else {
        None
    }
}

/// The values from a number on.
pub(crate) fn values_behind(values: &[Value], first: usize) -> &[Value]
    ensures { result.now ≡ drop first values.now }
{
    if first < values.len() {
        &values[first..]
    } else {
        &[]
    }
}

/// The object in which that lies to which a value refers (6.2). Any other value is as it was.
pub(crate) fn whole(value: Value) -> Value
    ensures { result ≡ whole value }
{
    match value {
        Value::Part { object, place: _ } => Value::Names(object),
        Value::Null | Value::Names(_) | Value::Scalar(_) => value,
    }
}

/// The component of its object where that begins to which a value refers (6.2).
pub(crate) fn base(value: Value) -> ComponentNo
    ensures { result.0 ≡ base value }
{
    match value {
        Value::Part { object: _, place } => ComponentNo(place.component),
        Value::Null | Value::Names(_) | Value::Scalar(_) => ComponentNo(0),
    }
}

/// The number that a component has in the object of a value, which may refer to a record that lies in it (6.2). Fails where
/// that is past every number.
pub(crate) fn inside(value: Value, component: ComponentNo) -> Result<ComponentNo, AllocError>
    ensures { IfOk result (λ number. number.0 ≡ inside value component.0) }
{
    match value {
        Value::Part { object: _, place } => match place.component.checked_add(component.0) {
            Some(number) => Ok(ComponentNo(number)),
            None => Err(AllocError),
        },
        Value::Null | Value::Names(_) | Value::Scalar(_) => Ok(component),
    }
}

/// The number that a controlled part has in the object of a value, which may refer to a record that lies in it (6.2, 7.6). Fails
/// where that is past every number.
pub(crate) fn part_inside(value: Value, part: usize) -> Result<usize, AllocError>
    ensures { IfOk result (λ number. number ≡ part_inside value part) }
{
    match value {
        Value::Part { object: _, place } => match place.part.checked_add(part) {
            Some(number) => Ok(number),
            None => Err(AllocError),
        },
        Value::Null | Value::Names(_) | Value::Scalar(_) => Ok(part),
    }
}

/// Where a record begins in the object to which its path leads from a value: in that of the value, where nothing is selected
/// behind it (6.2).
pub(crate) fn place_in(value: Value, path: &RecordPath) -> Result<Place, AllocError>
    ensures { let form = record_path_form path.now in
        IfOk result (λ place. place ≡ place_in named value form.object.selectors form) }
{
    if path.object.selectors.is_empty() {
        let component = inside(value, path.first)?;
        let part = part_inside(value, path.part.0)?;
        Ok(Place {
            component: component.0,
            part,
        })
    } else {
        Ok(Place {
            component: path.first.0,
            part: path.part.0,
        })
    }
}

/// The number that a component has in the object to which these selectors lead from a value: where there are none, it is that
/// of the value.
pub(crate) fn first_in(
    value: Value,
    selectors: &[ComponentNo],
    component: ComponentNo,
) -> Result<ComponentNo, AllocError>
    ensures { IfOk result
        (λ number. number.0 ≡ first_in value (map component_number selectors.now) component.0) }
{
    if selectors.is_empty() {
        inside(value, component)
    } else {
        Ok(component)
    }
}

/// What a component holds at first where no value is given (3.3.1, 3.8): null, if it holds access values.
pub(crate) fn initial_value(kind: ComponentKind) -> Value
    ensures { result ≡ initial_value named kind }
{
    match kind {
        ComponentKind::Integer { initial } => Value::Scalar(Scalar::Integer(initial)),
        ComponentKind::Boolean { initial } => Value::Scalar(Scalar::Boolean(initial)),
        ComponentKind::Access(_) => Value::Null,
    }
}

/// What components hold at first, in their order.
pub(crate) fn initial_values(
    alloc: Global,
    components: &[ComponentKind],
) -> Result<Vec<Value>, AllocError>
    ensures { IfOk result (λ values. values.items ≡ map (initial_value named) components.now) }
{
    let mut values = Vec::new(alloc);
    values.reserve(components.len())?;
    for component in components {
        values.push(initial_value(*component))?;
    }
    Ok(values)
}

/// The truth that a value is (3.5.3), if it is a Boolean.
pub(crate) fn truth(value: Value) -> Option<bool>
    ensures { result ≡ reads_boolean value }
{
    match value {
        Value::Scalar(Scalar::Boolean(truth)) => Some(truth),
        _ => None,
    }
}

/// The number that a value is (3.5.4), if it is an Integer.
pub(crate) fn number(value: Value) -> Option<i32>
    ensures { result ≡ reads_integer value }
{
    match value {
        Value::Scalar(Scalar::Integer(number)) => Some(number),
        _ => None,
    }
}

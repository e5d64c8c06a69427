//! Tables of the record types that have controlled parts: which type has which number, and how finalization sees them.

ghost use Rattle.std.specs.Prelude.{◌≡◌, [], ◌∷◌, ◌++◌, ◌==◌, Some, None, not, map, replicate, count_by, IfOk, OnOk};
ghost use Rattle.std.specs.Option.{option_copied};
ghost use Rattle.ada_parts.specs.Shape.{parts_of};
ghost use Rattle.ada_program.specs.Controlled.{number_by, number_of, type_numbered, parts_by, has_parent, if_parts, with_parts, components_with_parts, shape_by, shapes_of};
ghost use Rattle.ada_program.specs.Controlled as controlled;
ghost use Rattle.ada_meaning.specs.Step.{has_parts};
ghost use Rattle.ada_interpreter.specs.Loaded.{IsNumbered, entered};

use ada_parts::Shapes;
use ada_program::TypeNo;
use ada_program::program::{Part, PartKind, TypeDefinition};
use std::alloc::{AllocError, Global};

/// Have the records of a type controlled parts (7.6)?
pub(crate) fn has_parts(types: &[TypeDefinition], record_type: TypeNo) -> bool
    ensures { result ≡ has_parts types.now record_type.0 }
{
    number_of(types, record_type).is_some()
}

/// The number that the type of a number has among the record types that have controlled parts.
pub(crate) fn number_of(types: &[TypeDefinition], record_type: TypeNo) -> Option<usize>
    ensures { result ≡ number_of types.now (Some record_type.0) }
{
    number_by(types.get(record_type.0)?)
}

/// The number of a type among the record types that have controlled parts.
fn number_by(definition: &TypeDefinition) -> Option<usize>
    ensures { result ≡ number_by (Some definition.now) }
{
    match definition {
        TypeDefinition::Record {
            name: _,
            parts: _,
            components: _,
            finalization: Some(finalization),
        } => Some(finalization.number.0),
        TypeDefinition::Record {
            name: _,
            parts: _,
            components: _,
            finalization: None,
        } => None,
        TypeDefinition::Access {
            name: _,
            designated: _,
            pool: _,
        } => None,
        TypeDefinition::Object { record: _ } => None,
    }
}

/// The first type that has a number among the record types that have controlled parts.
pub(crate) fn type_numbered(types: &[TypeDefinition], number: usize) -> Option<&TypeDefinition>
    ensures { option_copied result ≡ type_numbered types.now number }
{
    for definition in types {
        if is_number(number, definition) {
            return Some(definition);
        }
    }
    None
}

/// Is this the number of a type?
fn is_number(number: usize, definition: &TypeDefinition) -> bool
    ensures { result ≡ controlled.is_number number (number_by (Some definition.now)) }
{
    match number_by(definition) {
        None => false,
        Some(other) => other == number,
    }
}

/// A table of the record types that have controlled parts, by their numbers.
pub(crate) fn numbered_types<'a>(
    alloc: Global,
    types: &'a [TypeDefinition],
) -> Result<Vec<Option<&'a TypeDefinition>>, AllocError>
    ensures { IfOk result (λ table. IsNumbered types.now (map option_copied table.items)) }
{
    let mut table = unknown_types(alloc, count_with_parts(types))?;
    let mut left = types.len();
    'types: while left > 0 {
        left -= 1;
        enter(table.as_mut_slice(), &types[left]);
    }
    Ok(table)
}

/// How many types have controlled parts.
#[tactic(auto, using(std::proofs::lemmas::Grind::common_steps))]
fn count_with_parts(types: &[TypeDefinition]) -> usize
    ensures { result ≡ count_by controlled.has_parts types.now }
{
    types
        .iter()
        .filter(|definition| number_by(definition).is_some())
        .count()
}

/// A table in which no type is known.
fn unknown_types<'a>(
    alloc: Global,
    count: usize,
) -> Result<Vec<Option<&'a TypeDefinition>>, AllocError>
    ensures { IfOk result (λ table. map option_copied table.items ≡ replicate count None) }
{
    let mut table = Vec::new(alloc);
    table.reserve(count)?;
    'types: while table.len() < count {
        table.push(None)?;
    }
    Ok(table)
}

/// A type comes to the place of its number in a table, if it has a number, and that has a place.
fn enter<'a>(table: &mut [Option<&'a TypeDefinition>], definition: &'a TypeDefinition)
    ensures { map option_copied table.new ≡ entered definition.now (map option_copied table.old) }
{
    match number_by(definition) {
        None => {}
        Some(number) => {
            if number < table.len() {
                table[number] = Some(definition);
            }
        }
    }
}

/// The record types of a program that have controlled parts, as finalization sees them (7.6), by the table of these.
pub(crate) fn shapes_of(
    alloc: Global,
    types: &[TypeDefinition],
    table: &[Option<&TypeDefinition>],
) -> Result<Shapes, AllocError>
    requires { IsNumbered types.now (map option_copied table.now) }
    ensures { IfOk result (λ shapes. shapes ≡ shapes_of types.now) }
{
    let mut shapes = Shapes::new(alloc);
    for definition in table {
        push_shape(alloc, types, &mut shapes, parts_by(*definition))?;
    }
    Ok(shapes)
}

/// The components of a record type, as they are declared (3.8).
pub(crate) fn parts_by(definition: Option<&TypeDefinition>) -> &[Part]
    ensures { result.now ≡ parts_by (option_copied definition.entry) }
{
    match definition {
        Some(
            TypeDefinition::Record {
                name: _,
                parts,
                components: _,
                finalization: _,
            },
        ) => parts.as_slice(),
        _ => &[],
    }
}

/// A record type of these components comes into the table, behind those with less numbers.
fn push_shape(
    alloc: Global,
    types: &[TypeDefinition],
    shapes: &mut Shapes,
    parts: &[Part],
) -> Result<(), AllocError>
    ensures { OnOk result (shapes.new ≡ shape_by types.now shapes.old parts.now ∷ shapes.old) }
{
    let components = components_with_parts(alloc, types, shapes, parts)?;
    shapes.push(has_parent(parts), components)
}

/// Is one of some components the parent part of a controlled type (7.6)?
pub(crate) fn has_parent(parts: &[Part]) -> bool
    ensures { result ≡ has_parent parts.now }
{
    for part in parts {
        if let PartKind::Parent = part.kind {
            return true;
        }
    }
    false
}

/// The components of a record type that have controlled parts, by the numbers of their types, in order (7.6).
fn components_with_parts(
    alloc: Global,
    types: &[TypeDefinition],
    shapes: &Shapes,
    parts: &[Part],
) -> Result<Vec<usize>, AllocError>
    ensures { IfOk result
        (λ components. components.items ≡ components_with_parts types.now shapes.now parts.now) }
{
    let mut components = Vec::new(alloc);
    for part in parts {
        push_with_parts(&mut components, types, shapes, part.kind)?;
    }
    Ok(components)
}

/// A component comes behind others, if it has controlled parts.
fn push_with_parts(
    components: &mut Vec<usize>,
    types: &[TypeDefinition],
    shapes: &Shapes,
    kind: PartKind,
) -> Result<(), AllocError>
    ensures { let more = with_parts types.now shapes.now kind in
        OnOk result (components.new.items ≡ components.old.items ++ more) }
{
    match kind {
        PartKind::Elementary(_) | PartKind::Parent => Ok(()),
        PartKind::Record(record_type) => match number_of(types, record_type) {
            None => Ok(()),
            Some(number) => push_if_parts(components, shapes, number),
        },
    }
}

/// The number of a record type comes behind others, if it is known that it has controlled parts.
fn push_if_parts(
    components: &mut Vec<usize>,
    shapes: &Shapes,
    number: usize,
) -> Result<(), AllocError>
    ensures { let more = if_parts shapes.now (Some number) in
        OnOk result (components.new.items ≡ components.old.items ++ more) }
{
    if are_some(shapes, number) {
        push(components, number)
    } else {
        Ok(())
    }
}

/// A number comes behind others.
fn push(numbers: &mut Vec<usize>, number: usize) -> Result<(), AllocError>
    ensures { OnOk result (numbers.new.items ≡ numbers.old.items ++ number ∷ []) }
{
    numbers.push(number)?;
    Ok(())
}

/// Has a record type of this number controlled parts, as far as the table knows (7.6)?
pub(crate) fn are_some(shapes: &Shapes, number: usize) -> bool
    ensures { result ≡ not (parts_of shapes.now number == 0) }
{
    match shapes.parts(number) {
        Some(count) => count > 0,
        None => true,
    }
}

//! The record types of a program that have controlled parts, by their numbers among these: they are numbered as they are complete, so each
//! behind the types of its components (3.11.1, 7.6).

ghost use Rattle.std.specs.Prelude.{◌≡◌, None, Some, map, replicate, count_by, IfOk};
ghost use Rattle.std.specs.Option.{option_copied};
ghost use Rattle.ada_program.specs.Controlled as controlled;
ghost use Rattle.ada_quiet.specs.Known.{IsNumbered, entered};

use ada_program::program::TypeDefinition;
use std::alloc::{AllocError, Global};

/// The number of a type among the record types that have controlled parts.
fn number_by(definition: &TypeDefinition) -> Option<usize>
    ensures { result ≡ controlled.number_by (Some definition.now) }
{
    match definition {
        TypeDefinition::Record {
            name: _,
            parts: _,
            components: _,
            finalization: Some(finalization),
        } => Some(finalization.number.0),
        TypeDefinition::Record {
            name: _,
            parts: _,
            components: _,
            finalization: None,
        } => None,
        TypeDefinition::Access { .. } | TypeDefinition::Object { .. } => None,
    }
}

/// How many types have controlled parts.
#[tactic(auto, using(std::proofs::lemmas::Grind::common_steps))]
fn count_with_parts(types: &[TypeDefinition]) -> usize
    ensures { result ≡ count_by controlled.has_parts types.now }
{
    types
        .iter()
        .filter(|definition| number_by(definition).is_some())
        .count()
}

/// A table in which no type is known.
///
/// # Errors
/// `AllocError` where memory was refused.
fn unknown_types<'a>(
    alloc: Global,
    count: usize,
) -> Result<Vec<Option<&'a TypeDefinition>>, AllocError>
    ensures { IfOk result (λ table. map option_copied table.items ≡ replicate count None) }
{
    let mut table = Vec::new(alloc);
    'types: while table.len() < count {
        table.push(None)?;
    }
    Ok(table)
}

/// A type comes to the place of its number in a table, if it has a number, and that has a place.
fn enter<'a>(table: &mut [Option<&'a TypeDefinition>], definition: &'a TypeDefinition)
    ensures { map option_copied table.new ≡ entered definition.now (map option_copied table.old) }
{
    match number_by(definition) {
        None => {}
        Some(number) => {
            if number < table.len() {
                table[number] = Some(definition);
            }
        }
    }
}

/// A table of the record types that have controlled parts, by their numbers. Linear in the types.
///
/// # Errors
/// `AllocError` where memory was refused.
pub(crate) fn numbered_types<'a>(
    alloc: Global,
    types: &'a [TypeDefinition],
) -> Result<Vec<Option<&'a TypeDefinition>>, AllocError>
    ensures { IfOk result (λ table. IsNumbered types.now (map option_copied table.items)) }
{
    let mut table = unknown_types(alloc, count_with_parts(types))?;
    let mut left = types.len();
    'types: while left > 0 {
        left -= 1;
        enter(table.as_mut_slice(), &types[left]);
    }
    Ok(table)
}

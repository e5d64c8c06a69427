//! Whether a procedure uses objects that may be gone where the objects end for which it is called (7.6.1).

ghost use Rattle.std.specs.Prelude.{◌≡◌, ◌↔◌, ◌<◌, ℕ, true, false, length, slice_index_or, IfOk};
ghost use Rattle.std.specs.List.{Contains};
ghost use Rattle.ada_operations.specs.Operations.{UsesTooLate};
ghost use Rattle.ada_operations.specs.View.{IsBegun, IsLast, IsUsedAt, Knows};
ghost use Rattle.ada_operations.specs.View as rules;
ghost use Rattle.ada_program.specs.Kept.{types_in};
ghost use Rattle.ada_program.specs.ProgramForm.{program_form};
ghost use Rattle.ada_program.specs.WellFormed as fits;

use crate::facts::Facts;
use crate::places::{Place, Places, later_of, precedes};
use ada_deeds::Deed;
use ada_program::program::TypeDefinition;
use ada_program::{ProcedureNo, Program, TypeNo};
use ada_reach::reached;
use std::alloc::{AllocError, Global};

/// Whether a procedure frees objects of an access type, or follows its values.
fn uses(facts: &Facts, procedure: ProcedureNo, access: usize) -> bool
    ensures { result ≡ rules.uses_in facts.now.deeds procedure access }
{
    facts.deeds.does(procedure, Deed::Frees(TypeNo(access)))
        || facts.deeds.does(procedure, Deed::Follows(TypeNo(access)))
}

/// Where the last collection is created of those whose access types a procedure uses, among the first types.
fn last_used(facts: &Facts, procedure: ProcedureNo, count: usize) -> Option<Place>
    ensures { IsLast (IsUsedAt facts.now procedure count) result }
{
    let mut last = None;
    'types: for access in 0..count {
        if uses(facts, procedure, access) {
            last = later_of(last, Some(facts.places.at(access)));
        }
    }
    last
}

/// The type that an access type designates (3.10).
fn designated_type(types: &[TypeDefinition], number: usize) -> Option<usize>
    ensures { result ≡ fits.designated_type (types_in types.now) number }
{
    match types.get(number) {
        Some(
            TypeDefinition::Access {
                name: _,
                designated,
                pool: _,
            },
        ) => Some(designated.0),
        Some(TypeDefinition::Record { .. } | TypeDefinition::Object { .. }) | None => None,
    }
}

/// The same, if the collection of the access type is not created behind a place.
fn begun_type(
    types: &[TypeDefinition],
    places: &Places,
    place: Place,
    access: usize,
) -> Option<usize>
    ensures { result ≡ rules.begun_type (types_in types.now) places.now.table.items place access }
{
    if precedes(place, places.at(access)) {
        None
    } else {
        designated_type(types, access)
    }
}

/// The types that are designated by access types whose collections are not created behind a place.
fn begun_types(
    alloc: Global,
    types: &[TypeDefinition],
    places: &Places,
    place: Place,
) -> Result<Vec<usize>, AllocError>
    ensures all { IfOk result (λ begun. (whole : ℕ) →
        IsBegun (types_in types.now) places.now.table.items place (length types.now) whole → Contains begun.items whole) }
    ensures only { IfOk result (λ begun. (whole : ℕ) →
        Contains begun.items whole → IsBegun (types_in types.now) places.now.table.items place (length types.now) whole) }
{
    let mut begun = Vec::new(alloc);
    'types: for access in 0..types.len() {
        if let Some(whole) = begun_type(types, places, place, access) {
            begun.push(whole)?;
        }
    }
    Ok(begun)
}

/// Whether a procedure uses objects of an access type whose collection is not created before that of some access type, the objects
/// of which have a part of a record type. Linear in the types.
///
/// # Errors
/// `AllocError` where memory was refused.
pub(crate) fn uses_too_late(
    alloc: Global,
    program: &Program,
    facts: &Facts,
    procedure: ProcedureNo,
    record_type: usize,
) -> Result<bool, AllocError>
    requires facts { Knows (program_form program.now) facts.now }
    requires record { record_type < length program.now.types.items }
    ensures { IfOk result (λ answer. (answer ≡ true) ↔ UsesTooLate (program_form program.now) procedure record_type) }
{
    match last_used(facts, procedure, program.types.len()) {
        None => Ok(false),
        Some(place) => {
            let begun = begun_types(alloc, &program.types, &facts.places, place)?;
            let marks = reached(alloc, &facts.graph, &begun)?;
            Ok(is_marked(&marks, record_type))
        }
    }
}

/// Whether a node is marked.
fn is_marked(marks: &[bool], node: usize) -> bool
    ensures { result ≡ slice_index_or marks.now node false }
{
    match marks.get(node) {
        None => false,
        Some(mark) => *mark,
    }
}

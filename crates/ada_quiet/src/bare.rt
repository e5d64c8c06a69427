//! Access types whose objects have no controlled parts (3.10, 7.6).

ghost use Rattle.std.specs.Prelude.{◌≡◌, Some};
ghost use Rattle.ada_program.specs.Kept.{types_in};
ghost use Rattle.ada_program.specs.ProgramForm.{type_form};
ghost use Rattle.ada_quiet.specs.Bare as rules;

use ada_program::TypeNo;
use ada_program::parts::finalization_of;
use ada_program::program::TypeDefinition;

/// Whether a type is an access type that designates a record type without controlled parts (3.10, 7.6).
fn is_bare_access(types: &[TypeDefinition], definition: &TypeDefinition) -> bool
    ensures { result ≡ rules.is_bare_access (types_in types.now) (Some (type_form definition.now)) }
{
    match definition {
        TypeDefinition::Access {
            name: _,
            designated,
            pool: _,
        } => finalization_of(types, designated.0).is_none(),
        TypeDefinition::Record { .. } | TypeDefinition::Object { .. } => false,
    }
}

/// Whether the type of a number is: its objects are bare, they have no controlled parts.
pub(crate) fn has_bare_objects(types: &[TypeDefinition], access: TypeNo) -> bool
    ensures { result ≡ rules.has_bare_objects (types_in types.now) access.0 }
{
    match types.get(access.0) {
        Some(definition) => is_bare_access(types, definition),
        None => false,
    }
}

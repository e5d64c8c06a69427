//! What a statement may change through a path: what is assigned to, what takes a number of the input, and what is freed.

ghost use Rattle.std.specs.Prelude.{◌≡◌};
ghost use Rattle.ada_program.specs.Kept as kept;
ghost use Rattle.ada_program.specs.Kept.{types_in};
ghost use Rattle.ada_program.specs.WellFormed as fits;

use crate::lookup::{designated_type, is_this, path_kind, scalar_of};
use crate::program::{Path, ScalarType, TypeDefinition, Variable};
use crate::typing::is_type;

/// Whether a path is an Integer, to which a number of the input may go: a variable, or a component.
pub(crate) fn is_integer_target(
    types: &[TypeDefinition],
    variables: &[Variable],
    path: &Path,
) -> bool
    ensures { result ≡ kept.is_integer_target types.now variables.now path.now }
{
    is_type(
        ScalarType::Integer,
        scalar_of(path_kind(types, variables, path)),
    )
}

/// Whether a variable's access type and that of an instance designate one record type (13.11.2).
pub(crate) fn is_freed_by(types: &[TypeDefinition], access: usize, own: Option<usize>) -> bool
    ensures { result ≡ fits.is_freed_by (types_in types.now) access own }
{
    match own {
        None => false,
        Some(own) => match designated_type(types, access) {
            None => false,
            Some(record) => is_this(record, designated_type(types, own)),
        },
    }
}

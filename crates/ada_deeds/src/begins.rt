//! Whether an exception begins in a program: it comes out of some body, whatever this calls.

ghost use Rattle.std.specs.List.{list_any};
ghost use Rattle.std.specs.Prelude.{◌≡◌, IfOk, map};
ghost use Rattle.ada_deeds.specs.Begins as rules;
ghost use Rattle.ada_deeds.specs.declared.deed.Deed.TheVariants as deed;
ghost use Rattle.ada_program.specs.Kept.{types_in};
ghost use Rattle.ada_program.specs.ProgramForm.{body_form, program_form};

use crate::callees::find_in_body;
use crate::found::Found;
use crate::search::Search;
use ada_program::Program;
use ada_program::program::{Exception, Procedure, TypeDefinition};
use std::alloc::{AllocError, Global};

/// Whether an exception comes out of the body of a procedure, whatever this calls.
fn begins_in(
    alloc: Global,
    types: &[TypeDefinition],
    exception: Exception,
    procedure: &Procedure,
) -> Result<bool, AllocError>
    ensures { IfOk result (λ answer. answer ≡ rules.begins_in (types_in types.now) (deed.Raises exception) (body_form procedure.now)) }
{
    let mut found = Found::nothing(alloc);
    find_in_body(types, Search::Exception(exception), procedure, &mut found)?;
    Ok(found.itself)
}

/// Whether it comes out of one of these bodies so.
fn begins_among(
    alloc: Global,
    types: &[TypeDefinition],
    exception: Exception,
    procedures: &[Procedure],
) -> Result<bool, AllocError>
    ensures { IfOk result (λ answer. answer
        ≡ list_any (rules.begins_in (types_in types.now) (deed.Raises exception)) (map body_form procedures.now)) }
{
    'procedures: for procedure in procedures {
        let begins = begins_in(alloc, types, exception, procedure)?;
        if begins {
            return Ok(true);
        }
    }
    Ok(false)
}

/// Whether an exception begins in a program. Linear in the bodies of its procedures: the types are not looked at.
///
/// # Errors
/// `AllocError` where memory for the list of what a body calls was refused.
pub(crate) fn begins(
    alloc: Global,
    program: &Program,
    exception: Exception,
) -> Result<bool, AllocError>
    ensures { IfOk result (λ answer. answer ≡ rules.begins (program_form program.now) (deed.Raises exception)) }
{
    begins_among(alloc, &program.types, exception, &program.procedures)
}

//! Bodies of procedures, where they are plain or quiet.

ghost use Rattle.std.specs.Prelude.{◌≡◌, drop, true, IfOk};
ghost use Rattle.std.specs.List.{list_all};
ghost use Rattle.ada_effects.specs.Effects.{body_raises};
ghost use Rattle.ada_effects.specs.Found.{effects_in};
ghost use Rattle.ada_program.specs.Kept.{types_in, variables_in};
ghost use Rattle.ada_program.specs.ProgramForm.{body_form};
ghost use Rattle.ada_quiet.specs.Quiet as rules;

use crate::statements::{are_quiet, are_quiet_declarations, are_quiet_handlers};
use crate::values::is_elementary;
use ada_effects::{Effects, Implicit, effect_of};
use ada_program::program::{Procedure, TypeDefinition, Variable};
use std::alloc::{AllocError, Global};

/// Whether each of these variables holds an Integer or a Boolean.
fn are_elementary(variables: &[Variable]) -> bool
    ensures { result ≡ list_all (λ x. rules.is_elementary x.kind) (variables_in variables.now) }
{
    'variables: for variable in variables {
        if !is_elementary(variable.kind) {
            return false;
        }
    }
    true
}

/// Whether all variables of a body but its formal parameter do.
fn has_elementary(variables: &[Variable]) -> bool
    ensures { result ≡ list_all (λ x. rules.is_elementary x.kind) (drop 1 (variables_in variables.now)) }
{
    match variables {
        [] => true,
        [_, others @ ..] => are_elementary(others),
    }
}

/// Whether a body raises an exception that none of its handlers takes, where this is known of calls (11.4).
///
/// # Errors
/// `AllocError` where memory for the exceptions that it raises was refused.
fn raises_some(
    alloc: Global,
    types: &[TypeDefinition],
    effects: Effects<'_>,
    procedure: &Procedure,
) -> Result<bool, AllocError>
    ensures { IfOk result (λ answer. answer ≡ body_raises (effects_in effects.entry) (body_form procedure.now) (λ e. true)) }
{
    let effect = effect_of(alloc, types, effects, procedure)?;
    Ok(!effect.raises.is_empty())
}

/// Whether a body is plain: it touches Integers and Booleans alone, and calls nothing. Linear in the body.
pub(crate) fn is_plain_body(types: &[TypeDefinition], procedure: &Procedure) -> bool
    ensures { result ≡ rules.is_plain_body (types_in types.now) (body_form procedure.now) }
{
    let variables: &[Variable] = &procedure.variables;
    has_elementary(variables)
        && are_quiet_declarations(types, variables, &procedure.declarations)
        && are_quiet(types, variables, &procedure.statements)
        && are_quiet_handlers(types, variables, &procedure.handlers)
}

/// Whether a body is quiet: it is plain, and lets no exception out. Linear in the body.
///
/// # Errors
/// `AllocError` where memory for the exceptions that it raises was refused.
pub(crate) fn is_quiet_body(
    alloc: Global,
    types: &[TypeDefinition],
    procedure: &Procedure,
) -> Result<bool, AllocError>
    ensures { IfOk result (λ answer. answer ≡ rules.is_quiet_body (types_in types.now) (body_form procedure.now)) }
{
    if !is_plain_body(types, procedure) {
        return Ok(false);
    }
    let implicit = Implicit::nothing(alloc);
    let effects = Effects {
        implicit: &implicit,
        calls: &[],
    };
    let raises = raises_some(alloc, types, effects, procedure)?;
    Ok(!raises)
}

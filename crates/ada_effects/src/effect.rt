//! What is known of the calls of a procedure, by the text of its body.

ghost use Rattle.std.specs.Prelude.{◌≡◌, ℕ, Bool, IfOk};
ghost use Rattle.std.specs.List.{list_any};
ghost use Rattle.ada_effects.specs.Effects as rules;
ghost use Rattle.ada_effects.specs.Found.{effect_in, effects_in, has_number};
ghost use Rattle.ada_program.specs.declared.program.Exception.{Exception};
ghost use Rattle.ada_program.specs.Kept.{types_in};
ghost use Rattle.ada_program.specs.ProgramForm.{body_form};

use crate::found::Found;
use crate::freed::Freed;
use crate::frees::{free_around, free_in_handlers, free_in_statements};
use crate::implicit::Effects;
use crate::raised::{find_handled, find_in_declarations, find_in_handlers};
use crate::taken::Taken;
use ada_program::TypeNo;
use ada_program::program::{Exception, Procedure, TypeDefinition, Variable};
use std::alloc::{AllocError, Global};

/// What calls of a procedure may do beside their normal end.
#[derive(Drop)]
pub struct Effect {
    /// The exceptions that they may raise, each once.
    pub raises: Vec<Exception>,
    /// The access types of which they may free objects, each once.
    pub frees: Vec<TypeNo>,
}

/// What calls of a procedure may do, where this is known of the calls of those before it.
///
/// Goes through the body once for exceptions, and once for what is freed; a call in it costs the size of what is known of it.
///
/// # Errors
/// `AllocError` where memory was refused.
#[tactic(auto, using(std::proofs::lemmas::Grind::common_steps, crate::proofs::Collected::same_effect))]
pub fn effect_of(
    alloc: Global,
    types: &[TypeDefinition],
    effects: Effects<'_>,
    procedure: &Procedure,
) -> Result<Effect, AllocError>
    ensures { IfOk result (λ known. effect_in known
        ≡ rules.effect_of (types_in types.now) (effects_in effects.entry) (body_form procedure.now)) }
{
    let raises = raised_by(alloc, effects, procedure)?;
    let frees = freed_by(alloc, types, effects, procedure)?;
    Ok(Effect { raises, frees })
}

/// The exceptions that a body may raise, each once.
fn raised_by(
    alloc: Global,
    effects: Effects<'_>,
    procedure: &Procedure,
) -> Result<Vec<Exception>, AllocError>
    ensures { IfOk result (λ raised. (among : Exception → Bool) → list_any among raised.items
        ≡ rules.body_raises (effects_in effects.entry) (body_form procedure.now) among) }
{
    let mut taken = Taken::new(alloc);
    let mut found = Found::nothing(alloc);
    find_in_declarations(
        effects.implicit,
        &procedure.declarations,
        &taken,
        &mut found,
    )?;
    find_handled(
        alloc,
        effects,
        &procedure.statements,
        &procedure.handlers,
        &mut taken,
        &mut found,
    )?;
    find_in_handlers(alloc, effects, &procedure.handlers, &mut taken, &mut found)?;
    Ok(found.into_list())
}

/// The access types of which a body may free objects, each once.
fn freed_by(
    alloc: Global,
    types: &[TypeDefinition],
    effects: Effects<'_>,
    procedure: &Procedure,
) -> Result<Vec<TypeNo>, AllocError>
    ensures { IfOk result (λ freed. (t : ℕ) → has_number freed.items t
        ≡ rules.body_frees (types_in types.now) (effects_in effects.entry) (body_form procedure.now) t) }
{
    let variables: &[Variable] = &procedure.variables;
    let mut freed = Freed::nothing(alloc);
    free_in_statements(types, variables, effects, &procedure.statements, &mut freed)?;
    free_in_handlers(types, variables, effects, &procedure.handlers, &mut freed)?;
    free_around(effects.implicit, &procedure.declarations, &mut freed)?;
    Ok(freed.into_list())
}

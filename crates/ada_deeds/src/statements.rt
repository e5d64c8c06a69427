//! What a statement does, where it is known which callees do which deeds.

ghost use Rattle.std.specs.List.{list_any};
ghost use Rattle.std.specs.Prelude.{◌≡◌, IfOk};
ghost use Rattle.ada_deeds.specs.Forms as rules;
ghost use Rattle.ada_deeds.specs.Rows.{does_in};
ghost use Rattle.ada_deeds.specs.View.{does_found};
ghost use Rattle.ada_program.specs.Form.{declaration_form, stmt_form};
ghost use Rattle.ada_program.specs.Kept.{types_in, variables_in};

use crate::deed::{Callee, Deed};
use crate::deeds::Deeds;
use crate::found::Found;
use crate::search::Search;
use crate::walk::{find_in_declaration, find_in_ending, find_in_statement};
use ada_program::Stmt;
use ada_program::program::{Declaration, TypeDefinition, Variable};
use std::alloc::{AllocError, Global};

/// Whether what is found does a deed: itself, or something that it calls.
#[tactic(auto, unfolding(crate::specs::View::does_found))]
fn is_done(deeds: &Deeds, deed: Deed, found: &Found) -> bool
    ensures { result ≡ does_found found.now deed (does_in deeds.now deed) }
{
    found.does_itself(deed) || some_does(deeds, deed, &found.callees)
}

/// Whether one of these callees does a deed.
fn some_does(deeds: &Deeds, deed: Deed, callees: &[Callee]) -> bool
    ensures { result ≡ list_any (does_in deeds.now deed) callees.now }
{
    'callees: for callee in callees {
        if deeds.callee_does(*callee, deed) {
            return true;
        }
    }
    false
}

/// Whether a statement does a deed. Linear in the statement.
///
/// # Errors
/// `AllocError` where memory for the list of what it calls was refused.
pub fn statement_does(
    alloc: Global,
    types: &[TypeDefinition],
    variables: &[Variable],
    deeds: &Deeds,
    deed: Deed,
    statement: &Stmt,
) -> Result<bool, AllocError>
    ensures { IfOk result (λ answer. answer ≡ rules.stmt_does
        (types_in types.now) (variables_in variables.now) (does_in deeds.now deed) deed (stmt_form statement.now)) }
{
    let mut found = Found::nothing(alloc);
    find_in_statement(types, variables, Search::of(deed), statement, &mut found)?;
    Ok(is_done(deeds, deed, &found))
}

/// Whether the elaboration of a declaration does (3.11).
///
/// # Errors
/// `AllocError` where memory for the list of what it calls was refused.
pub fn declaration_does(
    alloc: Global,
    types: &[TypeDefinition],
    variables: &[Variable],
    deeds: &Deeds,
    deed: Deed,
    declaration: &Declaration,
) -> Result<bool, AllocError>
    ensures { IfOk result (λ answer. answer ≡ rules.declaration_does
        (types_in types.now) (variables_in variables.now) (does_in deeds.now deed) deed (declaration_form declaration.now)) }
{
    let mut found = Found::nothing(alloc);
    find_in_declaration(types, variables, Search::of(deed), declaration, &mut found)?;
    Ok(is_done(deeds, deed, &found))
}

/// Whether the end of what a declaration created does, where its master is left (7.6.1).
///
/// # Errors
/// `AllocError` where memory for the list of what it calls was refused.
pub fn ending_does(
    alloc: Global,
    types: &[TypeDefinition],
    deeds: &Deeds,
    deed: Deed,
    declaration: &Declaration,
) -> Result<bool, AllocError>
    ensures { IfOk result (λ answer. answer ≡ rules.ending_does
        (types_in types.now) (does_in deeds.now deed) (declaration_form declaration.now)) }
{
    let mut found = Found::nothing(alloc);
    find_in_ending(types, declaration, &mut found)?;
    Ok(is_done(deeds, deed, &found))
}

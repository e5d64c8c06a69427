//! Whether the bodies of procedures fit (6.3): the main one, and those that the program declares.

ghost use Rattle.std.specs.Prelude.{◌≡◌, [], map};
ghost use Rattle.ada_program.specs.Kept.{profiles_in, texts_in, types_in};
ghost use Rattle.ada_program.specs.ProgramForm.{body_form, main_body, program_form};
ghost use Rattle.ada_program.specs.WellFormed as fits;

use crate::creations::{creates_in_order, creates_locals};
use crate::declarations::declarations_fit;
use crate::kinds::variables_fit;
use crate::program::{Handler, Procedure, Program, Stmt, TypeDefinition, Variable};
use crate::well_formed::{handlers_fit, statements_fit};

/// Whether the main procedure's body fits: it may call every procedure of the program.
pub(crate) fn main_fits(program: &Program) -> bool
    ensures { let p = program_form program.now in
        result ≡ fits.body_fits p.types p.texts p.exceptions (fits.callable_in p) (main_body p) }
{
    let types: &[TypeDefinition] = &program.types;
    let variables: &[Variable] = &program.variables;
    let texts: &[String] = &program.texts;
    let exceptions: &[String] = &program.exceptions;
    let callable: &[Procedure] = &program.procedures;
    let statements: &[Stmt] = &program.statements;
    let handlers: &[Handler] = &program.handlers;
    variables_fit(types, variables)
        && creates_in_order(program)
        && declarations_fit(types, variables, &program.declarations)
        && statements_fit(
            types, variables, texts, exceptions, callable, false, statements,
        )
        && handlers_fit(
            types, variables, texts, exceptions, callable, false, handlers,
        )
}

/// Whether the body of each procedure fits, and calls procedures before it alone (6.4).
pub(crate) fn bodies_fit(
    types: &[TypeDefinition],
    texts: &[String],
    exceptions: &[String],
    procedures: &[Procedure],
) -> bool
    ensures { let bodies = map body_form procedures.now in
        result ≡ fits.bodies_fit (types_in types.now) (texts_in texts.now) (texts_in exceptions.now) [] bodies }
{
    for (number, procedure) in procedures.iter().enumerate() {
        if !body_fits(types, texts, exceptions, &procedures[..number], procedure) {
            return false;
        }
    }
    true
}

/// Whether the body of a procedure fits, where these procedures may be called.
fn body_fits(
    types: &[TypeDefinition],
    texts: &[String],
    exceptions: &[String],
    callable: &[Procedure],
    procedure: &Procedure,
) -> bool
    ensures { let profiles = profiles_in callable.now in
        let body = body_form procedure.now in
        result ≡ fits.body_fits (types_in types.now) (texts_in texts.now) (texts_in exceptions.now) profiles body }
{
    let variables = &procedure.variables;
    let statements = &procedure.statements;
    let handlers = &procedure.handlers;
    variables_fit(types, variables)
        && creates_locals(procedure)
        && declarations_fit(types, variables, &procedure.declarations)
        && statements_fit(
            types, variables, texts, exceptions, callable, false, statements,
        )
        && handlers_fit(
            types, variables, texts, exceptions, callable, false, handlers,
        )
}

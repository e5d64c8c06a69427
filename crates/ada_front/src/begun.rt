//! How many elements of a list have begun by a fault, up to the first that has not: all behind that one stands behind the fault.

ghost use Rattle.std.specs.Prelude.{◌≡◌};
ghost use Rattle.std.specs.List.{prefix_len};
ghost use Rattle.ada_front.specs.View.{branch_begun, declaration_begun, handler_begun, statement_begun};

use crate::spots::{declaration_start, expression_start, stands_before, statement_start};
use ada_text::Spot;
use ada_tree::declarations::Declaration;
use ada_tree::statements::{Branch, Handler, Statement};

/// How many declarations have begun by the fault, up to the first that has not.
pub fn begun_declarations(declarations: &[Declaration<'_>], fault: Spot) -> usize
    ensures { result ≡ prefix_len (declaration_begun fault) declarations.now }
{
    declarations
        .iter()
        .take_while(|one| !stands_before(fault, declaration_start(one)))
        .count()
}

/// How many statements have.
pub fn begun_statements(statements: &[Statement<'_>], fault: Spot) -> usize
    ensures { result ≡ prefix_len (statement_begun fault) statements.now }
{
    statements
        .iter()
        .take_while(|one| !stands_before(fault, statement_start(one)))
        .count()
}

/// How many branches have.
pub fn begun_branches(branches: &[Branch<'_>], fault: Spot) -> usize
    ensures { result ≡ prefix_len (branch_begun fault) branches.now }
{
    branches
        .iter()
        .take_while(|one| !stands_before(fault, expression_start(&one.condition)))
        .count()
}

/// How many handlers have.
pub fn begun_handlers(handlers: &[Handler<'_>], fault: Spot) -> usize
    ensures { result ≡ prefix_len (handler_begun fault) handlers.now }
{
    handlers
        .iter()
        .take_while(|one| !stands_before(fault, one.spot))
        .count()
}

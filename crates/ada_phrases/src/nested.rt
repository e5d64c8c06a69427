//! Statements and declarations of the parts that nest in them (5.1, 6.3).
//!
//! A part is given in its box, so that the functions that read it never hold a large tree by value.

ghost use Rattle.ada_phrases.specs.StatementPhrases.{BuildsBranch, BuildsDeclaration, BuildsSequence, BuildsStatement, block_tree, body_tree, branch_tree, declare_block_tree, if_tree, loop_tree, sequence_tree};

use crate::boxes::{boxed, held_declaration, held_statement};
use ada_reader::Stop;
use ada_text::Spot;
use ada_tree::declarations::{Declaration, ProcedureHead};
use ada_tree::expressions::Expression;
use ada_tree::names::Identifier;
use ada_tree::statements::{Branch, Handler, Scheme, Sequence, Statement};
use std::alloc::Global;

/// An `if` (5.3).
#[tactic(auto, using(std::proofs::lemmas::Grind::common_steps, ada_tree::specs::StatementView::statement_rules))]
pub(crate) fn if_statement<'t>(
    alloc: Global,
    spot: Spot,
    branches: Vec<Branch<'t>>,
    otherwise: Vec<Statement<'t>>,
    end: Spot,
) -> Result<Box<Statement<'t>>, Stop>
    ensures { BuildsStatement (if_tree spot branches.entry otherwise.entry end) result }
{
    held_statement(
        alloc,
        Statement::If {
            spot,
            branches,
            otherwise,
            end,
        },
    )
}

/// A loop (5.5).
#[tactic(auto, using(std::proofs::lemmas::Grind::common_steps, ada_tree::specs::StatementView::statement_rules))]
pub(crate) fn loop_statement<'t>(
    alloc: Global,
    spot: Spot,
    scheme: Box<Scheme<'t>>,
    statements: Vec<Statement<'t>>,
    end: Spot,
) -> Result<Box<Statement<'t>>, Stop>
    ensures { BuildsStatement (loop_tree spot scheme.entry statements.entry end) result }
{
    let scheme = Box::into_inner(scheme);
    held_statement(
        alloc,
        Statement::Loop {
            spot,
            scheme,
            statements,
            end,
        },
    )
}

/// A block (5.6).
#[tactic(auto, using(std::proofs::lemmas::Grind::common_steps, ada_tree::specs::StatementView::statement_rules))]
pub(crate) fn block<'t>(alloc: Global, body: Box<Sequence<'t>>) -> Result<Box<Statement<'t>>, Stop>
    ensures { BuildsStatement (block_tree body.entry) result }
{
    held_statement(alloc, Statement::Block(Box::into_inner(body)))
}

/// A block with declarations (5.6).
#[tactic(auto, using(std::proofs::lemmas::Grind::common_steps, ada_tree::specs::StatementView::statement_rules))]
pub(crate) fn declare_block<'t>(
    alloc: Global,
    spot: Spot,
    declarations: Vec<Declaration<'t>>,
    body: Box<Sequence<'t>>,
) -> Result<Box<Statement<'t>>, Stop>
    ensures { BuildsStatement (declare_block_tree spot declarations.entry body.entry) result }
{
    let body = Box::into_inner(body);
    held_statement(
        alloc,
        Statement::DeclareBlock {
            spot,
            declarations,
            body,
        },
    )
}

/// A condition and its statements (5.3).
pub(crate) fn branch<'t>(
    alloc: Global,
    condition: Box<Expression<'t>>,
    statements: Vec<Statement<'t>>,
) -> Result<Box<Branch<'t>>, Stop>
    ensures { BuildsBranch (branch_tree condition.entry statements.entry) result }
{
    let condition = Box::into_inner(condition);
    boxed(
        alloc,
        Branch {
            condition,
            statements,
        },
    )
}

/// Statements with their handlers (11.2).
pub(crate) fn sequence<'t>(
    alloc: Global,
    begin: Spot,
    statements: Vec<Statement<'t>>,
    handlers: Vec<Handler<'t>>,
    end: Spot,
) -> Result<Box<Sequence<'t>>, Stop>
    ensures { BuildsSequence (sequence_tree begin statements.entry handlers.entry end) result }
{
    boxed(
        alloc,
        Sequence {
            begin,
            statements,
            handlers,
            end,
        },
    )
}

/// The body of a procedure (6.3).
pub(crate) fn body_declaration<'t>(
    alloc: Global,
    head: ProcedureHead<'t>,
    declarations: Vec<Declaration<'t>>,
    body: Box<Sequence<'t>>,
    end_name: Option<Identifier<'t>>,
) -> Result<Box<Declaration<'t>>, Stop>
    ensures { BuildsDeclaration (body_tree head.entry declarations.entry body.entry end_name.entry) result }
{
    let body = Box::into_inner(body);
    held_declaration(
        alloc,
        Declaration::Body {
            head,
            declarations,
            body,
            end_name,
        },
    )
}

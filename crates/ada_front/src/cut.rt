//! The front of a unit: what stands before a fault, cut so that it has a meaning of its own.
//!
//! A list is cut behind its last element that has begun by the fault. That one is taken out, and what is left of it is put back in its place.

ghost use Rattle.std.specs.Prelude.{◌≡◌, None};
ghost use Rattle.std.specs.Prelude.{if◌then◌else◌};
ghost use Rattle.ada_front.specs.Front as front;
ghost use Rattle.ada_front.specs.View.{branches_left, branches_of, declarations_left, handlers_left, handlers_of, statements_left};
ghost use Rattle.ada_tree.specs.StatementView.{declaration_of, declarations_of, sequence_of, statement_of, statements_of, unit_of};

use crate::begun::{begun_branches, begun_declarations, begun_handlers, begun_statements};
use crate::left::{
    block_left, body_left, branch_left, declare_block_left, handler_left, if_left, loop_left,
    put_back,
};
use crate::settle::settle;
use crate::spots::{handlers_start, stands_before, statements_start};
use ada_text::Spot;
use ada_tree::declarations::Declaration;
use ada_tree::statements::{Branch, Handler, Sequence, Statement};
use ada_tree::unit::Unit;
use std::alloc::Global;
use std::mem;

/// Cuts a unit before a fault, and leaves its front.
pub fn cut(alloc: Global, unit: &mut Unit<'_>, fault: Spot)
    ensures { unit_of unit.new ≡ front.front_of fault (unit_of unit.old) }
{
    cut_part(&mut unit.declarations, unit.body.begin, fault);
    let nothing = Sequence {
        begin: fault,
        statements: Vec::new(alloc),
        handlers: Vec::new(alloc),
        end: fault,
    };
    let body = mem::replace(&mut unit.body, nothing);
    unit.body = sequence_left(body, fault);
    unit.end_name = None;
}

/// Cuts the declarations of a part whose `begin` stands here: none where that stands before the fault; else it lacks nothing.
#[cycle(front)]
fn cut_part(declarations: &mut Vec<Declaration<'_>>, begin: Spot, fault: Spot)
    ensures { declarations_of declarations.new.items ≡ front.part_before fault begin (declarations_of declarations.old.items) }
{
    if stands_before(begin, fault) {
        return;
    }
    cut_declarations_before(declarations, begin, fault);
    settle(declarations);
}

/// Cuts declarations, where the fault stands before their `begin`.
#[cycle(front)]
fn cut_declarations_before(declarations: &mut Vec<Declaration<'_>>, begin: Spot, fault: Spot)
    ensures { declarations_of declarations.new.items ≡ (if front.stands_before fault begin
        then front.declarations_before fault (declarations_of declarations.old.items) else declarations_of declarations.old.items) }
{
    if stands_before(fault, begin) {
        cut_declarations(declarations, fault);
    }
}

/// Cuts declarations.
#[cycle(front)]
fn cut_declarations(declarations: &mut Vec<Declaration<'_>>, fault: Spot)
    ensures { declarations_of declarations.new.items ≡ front.declarations_before fault (declarations_of declarations.old.items) }
{
    declarations.truncate(begun_declarations(declarations, fault));
    if let Some(last) = declarations.pop() {
        put_back(declarations, declaration_left(last, fault));
    }
}

/// What is left of a declaration in which the fault lies.
#[cycle(front)]
fn declaration_left<'t>(declaration: Declaration<'t>, fault: Spot) -> Option<Declaration<'t>>
    ensures { declarations_left result ≡ front.declaration_before fault (declaration_of declaration.entry) }
{
    match declaration {
        Declaration::Body {
            head,
            mut declarations,
            body,
            ..
        } => {
            cut_part(&mut declarations, body.begin, fault);
            body_left(head, declarations, sequence_left(body, fault))
        }
        other => {
            drop(other);
            None
        }
    }
}

/// Cuts statements, where the fault stands before what is behind them.
#[cycle(front)]
fn cut_statements_before(statements: &mut Vec<Statement<'_>>, behind: Spot, fault: Spot)
    ensures { statements_of statements.new.items ≡ (if front.stands_before fault behind
        then front.statements_before fault (statements_of statements.old.items) else statements_of statements.old.items) }
{
    if stands_before(fault, behind) {
        cut_statements(statements, fault);
    }
}

/// Cuts statements.
#[cycle(front)]
fn cut_statements(statements: &mut Vec<Statement<'_>>, fault: Spot)
    ensures { statements_of statements.new.items ≡ front.statements_before fault (statements_of statements.old.items) }
{
    statements.truncate(begun_statements(statements, fault));
    if let Some(last) = statements.pop() {
        put_back(statements, statement_left(last, fault));
    }
}

/// What is left of a statement in which the fault lies.
#[cycle(front)]
fn statement_left<'t>(statement: Statement<'t>, fault: Spot) -> Option<Statement<'t>>
    ensures { statements_left result ≡ front.statement_before fault (statement_of statement.entry) }
{
    match statement {
        Statement::If {
            spot,
            mut branches,
            mut otherwise,
            end,
        } => {
            cut_branches_before(&mut branches, statements_start(&otherwise, end), fault);
            cut_statements(&mut otherwise, fault);
            if_left(spot, branches, otherwise, end)
        }
        Statement::Loop {
            spot,
            scheme,
            mut statements,
            end,
        } => {
            cut_statements(&mut statements, fault);
            loop_left(spot, scheme, statements, end)
        }
        Statement::Block(body) => block_left(sequence_left(body, fault)),
        Statement::DeclareBlock {
            spot,
            mut declarations,
            body,
        } => {
            cut_part(&mut declarations, body.begin, fault);
            declare_block_left(spot, declarations, sequence_left(body, fault))
        }
        other => {
            drop(other);
            None
        }
    }
}

/// Cuts branches, where the fault stands before what is behind them.
#[cycle(front)]
fn cut_branches_before(branches: &mut Vec<Branch<'_>>, behind: Spot, fault: Spot)
    ensures { branches_of branches.new.items ≡ (if front.stands_before fault behind
        then front.branches_before fault (branches_of branches.old.items) else branches_of branches.old.items) }
{
    if stands_before(fault, behind) {
        cut_branches(branches, fault);
    }
}

/// Cuts branches.
#[cycle(front)]
fn cut_branches(branches: &mut Vec<Branch<'_>>, fault: Spot)
    ensures { branches_of branches.new.items ≡ front.branches_before fault (branches_of branches.old.items) }
{
    branches.truncate(begun_branches(branches, fault));
    if let Some(
        Branch {
            condition,
            mut statements,
        },
    ) = branches.pop()
    {
        cut_statements(&mut statements, fault);
        put_back(branches, branch_left(condition, statements));
    }
}

/// Cuts handlers, where the fault stands before the `end` behind them.
#[cycle(front)]
fn cut_handlers_before(handlers: &mut Vec<Handler<'_>>, end: Spot, fault: Spot)
    ensures { handlers_of handlers.new.items ≡ (if front.stands_before fault end
        then front.handlers_before fault (handlers_of handlers.old.items) else handlers_of handlers.old.items) }
{
    if stands_before(fault, end) {
        cut_handlers(handlers, fault);
    }
}

/// Cuts handlers.
#[cycle(front)]
fn cut_handlers(handlers: &mut Vec<Handler<'_>>, fault: Spot)
    ensures { handlers_of handlers.new.items ≡ front.handlers_before fault (handlers_of handlers.old.items) }
{
    handlers.truncate(begun_handlers(handlers, fault));
    if let Some(
        Handler {
            spot,
            choices,
            mut statements,
        },
    ) = handlers.pop()
    {
        cut_statements(&mut statements, fault);
        put_back(handlers, handler_left(spot, choices, statements));
    }
}

/// What is left of a sequence in which the fault lies, or before which it stands.
#[cycle(front)]
fn sequence_left<'t>(body: Sequence<'t>, fault: Spot) -> Sequence<'t>
    ensures { sequence_of result ≡ front.sequence_before fault (sequence_of body.entry) }
{
    let Sequence {
        begin,
        mut statements,
        mut handlers,
        end,
    } = body;
    cut_statements_before(&mut statements, handlers_start(&handlers, end), fault);
    cut_handlers_before(&mut handlers, end, fault);
    Sequence {
        begin,
        statements,
        handlers,
        end,
    }
}

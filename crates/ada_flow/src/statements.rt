//! The flow of values through statements that nest: what is known where each comes to its end, if it does.

ghost use Rattle.std.specs.Prelude.{◌≡◌, IfOk, IfSome, MatchResult, None};
ghost use Rattle.ada_flow.specs.Flow.{all_give_back, faults, goes, left, stmt_flow, stmts_flow};
ghost use Rattle.ada_flow.specs.Told.{Joins, Ends, around_of, breach_of, exit_in, gone_of, return_in, types_in, variables_in};
ghost use Rattle.ada_program.specs.Form.{condition_form, stmt_form, stmts_form};

use crate::analysis::{assign, declare, get};
use crate::around::Around;
use crate::blocks::handled;
use crate::calls::call;
use crate::compute::compute;
use crate::fault::FlowFault;
use crate::frees::release;
use crate::gone::Gone;
use crate::joins::join_ends;
use crate::keeping::all_give_back;
use crate::kinds::{leave, leave_finalized_end};
use crate::known::Known;
use crate::pairs::begins_pair;
use crate::raised::Raised;
use crate::records::give_record;
use crate::repetition::{count, keeps_start, repeat};
use crate::rule::Rule;
use ada_program::program::{Branch, Expression};
use ada_program::{Spot, Stmt};
use std::alloc::{AllocError, Global};

/// `exit`, inside a loop, if it stands in one.
#[tactic(auto, using(std::proofs::lemmas::Grind::common_steps, crate::proofs::Behind::exit_steps))]
fn exit(
    alloc: Global,
    around: &Around<'_>,
    known: Known,
    raised: &mut Raised,
    condition: &Option<Expression>,
    spot: Spot,
) -> Result<Option<Known>, FlowFault>
    ensures { Ends result raised.old raised.new
        (exit_in around.now (condition_form condition.now) spot known.holds.items) }
{
    if !keeps_start(alloc, around, &known)? {
        return Err(FlowFault::Broken {
            spot,
            rule: Rule::LoopState,
        });
    }
    match condition {
        None => Ok(None),
        Some(condition) => {
            compute(alloc, around, &known, raised, condition)?;
            Ok(Some(known))
        }
    }
}

/// `return`: it leaves all blocks and the body, and there each formal parameter gives back what it is to give back. Costs the
/// number of variables, where one is.
///
/// # Errors
/// Where one gives nothing back, or want of memory.
#[tactic(auto, using(std::proofs::lemmas::Grind::common_steps, crate::proofs::Formals::return_steps))]
fn leave_body(
    alloc: Global,
    around: &Around<'_>,
    known: &Known,
    spot: Spot,
) -> Result<(), FlowFault>
    ensures { let returns = return_in around.now spot known.now.holds.items in
        MatchResult result (λ _. returns ≡ goes None None)
        (λ fault. IfSome (breach_of fault) (λ breach. returns ≡ faults breach.0 breach.1)) }
{
    if gives_all_back(alloc, around, known)? {
        Ok(())
    } else {
        Err(FlowFault::Broken {
            spot,
            rule: Rule::FormalNotOwned,
        })
    }
}

/// Whether each formal parameter gives back what it is to give back, where the body is left.
fn gives_all_back(alloc: Global, around: &Around<'_>, known: &Known) -> Result<bool, AllocError>
    ensures { IfOk result (λ gives. gives ≡ all_give_back
        (around_of around.now).owed (left (variables_in around.now) (gone_of around.now.within.now) known.now.holds.items)) }
{
    if around.setting.owed.is_empty() {
        return Ok(true);
    }
    let behind = leave(
        alloc,
        around.setting.variables,
        around.within,
        known.copy(alloc)?,
    )?;
    Ok(all_give_back(around.setting.owed, behind.holds()))
}

/// One statement, which is the first one of a take pair, or is not.
#[cycle(flowing)]
#[tactic(auto, using(std::proofs::lemmas::Grind::common_steps, ada_program::specs::Form::statement_rules, crate::proofs::Noted::noted_steps, crate::proofs::Noted::block_steps, crate::proofs::Noted::then_ends))]
fn statement(
    alloc: Global,
    around: &Around<'_>,
    mut known: Known,
    raised: &mut Raised,
    cleared: bool,
    statement: &Stmt,
) -> Result<Option<Known>, FlowFault>
    ensures { Ends result raised.old raised.new
        (stmt_flow (types_in around.now) (variables_in around.now) (around_of around.now) cleared (stmt_form statement.now) known.holds.items) }
{
    match statement {
        Stmt::Null | Stmt::PutText(_) => {}
        Stmt::Assign { target, value } => {
            assign(alloc, around, &mut known, raised, cleared, target, value)?;
        }
        Stmt::AssignRecord { target, items } => {
            give_record(alloc, around, &mut known, raised, target, items)?;
            return Ok(Some(known));
        }
        Stmt::Free { access: _, path } => release(alloc, around, &mut known, raised, path)?,
        Stmt::Get(target) => get(alloc, around, &mut known, raised, target)?,
        Stmt::PutImage(expression) => compute(alloc, around, &known, raised, expression)?,
        Stmt::If {
            branches,
            otherwise,
        } => {
            let joined = self::branches(alloc, around, &known, raised, branches)?;
            let end = statements(alloc, around, known, raised, otherwise)?;
            return Ok(join_ends(joined, end));
        }
        Stmt::Loop {
            condition,
            statements,
            end,
        } => return repeat(alloc, around, known, raised, condition, statements, *end),
        Stmt::For {
            parameter,
            first,
            last,
            statements,
            end,
        } => {
            compute(alloc, around, &known, raised, first)?;
            compute(alloc, around, &known, raised, last)?;
            return count(alloc, around, known, raised, *parameter, statements, *end);
        }
        Stmt::Exit { condition, spot } => {
            return exit(alloc, around, known, raised, condition, *spot);
        }
        Stmt::Call { procedure, actuals } => {
            call(alloc, around, &mut known, raised, *procedure, actuals)?;
        }
        Stmt::Return(spot) => {
            leave_body(alloc, around, &known, *spot)?;
            return Ok(None);
        }
        Stmt::Raise(_) => {
            raised.add(Some(known));
            return Ok(None);
        }
        Stmt::Block {
            declarations,
            statements,
            handlers,
        } => {
            let gone = Gone::with(alloc, declarations)?;
            let inside = gone.and(alloc, around.inside)?;
            let both = gone.and(alloc, around.within)?;
            let within = Around {
                setting: around.setting,
                start: around.start,
                inside: &inside,
                within: &both,
            };
            let mut own = raised.emptied();
            declare(alloc, around, &mut known, &mut own, declarations)?;
            let mut inner = own.with_handlers(handlers);
            let end = self::statements(alloc, &within, known, &mut inner, statements)?;
            let end = handled(alloc, &within, inner, end, &mut own, handlers, statements)?;
            let variables = around.setting.variables;
            let implicit = around.setting.effects.implicit;
            raised.add_behind(alloc, variables, implicit, &gone, own)?;
            return Ok(leave_finalized_end(alloc, variables, implicit, &gone, end)?);
        }
    }
    Ok(Some(known))
}

/// The statements, in order, as far as each comes to its end.
#[cycle(flowing)]
#[tactic(auto, using(std::proofs::lemmas::Grind::common_steps, crate::proofs::Noted::noted_steps))]
pub(crate) fn statements(
    alloc: Global,
    around: &Around<'_>,
    mut known: Known,
    raised: &mut Raised,
    statements: &[Stmt],
) -> Result<Option<Known>, FlowFault>
    ensures { Ends result raised.old raised.new
        (stmts_flow (types_in around.now) (variables_in around.now) (around_of around.now) (stmts_form statements.now) known.holds.items) }
{
    for (number, one) in statements.iter().enumerate() {
        let cleared = begins_pair(one, &statements[number + 1..]);
        match statement(alloc, around, known, raised, cleared, one)? {
            None => return Ok(None),
            Some(after) => known = after,
        }
    }
    Ok(Some(known))
}

/// The branches of an `if`: each begins behind the conditions up to its own, and their ends join.
#[cycle(flowing)]
#[tactic(auto, using(std::proofs::lemmas::Grind::common_steps, crate::proofs::Noted::noted_steps))]
fn branches(
    alloc: Global,
    around: &Around<'_>,
    known: &Known,
    raised: &mut Raised,
    branches: &[Branch],
) -> Result<Option<Known>, FlowFault>
    ensures { Joins result raised.old raised.new around.now branches.now known.now.holds.items }
{
    let mut joined = None;
    'branches: for branch in branches {
        compute(alloc, around, known, raised, &branch.condition)?;
        let end = statements(
            alloc,
            around,
            known.copy(alloc)?,
            raised,
            &branch.statements,
        )?;
        joined = join_ends(joined, end);
    }
    Ok(joined)
}

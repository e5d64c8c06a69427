//! The flow of values through loops: one turn tells what each turn does, from what is known where each begins.

ghost use Rattle.std.specs.Prelude.{◌≡◌, IfOk, Some, None};
ghost use Rattle.ada_flow.specs.Flow.{goes, unless_worse};
ghost use Rattle.ada_flow.specs.Told.{Ends, Tells, exit_keeps, for_of, gone_of, implicit_around, loop_of, start_in, turns_of, variables_in};

use crate::around::Around;
use crate::compute::compute_condition;
use crate::fault::{Breach, FlowFault};
use crate::gone::Gone;
use crate::kinds::leave_finalized;
use crate::known::Known;
use crate::loops::{are_as_good, have_exit, open_all};
use crate::raised::Raised;
use crate::rule::{Hold, Rule};
use crate::statements::statements;
use ada_program::program::Expression;
use ada_program::{Spot, Stmt, VariableNo};
use std::alloc::{AllocError, Global};

/// A way may lead back to a loop's start only with what is known at that start.
fn unless_worse(holds: &[Hold], start: &[Hold], spot: Spot) -> Result<(), Breach>
    ensures { Tells result holds.now
        (unless_worse start.now holds.now spot (goes (Some holds.now) None)) }
{
    if are_as_good(holds, start) {
        Ok(())
    } else {
        Err(Breach {
            spot,
            rule: Rule::LoopState,
        })
    }
}

/// Whether an exit leads out of a loop, and out of the blocks in it, whose objects are finalized, with no less than is known at the
/// loop's start. Costs the number of variables.
pub(crate) fn keeps_start(
    alloc: Global,
    around: &Around<'_>,
    known: &Known,
) -> Result<bool, AllocError>
    ensures { IfOk result (λ keeps. keeps
        ≡ exit_keeps (variables_in around.now) (implicit_around around.now) (start_in around.now) (gone_of around.now.inside.now) known.now.holds.items) }
{
    match around.start {
        None => Ok(true),
        Some(start) => {
            let behind = leave_finalized(
                alloc,
                around.setting.variables,
                around.setting.effects.implicit,
                around.inside,
                known.copy(alloc)?,
            )?;
            Ok(are_as_good(behind.holds(), start))
        }
    }
}

/// `loop`, or `while` with a condition.
#[cycle(flowing)]
pub(crate) fn repeat(
    alloc: Global,
    around: &Around<'_>,
    mut known: Known,
    raised: &mut Raised,
    condition: &Option<Expression>,
    body: &[Stmt],
    end: Spot,
) -> Result<Option<Known>, FlowFault>
    ensures { Ends result raised.old raised.new
        (loop_of around.now condition.now body.now end known.holds.items) }
{
    open_all(
        around.setting.variables,
        around.setting.tracks,
        &mut known,
        body,
    );
    let leaves = condition.is_some() || have_exit(body);
    turn(alloc, around, known, raised, condition, body, end, leaves)
}

/// `for`, behind its bounds.
#[cycle(flowing)]
pub(crate) fn count(
    alloc: Global,
    around: &Around<'_>,
    mut known: Known,
    raised: &mut Raised,
    parameter: VariableNo,
    body: &[Stmt],
    end: Spot,
) -> Result<Option<Known>, FlowFault>
    ensures { Ends result raised.old raised.new
        (for_of around.now parameter.0 body.now end known.holds.items) }
{
    open_all(
        around.setting.variables,
        around.setting.tracks,
        &mut known,
        body,
    );
    known.put(parameter, Hold::Lost);
    turn(alloc, around, known, raised, &None, body, end, true)
}

/// One turn of a loop, from its start; behind the loop, if it is left, the variables hold what they did there.
#[cycle(flowing)]
#[tactic(auto, using(std::proofs::lemmas::Grind::common_steps, crate::proofs::Noted::turn_returns, crate::proofs::Noted::turn_stops))]
fn turn(
    alloc: Global,
    around: &Around<'_>,
    start: Known,
    raised: &mut Raised,
    condition: &Option<Expression>,
    body: &[Stmt],
    end: Spot,
    leaves: bool,
) -> Result<Option<Known>, FlowFault>
    ensures { Ends result raised.old raised.new
        (turns_of around.now condition.now leaves body.now end start.holds.items) }
{
    compute_condition(alloc, around, &start, raised, condition)?;
    let nothing = Gone::nothing(alloc);
    let within = Around::in_loop(around.setting, start.holds(), &nothing, around.within);
    if let Some(after) = statements(alloc, &within, start.copy(alloc)?, raised, body)? {
        unless_worse(after.holds(), start.holds(), end)?;
    }
    if leaves { Ok(Some(start)) } else { Ok(None) }
}

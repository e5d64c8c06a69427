//! Expressions that are evaluated: what they follow, and where they may raise an exception.

ghost use Rattle.std.specs.Prelude.{◌≡◌};
ghost use Rattle.ada_flow.specs.Flow.{computed, condition_flow};
ghost use Rattle.ada_flow.specs.Told.{Leads, tracks_around};
ghost use Rattle.ada_program.specs.Form.{expression_form, condition_form};

use crate::around::Around;
use crate::fault::FlowFault;
use crate::follow::follow;
use crate::known::Known;
use crate::raised::Raised;
use ada_effects::expression_raises;
use ada_program::program::Expression;
use std::alloc::Global;

/// An expression is evaluated, which changes nothing.
pub(crate) fn compute(
    alloc: Global,
    around: &Around<'_>,
    known: &Known,
    raised: &mut Raised,
    expression: &Expression,
) -> Result<(), FlowFault>
    ensures { Leads result known.now.holds.items raised.old raised.new
        (computed (tracks_around around.now) (expression_form expression.now) known.now.holds.items) }
{
    follow(around.setting.tracks, known.holds(), expression)?;
    raised.note_if(expression_raises(expression), alloc, known)?;
    Ok(())
}

/// A condition is evaluated, where there is one.
pub(crate) fn compute_condition(
    alloc: Global,
    around: &Around<'_>,
    known: &Known,
    raised: &mut Raised,
    condition: &Option<Expression>,
) -> Result<(), FlowFault>
    ensures { Leads result known.now.holds.items raised.old raised.new
        (condition_flow (tracks_around around.now) (condition_form condition.now) known.now.holds.items) }
{
    match condition {
        None => Ok(()),
        Some(condition) => compute(alloc, around, known, raised, condition),
    }
}

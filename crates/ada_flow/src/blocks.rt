//! The flow of values through statements with their handlers.

ghost use Rattle.ada_flow.specs.Told.{Ends, Handles, handled_in, handlers_in, held, noted};

use crate::around::Around;
use crate::fault::FlowFault;
use crate::joins::join_ends;
use crate::known::Known;
use crate::raised::Raised;
use crate::statements::statements;
use ada_effects::passes;
use ada_program::Stmt;
use ada_program::program::Handler;
use std::alloc::Global;

/// How statements end with their handlers: each handler begins with what is known wherever the statements may raise an exception.
#[cycle(flowing)]
pub(crate) fn handled(
    alloc: Global,
    around: &Around<'_>,
    inner: Raised,
    end: Option<Known>,
    raised: &mut Raised,
    handlers: &[Handler],
    statements: &[Stmt],
) -> Result<Option<Known>, FlowFault>
    ensures { Handles result raised.new
        (handled_in around.now (noted raised.old) statements.now handlers.now (held end) (noted inner)) }
{
    let Raised::Wanted(Some(raising)) = inner else {
        return Ok(end);
    };
    if raised.is_wanted() {
        raised.note_if(
            passes(alloc, around.setting.effects, statements, handlers)?,
            alloc,
            &raising,
        )?;
    }
    let other = self::handlers(alloc, around, &raising, raised, handlers)?;
    Ok(join_ends(end, other))
}

/// The handlers that begin with these holds: their ends join.
#[cycle(flowing)]
#[tactic(auto, using(std::proofs::lemmas::Grind::common_steps, crate::proofs::Noted::noted_steps))]
fn handlers(
    alloc: Global,
    around: &Around<'_>,
    raising: &Known,
    raised: &mut Raised,
    handlers: &[Handler],
) -> Result<Option<Known>, FlowFault>
    ensures { Ends result raised.old raised.new (handlers_in around.now handlers.now raising.now.holds.items) }
{
    let mut joined = None;
    'handlers: for handler in handlers {
        let end = statements(
            alloc,
            around,
            raising.copy(alloc)?,
            raised,
            &handler.statements,
        )?;
        joined = join_ends(joined, end);
    }
    Ok(joined)
}

//! What is told instead of a fault of the names: an Initialize or an Adjust that calls itself by what stands before it.

ghost use Rattle.std.specs.Prelude.{◌≡◌, IfErr, IfOk};
ghost use Rattle.ada_resolve.specs.View.{Faults};
ghost use Rattle.ada_resolve.specs.declared.fault.NameFault.TheVariants as names;
ghost use Rattle.ada_tree.specs.StatementView.{unit_of};
ghost use Rattle.ada_verdict.specs.First.{IsFirst, IsFirstBefore, IsSourceOf};

use crate::fault::Verdict;
use ada_front::cut::cut;
use ada_program::Spot;
use ada_resolve::{NameFault, resolve};
use ada_rounds::first_round;
use ada_tree::unit::Unit;
use std::alloc::Global;

/// The first fault of a source whose names have this one, or that memory ran out. The tree is cut before the fault.
#[tactic(auto, using(std::proofs::lemmas::Grind::common_steps, crate::proofs::Before::memory_told))]
pub(crate) fn first_told(
    alloc: Global,
    source: &[u8],
    unit: &mut Unit<'_>,
    fault: NameFault,
) -> Verdict
    requires source { IsSourceOf source.now (unit_of unit.old) }
    requires faults { Faults fault (unit_of unit.old) }
    ensures { IsFirst source.now result }
{
    match fault {
        NameFault::Broken { spot, rule } => match first_before(alloc, unit, spot) {
            Ok(Some(early)) => Verdict::EarlyRound(early),
            Ok(None) => Verdict::Names(NameFault::Broken { spot, rule }),
            Err(memory) => Verdict::Names(memory),
        },
        NameFault::NoMemory => Verdict::Names(NameFault::NoMemory),
    }
}

/// Where the first Initialize or Adjust begins that calls itself by what stands before a fault, where that is a program. The tree is cut.
///
/// # Errors
/// `NoMemory` where memory was refused.
#[tactic(auto, using(std::proofs::lemmas::Grind::common_steps, crate::proofs::Before::none_in_front))]
fn first_before(alloc: Global, unit: &mut Unit<'_>, fault: Spot) -> Result<Option<Spot>, NameFault>
    ensures first { IfOk result (IsFirstBefore fault (unit_of unit.old)) }
    ensures memory { IfErr result (λ why. why ≡ names.NoMemory) }
{
    cut(alloc, unit, fault);
    match resolve(alloc, unit) {
        Ok(program) => Ok(first_round(alloc, &program)?),
        Err(NameFault::Broken { .. }) => Ok(None),
        Err(NameFault::NoMemory) => Err(NameFault::NoMemory),
    }
}

//! What does a deed: the nodes that are reached in the graph of calls.

ghost use Rattle.std.specs.Prelude.{◌≡◌, true, length, IfOk};
ghost use Rattle.ada_deeds.specs.Does.{is_deed_of};
ghost use Rattle.ada_deeds.specs.Graph.{MarksDoers};
ghost use Rattle.ada_deeds.specs.declared.deed.Deed.TheVariants as deed;
ghost use Rattle.ada_program.specs.ProgramForm.{program_form};

use crate::begins::begins;
use crate::calls::Calls;
use crate::deed::Deed;
use crate::nodes::Nodes;
use crate::search::Search;
use ada_program::Program;
use ada_program::program::Exception;
use std::alloc::{AllocError, Global};

/// Marks the nodes of the callees out of which an exception comes, by the graph of calls.
fn raisers_of(
    alloc: Global,
    program: &Program,
    nodes: Nodes,
    exception: Exception,
) -> Result<Vec<bool>, AllocError>
    requires procedures { nodes.procedures ≡ length program.now.procedures.items }
    requires types { nodes.types ≡ length program.now.types.items }
    requires deed { is_deed_of (program_form program.now) (deed.Raises exception) ≡ true }
    ensures { IfOk result (λ marks. MarksDoers (program_form program.now) (deed.Raises exception)
        nodes.procedures nodes.types marks.items) }
{
    let calls = Calls::of(alloc, program, nodes, Search::Exception(exception))?;
    calls.doers(alloc, Deed::Raises(exception))
}

/// Marks the nodes of the callees out of which an exception comes: no marks are kept, where it comes out of no body whatever this
/// calls. Linear in the bodies of the program, and, where it comes out of one, in its types.
pub(crate) fn raisers(
    alloc: Global,
    program: &Program,
    nodes: Nodes,
    exception: Exception,
) -> Result<Vec<bool>, AllocError>
    requires procedures { nodes.procedures ≡ length program.now.procedures.items }
    requires types { nodes.types ≡ length program.now.types.items }
    requires deed { is_deed_of (program_form program.now) (deed.Raises exception) ≡ true }
    ensures { IfOk result (λ marks. MarksDoers (program_form program.now) (deed.Raises exception)
        nodes.procedures nodes.types marks.items) }
{
    let is_begun = begins(alloc, program, exception)?;
    if !is_begun {
        return Ok(Vec::new(alloc));
    }
    raisers_of(alloc, program, nodes, exception)
}

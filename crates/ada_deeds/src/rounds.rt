//! Which procedures call themselves, by the graph of calls.

ghost use Rattle.std.specs.Prelude.{◌≡◌, ◌↔◌, true, IfOk};
ghost use Rattle.ada_deeds.specs.Rounds.{CallsItself, KnowsCalls};
ghost use Rattle.ada_program.specs.ProgramForm.{ProgramForm, program_form};

use crate::calls::Calls;
use crate::deed::Callee;
use crate::nodes::Nodes;
use crate::search::Search;
use ada_program::{ProcedureNo, Program};
use std::alloc::{AllocError, Global};

/// The graph of calls of a program, in which it is asked what calls itself.
#[derive(Drop)]
pub struct Rounds {
    nodes: Nodes,
    calls: Calls,
}

impl Rounds {
    /// The graph of a program. Linear in the program.
    ///
    /// # Errors
    /// `AllocError` where memory was refused.
    pub fn new(alloc: Global, program: &Program) -> Result<Rounds, AllocError>
        ensures { IfOk result (λ rounds. KnowsCalls rounds (program_form program.now)) }
    {
        let nodes = Nodes::of(program)?;
        let calls = Calls::of(alloc, program, nodes, Search::Others)?;
        Ok(Rounds { nodes, calls })
    }

    /// Whether a procedure calls itself, directly or by way of other procedures and of operations (6.4, 7.6). Linear in the graph.
    ///
    /// # Errors
    /// `AllocError` where memory for the marks of the nodes was refused.
    pub fn calls_itself(&self, alloc: Global, procedure: ProcedureNo) -> Result<bool, AllocError>
        ensures { IfOk result (λ answer. (p : ProgramForm) → KnowsCalls self.now p → (answer ≡ true) ↔ CallsItself p procedure) }
    {
        match self.nodes.node(Callee::Procedure(procedure)) {
            None => Ok(false),
            Some(node) => self.calls.is_on_a_round(alloc, node),
        }
    }
}

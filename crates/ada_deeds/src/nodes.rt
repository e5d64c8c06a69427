//! The nodes of the graph of calls.

ghost use Rattle.std.specs.Prelude.{◌≡◌, ◌+◌, ◌<◌, ◌^◌, length, Some, IfOk};
ghost use Rattle.ada_deeds.specs.Graph as rules;
ghost use Rattle.ada_deeds.specs.Graph.{node_of};

use crate::deed::{Callee, Operation};
use ada_program::{ProcedureNo, Program, TypeNo};
use std::alloc::AllocError;

/// How many procedures and types a program has. The procedures come first among the nodes; behind them, for one operation after
/// the other, the types.
#[derive(Clone, Copy)]
pub(crate) struct Nodes {
    pub(crate) procedures: usize,
    pub(crate) types: usize,
    ghost few: { procedures + types + types + types < 2 ^ 64 },
}

impl Nodes {
    /// Those of a program.
    ///
    /// # Errors
    /// `AllocError` where no memory holds so many.
    pub(crate) fn of(program: &Program) -> Result<Nodes, AllocError>
        ensures procedures { IfOk result (λ nodes. nodes.procedures ≡ length program.now.procedures.items) }
        ensures types { IfOk result (λ nodes. nodes.types ≡ length program.now.types.items) }
    {
        let procedures = program.procedures.len();
        let types = program.types.len();
        let Some(adjusted) = procedures.checked_add(types) else {
            return Err(AllocError);
        };
        let Some(finalized) = adjusted.checked_add(types) else {
            return Err(AllocError);
        };
        match finalized.checked_add(types) {
            None => Err(AllocError),
            Some(_) => Ok(Nodes { procedures, types }),
        }
    }

    /// How many nodes there are.
    pub(crate) fn count(self) -> usize
        ensures { result ≡ rules.node_count self.procedures self.types }
    {
        self.procedures + self.types + self.types + self.types
    }

    /// The node of a callee: none, if the program has no such procedure or type.
    #[tactic(auto, unfolding(crate::specs::Graph::node_of))]
    pub(crate) fn node(self, callee: Callee) -> Option<usize>
        ensures { result ≡ node_of self.procedures self.types callee }
    {
        match callee {
            Callee::Procedure(procedure) => {
                if procedure.0 < self.procedures {
                    Some(procedure.0)
                } else {
                    None
                }
            }
            Callee::Parts(operation, record) => {
                if record.0 < self.types {
                    Some(self.first(operation) + record.0)
                } else {
                    None
                }
            }
        }
    }

    /// The node of the first type for an operation.
    fn first(self, operation: Operation) -> usize
        ensures { result ≡ rules.first_node self.procedures self.types operation }
    {
        match operation {
            Operation::Initialize => self.procedures,
            Operation::Adjust => self.procedures + self.types,
            Operation::Finalize => self.procedures + self.types + self.types,
        }
    }

    /// The callee of a node.
    #[tactic(auto, unfolding(crate::specs::Graph::node_of))]
    pub(crate) fn callee(self, node: usize) -> Callee
        requires { node < rules.node_count self.procedures self.types }
        ensures { node_of self.procedures self.types result ≡ Some node }
    {
        if node < self.procedures {
            Callee::Procedure(ProcedureNo(node))
        } else {
            self.operation(node - self.procedures)
        }
    }

    /// The callee of a node behind those of the procedures.
    #[tactic(auto, unfolding(crate::specs::Graph::node_of))]
    fn operation(self, behind: usize) -> Callee
        requires { behind < self.types + self.types + self.types }
        ensures { node_of self.procedures self.types result ≡ Some (self.procedures + behind) }
    {
        if behind < self.types {
            Callee::Parts(Operation::Initialize, TypeNo(behind))
        } else if behind < self.types + self.types {
            Callee::Parts(Operation::Adjust, TypeNo(behind - self.types))
        } else {
            Callee::Parts(
                Operation::Finalize,
                TypeNo(behind - self.types - self.types),
            )
        }
    }
}

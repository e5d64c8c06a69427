//! The graph of calls for one deed.

ghost use Rattle.std.specs.Prelude.{◌≡◌, [], ◌∷◌, length, IfOk, OnOk};
ghost use Rattle.ada_deeds.specs.Graph.{AddsEdge, AddsCalls, HasNoEdges};
ghost use Rattle.ada_reach.specs.View.{graph_of};

use crate::deed::Callee;
use crate::nodes::Nodes;
use std::alloc::{AllocError, Global};

/// So many nodes without edges.
pub(crate) fn no_edges(alloc: Global, count: usize) -> Result<Vec<Vec<usize>>, AllocError>
    ensures size { IfOk result (λ lists. length lists.items ≡ count) }
    ensures none { IfOk result (λ lists. HasNoEdges (graph_of lists.items)) }
{
    let mut lists = Vec::new(alloc);
    'nodes: for node in 0..count {
        let edges: Vec<usize> = Vec::new(alloc);
        lists.push(edges)?;
    }
    Ok(lists)
}

/// An edge leads from one node to another.
pub(crate) fn add_edge(
    lists: &mut Vec<Vec<usize>>,
    from: usize,
    to: usize,
) -> Result<(), AllocError>
    ensures { OnOk result (AddsEdge from to (graph_of lists.old.items) (graph_of lists.new.items)) }
{
    match lists.get_mut(from) {
        None => (),
        Some(list) => list.push(to)?,
    }
    Ok(())
}

/// An edge leads from the node of a callee, if it has one, to a node that calls it.
fn add_call(
    nodes: Nodes,
    lists: &mut Vec<Vec<usize>>,
    callee: Callee,
    node: usize,
) -> Result<(), AllocError>
    ensures { OnOk result (AddsCalls nodes.procedures nodes.types node (callee ∷ [])
        (graph_of lists.old.items) (graph_of lists.new.items)) }
{
    match nodes.node(callee) {
        None => Ok(()),
        Some(from) => add_edge(lists, from, node),
    }
}

/// Edges lead from the nodes of callees to a node that calls them.
pub(crate) fn add_calls(
    nodes: Nodes,
    lists: &mut Vec<Vec<usize>>,
    callees: &[Callee],
    node: usize,
) -> Result<(), AllocError>
    ensures { OnOk result (AddsCalls nodes.procedures nodes.types node callees.now
        (graph_of lists.old.items) (graph_of lists.new.items)) }
{
    'callees: for callee in callees {
        add_call(nodes, lists, *callee, node)?;
    }
    Ok(())
}

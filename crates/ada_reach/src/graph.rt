//! The nodes that are reached in a graph.

ghost use Rattle.std.specs.Prelude.{◌≡◌, ℕ, length, IfOk};
ghost use Rattle.ada_reach.specs.Graph.{IsReached};
ghost use Rattle.ada_reach.specs.View.{graph_of, IsMarked};

use crate::search::Search;
use std::alloc::{AllocError, Global};

/// Marks the nodes that are reached from the starts. For each node, by its number, the graph lists the nodes to which its edges
/// lead; a number that is no node's is passed over, here and among the starts. Linear in nodes, edges and starts.
///
/// # Errors
/// Where there is no memory for the marks, or for the list of what is found.
pub fn reached(
    alloc: Global,
    graph: &[Vec<usize>],
    starts: &[usize],
) -> Result<Vec<bool>, AllocError>
    ensures length { IfOk result (λ marks. length marks.items ≡ length graph.now) }
    ensures marks { IfOk result (λ marks. (n : ℕ) →
        IsReached (graph_of graph.now) starts.now n → IsMarked marks.items n) }
    ensures only { IfOk result (λ marks. (n : ℕ) →
        IsMarked marks.items n → IsReached (graph_of graph.now) starts.now n) }
{
    let mut search = Search::new(alloc, graph.len())?;
    search.add_all(starts)?;
    let mut done = 0;
    while done < search.found.len() {
        let node = search.found[done];
        search.add_all(&graph[node])?;
        done += 1;
    }
    Ok(search.marks)
}

//! The first body in the text that leads back to itself.

ghost use Rattle.std.specs.Prelude.{◌≡◌, ◌↔◌, [], true, slice_index_or, IfOk};
ghost use Rattle.ada_circles.specs.Circles.{IsFirstCircle};
ghost use Rattle.ada_circles.specs.Edges as rules;
ghost use Rattle.ada_circles.specs.Edges.{HasCircleAt};
ghost use Rattle.ada_program.specs.ProgramForm.{program_form};
ghost use Rattle.ada_quiet.specs.First.{IsFirst};
ghost use Rattle.ada_reach.specs.Graph.{IsReached};
ghost use Rattle.ada_reach.specs.View.{graph_of, IsMarked};

use crate::edges::edges;
use ada_program::{ProcedureNo, Program, Spot};
use ada_quiet::{first_of, start_unless};
use ada_reach::reached;
use std::alloc::{AllocError, Global};

/// The edges of a node.
fn edges_at(graph: &[Vec<usize>], node: usize) -> &[usize]
    ensures { result.now ≡ slice_index_or (graph_of graph.now) node [] }
{
    match graph.get(node) {
        None => &[],
        Some(edges) => edges,
    }
}

/// Whether a node is marked.
fn is_marked(marks: &[bool], node: usize) -> bool
    ensures { (result ≡ true) ↔ IsMarked marks.now node }
{
    match marks.get(node) {
        None => false,
        Some(mark) => *mark,
    }
}

/// Whether a node is reached from those to which its edges lead. Linear in the graph, and constant where it has no edges.
///
/// # Errors
/// `AllocError` where memory was refused.
fn is_on_a_circle(alloc: Global, graph: &[Vec<usize>], node: usize) -> Result<bool, AllocError>
    ensures { IfOk result (λ answer. (answer ≡ true)
        ↔ IsReached (graph_of graph.now) (slice_index_or (graph_of graph.now) node []) node) }
{
    let starts = edges_at(graph, node);
    if starts.is_empty() {
        return Ok(false);
    }
    let marks = reached(alloc, graph, starts)?;
    Ok(is_marked(&marks, node))
}

/// Where the body of the procedure of a number begins, if it leads back to itself.
fn circle_at(
    alloc: Global,
    program: &Program,
    graph: &[Vec<usize>],
    number: usize,
) -> Result<Option<Spot>, AllocError>
    requires { graph_of graph.now ≡ rules.edges (program_form program.now) }
    ensures { IfOk result (IsFirst (HasCircleAt (program_form program.now) number)) }
{
    let circles = is_on_a_circle(alloc, graph, number)?;
    Ok(start_unless(program, !circles, Some(ProcedureNo(number))))
}

/// Where the first body in the text begins that leads back to itself by what its own declarations create (7.6, 3.3.1, 4.8). Linear in the
/// program, and besides once for each body whose declarations create an object with controlled parts.
///
/// # Errors
/// `AllocError` where memory was refused.
pub fn first_circle(alloc: Global, program: &Program) -> Result<Option<Spot>, AllocError>
    ensures { IfOk result (IsFirstCircle (program_form program.now)) }
{
    let graph = edges(alloc, program)?;
    let mut first = None;
    'procedures: for number in 0..program.procedures.len() {
        let found = circle_at(alloc, program, &graph, number)?;
        first = first_of(first, found);
    }
    Ok(first)
}

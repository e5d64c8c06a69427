//! The graph of calls of a program, and what does itself what is sought.

ghost use Rattle.std.specs.Prelude.{◌≡◌, ◌↔◌, ◌+◌, ◌<◌, [], true, length, slice_index_or, IfOk, OnOk};
ghost use Rattle.ada_deeds.specs.Graph.{node_count, starts_of, AddsStart, AddsStarts, IsSearched, MarksReached};
ghost use Rattle.ada_deeds.specs.declared.search.Search.{Search as Seeks};
ghost use Rattle.ada_program.specs.ProgramForm.{ProgramForm, program_form};
ghost use Rattle.ada_reach.specs.Graph.{IsReached};
ghost use Rattle.ada_reach.specs.View.{graph_of};

use crate::callees::{find_in_callee, is_idle};
use crate::callers::{add_calls, add_edge, no_edges};
use crate::deed::Deed;
use crate::deeds::is_marked;
use crate::nodes::Nodes;
use crate::search::Search;
use ada_program::{Program, TypeNo};
use ada_reach::reached;
use std::alloc::{AllocError, Global};

/// The graph, whose edges lead from what is called to what calls it, and the nodes that do themselves what is sought.
#[derive(Drop)]
pub(crate) struct Calls {
    callers: Vec<Vec<usize>>,
    // The exception that is sought comes out of these, or, where all other deeds are sought, they allocate.
    itself: Vec<usize>,
    // For each type, those that free objects of it, and those that follow values of it.
    freeing: Vec<Vec<usize>>,
    following: Vec<Vec<usize>>,
}

/// A node is a start, if it does a deed itself.
fn add_start(starts: &mut Vec<usize>, node: usize, itself: bool) -> Result<(), AllocError>
    ensures { OnOk result (AddsStart itself node starts.old.items starts.new.items) }
{
    if itself {
        starts.push(node)?;
    }
    Ok(())
}

/// A node is a start for each of these types.
fn add_starts(lists: &mut Vec<Vec<usize>>, node: usize, types: &[TypeNo]) -> Result<(), AllocError>
    ensures { OnOk result (AddsStarts types.now node (graph_of lists.old.items) (graph_of lists.new.items)) }
{
    'types: for number in types {
        add_edge(lists, number.0, node)?;
    }
    Ok(())
}

impl Calls {
    /// No node is done yet.
    fn none(alloc: Global, nodes: Nodes) -> Result<Calls, AllocError>
        ensures { IfOk result (λ calls. (p : ProgramForm) (s : Seeks) →
            IsSearched p s nodes.procedures nodes.types 0 calls) }
    {
        Ok(Calls {
            callers: no_edges(alloc, nodes.count())?,
            itself: Vec::new(alloc),
            freeing: no_edges(alloc, nodes.types)?,
            following: no_edges(alloc, nodes.types)?,
        })
    }

    /// What the callee of a node calls leads to the node. Constant, where the node is one for a type that is no record type.
    fn add(
        &mut self,
        alloc: Global,
        program: &Program,
        nodes: Nodes,
        search: Search,
        node: usize,
    ) -> Result<(), AllocError>
        requires types { nodes.types ≡ length program.now.types.items }
        requires below { node < node_count nodes.procedures nodes.types }
        requires graph { IsSearched (program_form program.now) search nodes.procedures nodes.types node self.old }
        ensures { OnOk result (IsSearched (program_form program.now) search nodes.procedures nodes.types (node + 1) self.new) }
    {
        let callee = nodes.callee(node);
        if is_idle(program, callee) {
            return Ok(());
        }
        let found = find_in_callee(alloc, program, search, callee)?;
        add_calls(nodes, &mut self.callers, &found.callees, node)?;
        add_start(&mut self.itself, node, found.itself)?;
        add_starts(&mut self.freeing, node, &found.freed)?;
        add_starts(&mut self.following, node, &found.followed)
    }

    /// The graph of a program. Linear in the program.
    ///
    /// # Errors
    /// `AllocError` where memory was refused.
    pub(crate) fn of(
        alloc: Global,
        program: &Program,
        nodes: Nodes,
        search: Search,
    ) -> Result<Calls, AllocError>
        requires { nodes.types ≡ length program.now.types.items }
        ensures { IfOk result (λ calls. IsSearched (program_form program.now) search
            nodes.procedures nodes.types (node_count nodes.procedures nodes.types) calls) }
    {
        let mut calls = Calls::none(alloc, nodes)?;
        'nodes: for node in 0..nodes.count() {
            calls.add(alloc, program, nodes, search, node)?;
        }
        Ok(calls)
    }

    /// The nodes that do a deed themselves.
    fn starts(&self, deed: Deed) -> &[usize]
        ensures { result.now ≡ starts_of self.now deed }
    {
        match deed {
            Deed::Raises(_) | Deed::Allocates => &self.itself,
            Deed::Frees(access) => list_at(&self.freeing, access.0),
            Deed::Follows(access) => list_at(&self.following, access.0),
            Deed::Calls => &[],
        }
    }

    /// Marks the nodes that are reached from those that do a deed themselves; no marks are kept, where there are none of these. Linear
    /// in the graph, and constant where there are none.
    ///
    /// # Errors
    /// `AllocError` where memory was refused.
    pub(crate) fn doers(&self, alloc: Global, deed: Deed) -> Result<Vec<bool>, AllocError>
        ensures { IfOk result (λ marks. MarksReached (graph_of self.now.callers.items) (starts_of self.now deed) marks.items) }
    {
        let starts = self.starts(deed);
        if starts.is_empty() {
            return Ok(Vec::new(alloc));
        }
        reached(alloc, &self.callers, starts)
    }

    /// Whether a node is reached from those that call it: its callee calls itself. Linear in the graph.
    ///
    /// # Errors
    /// `AllocError` where memory was refused.
    pub(crate) fn is_on_a_round(&self, alloc: Global, node: usize) -> Result<bool, AllocError>
        ensures { IfOk result (λ answer. (answer ≡ true) ↔ IsReached (graph_of self.now.callers.items)
            (slice_index_or (graph_of self.now.callers.items) node []) node) }
    {
        let marks = reached(alloc, &self.callers, list_at(&self.callers, node))?;
        Ok(is_marked(&marks, node))
    }
}

/// The list of a number.
fn list_at(lists: &[Vec<usize>], number: usize) -> &[usize]
    ensures { result.now ≡ slice_index_or (graph_of lists.now) number [] }
{
    match lists.get(number) {
        None => &[],
        Some(list) => list,
    }
}

//! What a search of a graph has found.

ghost use Rattle.std.specs.Prelude.{◌≡◌, [], ◌∷◌, length, IfOk, OnOk};
ghost use Rattle.ada_reach.specs.View.{IsSearch, Adds};

use std::alloc::{AllocError, Global};

/// The nodes that are found: each is marked, and stands once in the list.
#[derive(Drop)]
pub(crate) struct Search {
    pub(crate) marks: Vec<bool>,
    pub(crate) found: Vec<usize>,
}

impl Search {
    /// Nothing is found yet among so many nodes.
    pub(crate) fn new(alloc: Global, nodes: usize) -> Result<Search, AllocError>
        ensures length { IfOk result (λ search. length search.marks.items ≡ nodes) }
        ensures none { IfOk result (λ search. search.found.items ≡ []) }
        ensures search { IfOk result (λ search. IsSearch search.marks.items search.found.items) }
    {
        Ok(Search {
            marks: vec![in alloc; false; nodes]?,
            found: Vec::new(alloc),
        })
    }

    /// A number is found, unless it is no node's. Constant.
    pub(crate) fn add(&mut self, node: usize) -> Result<(), AllocError>
        requires { IsSearch self.old.marks.items self.old.found.items }
        ensures search { OnOk result (IsSearch self.new.marks.items self.new.found.items) }
        ensures adds { OnOk result
            (Adds (node ∷ []) self.old.marks.items self.new.marks.items self.old.found.items self.new.found.items) }
    {
        if node < self.marks.len() && !self.marks[node] {
            self.found.push(node)?;
            self.marks[node] = true;
        }
        Ok(())
    }

    /// Each of these numbers is found, unless it is no node's.
    pub(crate) fn add_all(&mut self, nodes: &[usize]) -> Result<(), AllocError>
        requires { IsSearch self.old.marks.items self.old.found.items }
        ensures search { OnOk result (IsSearch self.new.marks.items self.new.found.items) }
        ensures adds { OnOk result
            (Adds nodes.now self.old.marks.items self.new.marks.items self.old.found.items self.new.found.items) }
    {
        for node in nodes {
            self.add(*node)?;
        }
        Ok(())
    }
}

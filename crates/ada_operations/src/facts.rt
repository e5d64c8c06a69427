//! What is known of a program before its operations are examined.

ghost use Rattle.std.specs.Prelude.{IfOk};
ghost use Rattle.ada_operations.specs.View.{Knows};
ghost use Rattle.ada_program.specs.ProgramForm.{program_form};

use crate::components::types_graph;
use crate::created::places_of;
use crate::places::Places;
use ada_deeds::Deeds;
use ada_program::Program;
use std::alloc::{AllocError, Global};

/// Who does what, where collections are created, and which types lie in which.
#[derive(Drop)]
pub(crate) struct Facts {
    pub(crate) deeds: Deeds,
    pub(crate) places: Places,
    pub(crate) graph: Vec<Vec<usize>>,
}

impl Facts {
    /// Those of a program.
    ///
    /// # Errors
    /// `AllocError` where memory was refused.
    pub(crate) fn of(alloc: Global, program: &Program) -> Result<Facts, AllocError>
        ensures { IfOk result (Knows (program_form program.now)) }
    {
        let places = places_of(alloc, program)?;
        let graph = types_graph(alloc, &program.types)?;
        let deeds = Deeds::new(alloc, program)?;
        Ok(Facts {
            deeds,
            places,
            graph,
        })
    }
}

//! Which types the components of records have.

ghost use Rattle.std.specs.Prelude.{◌≡◌, map, IfOk};
ghost use Rattle.ada_operations.specs.View as rules;
ghost use Rattle.ada_program.specs.Kept.{types_in};
ghost use Rattle.ada_program.specs.ProgramForm.{part_form, type_form};
ghost use Rattle.ada_reach.specs.View.{graph_of};

use ada_program::program::{Part, PartKind, TypeDefinition};
use std::alloc::{AllocError, Global};

/// The record types of declared components, in order.
fn component_types(alloc: Global, parts: &[Part]) -> Result<Vec<usize>, AllocError>
    ensures { IfOk result (λ found. found.items ≡ rules.component_types (map part_form parts.now)) }
{
    let mut found = Vec::new(alloc);
    'parts: for part in parts {
        match part.kind {
            PartKind::Record(record) => found.push(record.0)?,
            PartKind::Elementary(_) | PartKind::Parent => (),
        }
    }
    Ok(found)
}

/// Those of the components of a type's objects.
fn types_within(alloc: Global, definition: &TypeDefinition) -> Result<Vec<usize>, AllocError>
    ensures { IfOk result (λ found. found.items ≡ rules.types_within (type_form definition.now)) }
{
    match definition {
        TypeDefinition::Record {
            name: _,
            parts,
            components: _,
            finalization: _,
        } => component_types(alloc, parts),
        TypeDefinition::Access { .. } | TypeDefinition::Object { .. } => Ok(Vec::new(alloc)),
    }
}

/// The graph of types: edges lead from each record type to the record types of its components. Linear in the types.
///
/// # Errors
/// `AllocError` where memory was refused.
pub(crate) fn types_graph(
    alloc: Global,
    types: &[TypeDefinition],
) -> Result<Vec<Vec<usize>>, AllocError>
    ensures { IfOk result (λ graph. graph_of graph.items ≡ map rules.types_within (types_in types.now)) }
{
    let mut graph = Vec::new(alloc);
    'types: for definition in types {
        let edges = types_within(alloc, definition)?;
        graph.push(edges)?;
    }
    Ok(graph)
}

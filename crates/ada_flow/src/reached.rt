//! Which records the finalizations of objects reach: a table by types, which is made once for a program.

ghost use Rattle.std.specs.Prelude.{◌≡◌, ℕ, map, IfOk};
ghost use Rattle.std.specs.List.{Contains, slice_get};
ghost use Rattle.ada_effects.specs.Found.{has_number, implicit_in};
ghost use Rattle.ada_flow.specs.Parts.{designate_part};
ghost use Rattle.ada_flow.specs.Reached as table;
ghost use Rattle.ada_flow.specs.Reached.{AreRows, IsDesignated};
ghost use Rattle.ada_program.specs.Kept.{types_in};
ghost use Rattle.ada_program.specs.ProgramForm.{part_form, type_form};
ghost use Rattle.ada_program.specs.WellFormed as fits;
ghost use Rattle.ada_reach.specs.View.{graph_of};

use ada_effects::Implicit;
use ada_program::TypeNo;
use ada_program::lookup::record_components;
use ada_program::program::{Part, PartKind, TypeDefinition};
use ada_reach::reached;
use std::alloc::{AllocError, Global};

/// The record types of declared components, in order.
fn component_types(alloc: Global, parts: &[Part]) -> Result<Vec<usize>, AllocError>
    ensures { IfOk result (λ found. found.items ≡ table.component_types (map part_form parts.now)) }
{
    let mut found = Vec::new(alloc);
    'parts: for part in parts {
        match part.kind {
            PartKind::Record(record) => found.push(record.0)?,
            PartKind::Elementary(_) | PartKind::Parent => (),
        }
    }
    Ok(found)
}

/// Those of the components of a type's objects.
fn types_within(alloc: Global, definition: &TypeDefinition) -> Result<Vec<usize>, AllocError>
    ensures { IfOk result (λ found. found.items ≡ table.types_within (type_form definition.now)) }
{
    match definition {
        TypeDefinition::Record {
            name: _,
            parts,
            components: _,
            finalization: _,
        } => component_types(alloc, parts),
        TypeDefinition::Access { .. } | TypeDefinition::Object { .. } => Ok(Vec::new(alloc)),
    }
}

/// The graph of types: edges lead from each record type to the record types of its components. Linear in the types.
fn types_graph(alloc: Global, types: &[TypeDefinition]) -> Result<Vec<Vec<usize>>, AllocError>
    ensures { IfOk result (λ graph. graph_of graph.items ≡ map table.types_within (types_in types.now)) }
{
    let mut graph = Vec::new(alloc);
    'types: for definition in types {
        let edges = types_within(alloc, definition)?;
        graph.push(edges)?;
    }
    Ok(graph)
}

/// The type that an access type designates (3.10).
fn designated_type(types: &[TypeDefinition], access: TypeNo) -> Option<usize>
    ensures { result ≡ fits.designated_type (types_in types.now) access.0 }
{
    match types.get(access.0) {
        Some(
            TypeDefinition::Access {
                name: _,
                designated,
                pool: _,
            },
        ) => Some(designated.0),
        Some(TypeDefinition::Record { .. } | TypeDefinition::Object { .. }) | None => None,
    }
}

/// The types that access types designate.
fn designated_types(
    alloc: Global,
    types: &[TypeDefinition],
    accesses: &[TypeNo],
) -> Result<Vec<usize>, AllocError>
    ensures all { IfOk result (λ found. (whole : ℕ) →
        IsDesignated (types_in types.now) (has_number accesses.now) whole → Contains found.items whole) }
    ensures only { IfOk result (λ found. (whole : ℕ) →
        Contains found.items whole → IsDesignated (types_in types.now) (has_number accesses.now) whole) }
{
    let mut found = Vec::new(alloc);
    'accesses: for access in accesses {
        if let Some(whole) = designated_type(types, *access) {
            found.push(whole)?;
        }
    }
    Ok(found)
}

/// Marks the record types that are, or lie in, what access types designate. Linear in the types, and nothing where there are no
/// such access types.
fn row(
    alloc: Global,
    types: &[TypeDefinition],
    graph: &[Vec<usize>],
    accesses: &[TypeNo],
) -> Result<Vec<bool>, AllocError>
    requires { graph_of graph.now ≡ map table.types_within (types_in types.now) }
    ensures { IfOk result (λ row. table.IsRow (types_in types.now) (has_number accesses.now) (Some row)) }
{
    let starts = designated_types(alloc, types, accesses)?;
    if starts.is_empty() {
        return Ok(Vec::new(alloc));
    }
    let marks = reached(alloc, graph, &starts)?;
    Ok(marks)
}

/// For each type, by its number, the record types that are, or lie in, what the access types designate that the finalization of
/// its objects may free or follow (7.6.1).
#[derive(Drop)]
pub(crate) struct ReachedRecords {
    pub(crate) rows: Vec<Vec<bool>>,
}

impl ReachedRecords {
    /// Those of a program. Linear in the types for each type whose objects' finalization reaches an access type.
    pub(crate) fn of(
        alloc: Global,
        types: &[TypeDefinition],
        implicit: &Implicit,
    ) -> Result<ReachedRecords, AllocError>
        ensures { IfOk result (λ reached. AreRows (types_in types.now) (implicit_in implicit.now) reached.rows.items) }
    {
        let graph = types_graph(alloc, types)?;
        let mut rows = Vec::new(alloc);
        'accesses: for one in &implicit.reached {
            let marks = row(alloc, types, &graph, &one.list)?;
            rows.push(marks)?;
        }
        Ok(ReachedRecords { rows })
    }

    /// Whether the finalization of an object of a type reaches an access type whose objects are of a record type, or have a
    /// part of it. Constant.
    pub(crate) fn has(
        &self,
        types: &[TypeDefinition],
        implicit: &Implicit,
        ended: usize,
        record_type: usize,
    ) -> bool
        requires { AreRows (types_in types.now) (implicit_in implicit.now) self.now.rows.items }
        ensures { result ≡ designate_part (types_in types.now) ((implicit_in implicit.now).end_reaches ended) record_type }
    {
        record_components(types, record_type).is_some() && is_marked(&self.rows, ended, record_type)
    }
}

/// Whether a record type is marked in the row of a type.
fn is_marked(rows: &[Vec<bool>], ended: usize, record_type: usize) -> bool
    ensures { result ≡ table.is_in_row (slice_get rows.now ended) record_type }
{
    match rows.get(ended) {
        None => false,
        Some(row) => match row.get(record_type) {
            None => false,
            Some(mark) => *mark,
        },
    }
}

//! The graph of what the own declarations of bodies lead to: a node for each procedure, and behind these one for each type. An edge leads
//! from a body to the record type of each object that its own declarations create, and from a record type to what overrides its operations,
//! and to the record types of its components. Only record types count whose objects have controlled parts.

ghost use Rattle.std.specs.Prelude.{◌≡◌, ◌++◌, map, Some, IfOk, OnOk};
ghost use Rattle.ada_circles.specs.Circles as circles;
ghost use Rattle.ada_circles.specs.Edges as rules;
ghost use Rattle.ada_program.specs.Form.{declaration_form, initial_form, right_form};
ghost use Rattle.ada_program.specs.Kept.{types_in};
ghost use Rattle.ada_program.specs.ProgramForm.{body_form, part_form, program_form, type_form};
ghost use Rattle.ada_program.specs.WellFormed.{object_named};
ghost use Rattle.ada_reach.specs.View.{graph_of};

use ada_program::parts::finalization_of;
use ada_program::program::{
    Declaration, Operations, Part, PartKind, Procedure, Right, TypeDefinition,
};
use ada_program::{ProcedureNo, Program};
use std::alloc::{AllocError, Global};

/// The record type of the objects that an access type designates, or of the one that is known by a type: none, if it is a record type.
fn named_type(types: &[TypeDefinition], number: usize) -> Option<usize>
    ensures { result ≡ object_named (types_in types.now) (Some number) }
{
    match types.get(number) {
        Some(
            TypeDefinition::Access {
                name: _,
                designated,
                pool: _,
            },
        ) => Some(designated.0),
        Some(TypeDefinition::Object { record }) => Some(record.0),
        Some(TypeDefinition::Record { .. }) | None => None,
    }
}

/// The record type of the new object that is assigned, if it is one (4.8).
fn right_makes(types: &[TypeDefinition], right: &Right) -> Option<usize>
    ensures { result ≡ circles.right_makes (types_in types.now) (right_form right.now) }
{
    match right {
        Right::Null | Right::Path(_) | Right::Value(_) => None,
        Right::Allocator { access, items: _ } => named_type(types, access.0),
        Right::Default(access) => named_type(types, access.0),
    }
}

/// The record type of what a variable is given at first, if that is a new object (3.3.1).
fn initial_makes(types: &[TypeDefinition], initial: &Option<Right>) -> Option<usize>
    ensures { result ≡ circles.right_makes (types_in types.now) (initial_form initial.now) }
{
    match initial {
        None => None,
        Some(right) => right_makes(types, right),
    }
}

/// The record type of the object that a declaration creates, if it creates one: the declared object, or what a variable is given at
/// first (3.3.1).
fn declaration_makes(types: &[TypeDefinition], declaration: &Declaration) -> Option<usize>
    ensures { result ≡ circles.declaration_makes (types_in types.now) (declaration_form declaration.now) }
{
    match declaration {
        Declaration::Pool(_) | Declaration::Collection(_) => None,
        Declaration::Variable {
            variable: _,
            initial,
        } => initial_makes(types, initial),
        Declaration::Record {
            variable: _,
            object,
            initial: _,
        } => named_type(types, object.0),
    }
}

/// An edge leads to the node of a record type, behind so many procedures, where its objects have controlled parts. Constant.
///
/// # Errors
/// `AllocError` where memory was refused, or holds no such node.
fn push_type(
    edges: &mut Vec<usize>,
    types: &[TypeDefinition],
    procedures: usize,
    number: usize,
) -> Result<(), AllocError>
    ensures { OnOk result (edges.new.items ≡ edges.old.items ++ rules.to_type (types_in types.now) procedures number) }
{
    if finalization_of(types, number).is_some() {
        let Some(node) = procedures.checked_add(number) else {
            return Err(AllocError);
        };
        edges.push(node)?;
    }
    Ok(())
}

/// An edge leads to the record type of an object, if one is created.
fn push_created(
    edges: &mut Vec<usize>,
    types: &[TypeDefinition],
    procedures: usize,
    record_type: Option<usize>,
) -> Result<(), AllocError>
    ensures { OnOk result (edges.new.items ≡ edges.old.items ++ rules.to_created (types_in types.now) procedures record_type) }
{
    match record_type {
        None => Ok(()),
        Some(number) => push_type(edges, types, procedures, number),
    }
}

/// Edges lead to the record types of what declarations create. Linear in the declarations.
fn push_declared(
    edges: &mut Vec<usize>,
    types: &[TypeDefinition],
    procedures: usize,
    declarations: &[Declaration],
) -> Result<(), AllocError>
    ensures { OnOk result (edges.new.items
        ≡ edges.old.items ++ rules.to_declared (types_in types.now) procedures (map declaration_form declarations.now)) }
{
    'declarations: for declaration in declarations {
        let made = declaration_makes(types, declaration);
        push_created(edges, types, procedures, made)?;
    }
    Ok(())
}

/// An edge leads to what overrides an operation, if something does.
fn push_operation(
    edges: &mut Vec<usize>,
    procedures: usize,
    operation: Option<ProcedureNo>,
) -> Result<(), AllocError>
    ensures { OnOk result (edges.new.items ≡ edges.old.items ++ rules.to_operation procedures operation) }
{
    match operation {
        None => Ok(()),
        Some(number) => {
            if number.0 < procedures {
                edges.push(number.0)?;
            }
            Ok(())
        }
    }
}

/// Edges lead to what overrides the operations of a type.
fn push_operations(
    edges: &mut Vec<usize>,
    procedures: usize,
    operations: Operations,
) -> Result<(), AllocError>
    ensures { OnOk result (edges.new.items ≡ edges.old.items ++ rules.to_operations procedures operations) }
{
    push_operation(edges, procedures, operations.initialize)?;
    push_operation(edges, procedures, operations.adjust)?;
    push_operation(edges, procedures, operations.finalize)
}

/// An edge leads to the record type of a declared component, if it is a record.
fn push_component(
    edges: &mut Vec<usize>,
    types: &[TypeDefinition],
    procedures: usize,
    kind: PartKind,
) -> Result<(), AllocError>
    ensures { OnOk result (edges.new.items ≡ edges.old.items ++ rules.to_part (types_in types.now) procedures kind) }
{
    match kind {
        PartKind::Elementary(_) | PartKind::Parent => Ok(()),
        PartKind::Record(number) => push_type(edges, types, procedures, number.0),
    }
}

/// Edges lead to the record types of declared components. Linear in the components.
fn push_components(
    edges: &mut Vec<usize>,
    types: &[TypeDefinition],
    procedures: usize,
    parts: &[Part],
) -> Result<(), AllocError>
    ensures { OnOk result (edges.new.items
        ≡ edges.old.items ++ rules.to_parts (types_in types.now) procedures (map part_form parts.now)) }
{
    'parts: for part in parts {
        push_component(edges, types, procedures, part.kind)?;
    }
    Ok(())
}

/// The edges of a body. Linear in its declarations.
fn edges_of_body(
    alloc: Global,
    types: &[TypeDefinition],
    procedures: usize,
    procedure: &Procedure,
) -> Result<Vec<usize>, AllocError>
    ensures { IfOk result (λ edges. edges.items ≡ rules.from_body (types_in types.now) procedures (body_form procedure.now)) }
{
    let mut edges = Vec::new(alloc);
    push_declared(&mut edges, types, procedures, &procedure.declarations)?;
    Ok(edges)
}

/// The edges of a type. Linear in its components.
fn edges_of_type(
    alloc: Global,
    types: &[TypeDefinition],
    procedures: usize,
    definition: &TypeDefinition,
) -> Result<Vec<usize>, AllocError>
    ensures { IfOk result (λ edges. edges.items ≡ rules.from_type (types_in types.now) procedures (type_form definition.now)) }
{
    let mut edges = Vec::new(alloc);
    if let TypeDefinition::Record {
        name: _,
        parts,
        components: _,
        finalization: Some(finalization),
    } = definition
    {
        push_operations(&mut edges, procedures, finalization.operations)?;
        push_components(&mut edges, types, procedures, parts)?;
    }
    Ok(edges)
}

/// The nodes of procedures come behind others. Linear in the bodies.
fn push_bodies(
    alloc: Global,
    graph: &mut Vec<Vec<usize>>,
    types: &[TypeDefinition],
    count: usize,
    procedures: &[Procedure],
) -> Result<(), AllocError>
    ensures { OnOk result (graph_of graph.new.items
        ≡ graph_of graph.old.items ++ rules.from_bodies (types_in types.now) count (map body_form procedures.now)) }
{
    'procedures: for procedure in procedures {
        let edges = edges_of_body(alloc, types, count, procedure)?;
        graph.push(edges)?;
    }
    Ok(())
}

/// So do those of types. Linear in the types.
fn push_types(
    alloc: Global,
    graph: &mut Vec<Vec<usize>>,
    types: &[TypeDefinition],
    count: usize,
) -> Result<(), AllocError>
    ensures { OnOk result (graph_of graph.new.items
        ≡ graph_of graph.old.items ++ rules.from_types (types_in types.now) count (types_in types.now)) }
{
    'types: for definition in types {
        let edges = edges_of_type(alloc, types, count, definition)?;
        graph.push(edges)?;
    }
    Ok(())
}

/// The graph of a program. Linear in the bodies and the types.
///
/// # Errors
/// `AllocError` where memory was refused.
pub(crate) fn edges(alloc: Global, program: &Program) -> Result<Vec<Vec<usize>>, AllocError>
    ensures { IfOk result (λ graph. graph_of graph.items ≡ rules.edges (program_form program.now)) }
{
    let mut graph = Vec::new(alloc);
    let count = program.procedures.len();
    push_bodies(
        alloc,
        &mut graph,
        &program.types,
        count,
        &program.procedures,
    )?;
    push_types(alloc, &mut graph, &program.types, count)?;
    Ok(graph)
}

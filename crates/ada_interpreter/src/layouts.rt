//! Where controlled parts lie in the objects of record types.

ghost use Rattle.std.specs.Prelude.{◌≡◌, ◌++◌, map, IfOk, OnOk};
ghost use Rattle.std.specs.Option.{option_copied};
ghost use Rattle.ada_interpreter.specs.Loaded.{IsNumbered, AreLaidOut, layout_form, layout_by, inner_by};

use crate::tables::{has_parent, number_of, parts_by};
use ada_program::program::{ComponentNo, Part, PartKind, TypeDefinition};
use std::alloc::{AllocError, Global};

/// A component that is a record with controlled parts: the elementary component with which it begins, and the number of its
/// type.
#[derive(Clone, Copy)]
pub(crate) struct Inner {
    pub(crate) first: usize,
    pub(crate) of: usize,
}

/// A record type that has controlled parts: whether it is controlled itself, and its components that have some, in order.
#[derive(Drop)]
pub(crate) struct Layout {
    pub(crate) controlled: bool,
    pub(crate) inner: Vec<Inner>,
}

/// The layouts of the record types that have controlled parts, by the table of these.
pub(crate) fn layouts_of(
    alloc: Global,
    types: &[TypeDefinition],
    table: &[Option<&TypeDefinition>],
) -> Result<Vec<Layout>, AllocError>
    requires { IsNumbered types.now (map option_copied table.now) }
    ensures { IfOk result (λ layouts. AreLaidOut types.now layouts.items) }
{
    let mut layouts = Vec::new(alloc);
    for definition in table {
        layouts.push(layout_of(alloc, types, parts_by(*definition))?)?;
    }
    Ok(layouts)
}

/// The layout of a record type of these components.
fn layout_of(alloc: Global, types: &[TypeDefinition], parts: &[Part]) -> Result<Layout, AllocError>
    ensures { IfOk result (λ layout. layout_form layout ≡ layout_by types.now parts.now) }
{
    let mut inner = Vec::new(alloc);
    for part in parts {
        push_inner(&mut inner, types, part.first, part.kind)?;
    }
    Ok(Layout {
        controlled: has_parent(parts),
        inner,
    })
}

/// A component comes behind others, if it is a record of a type that has controlled parts.
fn push_inner(
    inner: &mut Vec<Inner>,
    types: &[TypeDefinition],
    first: ComponentNo,
    kind: PartKind,
) -> Result<(), AllocError>
    ensures { OnOk result (inner.new.items ≡ inner.old.items ++ inner_by types.now first.0 kind) }
{
    match kind {
        PartKind::Elementary(_) | PartKind::Parent => Ok(()),
        PartKind::Record(record_type) => match number_of(types, record_type) {
            None => Ok(()),
            Some(of) => {
                inner.push(Inner { first: first.0, of })?;
                Ok(())
            }
        },
    }
}

//! The operations of controlled types that are called implicitly (7.6): of which access types they may free objects, and what is
//! lost behind them.

ghost use Rattle.std.specs.Prelude.{◌≡◌, true, OnOk};
ghost use Rattle.std.specs.List.{list_any};
ghost use Rattle.ada_effects.specs.Effects as effects;
ghost use Rattle.ada_effects.specs.Found.{has_number, implicit_in};
ghost use Rattle.ada_flow.specs.Implicit.{left_by_ending, left_by_start};
ghost use Rattle.ada_flow.specs.Told.{implicit_around, variables_in};
ghost use Rattle.ada_program.specs.Form.{initial_items, right_form};

use crate::around::Around;
use crate::calls::raises_some;
use crate::known::Known;
use crate::losing::{forget_freed, freed_at_end, freed_at_start, freed_by_adjust};
use ada_effects::Implicit;
use ada_program::TypeNo;
use ada_program::program::{Item, Right};
use std::alloc::{AllocError, Global};

/// Whether the initialization of an object of a type may raise an exception.
pub(crate) fn start_raises(implicit: &Implicit, type_number: usize) -> bool
    ensures { result ≡ list_any (λ e. true) ((implicit_in implicit.now).start_raises type_number) }
{
    match implicit.starts.get(type_number) {
        None => false,
        Some(effect) => raises_some(effect),
    }
}

/// The access types of which objects may be freed where a record object is declared: it is initialized, or its initial value is adjusted.
pub(crate) fn freed_at_first<'a>(
    implicit: &'a Implicit,
    object: TypeNo,
    initial: &Option<Vec<Item>>,
) -> &'a [TypeNo]
    ensures { has_number result.now
        ≡ (λ t. effects.initial_frees (implicit_in implicit.now) t object.0 (initial_items initial.now)) }
{
    match initial {
        None => freed_at_start(implicit, object.0),
        Some(_) => freed_by_adjust(implicit, object.0),
    }
}

/// A new object is initialized, if it has no items: every alias is lost of the access types of which that may free objects.
pub(crate) fn start(
    alloc: Global,
    around: &Around<'_>,
    known: &mut Known,
    value: &Right,
) -> Result<(), AllocError>
    ensures { OnOk result (known.new.holds.items
        ≡ left_by_start (variables_in around.now) (implicit_around around.now) (right_form value.now) known.old.holds.items) }
{
    match value {
        Right::Default(access) => {
            let freed = freed_at_start(around.setting.effects.implicit, access.0);
            forget_freed(alloc, around.setting.variables, known, freed)
        }
        Right::Null | Right::Path(_) | Right::Allocator { .. } | Right::Value(_) => Ok(()),
    }
}

/// An object of an access type is finalized, if it has one: every alias is lost of the access types of which that may free
/// objects.
pub(crate) fn finalize(
    alloc: Global,
    around: &Around<'_>,
    known: &mut Known,
    access: Option<usize>,
) -> Result<(), AllocError>
    ensures { OnOk result (known.new.holds.items
        ≡ left_by_ending (variables_in around.now) (implicit_around around.now) access known.old.holds.items) }
{
    match access {
        None => Ok(()),
        Some(access) => {
            let freed = freed_at_end(around.setting.effects.implicit, access);
            forget_freed(alloc, around.setting.variables, known, freed)
        }
    }
}

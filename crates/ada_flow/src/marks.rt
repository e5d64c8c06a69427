//! Types by which objects are known, marked by their numbers: one look tells whether a type is among them.

ghost use Rattle.std.specs.Prelude.{◌≡◌, ◌==◌, ◌||◌, ℕ, false, IfOk, OnOk, Some, map, slice_index_or};
ghost use Rattle.std.specs.Bool.{IsTrue};
ghost use Rattle.ada_effects.specs.Found.{has_number};
ghost use Rattle.ada_flow.specs.Told.{AreMarks, is_marked, type_number};
ghost use Rattle.ada_program.specs.WellFormed.{access_of};

use ada_program::TypeNo;
use ada_program::program::VariableKind;
use std::alloc::{AllocError, Global};

/// A set of access types, and of types by which record objects are known.
#[derive(Drop)]
pub(crate) struct Marks {
    // Which types are in it, by their numbers; those behind the last one are not.
    at: Vec<bool>,
}

impl Marks {
    /// The marks of these types. Costs as much as there are types, and as the greatest of their numbers.
    pub(crate) fn of(alloc: Global, types: &[TypeNo]) -> Result<Marks, AllocError>
        ensures { IfOk result (λ marks. AreMarks marks (map type_number types.now)) }
    {
        let mut at = Vec::new(alloc);
        'types: for one in types {
            mark(&mut at, *one)?;
        }
        Ok(Marks { at })
    }

    /// No type is marked.
    pub(crate) fn nothing(alloc: Global) -> Marks
        ensures { (t : ℕ) → is_marked result (Some t) ≡ false }
    {
        Marks {
            at: Vec::new(alloc),
        }
    }

    /// These types are marked besides.
    pub(crate) fn add(&mut self, types: &[TypeNo]) -> Result<(), AllocError>
        ensures { OnOk result ((t : ℕ) → is_marked self.new (Some t)
            ≡ (is_marked self.old (Some t) || has_number types.now t)) }
    {
        'types: for one in types {
            mark(&mut self.at, *one)?;
        }
        Ok(())
    }

    /// Whether no type is marked. Constant.
    pub(crate) fn is_empty(&self) -> bool
        ensures { IsTrue result → (t : ℕ) → is_marked self.now (Some t) ≡ false }
    {
        self.at.is_empty()
    }

    /// Whether a variable is of one of the marked types. Constant.
    pub(crate) fn has(&self, kind: VariableKind) -> bool
        ensures { result ≡ is_marked self.now (access_of (Some kind)) }
    {
        match kind {
            VariableKind::Integer | VariableKind::Boolean => false,
            VariableKind::Access(known) | VariableKind::Record(known) => match self
                .at
                .get(known.0)
            {
                Some(is_in) => *is_in,
                None => false,
            },
        }
    }
}

/// A type is marked besides, among marks that grow as far as its number.
fn mark(at: &mut Vec<bool>, one: TypeNo) -> Result<(), AllocError>
    ensures { OnOk result
        ((t : ℕ) → slice_index_or at.new.items t false ≡ (slice_index_or at.old.items t false || (t == one.0))) }
{
    match at.get_mut(one.0) {
        Some(is_in) => *is_in = true,
        None => {
            at.resize(one.0, false)?;
            at.push(true)?;
        }
    }
    Ok(())
}

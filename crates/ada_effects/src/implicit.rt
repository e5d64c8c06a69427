//! What is known of the operations of controlled types that are called implicitly.

ghost use Rattle.std.specs.Prelude.{◌≡◌};
ghost use Rattle.ada_effects.specs.Effects.{no_implicit};
ghost use Rattle.ada_effects.specs.Found.{implicit_in};

use crate::effect::Effect;
use ada_program::TypeNo;
use std::alloc::Global;

/// Access types, each once.
#[derive(Drop)]
pub struct AccessTypes {
    pub list: Vec<TypeNo>,
}

/// What the operations of controlled types may do that are called for all controlled parts of an object (7.6), by the number
/// of a type: that of the record, the access type of an allocated object, or the type by which a record object is known.
/// Nothing, past the end of a list.
#[derive(Drop)]
pub struct Implicit {
    /// Where an object is created without an initial value: by Initialize, and by Finalize behind one that raises an
    /// exception.
    pub starts: Vec<Effect>,
    /// Of which access types objects may be freed where a record is copied, by Adjust.
    pub adjusts: Vec<AccessTypes>,
    /// Of which they may be freed where an object ends or gets another value, by Finalize.
    pub ends: Vec<AccessTypes>,
    /// Of which they may be freed there, or followed.
    pub reached: Vec<AccessTypes>,
}

impl Implicit {
    /// Operations that raise, free and follow nothing.
    pub fn nothing(alloc: Global) -> Implicit
        ensures { implicit_in result ≡ no_implicit }
    {
        Implicit {
            starts: Vec::new(alloc),
            adjusts: Vec::new(alloc),
            ends: Vec::new(alloc),
            reached: Vec::new(alloc),
        }
    }
}

/// What is known of calls.
#[derive(Clone, Copy)]
pub struct Effects<'a> {
    pub implicit: &'a Implicit,
    /// Of the procedures, by their numbers.
    pub calls: &'a [Effect],
}

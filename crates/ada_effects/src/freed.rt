//! The access types of which objects may be freed.

ghost use Rattle.std.specs.Prelude.{◌≡◌, ◌==◌, ℕ, true, false, slice_index_or};
ghost use Rattle.std.specs.List.{list_any};

use crate::taken::insert_number;
use ada_program::TypeNo;
use std::alloc::{AllocError, Global};

/// Access types that are found, each once.
#[derive(Drop)]
pub(crate) struct Freed {
    list: Vec<TypeNo>,
    // Which are in the list, by their numbers; those behind the last one are not.
    known: Vec<bool>,
    ghost listed: { (t : ℕ) → slice_index_or known.items t false ≡ true → list_any (λ x. x.0 == t) list.items ≡ true },
}

impl Freed {
    ghost use Rattle.std.specs.Prelude.{Bool, OnOk};
    ghost use Rattle.ada_effects.specs.Found.{Frees, has_number};

    /// Nothing is found yet.
    pub(crate) fn nothing(alloc: Global) -> Freed
        ensures { (t : ℕ) → has_number result.list.items t ≡ false }
    {
        Freed {
            list: Vec::new(alloc),
            known: Vec::new(alloc),
        }
    }

    /// An access type is found.
    #[tactic(auto, using(std::proofs::lemmas::Grind::common_steps, crate::proofs::Collected::numbering))]
    pub(crate) fn add(&mut self, access: TypeNo) -> Result<(), AllocError>
        ensures { Frees result self.old self.new (λ t. access.0 == t) }
    {
        if !self.contains(access) {
            self.list.push(access)?;
            insert_number(&mut self.known, access.0)?;
        }
        Ok(())
    }

    /// Whether an access type is found.
    fn contains(&self, access: TypeNo) -> bool
        ensures { result ≡ slice_index_or self.now.known.items access.0 false }
    {
        match self.known.get(access.0) {
            Some(is_in) => *is_in,
            None => false,
        }
    }

    /// Each of these access types is found.
    pub(crate) fn add_all(&mut self, types: &[TypeNo]) -> Result<(), AllocError>
        ensures { Frees result self.old self.new (has_number types.now) }
    {
        'types: for access in types {
            self.add(*access)?;
        }
        Ok(())
    }

    /// What is found.
    pub(crate) fn into_list(self) -> Vec<TypeNo>
        ensures { result ≡ self.list }
    {
        self.list
    }
}

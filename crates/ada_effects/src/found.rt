//! The exceptions that are found where they may be raised.

ghost use Rattle.std.specs.Prelude.{◌≡◌, true};
ghost use Rattle.ada_effects.specs.Taken.{set_of, is_among};
ghost use Rattle.ada_program.specs.declared.program.Exception.{Exception};

use crate::taken::Taken;
use ada_program::program::Exception;
use std::alloc::{AllocError, Global};

/// Exceptions that are found, each once.
#[derive(Drop)]
pub(crate) struct Found {
    list: Vec<Exception>,
    // Which are in the list.
    known: Taken,
    ghost listed: { (e : Exception) → set_of known e ≡ true → is_among e list.items ≡ true },
}

impl Found {
    ghost use Rattle.std.specs.Prelude.{Bool, true, false, not, ◌&&◌};
    ghost use Rattle.std.specs.List.{list_any};
    ghost use Rattle.ada_effects.specs.Found.{Finds, is_found};

    /// Nothing is found yet.
    #[tactic(auto, using(std::proofs::lemmas::Grind::common_steps, crate::proofs::Sets::holds_nothing))]
    pub(crate) fn nothing(alloc: Global) -> Found
        ensures { (among : Exception → Bool) → is_found result among ≡ false }
    {
        Found {
            list: Vec::new(alloc),
            known: Taken::new(alloc),
        }
    }

    /// An exception may be raised: it is found, unless it is taken. Constant.
    #[tactic(auto, using(std::proofs::lemmas::Grind::common_steps, crate::proofs::Collected::adding))]
    pub(crate) fn add(&mut self, taken: &Taken, exception: Exception) -> Result<(), AllocError>
        ensures { Finds result (set_of taken.now) self.old self.new (λ among. among exception) }
    {
        if !taken.contains(exception) && !self.known.contains(exception) {
            self.list.push(exception)?;
            self.known.insert(exception)?;
        }
        Ok(())
    }

    /// The same, if it may be raised at all.
    pub(crate) fn add_if(
        &mut self,
        taken: &Taken,
        exception: Exception,
        may_raise: bool,
    ) -> Result<(), AllocError>
        ensures { Finds result (set_of taken.now) self.old self.new (λ among. among exception && may_raise) }
    {
        if may_raise {
            self.add(taken, exception)?;
        }
        Ok(())
    }

    /// Each of these exceptions may be raised.
    pub(crate) fn add_all(
        &mut self,
        taken: &Taken,
        exceptions: &[Exception],
    ) -> Result<(), AllocError>
        ensures { Finds result (set_of taken.now) self.old self.new (λ among. list_any among exceptions.now) }
    {
        'exceptions: for exception in exceptions {
            self.add(taken, *exception)?;
        }
        Ok(())
    }

    /// Whether something is found.
    pub(crate) fn is_some(&self) -> bool
        ensures { result ≡ is_found self.now (λ e. true) }
    {
        match self.list.as_slice() {
            [] => false,
            [_, ..] => true,
        }
    }

    /// What is found.
    pub(crate) fn into_list(self) -> Vec<Exception>
        ensures { result ≡ self.list }
    {
        self.list
    }
}

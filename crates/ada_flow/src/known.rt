//! What is known of the variables at a place in the program.

ghost use Rattle.std.specs.Prelude.{◌≡◌, IfOk, slice_set};
ghost use Rattle.std.specs.Bool.{IsTrue};
ghost use Rattle.ada_flow.specs.Aliases.{tells_aliases};

use crate::holds::{have_alias, is_alias};
use crate::rule::Hold;
use ada_program::VariableNo;
use std::alloc::{AllocError, Global};

/// What is known of each variable, and whether one may hold an alias: where none does, a `Free` loses none.
#[derive(Drop)]
pub(crate) struct Known {
    /// What each variable holds, by its number.
    pub(crate) holds: Vec<Hold>,
    /// Whether a variable may hold an alias: where it is false, none does.
    pub(crate) aliased: bool,
    ghost told: { IsTrue (tells_aliases aliased holds.items) },
}

impl Known {
    /// The variables hold this. Costs their number.
    #[tactic(auto, using(std::proofs::lemmas::Grind::common_steps, crate::proofs::Aliased::told_of_itself))]
    pub(crate) fn of(holds: Vec<Hold>) -> Known
        ensures { result.holds.items ≡ holds.items }
    {
        let aliased = have_alias(&holds);
        Known { holds, aliased }
    }

    /// What each variable holds, by its number.
    pub(crate) fn holds(&self) -> &[Hold]
        ensures { result.now ≡ self.now.holds.items }
    {
        &self.holds
    }

    /// The same is known where another way begins.
    pub(crate) fn copy(&self, alloc: Global) -> Result<Known, AllocError>
        ensures { IfOk result (λ known. known.holds.items ≡ self.now.holds.items) }
    {
        let holds = self.holds.to_vec(alloc)?;
        Ok(Known {
            holds,
            aliased: self.aliased,
        })
    }

    /// A variable holds this from now on.
    #[tactic(auto, using(std::proofs::lemmas::Grind::common_steps, crate::proofs::Aliased::told_of_set))]
    pub(crate) fn put(&mut self, variable: VariableNo, hold: Hold)
        ensures { self.new.holds.items ≡ slice_set self.old.holds.items variable.0 hold }
    {
        if variable.0 < self.holds.len() {
            self.holds[variable.0] = hold;
            self.aliased |= is_alias(hold);
        }
    }
}

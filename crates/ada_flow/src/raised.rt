//! What is known wherever an exception may be raised, as far as a handler or a block around wants to know it.

ghost use Rattle.std.specs.Prelude.{◌≡◌, Some, None, OnOk, map};
ghost use Rattle.ada_effects.specs.Found.{implicit_in};
ghost use Rattle.ada_flow.specs.Flow.{raising_if};
ghost use Rattle.ada_flow.specs.Told.{held, noted, also_noted, noted_behind, emptied, gone_of, is_wanted, noted_first, noted_for, raised_by};
ghost use Rattle.ada_program.specs.Form.{handlers_form};
ghost use Rattle.ada_program.specs.ProgramForm.{variable_form};

use crate::gone::Gone;
use crate::joins::{join_ends, join_into};
use crate::kinds::leave_finalized_end;
use crate::known::Known;
use ada_effects::Implicit;
use ada_program::program::{FormalMode, Handler, Variable};
use std::alloc::{AllocError, Global};

/// What each variable holds wherever an exception may be raised.
#[derive(Drop)]
pub(crate) enum Raised {
    /// Nothing around wants to know it.
    Unwanted,
    /// What is known at all those places so far, if there is one.
    Wanted(Option<Known>),
}

impl Raised {
    /// Whether something around wants to know it.
    pub(crate) fn is_wanted(&self) -> bool
        ensures { result ≡ is_wanted (noted self.now) }
    {
        match self {
            Raised::Unwanted => false,
            Raised::Wanted(_) => true,
        }
    }

    /// Nothing is raised yet by a body with formal parameters of these modes: what it keeps of them is wanted, if there are some.
    pub(crate) fn at_first(formals: &[FormalMode]) -> Raised
        ensures { noted result ≡ noted_first formals.now }
    {
        match formals {
            [] => Raised::Unwanted,
            [_, ..] => Raised::Wanted(None),
        }
    }

    /// What is known wherever an exception may be raised, as far as it is noted.
    pub(crate) fn into_known(self) -> Option<Known>
        ensures { held result ≡ raised_by (noted self) }
    {
        match self {
            Raised::Unwanted => None,
            Raised::Wanted(known) => known,
        }
    }

    /// Nothing is raised yet, where as much is wanted.
    pub(crate) fn emptied(&self) -> Raised
        ensures { noted result ≡ emptied (noted self.now) }
    {
        match self {
            Raised::Unwanted => Raised::Unwanted,
            Raised::Wanted(_) => Raised::Wanted(None),
        }
    }

    /// Nothing is raised yet by statements with these handlers: all is wanted, unless neither they nor anything around do.
    #[tactic(auto, using(std::proofs::lemmas::Grind::common_steps, crate::proofs::Noted::noted_for_some))]
    pub(crate) fn with_handlers(&self, handlers: &[Handler]) -> Raised
        ensures { noted result ≡ noted_for (noted self.now) (handlers_form handlers.now) }
    {
        match self {
            Raised::Wanted(_) => Raised::Wanted(None),
            Raised::Unwanted => match handlers {
                [] => Raised::Unwanted,
                [_, ..] => Raised::Wanted(None),
            },
        }
    }

    /// An exception may be raised where the variables hold this.
    pub(crate) fn note(&mut self, alloc: Global, known: &Known) -> Result<(), AllocError>
        ensures { OnOk result
            (noted self.new ≡ also_noted (noted self.old) (Some known.now.holds.items)) }
    {
        match self {
            Raised::Unwanted => {}
            Raised::Wanted(Some(before)) => join_into(before, known),
            Raised::Wanted(None) => *self = Raised::Wanted(Some(known.copy(alloc)?)),
        }
        Ok(())
    }

    /// Notes a raising point, if the form may raise at all.
    pub(crate) fn note_if(
        &mut self,
        may_raise: bool,
        alloc: Global,
        known: &Known,
    ) -> Result<(), AllocError>
        ensures { OnOk result
            (noted self.new ≡ also_noted (noted self.old) (raising_if may_raise known.now.holds.items)) }
    {
        if may_raise {
            self.note(alloc, known)?;
        }
        Ok(())
    }

    /// Exceptions may be raised besides where the variables hold this, if anywhere.
    pub(crate) fn add(&mut self, known: Option<Known>)
        ensures { noted self.new ≡ also_noted (noted self.old) (held known) }
    {
        match self {
            Raised::Unwanted => {}
            Raised::Wanted(before) => *before = join_ends(before.take(), known),
        }
    }

    /// What is raised in a block is raised behind it, where its objects are finalized and what is its own is gone.
    pub(crate) fn add_behind(
        &mut self,
        alloc: Global,
        variables: &[Variable],
        implicit: &Implicit,
        gone: &Gone,
        raised: Raised,
    ) -> Result<(), AllocError>
        ensures { OnOk result (noted self.new ≡ noted_behind
            (noted self.old) (map variable_form variables.now) (implicit_in implicit.now) (gone_of gone.now) (noted raised)) }
    {
        match raised {
            Raised::Unwanted => {}
            Raised::Wanted(known) => {
                let behind = leave_finalized_end(alloc, variables, implicit, gone, known)?;
                self.add(behind);
            }
        }
        Ok(())
    }
}

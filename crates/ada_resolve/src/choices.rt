//! Resolution of the choices of handlers (11.2).

ghost use Rattle.std.specs.Prelude.{◌≡◌};
ghost use Rattle.ada_tree.specs.Declarations.{choice_of};
ghost use Rattle.ada_resolve.specs.Exceptions.{choice_meant, choice_remark, exception_or_others};
ghost use Rattle.ada_resolve.specs.Look.{Looks, choices_look};
ghost use Rattle.ada_resolve.specs.Method.{known, IsNoted};
ghost use Rattle.ada_resolve.specs.View.{choices_in};

use crate::fault::NameFault;
use crate::notes::Notes;
use crate::resolver::Resolver;
use ada_program::program::{Choice, Exception};
use ada_tree::statements::Choice as WrittenChoice;

impl<'t> Resolver<'t> {
    /// The choices of a handler, in order.
    pub(crate) fn choices(
        &self,
        choices: &[WrittenChoice<'t>],
        notes: &mut Notes,
    ) -> Result<Vec<Choice>, NameFault>
        ensures { Looks choices_in result notes (choices_look self choices.now) }
    {
        let mut made = Vec::new(self.alloc);
        for choice in choices {
            let next = self.choice(choice, notes);
            made.push(next)?;
        }
        Ok(made)
    }

    /// One choice: an exception, or all of them.
    fn choice(&self, choice: &WrittenChoice<'t>, notes: &mut Notes) -> Choice
        ensures meant { result ≡ choice_meant (known self) (choice_of choice.now) }
        ensures remark { IsNoted notes (choice_remark (known self) (choice_of choice.now)) }
    {
        match choice {
            WrittenChoice::Named(name) => exception_or_others(self.exception_named(name, notes)),
            WrittenChoice::Others(_) => Choice::Others,
        }
    }
}

/// The choice of an exception; all of them, where it is not known.
fn exception_or_others(found: Option<Exception>) -> Choice
    ensures { result ≡ exception_or_others found }
{
    match found {
        Some(exception) => Choice::Exception(exception),
        None => Choice::Others,
    }
}

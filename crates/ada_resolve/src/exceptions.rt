//! Resolution of exceptions: their declarations, their names, and `raise` (11.1, 11.3).

ghost use Rattle.std.specs.Prelude.{◌≡◌, IfOk, OnOk, IfErr};
ghost use Rattle.ada_tree.specs.Names.{ident_of, name_of};
ghost use Rattle.ada_tree.specs.Statements.{exception_declaration};
ghost use Rattle.ada_resolve.specs.Exceptions.{end_error_wanted, exception_found, exception_in, exception_name_remark, exception_of_library, exception_wanted, next_exception, raise_found, raise_remark, raising, with_exception};
ghost use Rattle.ada_resolve.specs.Method.{known, entity_of, IsNoted, Changes, Declares};
ghost use Rattle.ada_resolve.specs.View.{known_of, stmt_in};

use crate::fault::{NameFault, NameRule};
use crate::library::{LibraryName, is_library_root};
use crate::notes::Notes;
use crate::resolver::Resolver;
use crate::scope::Entity;
use ada_program::Spot;
use ada_program::program::{Exception, ExceptionNo, Stmt};
use ada_tree::names::{Identifier, Name};

impl<'t> Resolver<'t> {
    /// `E : exception;` (11.1)
    pub(crate) fn exception(
        &mut self,
        name: Identifier<'t>,
        notes: &mut Notes,
    ) -> Result<(), NameFault>
        ensures { Declares result self notes (exception_declaration (ident_of name.entry)) }
    {
        self.type_begins(name.spot, notes);
        self.new_name(name, name.spot, notes);
        notes.settle()?;
        let number = self.add_exception(name)?;
        self.declare(name.text, Entity::Exception(Exception::Declared(number)))
    }

    /// One more exception.
    #[tactic(auto, unfolding(crate::specs::View::known_of), using(crate::proofs::Names::map_snoc))]
    fn add_exception(&mut self, name: Identifier<'t>) -> Result<ExceptionNo, NameFault>
        ensures known { OnOk result (Changes self (with_exception name.entry.text.now)) }
        ensures number { IfOk result (λ n. n ≡ next_exception (known_of self.old)) }
        ensures memory { IfErr result (λ e. e ≡ NameFault.NoMemory) }
    {
        let number = ExceptionNo(self.exceptions.len());
        let text = String::from_str(self.alloc, name.text)?;
        self.exceptions.push(text)?;
        Ok(number)
    }

    /// `raise E;` (11.3)
    pub(crate) fn raise(&self, spot: Spot, name: &Name<'t>, notes: &mut Notes) -> Option<Stmt>
        ensures found { stmt_in result ≡ raise_found (known self) (name_of name.now) }
        ensures remark { IsNoted notes (raise_remark (known self) spot (name_of name.now)) }
    {
        notes.node(spot);
        raising(self.exception_named(name, notes))
    }

    /// The exception that a name stands for.
    #[tactic(auto, unfolding(crate::specs::Exceptions::exception_found, crate::specs::Exceptions::exception_name_remark))]
    pub(crate) fn exception_named(&self, name: &Name<'t>, notes: &mut Notes) -> Option<Exception>
        ensures found { result ≡ exception_found (known self) (name_of name.now) }
        ensures remark { IsNoted notes (exception_name_remark (known self) (name_of name.now)) }
    {
        let first = name.first;
        if is_library_root(first.text) {
            let found = self.library(first, &name.rest, notes);
            end_error(found, first.spot, notes)
        } else {
            self.own_exception(first, name.rest.is_empty(), notes)
        }
    }

    /// The exception of a declared or predefined name, which stands alone or not.
    fn own_exception(
        &self,
        name: Identifier<'t>,
        alone: bool,
        notes: &mut Notes,
    ) -> Option<Exception>
        ensures found { result ≡ exception_in (entity_of self name.entry) alone }
        ensures remark { IsNoted notes
            (exception_wanted (entity_of self name.entry) alone (ident_of name.entry)) }
    {
        match self.lookup(name, notes) {
            Some(Entity::Exception(exception)) if alone => Some(exception),
            Some(_) => {
                notes.note(name.spot, NameRule::WrongType);
                None
            }
            None => None,
        }
    }
}

/// The exception of a name of the library: End_Error alone is one.
fn end_error(found: Option<LibraryName>, spot: Spot, notes: &mut Notes) -> Option<Exception>
    ensures found { result ≡ exception_of_library found }
    ensures remark { IsNoted notes (end_error_wanted found spot) }
{
    match found {
        Some(LibraryName::EndError) => Some(Exception::EndError),
        Some(_) => {
            notes.note(spot, NameRule::WrongType);
            None
        }
        None => None,
    }
}

/// An exception is raised, where it is known.
#[tactic(auto, using(std::proofs::lemmas::Grind::common_steps, ada_program::specs::Form::statement_rules))]
fn raising(found: Option<Exception>) -> Option<Stmt>
    ensures { stmt_in result ≡ raising found }
{
    Some(Stmt::Raise(found?))
}

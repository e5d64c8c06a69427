//! Resolution of declarations of borrowers: variables of an anonymous access type (3.10).

ghost use Rattle.std.specs.Prelude.{◌≡◌};
ghost use Rattle.ada_resolve.specs.Borrowers.{lender_in, lender_wanted};
ghost use Rattle.ada_resolve.specs.Look.{Looks, lender_look, lending_look};
ghost use Rattle.ada_resolve.specs.Method.{known, IsNoted, borrower_tree, Declares};
ghost use Rattle.ada_resolve.specs.View.{lender_of, meant_of};

use crate::fault::{NameFault, NameRule};
use crate::meant::Meant;
use crate::notes::Notes;
use crate::resolver::Resolver;
use ada_program::program::{self, VariableKind};
use ada_program::{Spot, TypeNo};
use ada_tree::expressions::{Expression, Right};
use ada_tree::names::Identifier;

impl<'t> Resolver<'t> {
    /// `B : access T := P;` (3.3.1, 3.10)
    pub(crate) fn borrower(
        &mut self,
        name: Identifier<'t>,
        designated: Identifier<'t>,
        initial: &Option<Right<'t>>,
        notes: &mut Notes,
    ) -> Result<(), NameFault>
        ensures { Declares result self notes
            (borrower_tree name.entry designated.entry initial.now) }
    {
        notes.node(name.spot);
        self.new_name(name, name.spot, notes);
        let wanted = self.record_name(designated, notes);
        let lender = self.lender(name, wanted, initial, notes)?;
        notes.settle()?;
        match lender {
            Some((path, access)) => self.create(
                name,
                true,
                VariableKind::Access(access),
                Some(program::Right::Path(path)),
            ),
            None => Ok(()),
        }
    }

    /// What a borrower borrows at first, and its access type.
    fn lender(
        &self,
        name: Identifier<'t>,
        wanted: Option<TypeNo>,
        initial: &Option<Right<'t>>,
        notes: &mut Notes,
    ) -> Result<Option<(program::Path, TypeNo)>, NameFault>
        ensures { Looks lender_of result notes (lender_look self name.entry wanted initial.now) }
    {
        match initial {
            Some(Right::Expression(value)) => self.lender_value(name, wanted, value, notes),
            Some(right) => {
                self.look_at_right(right, notes)?;
                notes.note(name.spot, NameRule::NoInitialValue);
                Ok(None)
            }
            None => {
                notes.note(name.spot, NameRule::NoInitialValue);
                Ok(None)
            }
        }
    }

    /// The initial value of a borrower is a path; any other is looked through too.
    #[tactic(auto, using(std::proofs::lemmas::Grind::common_steps, ada_tree::specs::ExpressionView::tree_rules, crate::proofs::Actuals::linked_lender_found, crate::proofs::Actuals::linked_lender_remark), unfolding(crate::specs::Expressions::expression_remark))]
    fn lender_value(
        &self,
        name: Identifier<'t>,
        wanted: Option<TypeNo>,
        value: &Expression<'t>,
        notes: &mut Notes,
    ) -> Result<Option<(program::Path, TypeNo)>, NameFault>
        ensures { Looks lender_of result notes (lending_look self name.entry wanted value.now) }
    {
        match value {
            Expression::Path(path) => {
                let spot = path.root.spot;
                notes.node(spot);
                let meant = self.path(path, notes)?;
                Ok(self.lender_meant(wanted, meant, spot, notes))
            }
            Expression::Chain { first, links } if links.is_empty() => {
                self.lender_value(name, wanted, first, notes)
            }
            Expression::Number { .. }
            | Expression::Null(_)
            | Expression::Aggregate { .. }
            | Expression::Enclosed { .. }
            | Expression::Unary { .. }
            | Expression::Chain { .. } => {
                self.look_at(value, notes)?;
                notes.note(name.spot, NameRule::NoInitialValue);
                Ok(None)
            }
        }
    }

    /// The access value that a path names, whose type designates the record type, where that is known.
    fn lender_meant(
        &self,
        wanted: Option<TypeNo>,
        meant: Meant,
        spot: Spot,
        notes: &mut Notes,
    ) -> Option<(program::Path, TypeNo)>
        ensures found { lender_of result ≡ lender_in (meant_of meant) }
        ensures remark { IsNoted notes
            (lender_wanted (known self).types wanted (meant_of meant) spot) }
    {
        match meant {
            Meant::Unknown => None,
            Meant::Access(path, access) => {
                let designates = self.designates_if_known(access, wanted);
                notes.note_if(!designates, spot, NameRule::WrongType);
                Some((path, access))
            }
            Meant::Lent(access) => {
                let designates = self.designates_if_known(access, wanted);
                notes.note_if(!designates, spot, NameRule::WrongType);
                None
            }
            _ => {
                notes.note(spot, NameRule::WrongType);
                None
            }
        }
    }
}

//! Resolution of declarations, in order, up to `begin` (3.1).

ghost use Rattle.std.specs.Prelude.{◌≡◌, ◌==◌, not, map};
ghost use Rattle.ada_tree.specs.StatementView.{declaration_of, declarations_of};
ghost use Rattle.ada_resolve.specs.Method.{known, IsNoted, Takes};
ghost use Rattle.ada_resolve.specs.Resolution.{declaration_told, declarations_told, single_told, some_incomplete, entity_in, at_begin, unused_remark};
ghost use Rattle.ada_resolve.specs.View.{Settles};

use crate::fault::{NameFault, NameRule};
use crate::instances::Instance;
use crate::notes::Notes;
use crate::procedures::same_name;
use crate::resolver::Resolver;
use crate::spots::{declaration_spot, head_spot};
use ada_program::Spot;
use ada_tree::declarations::Declaration;

impl<'t> Resolver<'t> {
    /// The declarations, in order.
    #[cycle(statements)]
    pub(crate) fn declarations(
        &mut self,
        declarations: &[Declaration<'t>],
        notes: &mut Notes,
    ) -> Result<(), NameFault>
        ensures { Takes result self notes (declarations_told (declarations_of declarations.now)) }
    {
        'declarations: for one in declarations {
            self.declaration(one, notes)?;
        }
        Ok(())
    }

    /// One declaration, with those in it.
    #[cycle(statements)]
    #[tactic(auto, using(std::proofs::lemmas::Grind::common_steps, ada_tree::specs::StatementView::statement_rules, crate::proofs::Views::end_view))]
    fn declaration(
        &mut self,
        declaration: &Declaration<'t>,
        notes: &mut Notes,
    ) -> Result<(), NameFault>
        ensures { Takes result self notes (declaration_told (declaration_of declaration.now)) }
    {
        match declaration {
            Declaration::Body {
                head,
                declarations,
                body,
                end_name,
            } => {
                self.end_of_types()?;
                self.body_head(head, notes)?;
                self.declarations(declarations, notes)?;
                let made = self.sequence(body, false, notes)?;
                same_name(head.name, *end_name)?;
                self.end_body(head.name, head_spot(head), body.end, made)
            }
            Declaration::Exception { .. }
            | Declaration::Constant { .. }
            | Declaration::Pool { .. }
            | Declaration::Object { .. }
            | Declaration::Borrower { .. }
            | Declaration::IncompleteType { .. }
            | Declaration::AccessType { .. }
            | Declaration::RecordType { .. }
            | Declaration::DerivedType { .. }
            | Declaration::Clause { .. }
            | Declaration::Specification(_)
            | Declaration::Instance { .. } => self.single_declaration(declaration, notes),
        }
    }

    /// A declaration with no others in it. A procedure's body is none.
    #[tactic(auto, using(std::proofs::lemmas::Grind::common_steps, ada_tree::specs::StatementView::statement_rules))]
    fn single_declaration(
        &mut self,
        declaration: &Declaration<'t>,
        notes: &mut Notes,
    ) -> Result<(), NameFault>
        ensures { Takes result self notes (single_told (declaration_of declaration.now)) }
    {
        match declaration {
            Declaration::IncompleteType { spot, name } => self.incomplete_type(*spot, *name, notes),
            Declaration::AccessType {
                spot,
                name,
                designated,
                aspect,
            } => self.access_type(*spot, *name, *designated, *aspect, notes),
            Declaration::RecordType {
                spot,
                name,
                definition,
            } => self.record_type(*spot, *name, definition, notes),
            Declaration::DerivedType {
                spot,
                name,
                parent,
                definition,
            } => self.derived_type(*spot, *name, parent, definition, notes),
            Declaration::Instance {
                spot,
                name,
                generic,
                object,
                access,
            } => self.instance(
                Instance::new(*spot, *name, generic, *object, *access),
                notes,
            ),
            Declaration::Exception { name } => self.exception(*name, notes),
            Declaration::Constant { name, value } => self.constant(*name, value, notes),
            Declaration::Pool {
                name,
                type_name,
                label,
                size,
            } => self.pool(*name, type_name, *label, *size, notes),
            Declaration::Clause {
                spot,
                name,
                attribute,
                value,
            } => self.clause(*spot, *name, *attribute, *value, notes),
            Declaration::Object {
                name,
                type_name,
                initial,
            } => {
                self.end_of_types()?;
                self.object(*name, type_name, initial, notes)
            }
            Declaration::Borrower {
                name,
                designated,
                initial,
            } => {
                self.end_of_types()?;
                self.borrower(*name, *designated, initial, notes)
            }
            Declaration::Specification(head) => self.specification(head, notes),
            Declaration::Body { .. } => not_in_use(declaration, notes),
        }
    }

    /// At `begin` no type of the part is left incomplete (3.10.1), each operation that it specifies has its body, and the types
    /// end.
    pub(crate) fn begin(&mut self, spot: Spot, notes: &mut Notes) -> Result<(), NameFault>
        ensures { Takes result self notes (at_begin spot) }
    {
        notes.note_if(self.has_incomplete(), spot, NameRule::BodyMissing);
        notes.note_if(self.awaits(), spot, NameRule::BodyMissing);
        notes.settle()?;
        self.end_of_types()
    }

    /// Whether an operation that the part specifies waits for its body.
    #[tactic(auto, unfolding(crate::specs::View::known_of))]
    fn awaits(&self) -> bool
        ensures { result ≡ not ((known self).here.specified.awaited == 0) }
    {
        self.here.awaits()
    }

    /// Whether a name of the part stands for an incomplete type.
    #[tactic(auto, unfolding(crate::specs::View::known_of))]
    fn has_incomplete(&self) -> bool
        ensures { result ≡ some_incomplete (map entity_in (known self).here.names) }
    {
        self.here.has_incomplete()
    }
}

/// A declaration of a kind that is not in use.
fn not_in_use(declaration: &Declaration<'_>, notes: &mut Notes) -> Result<(), NameFault>
    ensures noted { IsNoted notes (unused_remark (declaration_of declaration.now)) }
    ensures settled { Settles result notes.new.fault }
{
    notes.note(declaration_spot(declaration), NameRule::NotInProfile);
    notes.settle()
}

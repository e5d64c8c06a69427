//! Resolution of types that are derived from one of Ada.Finalization (3.4, 7.6).

ghost use Rattle.std.specs.Prelude.{◌≡◌, OnOk, IfErr};
ghost use Rattle.ada_tree.specs.Names.{name_of};
ghost use Rattle.ada_resolve.specs.Derived.{is_limited_parent, limited_parent, parent_remark, parent_wanted, with_limited, with_parent};
ghost use Rattle.ada_resolve.specs.Kept.{composition_in};
ghost use Rattle.ada_resolve.specs.Look.{Looks, components_look};
ghost use Rattle.ada_resolve.specs.Method.{known, IsNoted, Changes, derived_tree, with_derived, Declares};

use crate::components::Components;
use crate::fault::{NameFault, NameRule};
use crate::library::{LibraryName, is_library_root};
use crate::notes::Notes;
use crate::resolver::Resolver;
use ada_program::{Spot, TypeNo};
use ada_tree::names::{Identifier, Name};
use ada_tree::records::RecordDefinition;

impl<'t> Resolver<'t> {
    /// `type T is new Ada.Finalization.Controlled with record .. end record;` (3.4, 7.6)
    #[tactic(auto, using(std::proofs::lemmas::Grind::common_steps, crate::proofs::ComponentLists::derived_once))]
    pub(crate) fn derived_type(
        &mut self,
        spot: Spot,
        name: Identifier<'t>,
        parent: &Name<'t>,
        definition: &RecordDefinition<'t>,
        notes: &mut Notes,
    ) -> Result<(), NameFault>
        ensures { Declares result self notes (derived_tree spot name.entry parent.now definition.now) }
    {
        self.type_begins(spot, notes);
        let completes = self.completed_type(name);
        self.new_unless(completes, name, spot, notes);
        let limited = self.parent(parent, notes);
        let components = self.derived_components(limited, definition, notes)?;
        notes.settle()?;
        self.define_derived(completes, name, components, limited)
    }

    /// A record type of these components is known, and whether it is derived from Limited_Controlled.
    fn define_derived(
        &mut self,
        completes: Option<TypeNo>,
        name: Identifier<'t>,
        components: Components<'t>,
        limited: bool,
    ) -> Result<(), NameFault>
        ensures known { OnOk result (Changes self (with_derived limited completes name.entry components.entry)) }
        ensures memory { IfErr result (λ e. e ≡ NameFault.NoMemory) }
    {
        let number = self.number_of(completes);
        self.define_record(completes, name, components)?;
        self.limit(limited, number)
    }

    /// The type is derived from Limited_Controlled, or it is not.
    #[tactic(auto, unfolding(crate::specs::View::known_of))]
    fn limit(&mut self, limited: bool, number: TypeNo) -> Result<(), NameFault>
        ensures known { OnOk result (Changes self (with_limited limited number)) }
        ensures memory { IfErr result (λ e. e ≡ NameFault.NoMemory) }
    {
        if limited {
            self.limited.insert(number.0)?;
        }
        Ok(())
    }

    /// The components of a derived type, behind its parent part, which makes it limited or not.
    fn derived_components(
        &self,
        limited: bool,
        definition: &RecordDefinition<'t>,
        notes: &mut Notes,
    ) -> Result<Components<'t>, NameFault>
        ensures { Looks composition_in result notes
            (components_look self (with_parent limited) definition.now) }
    {
        let before = Components::with_parent(self.alloc, limited)?;
        self.components(before, definition, notes)
    }

    /// Whether the parent that is named makes a type limited; what is wrong with it is noted.
    #[tactic(auto, unfolding(crate::specs::Derived::limited_parent, crate::specs::Derived::parent_remark))]
    fn parent(&self, parent: &Name<'t>, notes: &mut Notes) -> bool
        ensures limited { result ≡ limited_parent (known self) (name_of parent.now) }
        ensures remark { IsNoted notes (parent_remark (known self) (name_of parent.now)) }
    {
        if is_library_root(parent.first.text) {
            let found = self.library(parent.first, &parent.rest, notes);
            parent_wanted(found, parent.first.spot, notes);
            return is_limited_parent(found);
        }
        if self.lookup(parent.first, notes).is_some() {
            notes.note(parent.first.spot, NameRule::WrongType);
        }
        false
    }
}

/// A type is derived from Controlled or Limited_Controlled.
fn parent_wanted(found: Option<LibraryName>, spot: Spot, notes: &mut Notes)
    ensures { IsNoted notes (parent_wanted found spot) }
{
    match found {
        Some(LibraryName::Controlled | LibraryName::LimitedControlled) | None => {}
        Some(_) => notes.note(spot, NameRule::WrongType),
    }
}

/// Whether a parent makes a type limited.
fn is_limited_parent(found: Option<LibraryName>) -> bool
    ensures { result ≡ is_limited_parent found }
{
    matches!(found, Some(LibraryName::LimitedControlled))
}

//! Resolution of instances of Unchecked_Deallocation (12.3, 13.11.2).

ghost use Rattle.std.specs.Prelude.{◌≡◌, OnOk, IfErr, ◌∷◌, [], map, slice_get, option_copied};
ghost use Rattle.ada_tree.specs.Names.{ident_of, name_of};
ghost use Rattle.ada_program.specs.Form.{collects};
ghost use Rattle.ada_resolve.specs.Method.{known, entity_of, IsNoted, Changes, instance_tree, Declares};
ghost use Rattle.ada_resolve.specs.Kept.{kind_of_known, kinds_in, known_type_form};
ghost use Rattle.ada_resolve.specs.Paths.{designated_of};
ghost use Rattle.ada_resolve.specs.Types.{designates};
ghost use Rattle.ada_resolve.specs.Instances.{access_type_in, components_behind, designates_if_known, freed_found, freed_remark, is_collected, kinds_declared, one_instance, own_type, complete_wanted, generic_remark, with_component_frozen, with_components_frozen, with_frozen, with_number, with_record_frozen};
ghost use Rattle.ada_resolve.specs.Known.{with_elaborated};
ghost use Rattle.ada_resolve.specs.View.{optional_number};

use crate::components::{Components, KnownComponent, KnownType};
use crate::fault::{NameFault, NameRule};
use crate::library::{LibraryName, is_library_root};
use crate::notes::Notes;
use crate::paths::components_of;
use crate::resolver::Resolver;
use crate::scope::Entity;
use ada_program::program::{ComponentKind, PartKind};
use ada_program::{Spot, TypeNo};
use ada_tree::names::{Identifier, Name};
use indexmap::IndexSet;

/// An instance as it is written: `procedure Free is new .. (T, A);`
#[derive(Clone, Copy)]
pub(crate) struct Instance<'i, 't> {
    pub(crate) spot: Spot,
    pub(crate) name: Identifier<'t>,
    pub(crate) generic: &'i Name<'t>,
    pub(crate) object: Identifier<'t>,
    pub(crate) access: Identifier<'t>,
}

impl<'i, 't> Instance<'i, 't> {
    /// An instance of these parts.
    pub(crate) fn new(
        spot: Spot,
        name: Identifier<'t>,
        generic: &'i Name<'t>,
        object: Identifier<'t>,
        access: Identifier<'t>,
    ) -> Instance<'i, 't>
        ensures { result ≡ record {
          spot = spot;
          name = name.entry;
          generic = generic.entry;
          object = object.entry;
          access = access.entry;
        } }
    {
        Instance {
            spot,
            name,
            generic,
            object,
            access,
        }
    }
}

impl<'t> Resolver<'t> {
    /// `procedure Free is new .. (T, A);` (13.11.2): a complete record type and an access type of the same part to it, which
    /// has no other instance. The collection of the access type is created here.
    pub(crate) fn instance(
        &mut self,
        written: Instance<'_, 't>,
        notes: &mut Notes,
    ) -> Result<(), NameFault>
        ensures { Declares result self notes (instance_tree written.entry) }
    {
        let spot = written.spot;
        let name = written.name;
        self.type_begins(spot, notes);
        self.new_name(name, spot, notes);
        self.generic_name(written.generic, notes);
        let record = self.record_name(written.object, notes);
        self.complete(written.object, notes);
        let freed = self.access_name(written.access, record, notes);
        let named = self.access_type_of(written.access);
        self.one_instance(named, spot, notes);
        self.own_type(named, spot, notes);
        notes.settle()?;
        let Some(number) = freed else {
            return Ok(());
        };
        self.add_collection(number)?;
        self.freeze(number)?;
        self.declare(name.text, Entity::Instance(number))
    }

    /// The generic that an instance names: Unchecked_Deallocation.
    #[tactic(auto, unfolding(crate::specs::Instances::generic_remark))]
    fn generic_name(&self, name: &Name<'t>, notes: &mut Notes)
        ensures { IsNoted notes (generic_remark (known self) (name_of name.now)) }
    {
        let spot = name.first.spot;
        if is_library_root(name.first.text) {
            match self.library(name.first, &name.rest, notes) {
                Some(LibraryName::UncheckedDeallocation) | None => {}
                Some(_) => notes.note(spot, NameRule::WrongType),
            }
        } else if self.lookup(name.first, notes).is_some() {
            notes.note(spot, NameRule::WrongType);
        }
    }

    /// The record type of an instance is complete.
    fn complete(&self, name: Identifier<'t>, notes: &mut Notes)
        ensures { IsNoted notes (complete_wanted (entity_of self name.entry) name.entry.spot) }
    {
        if let Some(Entity::Incomplete(_)) = self.visible(name.text) {
            notes.note(name.spot, NameRule::WrongType);
        }
    }

    /// The access type that a name stands for.
    pub(crate) fn access_type_of(&self, name: Identifier<'t>) -> Option<TypeNo>
        ensures { result ≡ access_type_in (entity_of self name.entry) }
    {
        match self.visible(name.text) {
            Some(Entity::Access(number)) => Some(number),
            _ => None,
        }
    }

    /// An access type has one instance at most.
    fn one_instance(&self, access: Option<TypeNo>, spot: Spot, notes: &mut Notes)
        ensures { IsNoted notes (one_instance access (known self).here.elaborated spot) }
    {
        if let Some(number) = access {
            notes.note_if(self.is_collected(number), spot, NameRule::Layout);
        }
    }

    /// An instance frees objects of an access type of its own part.
    #[tactic(auto, unfolding(crate::specs::View::known_of, crate::specs::View::part_of))]
    pub(crate) fn own_type(&self, access: Option<TypeNo>, spot: Spot, notes: &mut Notes)
        ensures { IsNoted notes (own_type access (known self).here.first_type spot) }
    {
        if let Some(number) = access {
            notes.note_if(number.0 < self.here.first_type, spot, NameRule::Layout);
        }
    }

    /// The access type of a name, which designates the record type, where that is known.
    #[tactic(auto, unfolding(crate::specs::Instances::freed_found, crate::specs::Instances::freed_remark))]
    fn access_name(
        &self,
        name: Identifier<'t>,
        wanted: Option<TypeNo>,
        notes: &mut Notes,
    ) -> Option<TypeNo>
        ensures found { result ≡ freed_found (known self) (ident_of name.entry) wanted }
        ensures remark { IsNoted notes (freed_remark (known self) (ident_of name.entry) wanted) }
    {
        match self.lookup(name, notes) {
            Some(Entity::Access(number)) => {
                if self.designates_if_known(number, wanted) {
                    Some(number)
                } else {
                    notes.note(name.spot, NameRule::WrongType);
                    None
                }
            }
            Some(_) => {
                notes.note(name.spot, NameRule::WrongType);
                None
            }
            None => None,
        }
    }

    /// Whether an access type designates the record type, where that is known.
    pub(crate) fn designates_if_known(&self, access: TypeNo, wanted: Option<TypeNo>) -> bool
        ensures { result ≡ designates_if_known (known self).types access.0 wanted }
    {
        match wanted {
            Some(number) => self.designates(access, number),
            None => true,
        }
    }

    /// Whether an access type designates the record type.
    #[tactic(auto, unfolding(crate::specs::View::known_of, crate::specs::Types::designates), using(crate::proofs::Names::map_get))]
    pub(crate) fn designates(&self, access: TypeNo, wanted: TypeNo) -> bool
        ensures { result ≡ designates (known self).types access.0 wanted.0 }
    {
        match self.types.get(access.0) {
            Some(
                KnownType::Access {
                    name: _,
                    designated,
                    pool: _,
                },
            ) => designated.0 == wanted.0,
            _ => false,
        }
    }

    /// Whether the innermost part has created the collection of an access type already.
    #[tactic(auto, unfolding(crate::specs::View::known_of))]
    pub(crate) fn is_collected(&self, number: TypeNo) -> bool
        ensures { result ≡ is_collected number.0 (known self).here.elaborated }
    {
        self.here.is_collected(number)
    }

    /// The collection of an access type is created.
    #[tactic(auto, unfolding(crate::specs::View::known_of))]
    pub(crate) fn add_collection(&mut self, number: TypeNo) -> Result<(), NameFault>
        ensures known { OnOk result (Changes self (with_elaborated (collects number.0 ∷ []))) }
        ensures memory { IfErr result (λ e. e ≡ NameFault.NoMemory) }
    {
        self.here.add_collection(number)
    }

    /// An instance freezes its access type, and those of the components of what that designates (13.14); and the record type that
    /// it designates, and those of the components of that.
    #[tactic(auto, unfolding(crate::specs::View::known_of))]
    fn freeze(&mut self, access: TypeNo) -> Result<(), NameFault>
        ensures known { OnOk result (Changes self (with_frozen access.0)) }
        ensures memory { IfErr result (λ e. e ≡ NameFault.NoMemory) }
    {
        freeze(&mut self.frozen, access)?;
        freeze_elementary(&mut self.frozen, behind(&self.types, access))?;
        match designated(&self.types, access) {
            Some(record) => freeze_record(&self.types, self.controlled, record, &mut self.frozen),
            None => Ok(()),
        }
    }
}

/// A type is frozen.
fn freeze(frozen: &mut IndexSet<usize>, number: TypeNo) -> Result<(), NameFault>
    ensures added { OnOk result (frozen.new.keys ≡ with_number frozen.old.keys number.0) }
    ensures memory { IfErr result (λ e. e ≡ NameFault.NoMemory) }
{
    frozen.insert(number.0)?;
    Ok(())
}

/// A record type is frozen, and those of its parts at any depth, as many levels deep.
#[tactic(auto, using(crate::proofs::Specified::frozen_next, crate::proofs::Specified::frozen_last, crate::proofs::Specified::frozen_before))]
fn freeze_record(
    types: &[KnownType<'_>],
    levels: usize,
    number: TypeNo,
    frozen: &mut IndexSet<usize>,
) -> Result<(), NameFault>
    ensures added { OnOk result
        (frozen.new.keys ≡ with_record_frozen (map known_type_form types.now) levels number.0 frozen.old.keys) }
    ensures memory { IfErr result (λ e. e ≡ NameFault.NoMemory) }
{
    if levels == 0 || frozen.contains(&number.0) {
        return Ok(());
    }
    freeze(frozen, number)?;
    let below = levels - 1;
    'parts: for component in declared_in(types, number) {
        if let PartKind::Record(inner) = component.kind {
            freeze_record(types, below, inner, frozen)?;
        }
    }
    Ok(())
}

/// The declared components of a record type, where it has controlled parts.
#[tactic(auto, using(crate::proofs::Names::map_get))]
fn declared_in<'k>(types: &'k [KnownType<'_>], number: TypeNo) -> &'k [KnownComponent]
    ensures { map kind_of_known result.now ≡ kinds_declared (slice_get (map known_type_form types.now) number.0) }
{
    match types.get(number.0) {
        Some(
            KnownType::Record {
                name: _,
                components,
                finalization: Some(_),
            },
        ) => components.declared(),
        _ => &[],
    }
}

/// The record type that an access type designates.
#[tactic(auto, unfolding(crate::specs::Paths::designated_of), using(crate::proofs::Names::map_get))]
fn designated(types: &[KnownType<'_>], access: TypeNo) -> Option<TypeNo>
    ensures { optional_number result ≡ designated_of (map known_type_form types.now) access.0 }
{
    match types.get(access.0) {
        Some(
            KnownType::Access {
                name: _,
                designated,
                pool: _,
            },
        ) => Some(*designated),
        _ => None,
    }
}

/// The access types of the elementary components of a record type, where it is known, are frozen.
fn freeze_elementary(
    frozen: &mut IndexSet<usize>,
    components: Option<&Components<'_>>,
) -> Result<(), NameFault>
    ensures added { OnOk result
        (frozen.new.keys ≡ with_components_frozen (kinds_in (option_copied components.entry)) frozen.old.keys) }
    ensures memory { IfErr result (λ e. e ≡ NameFault.NoMemory) }
{
    match components {
        Some(components) => freeze_components(frozen, components.elementary()),
        None => Ok(()),
    }
}

/// The access types of elementary components are frozen.
fn freeze_components(
    frozen: &mut IndexSet<usize>,
    components: &[ComponentKind],
) -> Result<(), NameFault>
    ensures added { OnOk result
        (frozen.new.keys ≡ with_components_frozen components.now frozen.old.keys) }
    ensures memory { IfErr result (λ e. e ≡ NameFault.NoMemory) }
{
    for component in components {
        freeze_component(frozen, *component)?;
    }
    Ok(())
}

/// The access type of an elementary component is frozen.
fn freeze_component(frozen: &mut IndexSet<usize>, component: ComponentKind) -> Result<(), NameFault>
    ensures added { OnOk result (frozen.new.keys ≡ with_component_frozen component frozen.old.keys) }
    ensures memory { IfErr result (λ e. e ≡ NameFault.NoMemory) }
{
    match component {
        ComponentKind::Access(access) => freeze(frozen, access),
        ComponentKind::Integer { .. } | ComponentKind::Boolean { .. } => Ok(()),
    }
}

/// The components of the record type that an access type designates.
#[tactic(auto, unfolding(crate::specs::Paths::designated_of, crate::specs::Paths::elementary_of), using(crate::proofs::Names::map_get))]
fn behind<'k, 't>(types: &'k [KnownType<'t>], access: TypeNo) -> Option<&'k Components<'t>>
    ensures { kinds_in (option_copied result)
        ≡ components_behind (map known_type_form types.now) (designated_of (map known_type_form types.now) access.0) }
{
    match types.get(access.0) {
        Some(
            KnownType::Access {
                name: _,
                designated,
                pool: _,
            },
        ) => components_of(types, *designated),
        _ => None,
    }
}

//! Types as they are kept while names are looked up: components are found by their names.

ghost use Rattle.std.specs.Prelude.{◌≡◌, ◌+◌, ◌∷◌, [], map, length, slice_get, IfOk, OnOk, IfErr};
ghost use Rattle.ada_tree.specs.Names.{ident_of};
ghost use Rattle.ada_program.specs.ProgramForm.{part_form, type_form};
ghost use Rattle.ada_resolve.specs.Kept.{composition_in, forms_of, kind_of_known, known_type_form, with_controlled, with_declared, with_kinds};
ghost use Rattle.ada_resolve.specs.Method.{Finds, Composes, each, kinds_listed};
ghost use Rattle.ada_resolve.specs.Paths.{component_at, component_named};
ghost use Rattle.ada_resolve.specs.Derived.{with_parent};
ghost use Rattle.ada_resolve.specs.Instances.{kind_of_part};
ghost use Rattle.ada_resolve.specs.Primitives.{begins_with_parent, is_parent_part};
ghost use Rattle.ada_resolve.specs.Records.{finalization_made, is_component, no_components, record_with};

use crate::fault::NameFault;
use ada_program::program::{
    ComponentKind, ComponentNo, Finalization, Operations, Part, PartKind, TypeDefinition,
};
use ada_program::{PartNo, PoolNo, RecordNo, TypeNo};
use ada_tree::names::Identifier;
use indexmap::IndexMap;
use std::alloc::Global;

/// What a component is.
#[derive(Clone, Copy)]
pub(crate) struct KnownComponent {
    pub(crate) kind: PartKind,
    /// The number of its first elementary component in the record type.
    pub(crate) first: usize,
    /// The number of its first controlled part there.
    pub(crate) part: usize,
}

/// The components of a record type.
#[derive(Drop)]
pub(crate) struct Components<'t> {
    /// As they are declared, in order.
    entries: IndexMap<&'t str, KnownComponent>,
    /// The elementary ones at any depth, in order.
    kinds: Vec<ComponentKind>,
    /// How many there are at any depth, records among them.
    size: usize,
    /// How many controlled parts there are at any depth, the parent part among them (7.6).
    controlled: usize,
    /// Whether the parent part or a component is limited (7.5).
    limited: bool,
}

/// A type that is declared.
#[derive(Drop)]
pub(crate) enum KnownType<'t> {
    /// A record type (3.8); its components come later, where it is incomplete (3.10.1).
    Record {
        name: &'t str,
        components: Components<'t>,
        /// How its objects are finalized, where they have controlled parts (7.6).
        finalization: Option<Finalization>,
    },
    /// An access type and the record type that it designates (3.10).
    Access {
        name: &'t str,
        designated: TypeNo,
        /// The pool that an aspect or a clause names (13.11).
        pool: Option<PoolNo>,
    },
    /// What one record object or record parameter is known by (3.3.1, 6.2), and its record type.
    Object {
        record: TypeNo,
    },
}

impl<'t> Components<'t> {
    /// No component.
    #[tactic(auto, unfolding(crate::specs::Kept::composition_in, crate::specs::Kept::forms_of))]
    pub(crate) fn new(alloc: Global) -> Components<'t>
        ensures { composition_in result ≡ no_components }
    {
        Components {
            entries: IndexMap::new(alloc),
            kinds: Vec::new(alloc),
            size: 0,
            controlled: 0,
            limited: false,
        }
    }

    /// The parent part of a controlled type alone, which has no name (3.4, 7.6).
    #[tactic(auto, unfolding(crate::specs::Kept::composition_in, crate::specs::Kept::forms_of))]
    pub(crate) fn with_parent(alloc: Global, limited: bool) -> Result<Components<'t>, NameFault>
        ensures components { Finds composition_in result (with_parent limited) }
        ensures memory { IfErr result (λ e. e ≡ NameFault.NoMemory) }
    {
        let mut entries = IndexMap::new(alloc);
        let parent = KnownComponent {
            kind: PartKind::Parent,
            first: 0,
            part: 0,
        };
        entries.insert("", parent)?;
        Ok(Components {
            entries,
            kinds: Vec::new(alloc),
            size: 0,
            controlled: 1,
            limited,
        })
    }

    /// How objects of a record type that is made of these are finalized, where it is the next to be numbered. It overrides
    /// nothing.
    #[tactic(auto, unfolding(crate::specs::Kept::composition_in))]
    pub(crate) fn finalization(&self, number: usize) -> Option<Finalization>
        ensures { result ≡ finalization_made number (composition_in self.now) }
    {
        if self.controlled == 0 {
            return None;
        }
        Some(Finalization {
            number: RecordNo(number),
            parts: self.controlled,
            limited: self.limited,
            operations: Operations {
                initialize: None,
                adjust: None,
                finalize: None,
            },
        })
    }

    /// How many there are at any depth, records among them.
    #[tactic(auto, unfolding(crate::specs::Kept::composition_in))]
    pub(crate) fn size(&self) -> usize
        ensures { result ≡ (composition_in self.now).size }
    {
        self.size
    }

    /// The elementary components at any depth, in order.
    #[tactic(auto, unfolding(crate::specs::Kept::composition_in))]
    pub(crate) fn elementary(&self) -> &[ComponentKind]
        ensures { result.now ≡ self.now.kinds.items }
    {
        &self.kinds
    }

    /// Whether the parent part of a controlled type stands first.
    #[tactic(auto, unfolding(crate::specs::Kept::forms_of))]
    pub(crate) fn begin_with_parent(&self) -> bool
        ensures { result ≡ begins_with_parent (forms_of self.now) }
    {
        match self.at(0) {
            Some((_, first)) => is_parent_part(first.kind),
            None => false,
        }
    }

    /// As they are declared, in order.
    pub(crate) fn declared(&self) -> &[KnownComponent]
        ensures { map kind_of_known result.now ≡ map kind_of_part (forms_of self.now) }
    {
        self.entries.values().as_slice()
    }

    /// How many components are declared.
    #[tactic(auto, unfolding(crate::specs::Kept::forms_of))]
    pub(crate) fn count(&self) -> usize
        ensures { result ≡ length (forms_of self.now) }
    {
        self.entries.len()
    }

    /// The component of a name, by its place, and what it is.
    #[tactic(auto, unfolding(crate::specs::Kept::forms_of), using(crate::proofs::ComponentLists::found_named, crate::proofs::ComponentLists::none_found))]
    pub(crate) fn named(&self, text: &'t str) -> Option<(usize, KnownComponent)>
        ensures { result ≡ component_named 0 text.now (forms_of self.now) }
    {
        match self.entries.get_index_of(text) {
            Some(place) => self.at(place),
            None => None,
        }
    }

    /// Whether one of them has the name.
    pub(crate) fn has(&self, text: &'t str) -> bool
        ensures { result ≡ is_component text.now (composition_in self.now).parts }
    {
        self.named(text).is_some()
    }

    /// The component of a place, and what it is.
    #[tactic(auto, unfolding(crate::specs::Kept::forms_of), using(crate::proofs::Names::map_get))]
    pub(crate) fn at(&self, place: usize) -> Option<(usize, KnownComponent)>
        ensures { result ≡ component_at place (slice_get (forms_of self.now) place) }
    {
        match self.entries.get_index(place) {
            Some((_, component)) => Some((place, *component)),
            None => None,
        }
    }

    /// How many components there are at any depth with as many more.
    #[tactic(auto, unfolding(crate::specs::Kept::composition_in))]
    pub(crate) fn size_with(&self, more: usize) -> Result<usize, NameFault>
        ensures size { IfOk result (λ n. n ≡ (composition_in self.now).size + more) }
        ensures memory { IfErr result (λ e. e ≡ NameFault.NoMemory) }
    {
        self.size.checked_add(more).ok_or(NameFault::NoMemory)
    }

    /// One more component, with which there are as many at any depth. Its elementary components come behind those before.
    #[tactic(auto, unfolding(crate::specs::Kept::composition_in, crate::specs::Kept::forms_of), using(crate::proofs::ComponentLists::with_component_map))]
    pub(crate) fn add(
        &mut self,
        name: &'t str,
        kind: PartKind,
        size: usize,
    ) -> Result<(), NameFault>
        ensures added { OnOk result (Composes self (with_declared name.now kind size)) }
        ensures memory { IfErr result (λ e. e ≡ NameFault.NoMemory) }
    {
        let first = self.kinds.len();
        let part = self.controlled;
        self.entries
            .insert(name, KnownComponent { kind, first, part })?;
        self.size = size;
        Ok(())
    }

    /// One more elementary component.
    #[tactic(auto, unfolding(crate::specs::Kept::composition_in, crate::specs::Kept::forms_of))]
    pub(crate) fn push(&mut self, kind: ComponentKind) -> Result<(), NameFault>
        ensures added { OnOk result (Composes self (with_kinds (kind ∷ []))) }
        ensures memory { IfErr result (λ e. e ≡ NameFault.NoMemory) }
    {
        self.kinds.push(kind)?;
        Ok(())
    }

    /// The elementary components of a record more.
    #[tactic(auto, unfolding(crate::specs::Kept::composition_in, crate::specs::Kept::forms_of))]
    pub(crate) fn extend(&mut self, inner: &Components<'t>) -> Result<(), NameFault>
        ensures added { OnOk result (Composes self (with_kinds inner.now.kinds.items)) }
        ensures memory { IfErr result (λ e. e ≡ NameFault.NoMemory) }
    {
        self.kinds.extend_from_slice(&inner.kinds)?;
        Ok(())
    }

    /// As many controlled parts more, of a component that is limited or not.
    #[tactic(auto, unfolding(crate::specs::Kept::composition_in, crate::specs::Kept::forms_of))]
    pub(crate) fn add_controlled(&mut self, count: usize, limited: bool) -> Result<(), NameFault>
        ensures added { OnOk result (Composes self (with_controlled count limited)) }
        ensures memory { IfErr result (λ e. e ≡ NameFault.NoMemory) }
    {
        self.controlled = self
            .controlled
            .checked_add(count)
            .ok_or(NameFault::NoMemory)?;
        self.limited = self.limited || limited;
        Ok(())
    }

    /// The components as they are declared, as a program has them.
    #[tactic(auto, unfolding(crate::specs::Kept::forms_of))]
    fn parts(&self, alloc: Global) -> Result<Vec<Part>, NameFault>
        ensures components { Finds (each part_form) result (forms_of self.now) }
        ensures memory { IfErr result (λ e. e ≡ NameFault.NoMemory) }
    {
        let mut parts = Vec::new(alloc);
        for (name, component) in self.entries.as_slice() {
            let name = String::from_str(alloc, *name)?;
            parts.push(Part {
                name,
                kind: component.kind,
                first: ComponentNo(component.first),
                part: PartNo(component.part),
            })?;
        }
        Ok(parts)
    }

    /// The elementary components, as a program has them.
    fn kinds(&self, alloc: Global) -> Result<Vec<ComponentKind>, NameFault>
        ensures components { Finds kinds_listed result self.now.kinds.items }
        ensures memory { IfErr result (λ e. e ≡ NameFault.NoMemory) }
    {
        let mut kinds = Vec::new(alloc);
        kinds.extend_from_slice(&self.kinds)?;
        Ok(kinds)
    }
}

impl<'t> KnownType<'t> {
    /// A record type of this name and of these components, whose objects are finalized so.
    #[tactic(auto, unfolding(crate::specs::Kept::composition_in))]
    pub(crate) fn of_record(
        name: Identifier<'t>,
        components: Components<'t>,
        finalization: Option<Finalization>,
    ) -> KnownType<'t>
        ensures { known_type_form result
            ≡ record_with finalization (ident_of name.entry) (composition_in components.entry) }
    {
        KnownType::Record {
            name: name.text,
            components,
            finalization,
        }
    }

    /// The type as a program has it.
    fn definition(&self, alloc: Global) -> Result<TypeDefinition, NameFault>
        ensures definition { Finds type_form result (known_type_form self.now) }
        ensures memory { IfErr result (λ e. e ≡ NameFault.NoMemory) }
    {
        match self {
            KnownType::Record {
                name,
                components,
                finalization,
            } => Ok(TypeDefinition::Record {
                name: String::from_str(alloc, *name)?,
                parts: components.parts(alloc)?,
                components: components.kinds(alloc)?,
                finalization: *finalization,
            }),
            KnownType::Access {
                name,
                designated,
                pool,
            } => Ok(TypeDefinition::Access {
                name: String::from_str(alloc, *name)?,
                designated: *designated,
                pool: *pool,
            }),
            KnownType::Object { record } => Ok(TypeDefinition::Object { record: *record }),
        }
    }
}

/// The types as a program has them.
pub(crate) fn definitions(
    alloc: Global,
    types: &[KnownType<'_>],
) -> Result<Vec<TypeDefinition>, NameFault>
    ensures definitions { Finds (each type_form) result (map known_type_form types.now) }
    ensures memory { IfErr result (λ e. e ≡ NameFault.NoMemory) }
{
    let mut made = Vec::new(alloc);
    for one in types {
        made.push(one.definition(alloc)?)?;
    }
    Ok(made)
}

/// Whether a component is the parent part of a controlled type.
fn is_parent_part(kind: PartKind) -> bool
    ensures { result ≡ is_parent_part kind }
{
    match kind {
        PartKind::Parent => true,
        PartKind::Record(_) | PartKind::Elementary(_) => false,
    }
}

//! Resolution of record types (3.8).

ghost use Rattle.std.specs.Prelude.{◌≡◌, IfErr, IfOk, OnOk};
ghost use Rattle.ada_tree.specs.Records.{component_of, initial_static_of};
ghost use Rattle.ada_program.specs.WellFormed.{parts_within};
ghost use Rattle.ada_resolve.specs.Controlled.{limited_within};
ghost use Rattle.ada_resolve.specs.Kept.{composition_in, with_controlled, with_kinds};
ghost use Rattle.ada_resolve.specs.Look.{Looks, components_look, listed_look};
ghost use Rattle.ada_resolve.specs.Method.{known, IsNoted, Changes, Remarks, Composes, with_composed, record_tree, Declares, next_component_remark, with_kept};
ghost use Rattle.ada_resolve.specs.Records.{finalization_made, no_components, with_counted, initial_value, initial_truth, no_value_remark, kind_remark, kind_of_component, kinds_within, size_of_component, first_integer_remark, first_truth_remark};

use crate::components::{Components, KnownType};
use crate::fault::{NameFault, NameRule};
use crate::library::is_primitive;
use crate::notes::Notes;
use crate::resolver::Resolver;
use crate::scope::{Entity, is_taken};
use ada_program::program::{ComponentKind, Finalization, PartKind};
use ada_program::{Spot, TypeNo};
use ada_tree::names::Identifier;
use ada_tree::records::{ComponentDefinition, RecordDefinition, StaticValue};

/// The most components of a record, at any depth.
const MOST_COMPONENTS: usize = 4_096;

impl<'t> Resolver<'t> {
    /// `type T is record .. end record;` (3.8)
    #[tactic(auto, using(std::proofs::lemmas::Grind::common_steps, crate::proofs::ComponentLists::listed_once))]
    pub(crate) fn record_type(
        &mut self,
        spot: Spot,
        name: Identifier<'t>,
        definition: &RecordDefinition<'t>,
        notes: &mut Notes,
    ) -> Result<(), NameFault>
        ensures { Declares result self notes (record_tree spot name.entry definition.now) }
    {
        self.type_begins(spot, notes);
        let completes = self.completed_type(name);
        self.new_unless(completes, name, spot, notes);
        let components = self.own_components(definition, notes)?;
        notes.settle()?;
        self.define_record(completes, name, components)
    }

    /// A record type of these components is known: a new one, or the one that it completes.
    pub(crate) fn define_record(
        &mut self,
        completes: Option<TypeNo>,
        name: Identifier<'t>,
        components: Components<'t>,
    ) -> Result<(), NameFault>
        ensures known { OnOk result (Changes self (with_composed completes name.entry components.entry)) }
        ensures memory { IfErr result (λ e. e ≡ NameFault.NoMemory) }
    {
        let size = components.size();
        let finalization = self.finalization_made(&components);
        let definition = KnownType::of_record(name, components, finalization);
        let number = self.define(completes, definition)?;
        self.count_controlled(finalization)?;
        self.declare(name.text, Entity::Record { number, size })
    }

    /// How the objects of a record type of these components are finalized: it is the next to be numbered.
    #[tactic(auto, unfolding(crate::specs::View::known_of))]
    fn finalization_made(&self, components: &Components<'t>) -> Option<Finalization>
        ensures { result
            ≡ finalization_made (known self).controlled (composition_in components.now) }
    {
        components.finalization(self.controlled)
    }

    /// One more record type is complete: it is counted, where it has controlled parts.
    #[tactic(auto, unfolding(crate::specs::View::known_of))]
    fn count_controlled(&mut self, finalization: Option<Finalization>) -> Result<(), NameFault>
        ensures known { OnOk result (Changes self (with_counted finalization)) }
        ensures memory { IfErr result (λ e. e ≡ NameFault.NoMemory) }
    {
        if finalization.is_some() {
            self.controlled = self.controlled.checked_add(1).ok_or(NameFault::NoMemory)?;
        }
        Ok(())
    }

    /// The components of a record type that is not derived.
    fn own_components(
        &self,
        definition: &RecordDefinition<'t>,
        notes: &mut Notes,
    ) -> Result<Components<'t>, NameFault>
        ensures { Looks composition_in result notes
            (components_look self no_components definition.now) }
    {
        self.components(Components::new(self.alloc), definition, notes)
    }

    /// The components of a record type, behind those before them.
    pub(crate) fn components(
        &self,
        before: Components<'t>,
        definition: &RecordDefinition<'t>,
        notes: &mut Notes,
    ) -> Result<Components<'t>, NameFault>
        ensures { Looks composition_in result notes
            (components_look self (composition_in before.entry) definition.now) }
    {
        match definition {
            RecordDefinition::Components { first, rest } => {
                self.component_list(before, first, rest, notes)
            }
            _ => Ok(before),
        }
    }

    /// The components that are listed.
    #[tactic(auto, using(std::proofs::lemmas::Grind::common_steps, crate::proofs::ComponentLists::remark_next))]
    fn component_list(
        &self,
        before: Components<'t>,
        first: &ComponentDefinition<'t>,
        rest: &[ComponentDefinition<'t>],
        notes: &mut Notes,
    ) -> Result<Components<'t>, NameFault>
        ensures { Looks composition_in result notes
            (listed_look self (composition_in before.entry) first.now rest.now) }
    {
        let mut components = before;
        self.component(first, &mut components, notes)?;
        for definition in rest {
            self.component(definition, &mut components, notes)?;
        }
        Ok(components)
    }

    /// `C : T := 0;` (3.8), behind others: Integer or Boolean with an initial value, or an access type or a record type without one.
    #[tactic(auto, unfolding(crate::specs::Records::component_remark, crate::specs::Records::component_meant, crate::specs::Kept::kept_with))]
    fn component(
        &self,
        component: &ComponentDefinition<'t>,
        components: &mut Components<'t>,
        notes: &mut Notes,
    ) -> Result<(), NameFault>
        ensures meant { OnOk result (Composes components (with_kept self component.now)) }
        ensures remark { Remarks result notes
            (next_component_remark self components component.now) }
        ensures memory { IfErr result (λ e. e ≡ NameFault.NoMemory) }
    {
        let name = component.name;
        let size = components.size_with(self.component_size(component)?)?;
        notes.node(name.spot);
        notes.note_if(is_taken(name.text), name.spot, NameRule::DeclaredTwice);
        notes.note_if(
            components.has(name.text),
            name.spot,
            NameRule::DeclaredTwice,
        );
        notes.note_if(is_primitive(name.text), name.spot, NameRule::NotInProfile);
        notes.note_if(size > MOST_COMPONENTS, name.spot, NameRule::Limit);
        let kind = self.component_kind(component, notes);
        components.add(name.text, kind, size)?;
        self.add_kinds(kind, components)?;
        self.add_controlled(kind, components)
    }

    /// How many components one is, with those at any depth of a record.
    fn component_size(&self, component: &ComponentDefinition<'t>) -> Result<usize, NameFault>
        ensures size { IfOk result
            (λ n. n ≡ size_of_component (known self) (component_of component.now)) }
        ensures memory { IfErr result (λ e. e ≡ NameFault.NoMemory) }
    {
        match self.visible(component.type_name.text) {
            Some(Entity::Record { number: _, size }) => {
                size.checked_add(1).ok_or(NameFault::NoMemory)
            }
            _ => Ok(1),
        }
    }

    /// The elementary components of a component come behind those before.
    fn add_kinds(&self, kind: PartKind, components: &mut Components<'t>) -> Result<(), NameFault>
        ensures added { OnOk result (Composes components
            (with_kinds (kinds_within (known self).types kind))) }
        ensures memory { IfErr result (λ e. e ≡ NameFault.NoMemory) }
    {
        match kind {
            PartKind::Elementary(kind) => components.push(kind),
            PartKind::Record(number) => match self.components_of(number) {
                Some(inner) => components.extend(inner),
                None => Ok(()),
            },
            PartKind::Parent => Ok(()),
        }
    }

    /// The controlled parts of a component come behind those before.
    fn add_controlled(
        &self,
        kind: PartKind,
        components: &mut Components<'t>,
    ) -> Result<(), NameFault>
        ensures added { OnOk result (Composes components
            (with_controlled (parts_within (known self).types kind)
            (limited_within (known self).types kind))) }
        ensures memory { IfErr result (λ e. e ≡ NameFault.NoMemory) }
    {
        match kind {
            PartKind::Elementary(_) => components.add_controlled(0, false),
            PartKind::Record(number) => match self.finalization_of(number) {
                Some(inner) => components.add_controlled(inner.parts, inner.limited),
                None => components.add_controlled(0, false),
            },
            PartKind::Parent => components.add_controlled(1, false),
        }
    }

    /// What a component is; where that is wrong, whatever was noted comes first.
    fn component_kind(&self, component: &ComponentDefinition<'t>, notes: &mut Notes) -> PartKind
        ensures meant { result ≡ kind_of_component (known self) (component_of component.now) }
        ensures remark { IsNoted notes (kind_remark (known self) (component_of component.now)) }
    {
        match self.lookup(component.type_name, notes) {
            Some(Entity::Integer) => PartKind::Elementary(ComponentKind::Integer {
                initial: self.initial_value(component, notes),
            }),
            Some(Entity::Boolean) => PartKind::Elementary(ComponentKind::Boolean {
                initial: self.initial_truth(component, notes),
            }),
            Some(Entity::Access(number)) => {
                self.no_value(&component.initial, notes);
                PartKind::Elementary(ComponentKind::Access(number))
            }
            Some(Entity::Record { number, size: _ }) => {
                self.no_value(&component.initial, notes);
                PartKind::Record(number)
            }
            Some(_) => {
                notes.note(component.type_name.spot, NameRule::WrongType);
                PartKind::Elementary(ComponentKind::Integer { initial: 0 })
            }
            None => PartKind::Elementary(ComponentKind::Integer { initial: 0 }),
        }
    }

    /// The initial value of an Integer component, which has one.
    fn initial_value(&self, component: &ComponentDefinition<'t>, notes: &mut Notes) -> i32
        ensures value { result ≡ initial_value (known self) (component_of component.now).initial }
        ensures remark { IsNoted notes
            (first_integer_remark (known self) (component_of component.now)) }
    {
        match &component.initial {
            Some(value) => self.static_value(value, notes),
            None => {
                notes.note(component.name.spot, NameRule::NoInitialValue);
                0
            }
        }
    }

    /// The initial value of a Boolean component, which has one too.
    fn initial_truth(&self, component: &ComponentDefinition<'t>, notes: &mut Notes) -> bool
        ensures value { result ≡ initial_truth (known self) (component_of component.now).initial }
        ensures remark { IsNoted notes
            (first_truth_remark (known self) (component_of component.now)) }
    {
        match &component.initial {
            Some(value) => self.static_truth(value, notes),
            None => {
                notes.note(component.name.spot, NameRule::NoInitialValue);
                false
            }
        }
    }

    /// An access component has no initial value, and neither has a record.
    fn no_value(&self, initial: &Option<StaticValue<'t>>, notes: &mut Notes)
        ensures { IsNoted notes (no_value_remark (known self) (initial_static_of initial.now)) }
    {
        match initial {
            None => {}
            Some(StaticValue::Number { spot, .. }) => notes.note(*spot, NameRule::WrongType),
            Some(StaticValue::Named(name)) => {
                let _ = self.lookup(*name, notes);
                notes.note(name.spot, NameRule::WrongType);
            }
        }
    }
}

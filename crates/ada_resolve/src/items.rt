//! Resolution of the items of aggregates (4.3.1).

ghost use Rattle.std.specs.Prelude.{◌≡◌, ◌+◌, ◌<◌, ◌∷◌, ◌++◌, [], map, length, is_some, option_copied, OnOk, IfErr};
ghost use Rattle.std.specs.List.{list_all};
ghost use Rattle.std.proofs.Math.ListN.{replicate};
ghost use Rattle.ada_tree.specs.ExpressionView.{items_of};
ghost use Rattle.ada_tree.specs.Names.{optional_ident_of};
ghost use Rattle.ada_program.specs.Form.{item_form};
ghost use Rattle.ada_program.specs.Kept.{variables_in};
ghost use Rattle.ada_resolve.specs.Items.{component_for, count_remark, filled_for, fits_remark, flattened, is_filled, item_meant, item_spot, names_component, no_component, with_item};
ghost use Rattle.ada_resolve.specs.Kept.{forms_in};
ghost use Rattle.ada_resolve.specs.Look.{Looks, items_look};
ghost use Rattle.ada_resolve.specs.Method.{known, Finds, IsNoted, Remarks, Fills, written_item_remark, written_for_remark, each, label_of, written_value, empty_filling, item_filling};
ghost use Rattle.ada_resolve.specs.Paths.{components_of};
ghost use Rattle.ada_resolve.specs.View.{filling_in, items_in, meant_of, optional_items};

use crate::components::{Components, KnownComponent};
use crate::fault::{NameFault, NameRule};
use crate::library::no_component_rule;
use crate::meant::Meant;
use crate::notes::Notes;
use crate::resolver::Resolver;
use crate::spots::expression_spot;
use ada_program::program::{self, ComponentKind, PartKind, Variable};
use ada_program::{Spot, TypeNo};
use ada_tree::expressions::Item;
use ada_tree::names::Identifier;
use std::alloc::Global;

/// What is known before an item of an aggregate.
#[derive(Drop)]
pub(crate) struct Filling {
    /// How many items come before it.
    count: usize,
    /// Which components have their items: those of their elementary components, or one that is a record.
    slots: Vec<Option<Vec<program::Item>>>,
    /// Whether each item so far names a component of its own.
    whole: bool,
}

impl<'t> Resolver<'t> {
    /// The items of an aggregate, in order, for the components of this record type, where that is known.
    #[cycle(expression)]
    #[tactic(auto, unfolding(crate::specs::Expressions::filling_of), using(std::proofs::lemmas::Grind::common_steps, crate::proofs::ItemLists::items_rules))]
    pub(crate) fn items(
        &self,
        written: &[Item<'t>],
        found: Option<TypeNo>,
        notes: &mut Notes,
    ) -> Result<Filling, NameFault>
        ensures { Looks filling_in result notes (items_look self found written.now) }
    {
        let is_named = names_component(written);
        let mut filling = self.first_filling(found)?;
        for item in written {
            self.item(item, is_named, found, &mut filling, notes)?;
        }
        Ok(filling)
    }

    /// What is known before the first item.
    fn first_filling(&self, found: Option<TypeNo>) -> Result<Filling, NameFault>
        ensures filling { Finds filling_in result (empty_filling self found) }
        ensures memory { IfErr result (λ e. e ≡ NameFault.NoMemory) }
    {
        let count = match found {
            Some(number) => self.component_count(number),
            None => 0,
        };
        Ok(Filling {
            count: 0,
            slots: empty_slots(self.alloc, count)?,
            whole: found.is_some(),
        })
    }

    /// How many components a record type declares.
    fn component_count(&self, number: TypeNo) -> usize
        ensures { result ≡ length (components_of (known self).types number.0) }
    {
        match self.components_of(number) {
            Some(components) => components.count(),
            None => 0,
        }
    }

    /// One item.
    #[cycle(expression)]
    #[tactic(auto, unfolding(crate::specs::View::known_of, crate::specs::Expressions::item_remark, crate::specs::Items::after_item))]
    fn item(
        &self,
        item: &Item<'t>,
        is_named: bool,
        found: Option<TypeNo>,
        filling: &mut Filling,
        notes: &mut Notes,
    ) -> Result<(), NameFault>
        requires room { filling.old.count < usize.MAX }
        ensures count { OnOk result (filling.new.count ≡ filling.old.count + 1) }
        ensures filling { OnOk result (Fills filling (item_filling self found is_named item.now)) }
        ensures remark { Remarks result notes
            (written_item_remark self found is_named filling item.now) }
        ensures memory { IfErr result (λ e. e ≡ NameFault.NoMemory) }
    {
        let alike = item.label.is_some() == is_named;
        notes.note_if(!alike, item_spot(item), NameRule::WrongType);
        let value = self.expression(&item.value, notes)?;
        let component = match found {
            Some(number) => {
                let component = component_for(
                    self.components_of(number),
                    item.label,
                    filling.count,
                );
                filling.component_item(&self.variables, component, item, &value, notes);
                component
            }
            None => None,
        };
        filling.fill(component, alike, item_meant(self.alloc, value)?);
        Ok(())
    }
}

impl Filling {
    /// What is wrong with the component of an item, and with its value for it: a component has one item.
    fn component_item(
        &self,
        variables: &[Variable],
        component: Option<(usize, KnownComponent)>,
        item: &Item<'_>,
        value: &Meant,
        notes: &mut Notes,
    )
        ensures { IsNoted notes (written_for_remark variables.now component self.now item.now value.now) }
    {
        match component {
            Some((at, component)) => {
                notes.note_if(self.is_filled(at), item_spot(item), NameRule::WrongType);
                let spot = expression_spot(&item.value);
                fits(variables, component.kind, value, spot, notes);
            }
            None => no_component(item, notes),
        }
    }

    /// What is known after an item for this component.
    fn fill(
        &mut self,
        component: Option<(usize, KnownComponent)>,
        alike: bool,
        items: Vec<program::Item>,
    )
        requires room { self.old.count < usize.MAX }
        ensures filling { Fills self (λ f. filled_for component f alike (items_in items)) }
        ensures count { self.new.count ≡ self.old.count + 1 }
    {
        self.count += 1;
        match component {
            Some((at, _)) => {
                self.whole = self.whole && alike && !self.is_filled(at);
                self.set(at, items);
            }
            None => self.whole = false,
        }
    }

    /// The component of this number has these items now.
    #[tactic(auto, using(crate::proofs::Names::map_set, crate::proofs::Names::set_beyond))]
    fn set(&mut self, at: usize, items: Vec<program::Item>)
        ensures { Fills self (with_item at (items_in items)) }
    {
        if let Some(slot) = self.slots.get_mut(at) {
            *slot = Some(items);
        }
    }

    /// Whether the component of this number has its item.
    fn is_filled(&self, at: usize) -> bool
        ensures { result ≡ is_filled at (filling_in self.now).slots }
    {
        matches!(self.slots.get(at), Some(Some(_)))
    }

    /// What is wrong with how many items there are: one item names its component, and each component has its item.
    pub(crate) fn all_given(&self, is_named: bool, spot: Spot, notes: &mut Notes)
        ensures { IsNoted notes (count_remark is_named (filling_in self.now) spot) }
    {
        if !is_named && self.count == 1 {
            notes.note(spot, NameRule::NotInProfile);
            notes.note_if(self.slots.len() > 1, spot, NameRule::WrongType);
        } else {
            notes.note_if(self.whole && !self.is_full(), spot, NameRule::WrongType);
        }
    }

    /// Whether each component has its item.
    fn is_full(&self) -> bool
        ensures { result ≡ list_all is_some (filling_in self.now).slots }
    {
        self.slots.iter().all(|slot| slot.is_some())
    }

    /// The items of all components, in the order of the components.
    pub(crate) fn into_items(self, alloc: Global) -> Result<Vec<program::Item>, NameFault>
        ensures items { Finds items_in result (flattened (filling_in self).slots) }
        ensures memory { IfErr result (λ e. e ≡ NameFault.NoMemory) }
    {
        let mut items = Vec::new(alloc);
        for slot in self.slots {
            if let Some(given) = slot {
                add_items(&mut items, given)?;
            }
        }
        Ok(items)
    }
}

/// These items stand behind the others.
#[tactic(auto, using(crate::proofs::Names::map_append))]
fn add_items(items: &mut Vec<program::Item>, given: Vec<program::Item>) -> Result<(), NameFault>
    ensures added { OnOk result (items_in items.new ≡ items_in items.old ++ items_in given) }
    ensures memory { IfErr result (λ e. e ≡ NameFault.NoMemory) }
{
    let mut given = given;
    items.append(&mut given)?;
    Ok(())
}

/// As many components, of which none has its item yet.
fn empty_slots(alloc: Global, count: usize) -> Result<Vec<Option<Vec<program::Item>>>, NameFault>
    ensures slots { Finds (each optional_items) result (replicate count None) }
    ensures memory { IfErr result (λ e. e ≡ NameFault.NoMemory) }
{
    let mut slots = Vec::new(alloc);
    for _ in 0..count {
        slots.push(None)?;
    }
    Ok(slots)
}

/// Whether the first item names its component.
pub(crate) fn names_component(written: &[Item<'_>]) -> bool
    ensures { result ≡ names_component (items_of written.now) }
{
    match written.first() {
        Some(item) => item.label.is_some(),
        None => false,
    }
}

/// Where an item begins.
fn item_spot(item: &Item<'_>) -> Spot
    ensures { result ≡ item_spot (label_of item.now) (written_value item.now) }
{
    match item.label {
        Some(label) => label.spot,
        None => expression_spot(&item.value),
    }
}

/// The component that an item is for: that of its name, or the one at its place.
fn component_for<'t>(
    components: Option<&Components<'t>>,
    label: Option<Identifier<'t>>,
    at: usize,
) -> Option<(usize, KnownComponent)>
    ensures { result ≡ component_for (forms_in (option_copied components.entry))
        (optional_ident_of label.entry) at }
{
    match label {
        Some(label) => components?.named(label.text),
        None => components?.at(at),
    }
}

/// No component has that name (4.1.3), or there are too many items.
fn no_component(item: &Item<'_>, notes: &mut Notes)
    ensures { IsNoted notes (no_component (label_of item.now) (written_value item.now)) }
{
    match item.label {
        Some(label) => notes.note(label.spot, no_component_rule(label.text)),
        None => notes.note(expression_spot(&item.value), NameRule::WrongType),
    }
}

/// A value is of its component's type, and that of an access component is no borrower as a whole.
fn fits(variables: &[Variable], kind: PartKind, value: &Meant, spot: Spot, notes: &mut Notes)
    ensures { IsNoted notes
        (fits_remark (variables_in variables.now) kind (meant_of value.now) spot) }
{
    match kind {
        PartKind::Elementary(ComponentKind::Integer { .. }) => value.integer_wanted(spot, notes),
        PartKind::Elementary(ComponentKind::Boolean { .. }) => value.boolean_wanted(spot, notes),
        PartKind::Elementary(ComponentKind::Access(access)) => {
            value.access_wanted(access, spot, notes);
            value.owner_wanted(variables, spot, notes);
        }
        PartKind::Record(number) => value.record_wanted(number, spot, notes),
        PartKind::Parent => notes.note(spot, NameRule::WrongType),
    }
}

/// What an item gives its component: one item, or, where it is an aggregate, those of that.
fn item_meant(alloc: Global, value: Meant) -> Result<Vec<program::Item>, NameFault>
    ensures items { Finds items_in result (item_meant (meant_of value)) }
    ensures memory { IfErr result (λ e. e ≡ NameFault.NoMemory) }
{
    match value {
        Meant::Unknown | Meant::Lent(_) => Ok(Vec::new(alloc)),
        Meant::Null => single_item(alloc, program::Item::Null),
        Meant::Access(path, _) => single_item(alloc, program::Item::Path(path)),
        Meant::Integer(expression) | Meant::Boolean(expression) => {
            single_item(alloc, program::Item::Value(expression))
        }
        Meant::Record(path) => single_item(alloc, program::Item::Record(path)),
        Meant::Aggregate(_, items) => Ok(items),
    }
}

/// One item.
pub(crate) fn single_item(
    alloc: Global,
    item: program::Item,
) -> Result<Vec<program::Item>, NameFault>
    ensures items { Finds items_in result (item_form item ∷ []) }
    ensures memory { IfErr result (λ e. e ≡ NameFault.NoMemory) }
{
    Ok(vec![in alloc; item]?)
}

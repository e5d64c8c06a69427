//! What a path selects behind its variable, one selector behind the other (4.1, 4.1.3).

ghost use Rattle.std.specs.Prelude.{◌≡◌, ◌+◌, map, IfOk, IfErr, OnOk};
ghost use Rattle.ada_tree.specs.Names.{ident_of, selector_of};
ghost use Rattle.ada_program.specs.WellFormed as fits;
ghost use Rattle.ada_resolve.specs.Look.{Looks, selector_look, selectors_look};
ghost use Rattle.ada_resolve.specs.Method.{known, IsNoted, Selects};
ghost use Rattle.ada_resolve.specs.Paths.{all_remark, complete_behind, component_behind, component_behind_remark, component_in, component_selected, component_wanted, component_within_remark, components_selected, first_behind, object_behind, part_behind, object_in, record_type_wanted};
ghost use Rattle.ada_resolve.specs.View.{itself, optional_number};

use crate::components::KnownComponent;
use crate::fault::{NameFault, NameRule};
use crate::library::no_component_rule;
use crate::notes::Notes;
use crate::resolver::Resolver;
use ada_program::program::{ComponentKind, ComponentNo, PartKind, VariableKind};
use ada_program::{Spot, TypeNo};
use ada_tree::names::{Identifier, Selector};

/// What a path has reached (4.1).
#[derive(Clone, Copy)]
pub(crate) enum Reached {
    /// Something is wrong before.
    Nothing,
    /// The value of a variable or of a component.
    Value(VariableKind),
    /// A whole object of this record type: the one to which the last access value gives access, the record object with which the path begins, or a
    /// component of it.
    Object {
        number: TypeNo,
        /// The number of its first elementary component in the one to which the value gives access, or with which the path begins.
        first: usize,
        /// The number of its first controlled part there.
        part: usize,
    },
}

impl<'t> Resolver<'t> {
    /// What selectors reach behind what is reached, and the components that they name.
    pub(crate) fn selectors(
        &self,
        reached: Reached,
        spot: Spot,
        selectors: &[Selector<'t>],
        components: &mut Vec<ComponentNo>,
        notes: &mut Notes,
    ) -> Result<Reached, NameFault>
        ensures reached { Looks itself result notes
            (selectors_look self spot reached selectors.now) }
        ensures components { OnOk result (Selects components
            (components_selected (known self) reached (map selector_of selectors.now))) }
    {
        let mut at = reached;
        for selector in selectors {
            at = self.selector(at, spot, selector, components, notes)?;
        }
        Ok(at)
    }

    /// What one selector reaches.
    fn selector(
        &self,
        reached: Reached,
        spot: Spot,
        selector: &Selector<'t>,
        components: &mut Vec<ComponentNo>,
        notes: &mut Notes,
    ) -> Result<Reached, NameFault>
        ensures reached { Looks itself result notes (selector_look self spot reached selector.now) }
        ensures components { OnOk result (Selects components
            (component_selected (known self) reached (selector_of selector.now))) }
    {
        match selector {
            Selector::Component(name) => match self.component_behind(reached, spot, *name, notes) {
                Some((_, component)) => {
                    let first = reached.first_with(component.first)?;
                    match component.kind {
                        PartKind::Elementary(kind) => {
                            components.push(ComponentNo(first))?;
                            Ok(Reached::Value(held_kind(kind)))
                        }
                        PartKind::Record(number) => {
                            let part = reached.part_with(component.part)?;
                            Ok(Reached::Object {
                                number,
                                first,
                                part,
                            })
                        }
                        PartKind::Parent => Ok(Reached::Nothing),
                    }
                }
                None => Ok(Reached::Nothing),
            },
            Selector::All(_) => Ok(self.object_behind(reached, spot, notes)),
        }
    }

    /// The component of a name behind what is reached.
    fn component_behind(
        &self,
        reached: Reached,
        spot: Spot,
        name: Identifier<'t>,
        notes: &mut Notes,
    ) -> Option<(usize, KnownComponent)>
        ensures found { result ≡ component_behind (known self) reached (ident_of name.entry) }
        ensures remark { IsNoted notes
            (component_behind_remark (known self) spot reached (ident_of name.entry)) }
    {
        match reached {
            Reached::Nothing => None,
            Reached::Value(VariableKind::Access(access)) => {
                self.component_in(self.designated_type(access), spot, name, notes)
            }
            Reached::Object { number, .. } => { self.component_in(Some(number), spot, name, notes) }
            Reached::Value(
                VariableKind::Integer | VariableKind::Boolean | VariableKind::Record(_),
            ) => {
                notes.note(spot, NameRule::WrongType);
                None
            }
        }
    }

    /// The component of a name in a record type, which is complete.
    fn component_in(
        &self,
        number: Option<TypeNo>,
        spot: Spot,
        name: Identifier<'t>,
        notes: &mut Notes,
    ) -> Option<(usize, KnownComponent)>
        ensures found { result
            ≡ component_in (known self) (optional_number number) (ident_of name.entry) }
        ensures remark { IsNoted notes
            (component_within_remark (known self) spot (optional_number number)
            (ident_of name.entry)) }
    {
        match number {
            Some(number) if !self.is_incomplete(number) => {
                let found = self.component_of(number, name.text);
                component_wanted(found, name, notes);
                found
            }
            Some(_) | None => {
                notes.note(spot, NameRule::WrongType);
                None
            }
        }
    }

    /// The object that `all` names behind what is reached.
    fn object_behind(&self, reached: Reached, spot: Spot, notes: &mut Notes) -> Reached
        ensures object { result ≡ object_behind (known self) reached }
        ensures remark { IsNoted notes (all_remark (known self) spot reached) }
    {
        match reached {
            Reached::Nothing => Reached::Nothing,
            Reached::Value(VariableKind::Access(access)) => {
                self.object_in(self.designated_type(access), spot, notes)
            }
            Reached::Value(VariableKind::Integer | VariableKind::Boolean | VariableKind::Record(_))
            | Reached::Object { .. } => {
                notes.note(spot, NameRule::WrongType);
                Reached::Nothing
            }
        }
    }

    /// The object of a record type, which is complete.
    fn object_in(&self, number: Option<TypeNo>, spot: Spot, notes: &mut Notes) -> Reached
        ensures object { result ≡ object_in (known self) (optional_number number) }
        ensures remark { IsNoted notes (complete_behind (known self) spot (optional_number number)) }
    {
        match number {
            Some(number) if !self.is_incomplete(number) => Reached::Object {
                number,
                first: 0,
                part: 0,
            },
            Some(_) | None => {
                notes.note(spot, NameRule::WrongType);
                Reached::Nothing
            }
        }
    }
}

impl Reached {
    /// The number of an elementary component, in the object that the last access value gives access to, which has this number in what is
    /// reached.
    fn first_with(self, first: usize) -> Result<usize, NameFault>
        ensures number { IfOk result (λ n. n ≡ first_behind self + first) }
        ensures memory { IfErr result (λ e. e ≡ NameFault.NoMemory) }
    {
        match self {
            Reached::Object {
                number: _,
                first: before,
                part: _,
            } => before.checked_add(first).ok_or(NameFault::NoMemory),
            Reached::Nothing | Reached::Value(_) => Ok(first),
        }
    }

    /// The number of a controlled part, in the object that the last access value gives access to, which has this number in what is reached.
    fn part_with(self, part: usize) -> Result<usize, NameFault>
        ensures number { IfOk result (λ n. n ≡ part_behind self + part) }
        ensures memory { IfErr result (λ e. e ≡ NameFault.NoMemory) }
    {
        match self {
            Reached::Object {
                number: _,
                first: _,
                part: before,
            } => before.checked_add(part).ok_or(NameFault::NoMemory),
            Reached::Nothing | Reached::Value(_) => Ok(part),
        }
    }

    /// The record type of a record object is known: of each one that is declared it is.
    pub(crate) fn record_type_wanted(self, spot: Spot, notes: &mut Notes)
        ensures { IsNoted notes (record_type_wanted self spot) }
    {
        if let Reached::Value(VariableKind::Record(_)) = self {
            notes.note(spot, NameRule::NotInProfile);
        }
    }
}

/// A component of that name is wanted (4.1.3); the parent part has no name (3.4).
fn component_wanted(found: Option<(usize, KnownComponent)>, name: Identifier<'_>, notes: &mut Notes)
    ensures { IsNoted notes (component_wanted found (ident_of name.entry)) }
{
    match found {
        Some((_, component)) => match component.kind {
            PartKind::Elementary(_) | PartKind::Record(_) => {}
            PartKind::Parent => notes.note(name.spot, no_component_rule(name.text)),
        },
        None => notes.note(name.spot, no_component_rule(name.text)),
    }
}

/// What a component holds, whatever it holds at first (3.8).
fn held_kind(kind: ComponentKind) -> VariableKind
    ensures { result ≡ fits.held_kind kind }
{
    match kind {
        ComponentKind::Integer { initial: _ } => VariableKind::Integer,
        ComponentKind::Boolean { initial: _ } => VariableKind::Boolean,
        ComponentKind::Access(access) => VariableKind::Access(access),
    }
}

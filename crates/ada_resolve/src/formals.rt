//! Formal parameters of procedures (6.1).

ghost use Rattle.std.specs.Prelude.{◌≡◌, map, IfOk, OnOk, IfErr};
ghost use Rattle.ada_tree.specs.Declarations.{formal_of};
ghost use Rattle.ada_tree.specs.Names.{ident_of};
ghost use Rattle.ada_resolve.specs.Known.{named};
ghost use Rattle.ada_resolve.specs.Look.{Looks, formals_look};
ghost use Rattle.ada_resolve.specs.Method.{known, IsNoted, Declaring, next_formal_remark, with_next_formal};
ghost use Rattle.ada_resolve.specs.Procedures.{formal_kind, formal_type, formal_types, formal_entity, formal_mode, formal_type_wanted, mode_remark, no_formals, known_by, with_next};
ghost use Rattle.ada_resolve.specs.View.{formals_in, own_types};

use crate::components::KnownType;
use crate::fault::{NameFault, NameRule};
use crate::library::{is_primitive, missing_rule};
use crate::notes::Notes;
use crate::resolver::Resolver;
use crate::scope::{Entity, is_taken};
use ada_program::program::{FormalMode, Variable, VariableKind};
use ada_program::{Spot, TypeNo, VariableNo};
use ada_tree::declarations::Formal;
use ada_tree::names::Identifier;
use indexmap::IndexMap;
use std::alloc::Global;

/// The formal parameters of a procedure, as far as they are looked at.
#[derive(Drop)]
pub(crate) struct Formals<'t> {
    /// What their names stand for, in order.
    pub(crate) names: IndexMap<&'t str, Entity>,
    pub(crate) variables: Vec<Variable>,
    /// Their modes, in order.
    pub(crate) modes: Vec<FormalMode>,
    /// The types by which those that are records are known, in order.
    pub(crate) types: Vec<KnownType<'t>>,
}

impl<'t> Formals<'t> {
    /// No formal is looked at yet.
    fn new(alloc: Global) -> Formals<'t>
        ensures { formals_in result ≡ no_formals }
    {
        Formals {
            names: IndexMap::new(alloc),
            variables: Vec::new(alloc),
            modes: Vec::new(alloc),
            types: Vec::new(alloc),
        }
    }

    /// What a name stands for among them.
    #[tactic(auto, using(crate::proofs::Names::named_map))]
    fn named(&self, text: &'t str) -> Option<Entity>
        ensures { result ≡ named text.now (formals_in self.now).names }
    {
        self.names.get(text).copied()
    }

    /// One more of a mode, which holds this, and is known by this type, where it is a record.
    #[tactic(auto, using(crate::proofs::Names::entered_map, crate::proofs::Names::map_snoc, crate::proofs::Names::mapped_length, crate::proofs::Names::nothing_behind))]
    fn add(
        &mut self,
        alloc: Global,
        name: Identifier<'t>,
        mode: FormalMode,
        kind: VariableKind,
        own: Option<KnownType<'t>>,
    ) -> Result<(), NameFault>
        ensures known { OnOk result
            (Declaring self (with_next (ident_of name.entry) mode kind (own_types own.entry))) }
        ensures memory { IfErr result (λ e. e ≡ NameFault.NoMemory) }
    {
        let variable = VariableNo(self.variables.len());
        self.names
            .insert(name.text, formal_entity(mode, variable, kind))?;
        let text = String::from_str(alloc, name.text)?;
        self.variables.push(Variable {
            name: text,
            spot: name.spot,
            kind,
            borrows: false,
        })?;
        self.modes.push(mode)?;
        if let Some(own) = own {
            self.types.push(own)?;
        }
        Ok(())
    }
}

impl<'t> Resolver<'t> {
    /// The formals of a body.
    pub(crate) fn formals(
        &self,
        formals: &[Formal<'t>],
        notes: &mut Notes,
    ) -> Result<Formals<'t>, NameFault>
        ensures { Looks formals_in result notes (formals_look self formals.now) }
    {
        let mut made = Formals::new(self.alloc);
        for formal in formals {
            self.formal(*formal, &mut made, notes)?;
        }
        Ok(made)
    }

    /// One formal, behind others.
    #[tactic(auto, unfolding(crate::specs::Procedures::formal_remark, crate::specs::Procedures::with_formal))]
    fn formal(
        &self,
        formal: Formal<'t>,
        before: &mut Formals<'t>,
        notes: &mut Notes,
    ) -> Result<(), NameFault>
        ensures known { OnOk result (Declaring before (with_next_formal self formal.entry)) }
        ensures remark { OnOk result (IsNoted notes (next_formal_remark self before formal.entry)) }
        ensures memory { IfErr result (λ e. e ≡ NameFault.NoMemory) }
    {
        let name = formal.name;
        notes.node(name.spot);
        notes.note_if(is_taken(name.text), name.spot, NameRule::DeclaredTwice);
        notes.note_if(
            before.named(name.text).is_some(),
            name.spot,
            NameRule::DeclaredTwice,
        );
        notes.note_if(is_primitive(name.text), name.spot, NameRule::NotInProfile);
        mode_remark(formal.input, formal.output, notes);
        let found = self.formal_type(before, formal.type_name);
        formal_type_wanted(found, formal.type_name, notes);
        let mode = formal_mode(formal.input, formal.output);
        let kind = formal_kind(self.known_by(before)?, found);
        before.add(self.alloc, name, mode, kind, formal_types(found))
    }

    /// The number of the type by which the next formal is known, if it is a record.
    #[tactic(auto, unfolding(crate::specs::View::known_of), using(crate::proofs::Names::mapped_length))]
    fn known_by(&self, before: &Formals<'t>) -> Result<TypeNo, NameFault>
        ensures number { IfOk result (λ t. t ≡ known_by (known self) (formals_in before.now)) }
        ensures memory { IfErr result (λ e. e ≡ NameFault.NoMemory) }
    {
        let number = self.types.len().checked_add(before.types.len());
        Ok(TypeNo(number.ok_or(NameFault::NoMemory)?))
    }

    /// What the type's name of a formal stands for: the formals before it are visible.
    fn formal_type(&self, before: &Formals<'t>, name: Identifier<'t>) -> Option<Entity>
        ensures { result ≡ formal_type (known self) (formals_in before.now) (ident_of name.entry) }
    {
        match before.named(name.text) {
            Some(entity) => Some(entity),
            None => self.visible(name.text),
        }
    }
}

/// What is wrong with the mode of a formal: `out` alone is not in the profile.
fn mode_remark(input: Option<Spot>, output: Option<Spot>, notes: &mut Notes)
    ensures { IsNoted notes (mode_remark input output) }
{
    if let (None, Some(out)) = (input, output) {
        notes.note(out, NameRule::NotInProfile);
    }
}

/// The mode of a formal: `in out` where both words are written.
fn formal_mode(input: Option<Spot>, output: Option<Spot>) -> FormalMode
    ensures { result ≡ formal_mode input output }
{
    match (input, output) {
        (Some(_), Some(_)) => FormalMode::InOut,
        _ => FormalMode::In,
    }
}

/// What a formal of a mode is: a constant, or a variable.
fn formal_entity(mode: FormalMode, variable: VariableNo, kind: VariableKind) -> Entity
    ensures { result ≡ formal_entity mode variable kind }
{
    match mode {
        FormalMode::In => Entity::Parameter { variable, kind },
        FormalMode::InOut => Entity::Variable { variable, kind },
    }
}

/// A type is wanted that is complete.
fn formal_type_wanted(found: Option<Entity>, name: Identifier<'_>, notes: &mut Notes)
    ensures { IsNoted notes (formal_type_wanted found (ident_of name.entry)) }
{
    match found {
        Some(Entity::Integer | Entity::Boolean | Entity::Access(_) | Entity::Record { .. }) => {}
        Some(_) => notes.note(name.spot, NameRule::WrongType),
        None => notes.note(name.spot, missing_rule(name.text)),
    }
}

/// What a formal of a type holds: an Integer, where something is wrong. One that is a record is known by a type of this number.
fn formal_kind(own: TypeNo, found: Option<Entity>) -> VariableKind
    ensures { result ≡ formal_kind own found }
{
    match found {
        Some(Entity::Boolean) => VariableKind::Boolean,
        Some(Entity::Access(access)) => VariableKind::Access(access),
        Some(Entity::Record { .. }) => VariableKind::Record(own),
        _ => VariableKind::Integer,
    }
}

/// The type by which a formal of a type is known, where that is a record.
fn formal_types<'t>(found: Option<Entity>) -> Option<KnownType<'t>>
    ensures { own_types result ≡ formal_types found }
{
    match found {
        Some(Entity::Record { number, size: _ }) => Some(KnownType::Object { record: number }),
        _ => None,
    }
}

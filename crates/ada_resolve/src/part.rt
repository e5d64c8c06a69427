//! A declarative part: what it declares so far, and what names stand for in it.

ghost use Rattle.std.specs.Prelude.{◌≡◌, ◌==◌, not, nat_lt, map, reverse, is_some, OnOk, IfErr, [], ◌∷◌};
ghost use Rattle.ada_program.specs.Form.{collects, creates_pool, declares, declares_record, declaration_form};
ghost use Rattle.ada_program.specs.Kept.{variables_in};
ghost use Rattle.ada_program.specs.ProgramForm.{variable_form};
ghost use Rattle.ada_resolve.specs.Instances.{is_collected};
ghost use Rattle.ada_resolve.specs.Known.{formals_of, from_part, from_within, most_names, named, named_in, own_names, part_from, role_of};
ghost use Rattle.ada_resolve.specs.Method.{each, part_of_body, Elaborates, Enters, Specifies};
ghost use Rattle.ada_resolve.specs.Paths.{is_incomplete_entity, is_incomplete_in};
ghost use Rattle.ada_resolve.specs.Primitives.{answered, formal_specified, sole_changed, specified_for, specified_more};
ghost use Rattle.ada_resolve.specs.Resolution.{some_incomplete, entity_in};
ghost use Rattle.ada_resolve.specs.Objects.{initial_source};
ghost use Rattle.ada_resolve.specs.View.{names_in, optional_items, optional_variables, part_of, right_in, text_of};

use crate::fault::NameFault;
use crate::primitives::{Operation, Specifications};
use crate::scope::{Entity, Role};
use ada_program::borrowers::is_borrower;
use ada_program::program::{self, Declaration, FormalMode, Variable, VariableKind};
use ada_program::{PoolNo, TypeNo, VariableNo};
use indexmap::IndexMap;
use std::alloc::Global;

/// The most names that a declarative part declares.
const MOST_NAMES: usize = 500;

/// A declarative part (3.11), or the scope of a loop parameter (8.1).
#[derive(Drop)]
pub(crate) struct Part<'t> {
    /// The names that it declares, in order.
    names: IndexMap<&'t str, Entity>,
    /// The operations that it specifies.
    specified: Specifications<'t>,
    /// The number of its first type.
    pub(crate) first_type: usize,
    /// The number of its first variable behind formal parameters.
    pub(crate) first_variable: usize,
    /// The number of the first procedure whose body ends in it.
    pub(crate) first_body: usize,
    /// What it elaborates, in order.
    declarations: Vec<Declaration>,
    /// Where it is that of a procedure's body, the modes of the formal parameters, in order.
    modes: Vec<FormalMode>,
    /// Where it is that of a procedure's body, the variables of the body around.
    around: Option<Vec<Variable>>,
    /// Whether the body that it belongs to is an operation that keeps its operand (7.6).
    pub(crate) keeps_operand: bool,
}

/// What is left of a declarative part that ends.
#[derive(Drop)]
pub(crate) struct Contents {
    /// What it elaborates, in order.
    pub(crate) declarations: Vec<Declaration>,
    /// The modes of the formal parameters, in order, where it is that of a procedure's body.
    pub(crate) modes: Vec<FormalMode>,
    /// The variables of the body around, where it is that of a procedure's body.
    pub(crate) around: Option<Vec<Variable>>,
}

impl<'t> Part<'t> {
    /// Nothing is declared yet, behind so many types, variables and bodies, in a body that keeps its operand or does not.
    #[tactic(auto, unfolding(crate::specs::View::part_of))]
    pub(crate) fn new(
        alloc: Global,
        keeps_operand: bool,
        first_type: usize,
        first_variable: usize,
        first_body: usize,
    ) -> Part<'t>
        ensures { part_of result ≡ part_from keeps_operand first_type first_variable first_body }
    {
        Part {
            names: IndexMap::new(alloc),
            specified: Specifications::new(alloc),
            first_type,
            first_variable,
            first_body,
            declarations: Vec::new(alloc),
            modes: Vec::new(alloc),
            around: None,
            keeps_operand,
        }
    }

    /// The part of a procedure's body, with names of formal parameters of these modes, behind so many types and bodies;
    /// then come the variables of the body around, and whether the body keeps its operand.
    #[tactic(auto, unfolding(crate::specs::View::part_of))]
    pub(crate) fn of_body(
        alloc: Global,
        names: IndexMap<&'t str, Entity>,
        first_type: usize,
        first_variable: usize,
        first_body: usize,
        modes: Vec<FormalMode>,
        around: Vec<Variable>,
        keeps_operand: bool,
    ) -> Part<'t>
        ensures { part_of result ≡ part_of_body (names_in names.entry.entries) first_type first_variable
            first_body modes.items (each variable_form around) keeps_operand }
    {
        Part {
            names,
            specified: Specifications::new(alloc),
            first_type,
            first_variable,
            first_body,
            declarations: Vec::new(alloc),
            modes,
            around: Some(around),
            keeps_operand,
        }
    }

    /// What it declares under a name.
    #[tactic(auto, unfolding(crate::specs::View::part_of), using(crate::proofs::Names::named_map))]
    pub(crate) fn named(&self, text: &'t str) -> Option<Entity>
        ensures { result ≡ named text.now (part_of self.now).names }
    {
        self.names.get(text).copied()
    }

    /// Whether it has room for one more name besides formal parameters.
    #[tactic(auto, unfolding(crate::specs::View::part_of))]
    pub(crate) fn has_room(&self) -> bool
        ensures { result ≡ nat_lt (own_names (part_of self.now)) most_names }
    {
        let names = self.names.len().saturating_sub(self.formals());
        match names.checked_add(self.specified.count()) {
            Some(names) => names < MOST_NAMES,
            None => false,
        }
    }

    /// The name of the formal in its specification of an operation of a type, if it has one.
    #[tactic(auto, unfolding(crate::specs::View::part_of))]
    pub(crate) fn formal_specified(&self, operation: Operation, number: TypeNo) -> Option<&'t str>
        ensures { text_of result ≡ formal_specified number.0 (specified_for operation (part_of self.now).specified) }
    {
        self.specified.formal(operation, number)
    }

    /// It specifies an operation of a type, with a formal of this name.
    #[tactic(auto, unfolding(crate::specs::View::part_of))]
    pub(crate) fn specify(
        &mut self,
        operation: Operation,
        number: TypeNo,
        formal: &'t str,
    ) -> Result<(), NameFault>
        ensures known { OnOk result (Specifies self (specified_more operation number.0 formal.now)) }
        ensures memory { IfErr result (λ e. e ≡ NameFault.NoMemory) }
    {
        self.specified.add(operation, number, formal)
    }

    /// The body of an operation that it specifies has ended.
    #[tactic(auto, unfolding(crate::specs::View::part_of))]
    pub(crate) fn answer(&mut self, operation: Operation)
        ensures { Specifies self (answered (Some operation)) }
    {
        self.specified.answer(operation);
    }

    /// Whether an operation that it specifies waits for its body.
    #[tactic(auto, unfolding(crate::specs::View::part_of))]
    pub(crate) fn awaits(&self) -> bool
        ensures { result ≡ not ((part_of self.now).specified.awaited == 0) }
    {
        self.specified.awaited() != 0
    }

    /// What its one formal holds, of mode `in out`, where it is the part of a body with these variables and there is no other.
    #[tactic(auto, unfolding(crate::specs::View::part_of))]
    pub(crate) fn sole_changed(&self, variables: &[Variable]) -> Option<VariableKind>
        ensures { result ≡ sole_changed (part_of self.now).modes (variables_in variables.now) }
    {
        match (self.modes.as_slice(), variables) {
            ([FormalMode::InOut], [formal, ..]) => Some(formal.kind),
            _ => None,
        }
    }

    /// How many formal parameters it declares.
    #[tactic(auto, unfolding(crate::specs::View::part_of))]
    fn formals(&self) -> usize
        ensures { result ≡ formals_of (part_of self.now) }
    {
        if self.is_of_body() {
            self.first_variable
        } else {
            0
        }
    }

    /// Whether it is that of a procedure's body.
    #[tactic(auto, unfolding(crate::specs::View::part_of))]
    fn is_of_body(&self) -> bool
        ensures { result ≡ is_some (part_of self.now).around }
    {
        self.around.is_some()
    }

    /// What a name that it does not declare stands for in it, where this is what it stands for around it.
    #[tactic(auto, unfolding(crate::specs::View::part_of))]
    pub(crate) fn from_around(&self, outer: Option<Entity>) -> Option<Entity>
        ensures { result ≡ from_part (part_of self.now).around outer }
    {
        match &self.around {
            Some(variables) => from_within(variables, outer),
            None => outer,
        }
    }

    /// The name stands for this from now on.
    #[tactic(auto, unfolding(crate::specs::View::part_of), using(crate::proofs::Names::entered_map))]
    pub(crate) fn declare(&mut self, text: &'t str, entity: Entity) -> Result<(), NameFault>
        ensures known { OnOk result (Enters self text.now entity) }
        ensures memory { IfErr result (λ e. e ≡ NameFault.NoMemory) }
    {
        self.names.insert(text, entity)?;
        Ok(())
    }

    /// Whether a name stands for an incomplete type.
    #[tactic(auto, unfolding(crate::specs::View::part_of), using(crate::proofs::Names::entities_map))]
    pub(crate) fn has_incomplete(&self) -> bool
        ensures { result ≡ some_incomplete (map entity_in (part_of self.now).names) }
    {
        some_incomplete(self.names.values().as_slice())
    }

    /// Whether the collection of an access type is created already.
    #[tactic(auto, unfolding(crate::specs::View::part_of))]
    pub(crate) fn is_collected(&self, number: TypeNo) -> bool
        ensures { result ≡ is_collected number.0 (part_of self.now).elaborated }
    {
        for declaration in &self.declarations {
            if let Declaration::Collection(access) = declaration
                && access.0 == number.0
            {
                return true;
            }
        }
        false
    }

    /// The collection of an access type is created.
    #[tactic(auto, unfolding(crate::specs::View::part_of), using(crate::proofs::Names::map_snoc))]
    pub(crate) fn add_collection(&mut self, number: TypeNo) -> Result<(), NameFault>
        ensures known { OnOk result (Elaborates self (collects number.0 ∷ [])) }
        ensures memory { IfErr result (λ e. e ≡ NameFault.NoMemory) }
    {
        self.declarations.push(Declaration::Collection(number))?;
        Ok(())
    }

    /// A pool is created.
    #[tactic(auto, unfolding(crate::specs::View::part_of), using(crate::proofs::Names::map_snoc))]
    pub(crate) fn add_pool(&mut self, number: PoolNo) -> Result<(), NameFault>
        ensures known { OnOk result (Elaborates self (creates_pool number.0 ∷ [])) }
        ensures memory { IfErr result (λ e. e ≡ NameFault.NoMemory) }
    {
        self.declarations.push(Declaration::Pool(number))?;
        Ok(())
    }

    /// These collections are created.
    #[tactic(auto, unfolding(crate::specs::View::part_of), using(crate::proofs::Names::map_append))]
    pub(crate) fn add_collections(&mut self, collections: Vec<Declaration>) -> Result<(), NameFault>
        ensures known { OnOk result (Elaborates self (each declaration_form collections)) }
        ensures memory { IfErr result (λ e. e ≡ NameFault.NoMemory) }
    {
        let mut collections = collections;
        self.declarations.append(&mut collections)?;
        Ok(())
    }

    /// An object is created with its initial value.
    #[tactic(auto, unfolding(crate::specs::View::part_of), using(crate::proofs::Names::map_snoc, crate::proofs::Names::initial_same))]
    pub(crate) fn add_object(
        &mut self,
        variable: VariableNo,
        initial: Option<program::Right>,
    ) -> Result<(), NameFault>
        ensures known { OnOk result
            (Elaborates self (declares variable.0 (initial_source (right_in initial)) ∷ [])) }
        ensures memory { IfErr result (λ e. e ≡ NameFault.NoMemory) }
    {
        self.declarations
            .push(Declaration::Variable { variable, initial })?;
        Ok(())
    }

    /// A record object is created, known by this type, perhaps with these items.
    #[tactic(auto, unfolding(crate::specs::View::part_of), using(crate::proofs::Names::map_snoc))]
    pub(crate) fn add_record(
        &mut self,
        variable: VariableNo,
        object: TypeNo,
        initial: Option<Vec<program::Item>>,
    ) -> Result<(), NameFault>
        ensures known { OnOk result
            (Elaborates self (declares_record variable.0 object.0 (optional_items initial) ∷ [])) }
        ensures memory { IfErr result (λ e. e ≡ NameFault.NoMemory) }
    {
        self.declarations.push(Declaration::Record {
            variable,
            object,
            initial,
        })?;
        Ok(())
    }

    /// What it elaborates, in order.
    #[tactic(auto, unfolding(crate::specs::View::part_of))]
    pub(crate) fn into_declarations(self) -> Vec<Declaration>
        ensures { each declaration_form result ≡ (part_of self.entry).elaborated }
    {
        self.into_contents().declarations
    }

    /// What is left of it, where it ends.
    #[tactic(auto, unfolding(crate::specs::View::part_of))]
    pub(crate) fn into_contents(self) -> Contents
        ensures elaborated { each declaration_form result.declarations ≡ (part_of self.entry).elaborated }
        ensures modes { result.modes.items ≡ (part_of self.entry).modes }
        ensures around { optional_variables result.around ≡ (part_of self.entry).around }
    {
        let Part {
            names: _,
            specified: _,
            first_type: _,
            first_variable: _,
            first_body: _,
            declarations,
            modes,
            around,
            keeps_operand: _,
        } = self;
        Contents {
            declarations,
            modes,
            around,
        }
    }
}

/// What a name stands for in these parts, the last of which is the innermost: an inner declaration hides the outer ones (8.3).
#[tactic(auto, using(crate::proofs::Names::reversed_snoc))]
pub(crate) fn named_in<'t>(parts: &[Part<'t>], text: &'t str) -> Option<Entity>
    ensures { result ≡ named_in text.now (reverse (map part_of parts.now)) }
{
    let (inner, outer) = parts.split_last()?;
    match inner.named(text) {
        Some(entity) => Some(entity),
        None => inner.from_around(named_in(outer, text)),
    }
}

/// What a name of a body around stands for, whose variables are these: no object of that body is used in an inner one.
fn from_within(variables: &[Variable], outer: Option<Entity>) -> Option<Entity>
    ensures { result ≡ from_within (variables_in variables.now) outer }
{
    match outer {
        Some(Entity::Variable { variable, kind }) => Some(Entity::Outer {
            kind,
            role: role_of(is_borrower(variables, variable.0)),
        }),
        Some(Entity::Parameter { variable: _, kind }) => Some(Entity::Outer {
            kind,
            role: Role::Constant,
        }),
        _ => outer,
    }
}

/// What a variable is: a borrower, or any other.
fn role_of(borrows: bool) -> Role
    ensures { result ≡ role_of borrows }
{
    if borrows {
        Role::Borrower
    } else {
        Role::Variable
    }
}

/// Whether a name stands for this type, incomplete, in one of these parts.
#[tactic(auto, using(crate::proofs::Names::reversed_snoc))]
pub(crate) fn is_incomplete_in<'t>(parts: &[Part<'t>], number: TypeNo, name: &'t str) -> bool
    ensures { result ≡ is_incomplete_in number.0 name.now (reverse (map part_of parts.now)) }
{
    match parts.split_last() {
        Some((inner, outer)) => {
            is_this_incomplete(number, inner.named(name)) || is_incomplete_in(outer, number, name)
        }
        None => false,
    }
}

/// Whether a name stands for this type, incomplete.
pub(crate) fn is_this_incomplete(number: TypeNo, entity: Option<Entity>) -> bool
    ensures { result ≡ is_incomplete_entity number.0 entity }
{
    match entity {
        Some(Entity::Incomplete(other)) => other.0 == number.0,
        _ => false,
    }
}

/// Whether one of these is an incomplete type.
fn some_incomplete(entities: &[Entity]) -> bool
    ensures { result ≡ some_incomplete entities.now }
{
    for entity in entities {
        if let Entity::Incomplete(_) = entity {
            return true;
        }
    }
    false
}

//! A resolution in progress: what is declared so far, and what names stand for.

ghost use Rattle.std.specs.Prelude.{◌≡◌, nat_lt, map, length, IfOk, OnOk, IfErr, bytes_eq};
ghost use Rattle.ada_tree.specs.Names.{ident_of};
ghost use Rattle.ada_program.specs.Form.{declaration_form};
ghost use Rattle.ada_program.specs.ProgramForm.{body_form, variable_form};
ghost use Rattle.ada_resolve.specs.Known.{most_names, named, named_in, next_part, no_body_yet, own_names, parts, declared, visible, name_remark, new_name_remark, library_remark, library_found, library_rule, is_with, no_variable_yet, outermost, type_begins, types_go_on, with_part, without_part};
ghost use Rattle.ada_resolve.specs.Method.{at_work_again, known, each, IsNoted, Changes, with_type, without_body_of};
ghost use Rattle.ada_resolve.specs.Procedures.{with_body, with_procedure};
ghost use Rattle.ada_resolve.specs.Resolution.{known_first};
ghost use Rattle.ada_resolve.specs.View.{formals_in, known_of, part_of};

use crate::components::KnownType;
use crate::fault::{NameFault, NameRule};
use crate::formals::Formals;
use crate::library::{LibraryName, Withs, is_primitive, library_name, missing_rule};
use crate::notes::Notes;
use crate::part::{Contents, Part, named_in};
use crate::procedures::Sequence;
use crate::scope::{Entity, is_taken, predefined};
use ada_program::program::{Declaration, Pool, Procedure, Variable};
use ada_program::{Spot, TypeNo};
use ada_tree::names::Identifier;
use indexmap::IndexSet;
use std::alloc::Global;
use std::mem;

/// A resolution in progress: what is declared so far, and what it has given.
#[derive(Drop)]
pub(crate) struct Resolver<'t> {
    pub(crate) alloc: Global,
    /// The library units of the `with` clauses.
    pub(crate) withs: Withs,
    /// The main procedure's name.
    pub(crate) procedure: &'t str,
    /// The innermost declarative part: the one that declares here.
    pub(crate) here: Part<'t>,
    /// The declarative parts around it, of which the last is the inner one of the others.
    pub(crate) outer: Vec<Part<'t>>,
    pub(crate) types: Vec<KnownType<'t>>,
    /// The pools that are declared.
    pub(crate) pools: Vec<Pool>,
    /// The procedures whose bodies have ended.
    pub(crate) procedures: Vec<Procedure>,
    /// The variables of the body at work.
    pub(crate) variables: Vec<Variable>,
    /// The names of the declared exceptions, in upper case.
    pub(crate) exceptions: Vec<String>,
    /// The texts that the statements so far write.
    pub(crate) texts: Vec<String>,
    /// The numbers of the access types, and of the record types with controlled parts, that instances of Unchecked_Deallocation
    /// have frozen (13.14).
    pub(crate) frozen: IndexSet<usize>,
    /// How many record types with controlled parts are complete (7.6).
    pub(crate) controlled: usize,
    /// The numbers of the types that are derived from Limited_Controlled.
    pub(crate) limited: IndexSet<usize>,
}

impl<'t> Resolver<'t> {
    /// Nothing is declared yet.
    #[tactic(auto, unfolding(crate::specs::View::known_of))]
    pub(crate) fn new(alloc: Global, withs: Withs, procedure: &'t str) -> Resolver<'t>
        ensures { known_of result ≡ known_first withs procedure.now }
    {
        Resolver {
            alloc,
            withs,
            procedure,
            here: Part::new(alloc, false, 0, 0, 0),
            outer: Vec::new(alloc),
            types: Vec::new(alloc),
            pools: Vec::new(alloc),
            procedures: Vec::new(alloc),
            variables: Vec::new(alloc),
            exceptions: Vec::new(alloc),
            texts: Vec::new(alloc),
            frozen: IndexSet::new(alloc),
            controlled: 0,
            limited: IndexSet::new(alloc),
        }
    }

    /// An inner declarative part begins: it declares nothing yet.
    #[tactic(auto, unfolding(crate::specs::View::known_of), using(crate::proofs::Names::reversed_snoc))]
    pub(crate) fn enter_part(&mut self) -> Result<(), NameFault>
        ensures known { OnOk result (Changes self with_part) }
        ensures memory { IfErr result (λ e. e ≡ NameFault.NoMemory) }
    {
        let inner = self.next_part();
        let outer = mem::replace(&mut self.here, inner);
        self.outer.push(outer)?;
        Ok(())
    }

    /// The innermost part ends: its names are gone. What it elaborates is given back.
    pub(crate) fn leave_part(&mut self) -> Vec<Declaration>
        ensures known { Changes self without_part }
        ensures elaborated { each declaration_form result ≡ (known_of self.old).here.elaborated }
    {
        self.take_part().into_declarations()
    }

    /// The innermost part ends, and is given back.
    #[tactic(auto, unfolding(crate::specs::View::known_of), using(crate::proofs::Names::reversed_snoc))]
    fn take_part(&mut self) -> Part<'t>
        ensures known { Changes self without_part }
        ensures part { part_of result ≡ (known_of self.old).here }
    {
        let outer = match self.outer.pop() {
            Some(outer) => outer,
            None => self.next_part(),
        };
        mem::replace(&mut self.here, outer)
    }

    /// The part that begins here.
    #[tactic(auto, unfolding(crate::specs::View::known_of, crate::specs::View::part_of))]
    fn next_part(&self) -> Part<'t>
        ensures { part_of result ≡ next_part (known self) }
    {
        Part::new(
            self.alloc,
            self.here.keeps_operand,
            self.types.len(),
            self.variables.len(),
            self.procedures.len(),
        )
    }

    /// The body of a procedure begins, with these formals, which keeps its operand or does not: the variables of the body around
    /// are put aside.
    #[tactic(auto, unfolding(crate::specs::View::known_of), using(crate::proofs::Names::reversed_snoc))]
    pub(crate) fn enter_body(
        &mut self,
        formals: Formals<'t>,
        keeps_operand: bool,
    ) -> Result<(), NameFault>
        ensures known { OnOk result
            (Changes self (with_body keeps_operand (formals_in formals.entry))) }
        ensures memory { IfErr result (λ e. e ≡ NameFault.NoMemory) }
    {
        let Formals {
            names,
            variables,
            modes,
            mut types,
        } = formals;
        self.types.append(&mut types)?;
        let first = variables.len();
        let around = mem::replace(&mut self.variables, variables);
        let inner = Part::of_body(
            self.alloc,
            names,
            self.types.len(),
            first,
            self.procedures.len(),
            modes,
            around,
            keeps_operand,
        );
        let outer = mem::replace(&mut self.here, inner);
        self.outer.push(outer)?;
        Ok(())
    }

    /// The body of a procedure ends, whose statements and handlers these are, and whose first token and last `end` stand
    /// there: the body around is at work again.
    #[tactic(auto, using(std::proofs::lemmas::Grind::common_steps, crate::proofs::Profiles::left_variables))]
    pub(crate) fn leave_body(
        &mut self,
        start: Spot,
        end: Spot,
        body: Sequence,
    ) -> Result<(), NameFault>
        ensures known { OnOk result (Changes self (without_body_of body start end)) }
        ensures memory { IfErr result (λ e. e ≡ NameFault.NoMemory) }
    {
        let Contents {
            declarations,
            modes,
            around,
        } = self.take_part().into_contents();
        let variables = self.resume(around);
        self.add_procedure(Procedure {
            formals: modes,
            variables,
            declarations,
            statements: body.statements,
            handlers: body.handlers,
            start,
            end,
        })
    }

    /// There is this procedure too.
    #[tactic(auto, unfolding(crate::specs::View::known_of), using(crate::proofs::Names::map_snoc))]
    fn add_procedure(&mut self, procedure: Procedure) -> Result<(), NameFault>
        ensures known { OnOk result (Changes self (with_procedure (body_form procedure))) }
        ensures memory { IfErr result (λ e. e ≡ NameFault.NoMemory) }
    {
        self.procedures.push(procedure)?;
        Ok(())
    }

    /// The body around is at work again, whose variables these are; those of the body that ends are given back.
    #[tactic(auto, unfolding(crate::specs::View::known_of))]
    fn resume(&mut self, around: Option<Vec<Variable>>) -> Vec<Variable>
        ensures known { Changes self (at_work_again around) }
        ensures variables { each variable_form result ≡ (known_of self.old).variables }
    {
        let variables = match around {
            Some(variables) => variables,
            None => Vec::new(self.alloc),
        };
        mem::replace(&mut self.variables, variables)
    }

    /// What the innermost part declares under a name.
    #[tactic(auto, unfolding(crate::specs::View::known_of))]
    pub(crate) fn declared(&self, text: &'t str) -> Option<Entity>
        ensures { result ≡ named text.now (known self).here.names }
    {
        self.here.named(text)
    }

    /// What a name stands for in the parts: the inner declaration hides the outer ones.
    #[tactic(auto, unfolding(crate::specs::View::known_of))]
    fn in_parts(&self, text: &'t str) -> Option<Entity>
        ensures { result ≡ named_in text.now (parts (known self)) }
    {
        match self.here.named(text) {
            Some(entity) => Some(entity),
            None => self.here.from_around(named_in(&self.outer, text)),
        }
    }

    /// Whether the innermost part has room for one more name besides formal parameters.
    #[tactic(auto, unfolding(crate::specs::View::known_of))]
    pub(crate) fn has_room(&self) -> bool
        ensures { result ≡ nat_lt (own_names (known self).here) most_names }
    {
        self.here.has_room()
    }

    /// Whether it is the main procedure's name.
    #[tactic(auto, unfolding(crate::specs::View::known_of))]
    fn is_own(&self, text: &'t str) -> bool
        ensures { result ≡ bytes_eq text.now (known self).procedure }
    {
        text == self.procedure
    }

    /// What a name stands for: the inner declaration hides the outer one.
    #[tactic(auto, unfolding(crate::specs::Known::visible))]
    pub(crate) fn visible(&self, text: &'t str) -> Option<Entity>
        ensures { result ≡ visible (known self) text.now }
    {
        match self.in_parts(text) {
            Some(entity) => Some(entity),
            None if self.is_own(text) => Some(Entity::Procedure),
            None => self.outermost(text),
        }
    }

    /// What a name stands for that no part declares: what is predefined, or a library unit that a `with` clause names.
    #[tactic(auto, unfolding(crate::specs::View::known_of))]
    fn outermost(&self, text: &str) -> Option<Entity>
        ensures { result ≡ outermost (known self).withs text.now }
    {
        match predefined(text) {
            Some(entity) => Some(entity),
            None if self.withs.is_unit_named(text) => Some(Entity::LibraryUnit),
            None => None,
        }
    }

    /// The name stands for this from now on.
    #[tactic(auto, unfolding(crate::specs::View::known_of))]
    pub(crate) fn declare(&mut self, text: &'t str, entity: Entity) -> Result<(), NameFault>
        ensures known { OnOk result (Changes self (λ k. declared k text.now entity)) }
        ensures memory { IfErr result (λ e. e ≡ NameFault.NoMemory) }
    {
        self.here.declare(text, entity)
    }

    /// What a lone name stands for, where a type or a value is wanted.
    pub(crate) fn lookup(&self, name: Identifier<'t>, notes: &mut Notes) -> Option<Entity>
        ensures found { result ≡ visible (known self) name.entry.text.now }
        ensures remark { IsNoted notes (name_remark (known self) (ident_of name.entry)) }
    {
        let found = self.visible(name.text);
        if found.is_none() {
            notes.note(name.spot, missing_rule(name.text));
        }
        found
    }

    /// What is wrong with declaring a name, whose declaration begins at `first`.
    pub(crate) fn new_name(&self, name: Identifier<'t>, first: Spot, notes: &mut Notes)
        ensures { IsNoted notes (new_name_remark (known self) (ident_of name.entry) first) }
    {
        notes.note_if(is_taken(name.text), name.spot, NameRule::DeclaredTwice);
        notes.note_if(
            self.declared(name.text).is_some(),
            name.spot,
            NameRule::DeclaredTwice,
        );
        notes.note_if(is_primitive(name.text), first, NameRule::NotInProfile);
        notes.note_if(!self.has_room(), name.spot, NameRule::Limit);
    }

    /// What a name of the library stands for, whose unit is named in a `with` clause.
    pub(crate) fn library(
        &self,
        first: Identifier<'t>,
        rest: &[Identifier<'t>],
        notes: &mut Notes,
    ) -> Option<LibraryName>
        ensures found { result
            ≡ library_found (known self) (ident_of first.entry) (map ident_of rest.now) }
        ensures remark { IsNoted notes
            (library_remark (known self) (ident_of first.entry) (map ident_of rest.now)) }
    {
        let name = library_name(first.text, rest);
        if self.is_with(name) {
            Some(name)
        } else {
            notes.note(first.spot, self.library_rule(name));
            None
        }
    }

    /// The rule that a name of the library breaks which stands for nothing here.
    #[tactic(auto, unfolding(crate::specs::View::known_of))]
    fn library_rule(&self, name: LibraryName) -> NameRule
        ensures { result ≡ library_rule (known self).withs name }
    {
        self.withs.rule(name)
    }

    /// Whether the unit of a library name is named in a `with` clause.
    #[tactic(auto, unfolding(crate::specs::View::known_of))]
    fn is_with(&self, name: LibraryName) -> bool
        ensures { result ≡ is_with (known self).withs name }
    {
        self.withs.has(name)
    }

    /// Whether the innermost part has declared no object yet.
    #[tactic(auto, unfolding(crate::specs::View::known_of, crate::specs::View::part_of))]
    pub(crate) fn no_object_yet(&self) -> bool
        ensures { result ≡ no_variable_yet (known self) }
    {
        self.variables.len() == self.here.first_variable
    }

    /// Whether no body of a procedure has ended in the innermost part yet.
    #[tactic(auto, unfolding(crate::specs::View::known_of, crate::specs::View::part_of))]
    fn no_body_yet(&self) -> bool
        ensures { result ≡ no_body_yet (known self) }
    {
        self.procedures.len() == self.here.first_body
    }

    /// Whether the innermost part has declared neither an object nor a body yet.
    pub(crate) fn types_go_on(&self) -> bool
        ensures { result ≡ types_go_on (known self) }
    {
        self.no_object_yet() && self.no_body_yet()
    }

    /// A type, a number, a pool, an exception, a clause or an instance begins: none follows an object or a body of its part.
    pub(crate) fn type_begins(&self, spot: Spot, notes: &mut Notes)
        ensures { IsNoted notes (type_begins (known self) spot) }
    {
        notes.node(spot);
        notes.note_if(!self.types_go_on(), spot, NameRule::Layout);
    }

    /// A new type with the next number.
    #[tactic(auto, unfolding(crate::specs::View::known_of), using(crate::proofs::Names::map_snoc))]
    pub(crate) fn add_type(&mut self, definition: KnownType<'t>) -> Result<TypeNo, NameFault>
        ensures known { OnOk result (Changes self (with_type None definition.entry)) }
        ensures number { IfOk result (λ t. t ≡ record { 0 = length (known_of self.old).types }) }
        ensures memory { IfErr result (λ e. e ≡ NameFault.NoMemory) }
    {
        let number = TypeNo(self.types.len());
        self.types.push(definition)?;
        Ok(number)
    }
}

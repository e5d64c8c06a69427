//! Resolution of incomplete types and access types (3.10).

ghost use Rattle.std.specs.Prelude.{◌≡◌, IfOk, IfErr, OnOk};
ghost use Rattle.ada_tree.specs.Names.{ident_of};
ghost use Rattle.ada_tree.specs.Statements.{incomplete_type};
ghost use Rattle.ada_resolve.specs.Method.{known, IsNoted, Changes, access_tree, Declares, completing_remark, type_name_remark, with_type};
ghost use Rattle.ada_resolve.specs.Types.{completed_type, number_of, is_designated, complete_found, complete_remark, record_found, record_remark};
ghost use Rattle.ada_resolve.specs.View.{known_of};

use crate::components::{Components, KnownType};
use crate::fault::{NameFault, NameRule};
use crate::notes::Notes;
use crate::resolver::Resolver;
use crate::scope::Entity;
use ada_program::{Spot, TypeNo};
use ada_tree::declarations::Aspect;
use ada_tree::names::Identifier;

impl<'t> Resolver<'t> {
    /// `type T;` (3.10.1)
    #[tactic(auto, unfolding(crate::specs::Kept::composition_in))]
    pub(crate) fn incomplete_type(
        &mut self,
        spot: Spot,
        name: Identifier<'t>,
        notes: &mut Notes,
    ) -> Result<(), NameFault>
        ensures { Declares result self notes (incomplete_type spot (ident_of name.entry)) }
    {
        self.type_begins(spot, notes);
        self.new_name(name, spot, notes);
        notes.settle()?;
        let number = self.add_type(KnownType::Record {
            name: name.text,
            components: Components::new(self.alloc),
            finalization: None,
        })?;
        self.declare(name.text, Entity::Incomplete(number))
    }

    /// `type A is access T with Storage_Pool => P;` (3.10); it may complete an incomplete type that no access type designates.
    pub(crate) fn access_type(
        &mut self,
        spot: Spot,
        name: Identifier<'t>,
        designated: Identifier<'t>,
        aspect: Option<Aspect<'t>>,
        notes: &mut Notes,
    ) -> Result<(), NameFault>
        ensures { Declares result self notes
            (access_tree spot name.entry designated.entry aspect.entry) }
    {
        self.type_begins(spot, notes);
        let completes = self.completed_type(name);
        self.completion(completes, name, designated, notes);
        self.new_unless(completes, name, spot, notes);
        let record = self.record_name(designated, notes);
        let pool = self.aspect(aspect, notes);
        notes.settle()?;
        let Some(designated) = record else {
            return Ok(());
        };
        let definition = KnownType::Access {
            name: name.text,
            designated,
            pool,
        };
        let number = self.define(completes, definition)?;
        self.declare(name.text, Entity::Access(number))
    }

    /// A new name is wanted, except where an incomplete type is completed.
    pub(crate) fn new_unless(
        &self,
        completes: Option<TypeNo>,
        name: Identifier<'t>,
        spot: Spot,
        notes: &mut Notes,
    )
        ensures { IsNoted notes (type_name_remark self completes name.entry spot) }
    {
        if completes.is_none() {
            self.new_name(name, spot, notes);
        }
    }

    /// What is wrong with an access type that completes an incomplete type: an access type designates that, itself included.
    fn completion(
        &self,
        completes: Option<TypeNo>,
        name: Identifier<'t>,
        designated: Identifier<'t>,
        notes: &mut Notes,
    )
        ensures { IsNoted notes (completing_remark self completes name.entry designated.entry) }
    {
        if let Some(number) = completes {
            notes.note_if(self.is_designated(number), name.spot, NameRule::WrongType);
            notes.note_if(designated.text == name.text, name.spot, NameRule::WrongType);
        }
    }

    /// The incomplete type of this name, which a declaration completes.
    #[tactic(auto, unfolding(crate::specs::Types::completed_type))]
    pub(crate) fn completed_type(&self, name: Identifier<'t>) -> Option<TypeNo>
        ensures { result ≡ completed_type (known self) (ident_of name.entry) }
    {
        match self.declared(name.text) {
            Some(Entity::Incomplete(number)) => Some(number),
            _ => None,
        }
    }

    /// A new type, or the definition of one that was incomplete.
    pub(crate) fn define(
        &mut self,
        completes: Option<TypeNo>,
        definition: KnownType<'t>,
    ) -> Result<TypeNo, NameFault>
        ensures known { OnOk result (Changes self (with_type completes definition.entry)) }
        ensures number { IfOk result (λ t. t ≡ number_of completes (known_of self.old).types) }
        ensures memory { IfErr result (λ e. e ≡ NameFault.NoMemory) }
    {
        let Some(number) = completes else {
            return self.add_type(definition);
        };
        self.replace_type(number, definition);
        Ok(number)
    }

    /// The number of the type that a declaration defines.
    #[tactic(auto, unfolding(crate::specs::View::known_of))]
    pub(crate) fn number_of(&self, completes: Option<TypeNo>) -> TypeNo
        ensures { result ≡ number_of completes (known self).types }
    {
        match completes {
            Some(number) => number,
            None => TypeNo(self.types.len()),
        }
    }

    /// The definition of a type that was incomplete.
    #[tactic(auto, unfolding(crate::specs::View::known_of), using(crate::proofs::Names::map_set, crate::proofs::Names::set_beyond))]
    pub(crate) fn replace_type(&mut self, number: TypeNo, definition: KnownType<'t>)
        ensures { Changes self (with_type (Some number) definition.entry) }
    {
        if let Some(slot) = self.types.get_mut(number.0) {
            *slot = definition;
        }
    }

    /// Whether an access type designates this type.
    #[tactic(auto, unfolding(crate::specs::View::known_of))]
    fn is_designated(&self, number: TypeNo) -> bool
        ensures { result ≡ is_designated number.0 (known self).types }
    {
        for definition in &self.types {
            if let KnownType::Access {
                name: _,
                designated,
                pool: _,
            } = definition
                && designated.0 == number.0
            {
                return true;
            }
        }
        false
    }

    /// The record type of a name, complete or not.
    #[tactic(auto, unfolding(crate::specs::Types::record_found, crate::specs::Types::record_remark))]
    pub(crate) fn record_name(&self, name: Identifier<'t>, notes: &mut Notes) -> Option<TypeNo>
        ensures found { result ≡ record_found (known self) (ident_of name.entry) }
        ensures remark { IsNoted notes (record_remark (known self) (ident_of name.entry)) }
    {
        match self.lookup(name, notes) {
            Some(Entity::Incomplete(number) | Entity::Record { number, size: _ }) => Some(number),
            Some(_) => {
                notes.note(name.spot, NameRule::WrongType);
                None
            }
            None => None,
        }
    }

    /// The complete record type of a name.
    #[tactic(auto, unfolding(crate::specs::Types::complete_found, crate::specs::Types::complete_remark))]
    pub(crate) fn complete_name(&self, name: Identifier<'t>, notes: &mut Notes) -> Option<TypeNo>
        ensures found { result ≡ complete_found (known self) (ident_of name.entry) }
        ensures remark { IsNoted notes (complete_remark (known self) (ident_of name.entry)) }
    {
        match self.lookup(name, notes) {
            Some(Entity::Record { number, size: _ }) => Some(number),
            Some(_) => {
                notes.note(name.spot, NameRule::WrongType);
                None
            }
            None => None,
        }
    }
}

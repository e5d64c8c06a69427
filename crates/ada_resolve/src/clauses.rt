//! Resolution of attribute clauses (13.3).

ghost use Rattle.std.specs.Prelude.{◌≡◌, is_some};
ghost use Rattle.ada_tree.specs.Declarations.{size_of};
ghost use Rattle.ada_tree.specs.Names.{ident_of};
ghost use Rattle.ada_resolve.specs.Clauses.{clause_place_remark, clause_pool, clause_type_wanted, clause_value_remark, no_pool_yet, not_frozen, placed_if, pool_of, storage_remark, with_placed};
ghost use Rattle.ada_resolve.specs.Instances.{is_among};
ghost use Rattle.ada_resolve.specs.Method.{known, entity_of, IsNoted, Changes, Declares, clause_tree};

use crate::components::KnownType;
use crate::fault::{NameFault, NameRule};
use crate::notes::Notes;
use crate::pools::is_storage_pool;
use crate::resolver::Resolver;
use crate::scope::Entity;
use ada_program::{PoolNo, Spot, TypeNo};
use ada_tree::declarations::Size;
use ada_tree::names::Identifier;

impl<'t> Resolver<'t> {
    /// `for A'Storage_Pool use P;` (13.11), in the part of the access type, before what freezes it. The type is on the pool from now on.
    pub(crate) fn clause(
        &mut self,
        spot: Spot,
        name: Identifier<'t>,
        attribute: Identifier<'t>,
        value: Size<'t>,
        notes: &mut Notes,
    ) -> Result<(), NameFault>
        ensures { Declares result self notes
            (clause_tree spot name.entry attribute.entry value.entry) }
    {
        self.type_begins(spot, notes);
        let _ = self.lookup(name, notes);
        if is_storage_pool(attribute) {
            self.storage(spot, name, value, notes);
        } else {
            notes.note(name.spot, NameRule::NotInProfile);
        }
        let access = self.access_type_of(name);
        let pool = self.clause_pool(value);
        notes.settle()?;
        self.place(access, pool);
        Ok(())
    }

    /// What is wrong with a clause of Storage_Pool behind the name of its type.
    fn storage(&self, spot: Spot, name: Identifier<'t>, value: Size<'t>, notes: &mut Notes)
        ensures { IsNoted notes
            (storage_remark (known self) spot (ident_of name.entry) (size_of value.entry)) }
    {
        self.clause_type(name, notes);
        self.clause_place(self.access_type_of(name), spot, notes);
        self.clause_value(value, notes);
    }

    /// The name of a clause stands for an access type.
    fn clause_type(&self, name: Identifier<'t>, notes: &mut Notes)
        ensures { IsNoted notes (clause_type_wanted (entity_of self name.entry) name.entry.spot) }
    {
        match self.visible(name.text) {
            Some(Entity::Access(_)) | None => {}
            Some(_) => notes.note(name.spot, NameRule::WrongType),
        }
    }

    /// A clause stands in the part of its type, is the only one that names its pool, and comes before what freezes it.
    fn clause_place(&self, access: Option<TypeNo>, spot: Spot, notes: &mut Notes)
        ensures { IsNoted notes (clause_place_remark (known self) access spot) }
    {
        self.own_type(access, spot, notes);
        self.no_pool_yet(access, spot, notes);
        self.not_frozen(access, spot, notes);
    }

    /// No aspect and no clause has named the pool of the type.
    fn no_pool_yet(&self, access: Option<TypeNo>, spot: Spot, notes: &mut Notes)
        ensures { IsNoted notes (no_pool_yet access (known self).types spot) }
    {
        if let Some(number) = access {
            notes.note_if(self.has_pool(number), spot, NameRule::Layout);
        }
    }

    /// Whether an aspect or a clause has named the pool of a type.
    #[tactic(auto, unfolding(crate::specs::View::known_of, crate::specs::Clauses::pool_of), using(crate::proofs::Names::map_get))]
    fn has_pool(&self, access: TypeNo) -> bool
        ensures { result ≡ is_some (pool_of (known self).types access.0) }
    {
        match self.types.get(access.0) {
            Some(
                KnownType::Access {
                    name: _,
                    designated: _,
                    pool,
                },
            ) => pool.is_some(),
            _ => false,
        }
    }

    /// No instance has frozen the type.
    fn not_frozen(&self, access: Option<TypeNo>, spot: Spot, notes: &mut Notes)
        ensures { IsNoted notes (not_frozen access (known self).frozen spot) }
    {
        if let Some(number) = access {
            notes.note_if(self.is_frozen(number), spot, NameRule::Layout);
        }
    }

    /// Whether an instance has frozen a type.
    #[tactic(auto, unfolding(crate::specs::View::known_of))]
    pub(crate) fn is_frozen(&self, access: TypeNo) -> bool
        ensures { result ≡ is_among access.0 (known self).frozen }
    {
        self.frozen.contains(&access.0)
    }

    /// What is given for Storage_Pool is a pool.
    fn clause_value(&self, value: Size<'t>, notes: &mut Notes)
        ensures { IsNoted notes (clause_value_remark (known self) (size_of value.entry)) }
    {
        match value {
            Size::Number { spot, value: _ } => notes.note(spot, NameRule::WrongType),
            Size::Named(name) => {
                let _ = self.pool_named(name, notes);
            }
        }
    }

    /// The pool that a clause gives.
    #[tactic(auto, unfolding(crate::specs::Pools::pool_found))]
    fn clause_pool(&self, value: Size<'t>) -> Option<PoolNo>
        ensures { result ≡ clause_pool (known self) (size_of value.entry) }
    {
        match value {
            Size::Named(name) => match self.visible(name.text) {
                Some(Entity::Pool(number)) => Some(number),
                _ => None,
            },
            Size::Number { .. } => None,
        }
    }

    /// The type is on the pool from now on, where both are known.
    fn place(&mut self, access: Option<TypeNo>, pool: Option<PoolNo>)
        ensures { Changes self (placed_if access pool) }
    {
        if let (Some(access), Some(pool)) = (access, pool) {
            self.place_on(access, pool);
        }
    }

    /// The objects of an access type go to a pool from now on.
    #[tactic(auto, unfolding(crate::specs::View::known_of, crate::specs::Clauses::placed), using(crate::proofs::Names::map_get))]
    fn place_on(&mut self, access: TypeNo, pool: PoolNo)
        ensures { Changes self (with_placed access pool) }
    {
        let placed = match self.types.get(access.0) {
            Some(
                KnownType::Access {
                    name,
                    designated,
                    pool: _,
                },
            ) => KnownType::Access {
                name: *name,
                designated: *designated,
                pool: Some(pool),
            },
            _ => return,
        };
        self.replace_type(access, placed);
    }
}

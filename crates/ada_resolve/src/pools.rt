//! Resolution of pools: their declarations, and their names (13.11).

ghost use Rattle.std.specs.Prelude.{◌≡◌, ◌∷◌, [], IfOk, OnOk, IfErr};
ghost use Rattle.ada_tree.specs.Declarations.{optional_aspect_of, size_of};
ghost use Rattle.ada_tree.specs.Names.{ident_of, name_of, optional_ident_of};
ghost use Rattle.ada_program.specs.Form.{creates_pool};
ghost use Rattle.ada_resolve.specs.Known.{with_elaborated};
ghost use Rattle.ada_resolve.specs.Method.{known, entity_of, IsNoted, Changes, Declares, pool_of, pool_tree, with_created_pool};
ghost use Rattle.ada_resolve.specs.Pools.{aspect_found, aspect_remark, first_fit_wanted, is_size, is_storage_pool, label_remark, next_pool, no_pool_type, pool_found, pool_in, pool_name_remark, pool_type_remark, size_in, size_remark, size_value, size_wanted, with_pool};
ghost use Rattle.ada_resolve.specs.View.{known_of};

use crate::fault::{NameFault, NameRule};
use crate::library::{LibraryName, is_library_root, no_component_rule};
use crate::notes::Notes;
use crate::resolver::Resolver;
use crate::scope::Entity;
use ada_program::program::Pool;
use ada_program::{PoolNo, Spot};
use ada_tree::declarations::{Aspect, Size};
use ada_tree::names::{Identifier, Name};

/// The most words of a pool.
const MOST_WORDS: u32 = 65_536;

impl<'t> Resolver<'t> {
    /// `P : Profile_Pools.First_Fit_Pool (Pool_Size => 64);` (13.11): the pool is created here.
    pub(crate) fn pool(
        &mut self,
        name: Identifier<'t>,
        type_name: &Name<'t>,
        label: Option<Identifier<'t>>,
        size: Size<'t>,
        notes: &mut Notes,
    ) -> Result<(), NameFault>
        ensures { Declares result self notes
            (pool_tree name.entry type_name.now label.entry size.entry) }
    {
        self.type_begins(name.spot, notes);
        self.new_name(name, name.spot, notes);
        self.pool_type(type_name, notes);
        pool_label(label, notes);
        let words = self.pool_size(size, notes);
        notes.settle()?;
        let number = self.add_pool(name, words)?;
        self.declare(name.text, Entity::Pool(number))
    }

    /// There is this pool too, and the innermost part creates it.
    fn add_pool(&mut self, name: Identifier<'t>, words: u32) -> Result<PoolNo, NameFault>
        ensures known { OnOk result (Changes self (with_created_pool name.entry words)) }
        ensures number { IfOk result (λ p. p ≡ next_pool (known_of self.old)) }
        ensures memory { IfErr result (λ e. e ≡ NameFault.NoMemory) }
    {
        let number = self.keep_pool(name, words)?;
        self.create_pool(number)?;
        Ok(number)
    }

    /// There is this pool too.
    #[tactic(auto, unfolding(crate::specs::View::known_of), using(crate::proofs::Names::map_snoc, crate::proofs::Names::mapped_length))]
    fn keep_pool(&mut self, name: Identifier<'t>, words: u32) -> Result<PoolNo, NameFault>
        ensures known { OnOk result (Changes self (with_pool (pool_of name.entry words))) }
        ensures number { IfOk result (λ p. p ≡ next_pool (known_of self.old)) }
        ensures memory { IfErr result (λ e. e ≡ NameFault.NoMemory) }
    {
        let number = PoolNo(self.pools.len());
        let name = String::from_str(self.alloc, name.text)?;
        self.pools.push(Pool { name, words })?;
        Ok(number)
    }

    /// The innermost part creates a pool.
    #[tactic(auto, unfolding(crate::specs::View::known_of))]
    fn create_pool(&mut self, number: PoolNo) -> Result<(), NameFault>
        ensures known { OnOk result (Changes self (with_elaborated (creates_pool number.0 ∷ []))) }
        ensures memory { IfErr result (λ e. e ≡ NameFault.NoMemory) }
    {
        self.here.add_pool(number)
    }

    /// The name of a pool's type: First_Fit_Pool.
    #[tactic(auto, unfolding(crate::specs::Pools::pool_type_remark))]
    fn pool_type(&self, name: &Name<'t>, notes: &mut Notes)
        ensures { IsNoted notes (pool_type_remark (known self) (name_of name.now)) }
    {
        let spot = name.first.spot;
        if is_library_root(name.first.text) {
            match self.library(name.first, &name.rest, notes) {
                Some(LibraryName::FirstFitPool) | None => {}
                Some(_) => notes.note(spot, NameRule::WrongType),
            }
        } else if self.lookup(name.first, notes).is_some() {
            notes.note(spot, NameRule::WrongType);
        }
    }

    /// The size of a pool in words; 0 where a name stands for no number.
    fn pool_size(&self, size: Size<'t>, notes: &mut Notes) -> u32
        ensures value { result ≡ size_value (known self) (size_of size.entry) }
        ensures remark { IsNoted notes (size_remark (known self) (size_of size.entry)) }
    {
        match size {
            Size::Number { spot, value } => {
                notes.note_if(value > MOST_WORDS, spot, NameRule::Limit);
                value
            }
            Size::Named(name) => self.named_size(name, notes),
        }
    }

    /// The size that a name stands for; 0 where it stands for no number.
    fn named_size(&self, name: Identifier<'t>, notes: &mut Notes) -> u32
        ensures value { result ≡ size_in (entity_of self name.entry) }
        ensures remark { IsNoted notes (size_wanted (entity_of self name.entry) (ident_of name.entry)) }
    {
        match self.lookup(name, notes) {
            Some(Entity::Number(number)) => {
                notes.note_if(!is_size(number), name.spot, NameRule::Limit);
                number.unsigned_abs()
            }
            Some(_) => {
                notes.note(name.spot, NameRule::WrongType);
                0
            }
            None => 0,
        }
    }

    /// The pool of a name.
    #[tactic(auto, unfolding(crate::specs::Pools::pool_found, crate::specs::Pools::pool_name_remark))]
    pub(crate) fn pool_named(&self, name: Identifier<'t>, notes: &mut Notes) -> Option<PoolNo>
        ensures found { result ≡ pool_found (known self) (ident_of name.entry) }
        ensures remark { IsNoted notes (pool_name_remark (known self) (ident_of name.entry)) }
    {
        match self.lookup(name, notes) {
            Some(Entity::Pool(number)) => Some(number),
            Some(_) => {
                notes.note(name.spot, NameRule::WrongType);
                None
            }
            None => None,
        }
    }

    /// The pool that the aspect of an access type names, where there is one.
    pub(crate) fn aspect(&self, aspect: Option<Aspect<'t>>, notes: &mut Notes) -> Option<PoolNo>
        ensures found { result ≡ aspect_found (known self) (optional_aspect_of aspect.entry) }
        ensures remark { IsNoted notes
            (aspect_remark (known self) (optional_aspect_of aspect.entry)) }
    {
        let aspect = aspect?;
        if is_storage_pool(aspect.name) {
            self.pool_named(aspect.value, notes)
        } else {
            notes.note(aspect.name.spot, NameRule::NotInProfile);
            None
        }
    }
}

/// Whether a pool may have as many words as a named number says.
fn is_size(number: i32) -> bool
    ensures { result ≡ is_size number }
{
    0 <= number && number <= 65_536
}

/// The one discriminant of a pool is Pool_Size.
fn pool_label(label: Option<Identifier<'_>>, notes: &mut Notes)
    ensures { IsNoted notes (label_remark (optional_ident_of label.entry)) }
{
    if let Some(label) = label {
        notes.note_if(
            label.text != "POOL_SIZE",
            label.spot,
            no_component_rule(label.text),
        );
    }
}

/// Whether an attribute or an aspect is Storage_Pool.
pub(crate) fn is_storage_pool(name: Identifier<'_>) -> bool
    ensures { result ≡ is_storage_pool (ident_of name.entry) }
{
    name.text == "STORAGE_POOL"
}

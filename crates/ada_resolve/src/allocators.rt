//! Resolution of allocators (4.8).

ghost use Rattle.std.specs.Prelude.{◌≡◌};
ghost use Rattle.ada_tree.specs.Names.{ident_of, optional_ident_of};
ghost use Rattle.ada_resolve.specs.Allocators.{allocated_remark, default_found, designated_if_known, is_in_use};
ghost use Rattle.ada_resolve.specs.Controlled.{aggregate_wanted};
ghost use Rattle.ada_resolve.specs.Look.{Looks, aggregate_look, new_look};
ghost use Rattle.ada_resolve.specs.Method.{known, IsNoted};
ghost use Rattle.ada_resolve.specs.Types.{complete_found};
ghost use Rattle.ada_resolve.specs.View.{right_in};

use crate::fault::{NameFault, NameRule};
use crate::items::names_component;
use crate::notes::Notes;
use crate::resolver::Resolver;
use crate::scope::Entity;
use ada_program::{Spot, TypeNo, program};
use ada_tree::expressions::Item;
use ada_tree::names::Identifier;

impl<'t> Resolver<'t> {
    /// `new T` or `new T'(..)` (4.8), without a handle.
    #[tactic(auto, using(std::proofs::lemmas::Grind::common_steps, crate::proofs::ItemLists::new_remarked, crate::proofs::ItemLists::new_meant))]
    pub(crate) fn new_object(
        &self,
        spot: Spot,
        type_name: Identifier<'t>,
        items: &[Item<'t>],
        access: Option<TypeNo>,
        notes: &mut Notes,
    ) -> Result<Option<program::Right>, NameFault>
        ensures { Looks right_in result notes (new_look self access spot type_name.entry items.now) }
    {
        if items.is_empty() {
            Ok(self.default_object(spot, type_name, access, notes))
        } else {
            self.aggregate(spot, type_name, items, access, notes)
        }
    }

    /// `new T` (4.8): an object whose components hold what they hold at first.
    #[tactic(auto, unfolding(crate::specs::Allocators::default_found))]
    fn default_object(
        &self,
        spot: Spot,
        type_name: Identifier<'t>,
        access: Option<TypeNo>,
        notes: &mut Notes,
    ) -> Option<program::Right>
        ensures found { right_in result
            ≡ default_found (known self) access (ident_of type_name.entry) }
        ensures remark { IsNoted notes
            (allocated_remark (known self) access spot (ident_of type_name.entry)) }
    {
        let number = self.allocated_type(spot, type_name, access, notes)?;
        Some(program::Right::Default(access.unwrap_or(number)))
    }

    /// `new T'(..)` (4.8): a new object of the access type that is wanted, where that is known.
    #[tactic(auto, unfolding(crate::specs::Allocators::aggregate_remark, crate::specs::Allocators::aggregate_found, crate::specs::Expressions::all_items_remark))]
    fn aggregate(
        &self,
        spot: Spot,
        type_name: Identifier<'t>,
        items: &[Item<'t>],
        access: Option<TypeNo>,
        notes: &mut Notes,
    ) -> Result<Option<program::Right>, NameFault>
        ensures { Looks right_in result notes
            (aggregate_look self access spot type_name.entry items.now) }
    {
        let found = self.allocated_type(spot, type_name, access, notes);
        self.aggregate_wanted(found, type_name.spot, notes);
        let filling = self.items(items, found, notes)?;
        filling.all_given(names_component(items), type_name.spot, notes);
        match found {
            Some(number) => Ok(Some(program::Right::Allocator {
                access: access.unwrap_or(number),
                items: filling.into_items(self.alloc)?,
            })),
            None => Ok(None),
        }
    }

    /// An aggregate is of a record type without controlled parts, where its type is known.
    pub(crate) fn aggregate_wanted(&self, found: Option<TypeNo>, spot: Spot, notes: &mut Notes)
        ensures { IsNoted notes (aggregate_wanted (known self).types found spot) }
    {
        if let Some(number) = found {
            let finalization = self.finalization_of(number);
            notes.note_if(finalization.is_some(), spot, NameRule::WrongType);
        }
    }

    /// The complete record type that an allocator names and the access type designates.
    #[tactic(auto, unfolding(crate::specs::Types::complete_found, crate::specs::Allocators::allocated_remark))]
    fn allocated_type(
        &self,
        spot: Spot,
        name: Identifier<'t>,
        access: Option<TypeNo>,
        notes: &mut Notes,
    ) -> Option<TypeNo>
        ensures found { result ≡ complete_found (known self) (ident_of name.entry) }
        ensures remark { IsNoted notes
            (allocated_remark (known self) access spot (ident_of name.entry)) }
    {
        match self.lookup(name, notes) {
            Some(Entity::Record { number, size: _ }) => {
                notes.note_if(
                    !self.designated_if_known(access, number),
                    spot,
                    NameRule::WrongType,
                );
                Some(number)
            }
            Some(Entity::LibraryUnit) => {
                notes.note(name.spot, NameRule::WrongType);
                None
            }
            Some(_) => {
                notes.note(spot, NameRule::WrongType);
                None
            }
            None => None,
        }
    }

    /// Whether the access type designates a record type, where it is known.
    fn designated_if_known(&self, access: Option<TypeNo>, number: TypeNo) -> bool
        ensures { result ≡ designated_if_known (known self).types access number }
    {
        match access {
            Some(access) => self.designates(access, number),
            None => true,
        }
    }
}

/// Whether an allocator is in use: it has no handle (13.11.4).
pub(crate) fn is_in_use(handle: &Option<Identifier<'_>>) -> bool
    ensures { result ≡ is_in_use (optional_ident_of handle.now) }
{
    handle.is_none()
}

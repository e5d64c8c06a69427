//! Resolution of what is assigned: a value, or a new object (5.2).

ghost use Rattle.std.specs.Prelude.{◌≡◌, None, false, IfErr};
ghost use Rattle.ada_program.specs.Kept.{variables_in};
ghost use Rattle.ada_resolve.specs.Controlled.{copy_wanted, is_limited};
ghost use Rattle.ada_resolve.specs.Look.{Looks, right_look};
ghost use Rattle.ada_resolve.specs.Method.{known, Finds, IsNoted, Remarks};
ghost use Rattle.ada_resolve.specs.Rights as rules;
ghost use Rattle.ada_resolve.specs.View.{assigned_in, meant_of, right_in};

use crate::allocators::is_in_use;
use crate::fault::{NameFault, NameRule};
use crate::items::single_item;
use crate::meant::Meant;
use crate::notes::Notes;
use crate::resolver::Resolver;
use crate::spots::expression_spot;
use ada_program::program::{self, Variable};
use ada_program::{Spot, TypeNo};
use ada_tree::expressions;
use std::alloc::Global;

/// What is held where something is assigned (5.2).
#[derive(Clone, Copy)]
pub(crate) enum Held {
    Integer,
    Boolean,
    /// A value of an access type.
    Access(TypeNo),
    /// A record of this record type.
    Record(TypeNo),
}

/// What is assigned (5.2).
#[derive(Drop)]
pub(crate) enum Assigned {
    /// A value.
    Value(program::Right),
    /// A record, by its items.
    Record(Vec<program::Item>),
}

impl<'t> Resolver<'t> {
    /// What is assigned, where it is known to what, or to a borrower.
    #[tactic(auto, unfolding(crate::specs::View::known_of, crate::specs::Allocators::allocator_remark, crate::specs::Allocators::allocator_found))]
    pub(crate) fn right(
        &self,
        right: &expressions::Right<'t>,
        kind: Option<Held>,
        borrows: bool,
        notes: &mut Notes,
    ) -> Result<Option<Assigned>, NameFault>
        ensures { Looks assigned_in result notes (right_look self kind borrows right.now) }
    {
        match right {
            expressions::Right::Expression(expression) => {
                let value = self.expression(expression, notes)?;
                let spot = expression_spot(expression);
                self.assigned_wanted(kind, &value, spot, notes);
                lent_wanted(&self.variables, kind, borrows, &value, spot, notes);
                assigned_by(self.alloc, value)
            }
            expressions::Right::Allocator {
                spot,
                handle,
                type_name,
                items,
            } => {
                access_object_wanted(kind, *spot, notes);
                notes.note_if(borrows, *spot, NameRule::WrongType);
                if is_in_use(handle) {
                    let access = access_kind(kind);
                    let value = self.new_object(*spot, *type_name, items, access, notes)?;
                    Ok(new_assigned(value))
                } else {
                    notes.note(*spot, NameRule::NotInProfile);
                    Ok(None)
                }
            }
            expressions::Right::Creation { function, .. } => {
                notes.note(function.root.spot, NameRule::NotInProfile);
                Ok(None)
            }
        }
    }

    /// What is assigned is of the object's type, where that is known, and no limited record.
    fn assigned_wanted(&self, kind: Option<Held>, value: &Meant, spot: Spot, notes: &mut Notes)
        ensures { IsNoted notes
            (rules.assigned_wanted (known self).types kind (meant_of value.now) spot) }
    {
        match kind {
            Some(Held::Integer) => value.integer_wanted(spot, notes),
            Some(Held::Boolean) => value.boolean_wanted(spot, notes),
            Some(Held::Access(access)) => value.access_wanted(access, spot, notes),
            Some(Held::Record(number)) => {
                value.record_wanted(number, spot, notes);
                self.copy_wanted(number, value, spot, notes);
            }
            None => {}
        }
    }

    /// A record to which a path leads is copied to one of this type: a limited one is not.
    fn copy_wanted(&self, number: TypeNo, value: &Meant, spot: Spot, notes: &mut Notes)
        ensures { IsNoted notes (copy_wanted (known self).types number (meant_of value.now) spot) }
    {
        if let Meant::Record(_) = value {
            notes.note_if(self.is_limited(number), spot, NameRule::WrongType);
        }
    }

    /// Whether a record type is limited.
    fn is_limited(&self, number: TypeNo) -> bool
        ensures { result ≡ is_limited (known self).types number.0 }
    {
        match self.finalization_of(number) {
            Some(finalization) => finalization.limited,
            None => false,
        }
    }

    /// What is wrong with what is assigned, where it is not known to what.
    pub(crate) fn look_at_right(
        &self,
        right: &expressions::Right<'t>,
        notes: &mut Notes,
    ) -> Result<(), NameFault>
        ensures remark { Remarks result notes (right_look self None false right.now).remark }
        ensures memory { IfErr result (λ e. e ≡ NameFault.NoMemory) }
    {
        let _value = self.right(right, None, false, notes)?;
        Ok(())
    }
}

/// The access type of an object of this kind.
fn access_kind(kind: Option<Held>) -> Option<TypeNo>
    ensures { result ≡ rules.access_kind kind }
{
    match kind {
        Some(Held::Access(access)) => Some(access),
        _ => None,
    }
}

/// What a borrower holds goes to borrowers only.
fn lent_wanted(
    variables: &[Variable],
    kind: Option<Held>,
    borrows: bool,
    value: &Meant,
    spot: Spot,
    notes: &mut Notes,
)
    ensures { IsNoted notes
        (rules.lent_wanted (variables_in variables.now) kind borrows (meant_of value.now) spot) }
{
    if kind.is_some() && !borrows {
        value.owner_wanted(variables, spot, notes);
    }
}

/// No allocator is an Integer, a Boolean or a record.
fn access_object_wanted(kind: Option<Held>, spot: Spot, notes: &mut Notes)
    ensures { IsNoted notes (rules.access_object_wanted kind spot) }
{
    if let Some(Held::Integer | Held::Boolean | Held::Record(_)) = kind {
        notes.note(spot, NameRule::WrongType);
    }
}

/// What an expression assigns, or `None` where something is wrong with it.
fn assigned_by(alloc: Global, value: Meant) -> Result<Option<Assigned>, NameFault>
    ensures found { Finds assigned_in result (rules.assigned (meant_of value)) }
    ensures memory { IfErr result (λ e. e ≡ NameFault.NoMemory) }
{
    match value {
        Meant::Null => Ok(Some(Assigned::Value(program::Right::Null))),
        Meant::Access(path, _) => Ok(Some(Assigned::Value(program::Right::Path(path)))),
        Meant::Integer(expression) | Meant::Boolean(expression) => {
            Ok(Some(Assigned::Value(program::Right::Value(expression))))
        }
        Meant::Record(path) => {
            let items = single_item(alloc, program::Item::Record(path))?;
            Ok(Some(Assigned::Record(items)))
        }
        Meant::Aggregate(_, items) => Ok(Some(Assigned::Record(items))),
        Meant::Unknown | Meant::Lent(_) => Ok(None),
    }
}

/// A new object is assigned, where it is known.
fn new_assigned(value: Option<program::Right>) -> Option<Assigned>
    ensures { assigned_in result ≡ rules.new_assigned (right_in value) }
{
    match value {
        Some(value) => Some(Assigned::Value(value)),
        None => None,
    }
}

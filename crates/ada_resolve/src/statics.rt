//! Static values, which are known before the run (4.9), and named numbers (3.3.2).

ghost use Rattle.std.specs.Prelude.{◌≡◌};
ghost use Rattle.ada_tree.specs.Names.{ident_of};
ghost use Rattle.ada_tree.specs.Records.{static_of};
ghost use Rattle.ada_resolve.specs.Method.{known, entity_of, IsNoted, constant_tree, Declares};
ghost use Rattle.ada_resolve.specs.Statics.{at_most_greatest, integer_of, number_in, static_remark, static_truth, static_truth_remark, static_value, truth_in, number_name_remark, truth_name_remark};

use crate::fault::{NameFault, NameRule};
use crate::notes::Notes;
use crate::resolver::Resolver;
use crate::scope::Entity;
use ada_tree::names::Identifier;
use ada_tree::records::StaticValue;

impl<'t> Resolver<'t> {
    /// `N : constant := 1;` (3.3.2): a named number.
    pub(crate) fn constant(
        &mut self,
        name: Identifier<'t>,
        value: &StaticValue<'t>,
        notes: &mut Notes,
    ) -> Result<(), NameFault>
        ensures { Declares result self notes (constant_tree name.entry value.now) }
    {
        self.type_begins(name.spot, notes);
        self.new_name(name, name.spot, notes);
        let number = self.static_value(value, notes);
        notes.settle()?;
        self.declare(name.text, Entity::Number(number))
    }

    /// A static Integer; 0 where something is wrong.
    pub(crate) fn static_value(&self, value: &StaticValue<'t>, notes: &mut Notes) -> i32
        ensures value { result ≡ static_value (known self) (static_of value.now) }
        ensures remark { IsNoted notes (static_remark (known self) (static_of value.now)) }
    {
        match value {
            StaticValue::Number {
                spot: _,
                negative,
                magnitude,
            } => integer(*negative, *magnitude),
            StaticValue::Named(name) => self.named_number(*name, notes),
        }
    }

    /// A named number; 0 where the name stands for none.
    fn named_number(&self, name: Identifier<'t>, notes: &mut Notes) -> i32
        ensures value { result ≡ number_in (entity_of self name.entry) }
        ensures remark { IsNoted notes (number_name_remark (known self) (ident_of name.entry)) }
    {
        match self.lookup(name, notes) {
            Some(Entity::Number(number)) => number,
            Some(_) => {
                notes.note(name.spot, NameRule::WrongType);
                0
            }
            None => 0,
        }
    }

    /// A static Boolean; False where something is wrong.
    pub(crate) fn static_truth(&self, value: &StaticValue<'t>, notes: &mut Notes) -> bool
        ensures value { result ≡ static_truth (known self) (static_of value.now) }
        ensures remark { IsNoted notes (static_truth_remark (known self) (static_of value.now)) }
    {
        match value {
            StaticValue::Number { spot, .. } => {
                notes.note(*spot, NameRule::WrongType);
                false
            }
            StaticValue::Named(name) => self.truth_value(*name, notes),
        }
    }

    /// True or False; False where the name stands for neither.
    fn truth_value(&self, name: Identifier<'t>, notes: &mut Notes) -> bool
        ensures value { result ≡ truth_in (entity_of self name.entry) }
        ensures remark { IsNoted notes (truth_name_remark (known self) (ident_of name.entry)) }
    {
        match self.lookup(name, notes) {
            Some(Entity::Truth(truth)) => truth,
            Some(_) => {
                notes.note(name.spot, NameRule::WrongType);
                false
            }
            None => false,
        }
    }
}

/// A number as an Integer (3.5.4). A number of the source is at most the greatest Integer.
pub(crate) fn integer(negative: bool, magnitude: u32) -> i32
    ensures { result ≡ integer_of negative (at_most_greatest magnitude) }
{
    let value = if magnitude <= 2_147_483_647 {
        magnitude as i32
    } else {
        i32::MAX
    };
    if negative { -value } else { value }
}

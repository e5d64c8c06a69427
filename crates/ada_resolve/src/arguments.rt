//! Resolution of the arguments of a call, whatever they are for (6.4).

ghost use Rattle.std.specs.Prelude.{◌≡◌, map, IfErr};
ghost use Rattle.ada_tree.specs.ExpressionView.{argument_of};
ghost use Rattle.ada_program.specs.Form.{expression_form};
ghost use Rattle.ada_resolve.specs.Arguments.{none_wanted};
ghost use Rattle.ada_resolve.specs.Look.{Looks, image_look, expression_look};
ghost use Rattle.ada_resolve.specs.Method.{IsNoted, Remarks, attribute_remark, remark_of_argument, remark_of_arguments};

use crate::fault::{NameFault, NameRule};
use crate::notes::Notes;
use crate::resolver::Resolver;
use crate::scope::Entity;
use crate::spots::{argument_spot, expression_spot};
use ada_program::program;
use ada_tree::expressions::{Argument, Expression};
use ada_tree::names::Identifier;

impl<'t> Resolver<'t> {
    /// The arguments, in order: what is wrong with each.
    pub(crate) fn arguments(
        &self,
        arguments: &[Argument<'t>],
        notes: &mut Notes,
    ) -> Result<(), NameFault>
        ensures remark { Remarks result notes (remark_of_arguments self arguments.now) }
        ensures memory { IfErr result (λ e. e ≡ NameFault.NoMemory) }
    {
        for argument in arguments {
            self.argument(argument, notes)?;
        }
        Ok(())
    }

    /// What is wrong with an argument.
    pub(crate) fn argument(
        &self,
        argument: &Argument<'t>,
        notes: &mut Notes,
    ) -> Result<(), NameFault>
        ensures remark { Remarks result notes (remark_of_argument self argument.now) }
        ensures memory { IfErr result (λ e. e ≡ NameFault.NoMemory) }
    {
        match argument {
            Argument::Expression(value) => self.look_at(value, notes),
            Argument::Text { .. } => Ok(()),
            Argument::Attribute {
                prefix,
                attribute,
                value,
            } => {
                let _value = self.image_value(*prefix, *attribute, value, notes)?;
                Ok(())
            }
        }
    }

    /// What is wrong with an expression, whatever it means.
    pub(crate) fn look_at(
        &self,
        expression: &Expression<'t>,
        notes: &mut Notes,
    ) -> Result<(), NameFault>
        ensures remark { Remarks result notes (expression_look self expression.now).remark }
        ensures memory { IfErr result (λ e. e ≡ NameFault.NoMemory) }
    {
        let _meant = self.expression(expression, notes)?;
        Ok(())
    }

    /// `Integer'Image (..)` (3.5): the Integer; 0 where something is wrong.
    #[tactic(auto, unfolding(crate::specs::Arguments::image_value_remark))]
    pub(crate) fn image_value(
        &self,
        prefix: Identifier<'t>,
        attribute: Identifier<'t>,
        value: &Expression<'t>,
        notes: &mut Notes,
    ) -> Result<program::Expression, NameFault>
        ensures { Looks expression_form result notes
            (image_look self prefix.entry attribute.entry value.now) }
    {
        self.image(prefix, attribute, notes);
        let meant = self.expression(value, notes)?;
        meant.integer_wanted(expression_spot(value), notes);
        Ok(meant.into_integer())
    }

    /// The attribute is `Integer'Image` (3.5).
    #[tactic(auto, unfolding(crate::specs::Arguments::image_remark))]
    fn image(&self, prefix: Identifier<'t>, attribute: Identifier<'t>, notes: &mut Notes)
        ensures { IsNoted notes (attribute_remark self prefix.entry attribute.entry) }
    {
        match self.lookup(prefix, notes) {
            Some(Entity::Integer) => notes.note_if(
                attribute.text != "IMAGE",
                prefix.spot,
                NameRule::NotInProfile,
            ),
            Some(Entity::LibraryUnit) => notes.note(prefix.spot, NameRule::WrongType),
            _ => notes.note(prefix.spot, NameRule::NotInProfile),
        }
    }
}

/// One argument is wanted (6.4): behind it the first is one too many.
pub(crate) fn none_wanted(arguments: &[Argument<'_>], notes: &mut Notes)
    ensures { IsNoted notes (none_wanted (map argument_of arguments.now)) }
{
    if let Some(argument) = arguments.first() {
        notes.note(argument_spot(argument), NameRule::WrongType);
    }
}

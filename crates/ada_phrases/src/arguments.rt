//! Reading the arguments of calls (6.4).

ghost use Rattle.std.specs.Prelude.{◌<◌, ◌≤◌, length, OnOk};
ghost use Rattle.ada_tree.specs.Expressions.{expression_argument};
ghost use Rattle.ada_tree.specs.ExpressionView.{expression_of};
ghost use Rattle.ada_reader.specs.Step.{Reads};
ghost use Rattle.ada_phrases.specs.Expressions.{argument_at};
ghost use Rattle.ada_phrases.specs.Phrases.{BuildsArgument};
ghost use Rattle.ada_phrases.specs.Words.{argument_led_by, attribute_of, attribute_tree, boxed_argument, tick_led_by};

use crate::boxes::boxed;
use crate::expressions::{read_behind_primary, read_expression};
use crate::items::read_enclosed_items;
use crate::names::read_path_behind;
use ada_reader::{Reader, Stop};
use ada_text::Delimiter;
use ada_tree::expressions::{Argument, Expression};
use ada_tree::names::Identifier;
use std::alloc::Global;

/// A string, an attribute or an expression (6.4).
#[tactic(auto, using(std::proofs::lemmas::Grind::common_steps, ada_tree::specs::ExpressionView::tree_rules), unfolding(crate::specs::Expressions::argument_at))]
pub(crate) fn read_argument<'t>(
    alloc: Global,
    reader: &mut Reader<'t>,
    room: u32,
) -> Result<Box<Argument<'t>>, Stop>
    ensures shorter { OnOk result (length reader.new.tokens.now < length reader.old.tokens.now) }
    ensures read { Reads boxed_argument reader (argument_at room) result }
{
    if reader.is_at_text() {
        let (text, spot) = reader.text()?;
        return boxed(alloc, Argument::Text { spot, text });
    }
    if reader.is_at_identifier() {
        let first = reader.identifier()?;
        return read_argument_led(alloc, reader, room, first);
    }
    let value = read_expression(alloc, reader, room)?;
    value_argument(alloc, value)
}

/// An argument that begins with an identifier, which was read before.
#[tactic(auto, using(std::proofs::lemmas::Grind::common_steps, ada_tree::specs::ExpressionView::tree_rules), unfolding(crate::specs::Expressions::argument_led))]
fn read_argument_led<'t>(
    alloc: Global,
    reader: &mut Reader<'t>,
    room: u32,
    first: Identifier<'t>,
) -> Result<Box<Argument<'t>>, Stop>
    ensures shorter { OnOk result (length reader.new.tokens.now ≤ length reader.old.tokens.now) }
    ensures read { Reads boxed_argument reader (argument_led_by room first.entry) result }
{
    if reader.taken_delimiter(Delimiter::Tick).is_some() {
        return read_argument_behind(alloc, reader, room, first);
    }
    let path = read_path_behind(alloc, reader, first)?;
    let primary = boxed(alloc, Expression::Path(path))?;
    let value = read_behind_primary(alloc, reader, room, primary)?;
    value_argument(alloc, value)
}

/// What stands behind `T'`: an attribute, or an aggregate and the rest of an expression.
#[tactic(auto, using(std::proofs::lemmas::Grind::common_steps, ada_tree::specs::ExpressionView::tree_rules), unfolding(crate::specs::Expressions::behind_tick))]
fn read_argument_behind<'t>(
    alloc: Global,
    reader: &mut Reader<'t>,
    room: u32,
    first: Identifier<'t>,
) -> Result<Box<Argument<'t>>, Stop>
    ensures shorter { OnOk result (length reader.new.tokens.now ≤ length reader.old.tokens.now) }
    ensures read { Reads boxed_argument reader (tick_led_by room first.entry) result }
{
    if reader.is_at_identifier() {
        return read_attribute(alloc, reader, room, first);
    }
    let items = read_enclosed_items(alloc, reader, room)?;
    let aggregate = Expression::Aggregate {
        type_name: first,
        items,
    };
    let primary = boxed(alloc, aggregate)?;
    let value = read_behind_primary(alloc, reader, room, primary)?;
    value_argument(alloc, value)
}

/// `Image (A + B)`, behind `Integer'` (4.1.4).
#[tactic(auto, using(std::proofs::lemmas::Grind::common_steps, ada_tree::specs::ExpressionView::tree_rules, crate::proofs::Inside::inside_expression))]
fn read_attribute<'t>(
    alloc: Global,
    reader: &mut Reader<'t>,
    room: u32,
    prefix: Identifier<'t>,
) -> Result<Box<Argument<'t>>, Stop>
    ensures shorter { OnOk result (length reader.new.tokens.now < length reader.old.tokens.now) }
    ensures read { Reads boxed_argument reader (attribute_of room prefix.entry) result }
{
    let attribute = reader.identifier()?;
    reader.opening(Delimiter::LeftParenthesis, room)?;
    let value = read_expression(alloc, reader, room - 1)?;
    reader.delimiter(Delimiter::RightParenthesis)?;
    attribute_argument(alloc, prefix, attribute, value)
}

/// A value as an argument.
fn value_argument<'t>(alloc: Global, value: Box<Expression<'t>>) -> Result<Box<Argument<'t>>, Stop>
    ensures { BuildsArgument (expression_argument (expression_of value.entry.value)) result }
{
    boxed(alloc, Argument::Expression(Box::into_inner(value)))
}

/// An attribute of its parts, as an argument.
fn attribute_argument<'t>(
    alloc: Global,
    prefix: Identifier<'t>,
    attribute: Identifier<'t>,
    value: Box<Expression<'t>>,
) -> Result<Box<Argument<'t>>, Stop>
    ensures { BuildsArgument (attribute_tree prefix.entry attribute.entry value.entry) result }
{
    let value = Box::into_inner(value);
    boxed(
        alloc,
        Argument::Attribute {
            prefix,
            attribute,
            value,
        },
    )
}

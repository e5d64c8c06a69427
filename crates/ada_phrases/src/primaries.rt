//! Reading factors and primaries (4.4).

ghost use Rattle.std.specs.Prelude.{◌<◌, ◌≤◌, length, OnOk};
ghost use Rattle.ada_reader.specs.Step.{Reads};
ghost use Rattle.ada_phrases.specs.Phrases.{enclosed_at, factor_at, primary_at};
ghost use Rattle.ada_phrases.specs.Words.{boxed_expression, primary_led_by};

use crate::boxes::boxed;
use crate::expressions::read_expression;
use crate::items::read_enclosed_items;
use crate::names::read_path_behind;
use ada_reader::{Reader, Stop};
use ada_text::{Delimiter, Word};
use ada_tree::expressions::Expression;
use ada_tree::names::Identifier;
use ada_values::operator::UnaryOperator;
use std::alloc::Global;

/// A primary, perhaps behind `not` (4.4).
#[cycle(expression)]
#[tactic(auto, using(std::proofs::lemmas::Grind::common_steps, ada_tree::specs::ExpressionView::tree_rules), unfolding(crate::specs::Expressions::factor_in))]
pub(crate) fn read_factor<'t>(
    alloc: Global,
    reader: &mut Reader<'t>,
    room: u32,
) -> Result<Box<Expression<'t>>, Stop>
    ensures shorter { OnOk result (length reader.new.tokens.now < length reader.old.tokens.now) }
    ensures read { Reads boxed_expression reader (factor_at room) result }
{
    if let Some(spot) = reader.taken_word(Word::Not) {
        let operand = read_primary(alloc, reader, room)?;
        return boxed(
            alloc,
            Expression::Unary {
                operator: UnaryOperator::Not,
                spot,
                operand,
            },
        );
    }
    read_primary(alloc, reader, room)
}

/// A number, `null`, an expression in parentheses, an aggregate or a path (4.4).
#[cycle(expression)]
#[tactic(auto, using(std::proofs::lemmas::Grind::common_steps, ada_tree::specs::ExpressionView::tree_rules), unfolding(crate::specs::Expressions::primary_in, crate::specs::Phrases::enclosed_at))]
fn read_primary<'t>(
    alloc: Global,
    reader: &mut Reader<'t>,
    room: u32,
) -> Result<Box<Expression<'t>>, Stop>
    ensures shorter { OnOk result (length reader.new.tokens.now < length reader.old.tokens.now) }
    ensures read { Reads boxed_expression reader (primary_at room) result }
{
    if reader.is_at_number() {
        let (value, spot) = reader.number()?;
        return boxed(alloc, Expression::Number { spot, value });
    }
    if let Some(spot) = reader.taken_word(Word::Null) {
        return boxed(alloc, Expression::Null(spot));
    }
    if reader.is_at(Delimiter::LeftParenthesis) {
        return read_enclosed(alloc, reader, room);
    }
    let first = reader.identifier()?;
    read_primary_led(alloc, reader, room, first)
}

/// `(A)`
#[cycle(expression)]
#[tactic(auto, using(std::proofs::lemmas::Grind::common_steps, ada_tree::specs::ExpressionView::tree_rules, crate::proofs::Inside::inside_expression), unfolding(crate::specs::Phrases::enclosed_at))]
fn read_enclosed<'t>(
    alloc: Global,
    reader: &mut Reader<'t>,
    room: u32,
) -> Result<Box<Expression<'t>>, Stop>
    ensures shorter { OnOk result (length reader.new.tokens.now < length reader.old.tokens.now) }
    ensures read { Reads boxed_expression reader (enclosed_at room) result }
{
    let spot = reader.opening(Delimiter::LeftParenthesis, room)?;
    let inner = read_expression(alloc, reader, room - 1)?;
    reader.delimiter(Delimiter::RightParenthesis)?;
    boxed(alloc, Expression::Enclosed { spot, inner })
}

/// A primary that begins with an identifier, which was read before: an aggregate or a path.
#[cycle(expression)]
#[tactic(auto, using(std::proofs::lemmas::Grind::common_steps, ada_tree::specs::ExpressionView::tree_rules), unfolding(crate::specs::Expressions::primary_led))]
pub(crate) fn read_primary_led<'t>(
    alloc: Global,
    reader: &mut Reader<'t>,
    room: u32,
    first: Identifier<'t>,
) -> Result<Box<Expression<'t>>, Stop>
    ensures shorter { OnOk result (length reader.new.tokens.now ≤ length reader.old.tokens.now) }
    ensures read { Reads boxed_expression reader (primary_led_by room first.entry) result }
{
    if reader.taken_delimiter(Delimiter::Tick).is_none() {
        let path = read_path_behind(alloc, reader, first)?;
        return boxed(alloc, Expression::Path(path));
    }
    let items = read_enclosed_items(alloc, reader, room)?;
    boxed(
        alloc,
        Expression::Aggregate {
            type_name: first,
            items,
        },
    )
}

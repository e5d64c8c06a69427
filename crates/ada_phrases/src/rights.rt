//! Reading what stands on the right of `:=` (4.8, 5.2).

ghost use Rattle.std.specs.Prelude.{◌<◌, ◌≤◌, length, OnOk};
ghost use Rattle.ada_tree.specs.Names.{ident_of, optional_ident_of};
ghost use Rattle.ada_tree.specs.Expressions.{expression_right};
ghost use Rattle.ada_tree.specs.ExpressionView.{expression_of};
ghost use Rattle.ada_reader.specs.Step.{Reads};
ghost use Rattle.ada_phrases.specs.Phrases.{BuildsRight, optional_right_in};
ghost use Rattle.ada_phrases.specs.Expressions.{aggregate_at, allocator_at, enclosed_identifier_at, handle_at, initial_at, right_at};
ghost use Rattle.ada_phrases.specs.Words.{boxed_right, listed_items, right_behind, right_led_by};

use crate::boxes::boxed;
use crate::expressions::{read_behind_primary, read_expression, read_expression_led};
use crate::items::read_enclosed_items;
use crate::names::read_path_behind;
use ada_reader::{Reader, Stop};
use ada_text::{Delimiter, Word};
use ada_tree::expressions::{Expression, Item, Right};
use ada_tree::names::{Identifier, Path};
use std::alloc::Global;

/// `:= ..`, or nothing.
#[tactic(auto, using(std::proofs::lemmas::Grind::common_steps, ada_tree::specs::ExpressionView::tree_rules), unfolding(crate::specs::Expressions::initial_at))]
pub(crate) fn read_initial<'t>(
    alloc: Global,
    reader: &mut Reader<'t>,
    room: u32,
) -> Result<Option<Box<Right<'t>>>, Stop>
    ensures shorter { OnOk result (length reader.new.tokens.now ≤ length reader.old.tokens.now) }
    ensures read { Reads optional_right_in reader (initial_at room) result }
{
    if reader.taken_delimiter(Delimiter::Assign).is_none() {
        return Ok(None);
    }
    Ok(Some(read_right(alloc, reader, room)?))
}

/// An allocator, a creation or an expression (4.8, 5.2).
#[tactic(auto, using(std::proofs::lemmas::Grind::common_steps, ada_tree::specs::ExpressionView::tree_rules), unfolding(crate::specs::Expressions::right_at))]
pub(crate) fn read_right<'t>(
    alloc: Global,
    reader: &mut Reader<'t>,
    room: u32,
) -> Result<Box<Right<'t>>, Stop>
    ensures shorter { OnOk result (length reader.new.tokens.now < length reader.old.tokens.now) }
    ensures read { Reads boxed_right reader (right_at room) result }
{
    if reader.is_at_word(Word::New) {
        return read_allocator(alloc, reader, room);
    }
    if reader.is_at_identifier() {
        let first = reader.identifier()?;
        return read_right_led(alloc, reader, room, first);
    }
    let value = read_expression(alloc, reader, room)?;
    value_right(alloc, value)
}

/// `new (H) T'(1, null)` (4.8)
#[tactic(auto, using(std::proofs::lemmas::Grind::common_steps, ada_tree::specs::ExpressionView::tree_rules), unfolding(crate::specs::Expressions::allocator_at))]
fn read_allocator<'t>(
    alloc: Global,
    reader: &mut Reader<'t>,
    room: u32,
) -> Result<Box<Right<'t>>, Stop>
    ensures shorter { OnOk result (length reader.new.tokens.now < length reader.old.tokens.now) }
    ensures read { Reads boxed_right reader (allocator_at room) result }
{
    let spot = reader.word(Word::New)?;
    let handle = read_handle(reader, room)?;
    let type_name = reader.identifier()?;
    let items = read_aggregate(alloc, reader, room)?;
    boxed(
        alloc,
        Right::Allocator {
            spot,
            handle,
            type_name,
            items,
        },
    )
}

/// `(H)`, or nothing (13.11.4).
#[tactic(auto, unfolding(crate::specs::Expressions::handle_at))]
fn read_handle<'t>(reader: &mut Reader<'t>, room: u32) -> Result<Option<Identifier<'t>>, Stop>
    ensures shorter { OnOk result (length reader.new.tokens.now ≤ length reader.old.tokens.now) }
    ensures read { Reads optional_ident_of reader (handle_at room) result }
{
    if !reader.is_at(Delimiter::LeftParenthesis) {
        return Ok(None);
    }
    Ok(Some(read_enclosed_identifier(reader, room)?))
}

/// `(H)`
#[tactic(auto, unfolding(crate::specs::Expressions::enclosed_identifier_at))]
fn read_enclosed_identifier<'t>(reader: &mut Reader<'t>, room: u32) -> Result<Identifier<'t>, Stop>
    ensures shorter { OnOk result (length reader.new.tokens.now < length reader.old.tokens.now) }
    ensures read { Reads ident_of reader (enclosed_identifier_at room) result }
{
    reader.opening(Delimiter::LeftParenthesis, room)?;
    let found = reader.identifier()?;
    reader.delimiter(Delimiter::RightParenthesis)?;
    Ok(found)
}

/// `'(1, null)`, or nothing (4.3).
#[tactic(auto, unfolding(crate::specs::Expressions::aggregate_at))]
fn read_aggregate<'t>(
    alloc: Global,
    reader: &mut Reader<'t>,
    room: u32,
) -> Result<Vec<Item<'t>>, Stop>
    ensures shorter { OnOk result (length reader.new.tokens.now ≤ length reader.old.tokens.now) }
    ensures read { Reads listed_items reader (aggregate_at room) result }
{
    if reader.taken_delimiter(Delimiter::Tick).is_none() {
        return Ok(Vec::new(alloc));
    }
    read_enclosed_items(alloc, reader, room)
}

/// A right side that begins with an identifier, which was read before.
#[tactic(auto, using(std::proofs::lemmas::Grind::common_steps, ada_tree::specs::ExpressionView::tree_rules), unfolding(crate::specs::Expressions::right_led))]
fn read_right_led<'t>(
    alloc: Global,
    reader: &mut Reader<'t>,
    room: u32,
    first: Identifier<'t>,
) -> Result<Box<Right<'t>>, Stop>
    ensures shorter { OnOk result (length reader.new.tokens.now ≤ length reader.old.tokens.now) }
    ensures read { Reads boxed_right reader (right_led_by room first.entry) result }
{
    if reader.is_at(Delimiter::Tick) {
        let value = read_expression_led(alloc, reader, room, first)?;
        return value_right(alloc, value);
    }
    let path = read_path_behind(alloc, reader, first)?;
    read_right_behind(alloc, reader, room, path)
}

/// What stands behind a path: its argument in parentheses, or the rest of an expression.
#[tactic(auto, using(std::proofs::lemmas::Grind::common_steps, ada_tree::specs::ExpressionView::tree_rules))]
fn read_right_behind<'t>(
    alloc: Global,
    reader: &mut Reader<'t>,
    room: u32,
    path: Path<'t>,
) -> Result<Box<Right<'t>>, Stop>
    ensures shorter { OnOk result (length reader.new.tokens.now ≤ length reader.old.tokens.now) }
    ensures read { Reads boxed_right reader (right_behind room path.entry) result }
{
    if path.is_name() && reader.is_at(Delimiter::LeftParenthesis) {
        let argument = read_enclosed_identifier(reader, room)?;
        return boxed(
            alloc,
            Right::Creation {
                function: path,
                argument,
            },
        );
    }
    let primary = boxed(alloc, Expression::Path(path))?;
    let value = read_behind_primary(alloc, reader, room, primary)?;
    value_right(alloc, value)
}

/// A value as a right side.
fn value_right<'t>(alloc: Global, value: Box<Expression<'t>>) -> Result<Box<Right<'t>>, Stop>
    ensures { BuildsRight (expression_right (expression_of value.entry.value)) result }
{
    boxed(alloc, Right::Expression(Box::into_inner(value)))
}

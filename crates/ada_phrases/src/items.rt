//! Reading the items of aggregates (4.3).

ghost use Rattle.std.specs.Prelude.{◌<◌, ◌≤◌, length, OnOk};
ghost use Rattle.ada_tree.specs.Names.{optional_ident_of};
ghost use Rattle.ada_tree.specs.ExpressionView.{expression_of};
ghost use Rattle.ada_reader.specs.Step.{Reads};
ghost use Rattle.ada_phrases.specs.Expressions.{items_at};
ghost use Rattle.ada_phrases.specs.Phrases.{BuildsItem, enclosed_items_at, item_at, next_item_at};
ghost use Rattle.ada_phrases.specs.Words.{boxed_item, items_behind, listed_items};

use crate::boxes::{add, boxed};
use crate::expressions::{read_expression, read_expression_led};
use ada_reader::{Reader, Stop};
use ada_text::Delimiter;
use ada_tree::expressions::{Expression, Item};
use ada_tree::names::Identifier;
use std::alloc::Global;

/// `(1, C => null)`
#[cycle(expression)]
#[tactic(auto, using(std::proofs::lemmas::Grind::common_steps, ada_tree::specs::ExpressionView::tree_rules, crate::proofs::Inside::inside_items), unfolding(crate::specs::Expressions::enclosed_items_in))]
pub(crate) fn read_enclosed_items<'t>(
    alloc: Global,
    reader: &mut Reader<'t>,
    room: u32,
) -> Result<Vec<Item<'t>>, Stop>
    ensures shorter { OnOk result (length reader.new.tokens.now < length reader.old.tokens.now) }
    ensures read { Reads listed_items reader (enclosed_items_at room) result }
{
    reader.opening(Delimiter::LeftParenthesis, room)?;
    let items = read_items(alloc, reader, room - 1)?;
    reader.delimiter(Delimiter::RightParenthesis)?;
    Ok(items)
}

/// One item or more (4.3).
#[cycle(expression)]
#[tactic(auto, using(std::proofs::lemmas::Grind::common_steps, ada_tree::specs::ExpressionView::tree_rules), unfolding(crate::specs::Expressions::items_at, crate::specs::Expressions::items_in))]
fn read_items<'t>(alloc: Global, reader: &mut Reader<'t>, room: u32) -> Result<Vec<Item<'t>>, Stop>
    ensures shorter { OnOk result (length reader.new.tokens.now < length reader.old.tokens.now) }
    ensures read { Reads listed_items reader (items_at room) result }
{
    let first = read_item(alloc, reader, room)?;
    let mut items = Vec::new(alloc);
    add(&mut items, first)?;
    read_more_items(alloc, reader, room, items)
}

/// `, 1, C => null`: as many as there are.
#[cycle(expression)]
fn read_more_items<'t>(
    alloc: Global,
    reader: &mut Reader<'t>,
    room: u32,
    items: Vec<Item<'t>>,
) -> Result<Vec<Item<'t>>, Stop>
    ensures shorter { OnOk result (length reader.new.tokens.now ≤ length reader.old.tokens.now) }
    ensures read { Reads listed_items reader (items_behind room items.entry) result }
{
    let mut items = items;
    'items: while reader.is_at(Delimiter::Comma) {
        let next = read_next_item(alloc, reader, room)?;
        add(&mut items, next)?;
    }
    Ok(items)
}

/// `, C => null`
#[cycle(expression)]
fn read_next_item<'t>(
    alloc: Global,
    reader: &mut Reader<'t>,
    room: u32,
) -> Result<Box<Item<'t>>, Stop>
    ensures shorter { OnOk result (length reader.new.tokens.now < length reader.old.tokens.now) }
    ensures read { Reads boxed_item reader (next_item_at room) result }
{
    reader.delimiter(Delimiter::Comma)?;
    read_item(alloc, reader, room)
}

/// An item: an expression, perhaps behind `C =>` (4.3.1).
#[cycle(expression)]
#[tactic(auto, using(std::proofs::lemmas::Grind::common_steps, ada_tree::specs::ExpressionView::tree_rules), unfolding(crate::specs::Expressions::item_in, crate::specs::Expressions::expression_at))]
fn read_item<'t>(alloc: Global, reader: &mut Reader<'t>, room: u32) -> Result<Box<Item<'t>>, Stop>
    ensures shorter { OnOk result (length reader.new.tokens.now < length reader.old.tokens.now) }
    ensures read { Reads boxed_item reader (item_at room) result }
{
    if !reader.is_at_identifier() {
        let value = read_expression(alloc, reader, room)?;
        return item(alloc, None, value);
    }
    let first = reader.identifier()?;
    if reader.taken_delimiter(Delimiter::Arrow).is_some() {
        let value = read_expression(alloc, reader, room)?;
        return item(alloc, Some(first), value);
    }
    let value = read_expression_led(alloc, reader, room, first)?;
    item(alloc, None, value)
}

/// An item of its parts.
fn item<'t>(
    alloc: Global,
    label: Option<Identifier<'t>>,
    value: Box<Expression<'t>>,
) -> Result<Box<Item<'t>>, Stop>
    ensures { BuildsItem (optional_ident_of label.entry, expression_of value.entry.value) result }
{
    let value = Box::into_inner(value);
    boxed(alloc, Item { label, value })
}

//! Reading expressions (4.4).

ghost use Rattle.std.specs.Prelude.{◌<◌, ◌≤◌, length, OnOk};
ghost use Rattle.ada_reader.specs.Step.{Reads};
ghost use Rattle.ada_phrases.specs.Expressions.{expression_at};
ghost use Rattle.ada_phrases.specs.Phrases.{Builds, first_term_at, relation_at, sum_at, term_at};
ghost use Rattle.ada_phrases.specs.Words.{again_behind, boxed_expression, expression_led_by, joined_tree, logical_behind, relation_behind, repeated_behind, rest_behind, sum_behind, term_behind};

use crate::boxes::boxed;
use crate::primaries::{read_factor, read_primary_led};
use ada_reader::operators::{
    is_at_adding, is_at_comparing, is_at_logical, is_at_multiplying, read_adding, read_again,
    read_comparing, read_multiplying, read_sign,
};
use ada_reader::{Reader, Stop};
use ada_text::Word;
use ada_tree::expressions::{Expression, Link};
use ada_tree::names::Identifier;
use ada_values::operator::BinaryOperator;
use std::alloc::Global;

/// An operator beside its operands: a chain goes on.
#[tactic(auto, using(std::proofs::lemmas::Grind::common_steps, ada_tree::specs::ExpressionView::tree_rules, crate::proofs::Links::linked_more))]
fn joined<'t>(
    alloc: Global,
    left: Box<Expression<'t>>,
    operator: BinaryOperator,
    right: Box<Expression<'t>>,
) -> Result<Box<Expression<'t>>, Stop>
    ensures { Builds (joined_tree left.entry operator right.entry) result }
{
    let link = Link {
        operator,
        operand: Box::into_inner(right),
    };
    match Box::into_inner(left) {
        Expression::Chain { first, mut links } => {
            links.push(link)?;
            boxed(alloc, Expression::Chain { first, links })
        }
        alone => {
            let mut links = Vec::new(alloc);
            links.push(link)?;
            let first = Box::new(alloc, alone)?;
            boxed(alloc, Expression::Chain { first, links })
        }
    }
}

/// An expression (4.4).
#[cycle(expression)]
#[tactic(auto, using(std::proofs::lemmas::Grind::common_steps, ada_tree::specs::ExpressionView::tree_rules), unfolding(crate::specs::Expressions::expression_at, crate::specs::Expressions::expression_in))]
pub(crate) fn read_expression<'t>(
    alloc: Global,
    reader: &mut Reader<'t>,
    room: u32,
) -> Result<Box<Expression<'t>>, Stop>
    ensures shorter { OnOk result (length reader.new.tokens.now < length reader.old.tokens.now) }
    ensures read { Reads boxed_expression reader (expression_at room) result }
{
    let first = read_relation(alloc, reader, room)?;
    read_logical(alloc, reader, room, first)
}

/// What stands behind the first relation of an expression: one operator, repeated.
#[cycle(expression)]
#[tactic(auto, using(std::proofs::lemmas::Grind::common_steps, ada_tree::specs::ExpressionView::tree_rules), unfolding(crate::specs::Expressions::logical_from, crate::specs::Phrases::repeated_at, ada_reader::specs::Operators::again_at))]
fn read_logical<'t>(
    alloc: Global,
    reader: &mut Reader<'t>,
    room: u32,
    left: Box<Expression<'t>>,
) -> Result<Box<Expression<'t>>, Stop>
    ensures shorter { OnOk result (length reader.new.tokens.now ≤ length reader.old.tokens.now) }
    ensures read { Reads boxed_expression reader (logical_behind room left.entry) result }
{
    if reader.taken_word(Word::And).is_some() {
        if reader.taken_word(Word::Then).is_some() {
            return read_repeated(alloc, reader, room, BinaryOperator::AndThen, left);
        }
        return read_repeated(alloc, reader, room, BinaryOperator::And, left);
    }
    if reader.taken_word(Word::Or).is_some() {
        if reader.taken_word(Word::Else).is_some() {
            return read_repeated(alloc, reader, room, BinaryOperator::OrElse, left);
        }
        return read_repeated(alloc, reader, room, BinaryOperator::Or, left);
    }
    if reader.taken_word(Word::Xor).is_some() {
        return read_repeated(alloc, reader, room, BinaryOperator::Xor, left);
    }
    Ok(left)
}

/// A relation behind a logical operator, and then as many as there are with this operator before them.
#[cycle(expression)]
#[tactic(auto, using(std::proofs::lemmas::Grind::common_steps, ada_tree::specs::ExpressionView::tree_rules), unfolding(crate::specs::Phrases::repeated_at))]
fn read_repeated<'t>(
    alloc: Global,
    reader: &mut Reader<'t>,
    room: u32,
    operator: BinaryOperator,
    left: Box<Expression<'t>>,
) -> Result<Box<Expression<'t>>, Stop>
    ensures shorter { OnOk result (length reader.new.tokens.now < length reader.old.tokens.now) }
    ensures read { Reads boxed_expression reader (repeated_behind room operator left.entry) result }
{
    let right = read_relation(alloc, reader, room)?;
    let left = joined(alloc, left, operator, right)?;
    read_more_repeated(alloc, reader, room, operator, left)
}

/// As many relations as there are, with this operator before them.
#[cycle(expression)]
fn read_more_repeated<'t>(
    alloc: Global,
    reader: &mut Reader<'t>,
    room: u32,
    operator: BinaryOperator,
    first: Box<Expression<'t>>,
) -> Result<Box<Expression<'t>>, Stop>
    ensures shorter { OnOk result (length reader.new.tokens.now ≤ length reader.old.tokens.now) }
    ensures read { Reads boxed_expression reader (again_behind room operator first.entry) result }
{
    let mut left = first;
    'relations: while is_at_logical(reader, operator) {
        let operator = read_again(reader, operator)?;
        let right = read_relation(alloc, reader, room)?;
        left = joined(alloc, left, operator, right)?;
    }
    Ok(left)
}

/// One sum, or two that are compared (4.4).
#[cycle(expression)]
#[tactic(auto, using(std::proofs::lemmas::Grind::common_steps, ada_tree::specs::ExpressionView::tree_rules), unfolding(crate::specs::Expressions::relation_in))]
fn read_relation<'t>(
    alloc: Global,
    reader: &mut Reader<'t>,
    room: u32,
) -> Result<Box<Expression<'t>>, Stop>
    ensures shorter { OnOk result (length reader.new.tokens.now < length reader.old.tokens.now) }
    ensures read { Reads boxed_expression reader (relation_at room) result }
{
    let left = read_sum(alloc, reader, room)?;
    read_relation_behind(alloc, reader, room, left)
}

/// What stands behind the first sum of a relation.
#[cycle(expression)]
#[tactic(auto, using(std::proofs::lemmas::Grind::common_steps, ada_tree::specs::ExpressionView::tree_rules), unfolding(crate::specs::Expressions::relation_from))]
fn read_relation_behind<'t>(
    alloc: Global,
    reader: &mut Reader<'t>,
    room: u32,
    left: Box<Expression<'t>>,
) -> Result<Box<Expression<'t>>, Stop>
    ensures shorter { OnOk result (length reader.new.tokens.now ≤ length reader.old.tokens.now) }
    ensures read { Reads boxed_expression reader (relation_behind room left.entry) result }
{
    if !is_at_comparing(reader) {
        return Ok(left);
    }
    let operator = read_comparing(reader)?;
    let right = read_sum(alloc, reader, room)?;
    joined(alloc, left, operator, right)
}

/// Terms with operators that add between them (4.4).
#[cycle(expression)]
#[tactic(auto, using(std::proofs::lemmas::Grind::common_steps, ada_tree::specs::ExpressionView::tree_rules), unfolding(crate::specs::Expressions::sum_in))]
fn read_sum<'t>(
    alloc: Global,
    reader: &mut Reader<'t>,
    room: u32,
) -> Result<Box<Expression<'t>>, Stop>
    ensures shorter { OnOk result (length reader.new.tokens.now < length reader.old.tokens.now) }
    ensures read { Reads boxed_expression reader (sum_at room) result }
{
    let first = read_first_term(alloc, reader, room)?;
    read_sum_behind(alloc, reader, room, first)
}

/// What stands behind the first term of a sum.
#[cycle(expression)]
fn read_sum_behind<'t>(
    alloc: Global,
    reader: &mut Reader<'t>,
    room: u32,
    first: Box<Expression<'t>>,
) -> Result<Box<Expression<'t>>, Stop>
    ensures shorter { OnOk result (length reader.new.tokens.now ≤ length reader.old.tokens.now) }
    ensures read { Reads boxed_expression reader (sum_behind room first.entry) result }
{
    let mut left = first;
    'terms: while is_at_adding(reader) {
        let operator = read_adding(reader)?;
        let right = read_term(alloc, reader, room)?;
        left = joined(alloc, left, operator, right)?;
    }
    Ok(left)
}

/// A term, perhaps behind a sign (4.4).
#[cycle(expression)]
#[tactic(auto, using(std::proofs::lemmas::Grind::common_steps, ada_tree::specs::ExpressionView::tree_rules), unfolding(crate::specs::Expressions::first_term_in))]
fn read_first_term<'t>(
    alloc: Global,
    reader: &mut Reader<'t>,
    room: u32,
) -> Result<Box<Expression<'t>>, Stop>
    ensures shorter { OnOk result (length reader.new.tokens.now < length reader.old.tokens.now) }
    ensures read { Reads boxed_expression reader (first_term_at room) result }
{
    if !is_at_adding(reader) {
        return read_term(alloc, reader, room);
    }
    let (operator, spot) = read_sign(reader)?;
    let operand = read_term(alloc, reader, room)?;
    boxed(
        alloc,
        Expression::Unary {
            operator,
            spot,
            operand,
        },
    )
}

/// Factors with operators that multiply between them (4.4).
#[cycle(expression)]
#[tactic(auto, using(std::proofs::lemmas::Grind::common_steps, ada_tree::specs::ExpressionView::tree_rules), unfolding(crate::specs::Expressions::term_in))]
fn read_term<'t>(
    alloc: Global,
    reader: &mut Reader<'t>,
    room: u32,
) -> Result<Box<Expression<'t>>, Stop>
    ensures shorter { OnOk result (length reader.new.tokens.now < length reader.old.tokens.now) }
    ensures read { Reads boxed_expression reader (term_at room) result }
{
    let first = read_factor(alloc, reader, room)?;
    read_term_behind(alloc, reader, room, first)
}

/// What stands behind the first factor of a term.
#[cycle(expression)]
fn read_term_behind<'t>(
    alloc: Global,
    reader: &mut Reader<'t>,
    room: u32,
    first: Box<Expression<'t>>,
) -> Result<Box<Expression<'t>>, Stop>
    ensures shorter { OnOk result (length reader.new.tokens.now ≤ length reader.old.tokens.now) }
    ensures read { Reads boxed_expression reader (term_behind room first.entry) result }
{
    let mut left = first;
    'factors: while is_at_multiplying(reader) {
        let operator = read_multiplying(reader)?;
        let right = read_factor(alloc, reader, room)?;
        left = joined(alloc, left, operator, right)?;
    }
    Ok(left)
}

/// An expression that begins with an identifier, which was read before.
#[cycle(expression)]
#[tactic(auto, using(std::proofs::lemmas::Grind::common_steps, ada_tree::specs::ExpressionView::tree_rules), unfolding(crate::specs::Expressions::expression_led))]
pub(crate) fn read_expression_led<'t>(
    alloc: Global,
    reader: &mut Reader<'t>,
    room: u32,
    first: Identifier<'t>,
) -> Result<Box<Expression<'t>>, Stop>
    ensures shorter { OnOk result (length reader.new.tokens.now ≤ length reader.old.tokens.now) }
    ensures read { Reads boxed_expression reader (expression_led_by room first.entry) result }
{
    let primary = read_primary_led(alloc, reader, room, first)?;
    read_behind_primary(alloc, reader, room, primary)
}

/// What stands behind the first primary of an expression.
#[cycle(expression)]
#[tactic(auto, using(std::proofs::lemmas::Grind::common_steps, ada_tree::specs::ExpressionView::tree_rules), unfolding(crate::specs::Expressions::behind_primary))]
pub(crate) fn read_behind_primary<'t>(
    alloc: Global,
    reader: &mut Reader<'t>,
    room: u32,
    first: Box<Expression<'t>>,
) -> Result<Box<Expression<'t>>, Stop>
    ensures shorter { OnOk result (length reader.new.tokens.now ≤ length reader.old.tokens.now) }
    ensures read { Reads boxed_expression reader (rest_behind room first.entry) result }
{
    let term = read_term_behind(alloc, reader, room, first)?;
    let sum = read_sum_behind(alloc, reader, room, term)?;
    let relation = read_relation_behind(alloc, reader, room, sum)?;
    read_logical(alloc, reader, room, relation)
}

//! Reading statements in which no other nests, and the first and last words of the others (5.1).

ghost use Rattle.std.specs.Prelude.{◌≡◌, ◌<◌, ◌≤◌, length, OnOk};
ghost use Rattle.ada_text.specs.Token.{lexemes_of};
ghost use Rattle.ada_tree.specs.Names.{path_of};
ghost use Rattle.ada_tree.specs.Statements.{while_scheme as while_tree};
ghost use Rattle.ada_phrases.specs.StatementPhrases.{BuildsScheme, condition_in};
ghost use Rattle.ada_tree.specs.ExpressionView.{argument_of, expression_of};
ghost use Rattle.ada_reader.specs.Step.{each, Reads};
ghost use Rattle.ada_phrases.specs.Statements.{arguments_at, at_loop, for_at, next_argument_at, optional_when_at, path_at, scheme_at, simple_statement_at, while_at};
ghost use Rattle.ada_phrases.specs.Words.{and_nothing, boxed_argument, boxed_scheme, boxed_statement, end_word_at, for_tree, next_arguments_at, statement_led_by};

use crate::arguments::read_argument;
use crate::boxes::{add, boxed, ended_statement, opened};
use crate::expressions::read_expression;
use crate::names::{read_name, read_path_behind};
use crate::rights::read_right;
use ada_reader::{Reader, Stop};
use ada_text::{Delimiter, Spot, Word};
use ada_tree::expressions::{Argument, Expression};
use ada_tree::names::{Identifier, Path};
use ada_tree::statements::{Scheme, Statement};
use std::alloc::Global;

/// `null;`, `exit when X;`, `return;`, `raise E;`, an assignment or a call.
#[tactic(auto, unfolding(ada_tree::specs::StatementView::statement_of, crate::specs::Statements::simple_statement_at))]
pub(crate) fn read_simple_statement<'t>(
    alloc: Global,
    reader: &mut Reader<'t>,
    room: u32,
) -> Result<Box<Statement<'t>>, Stop>
    ensures shorter { OnOk result (length reader.new.tokens.now < length reader.old.tokens.now) }
    ensures read { Reads boxed_statement reader (simple_statement_at room) result }
{
    if let Some(spot) = reader.taken_word(Word::Null) {
        return ended_statement(alloc, reader, Statement::Null(spot));
    }
    if let Some(spot) = reader.taken_word(Word::Exit) {
        let condition = optional_when(alloc, reader, room)?;
        let condition = opened(condition);
        return ended_statement(alloc, reader, Statement::Exit { spot, condition });
    }
    if let Some(spot) = reader.taken_word(Word::Return) {
        return ended_statement(alloc, reader, Statement::Return(spot));
    }
    if let Some(spot) = reader.taken_word(Word::Raise) {
        let name = read_name(alloc, reader)?;
        return ended_statement(alloc, reader, Statement::Raise { spot, name });
    }
    let path = read_path(alloc, reader)?;
    read_path_statement(alloc, reader, room, path)
}

/// `when X`, if `when` is next (5.7).
#[tactic(auto, unfolding(crate::specs::Statements::optional_when_at))]
fn optional_when<'t>(
    alloc: Global,
    reader: &mut Reader<'t>,
    room: u32,
) -> Result<Option<Box<Expression<'t>>>, Stop>
    ensures shorter { OnOk result (length reader.new.tokens.now ≤ length reader.old.tokens.now) }
    ensures read { Reads condition_in reader (optional_when_at room) result }
{
    if reader.taken_word(Word::When).is_none() {
        return Ok(None);
    }
    Ok(Some(read_expression(alloc, reader, room)?))
}

/// A path (4.1).
#[tactic(auto, unfolding(crate::specs::Statements::path_at))]
fn read_path<'t>(alloc: Global, reader: &mut Reader<'t>) -> Result<Path<'t>, Stop>
    ensures shorter { OnOk result (length reader.new.tokens.now < length reader.old.tokens.now) }
    ensures read { Reads path_of reader path_at result }
{
    let root = reader.identifier()?;
    read_path_behind(alloc, reader, root)
}

/// What stands behind a path: `:= ..;`, `(..);` or `;` (5.2, 6.4).
#[tactic(auto, unfolding(ada_tree::specs::StatementView::statement_of, crate::specs::Statements::path_statement_at))]
fn read_path_statement<'t>(
    alloc: Global,
    reader: &mut Reader<'t>,
    room: u32,
    path: Path<'t>,
) -> Result<Box<Statement<'t>>, Stop>
    ensures shorter { OnOk result (length reader.new.tokens.now < length reader.old.tokens.now) }
    ensures read { Reads boxed_statement reader (statement_led_by room path.entry) result }
{
    if reader.taken_delimiter(Delimiter::Assign).is_some() {
        let value = read_right(alloc, reader, room)?;
        return ended_statement(
            alloc,
            reader,
            Statement::Assignment {
                target: path,
                value: Box::into_inner(value),
            },
        );
    }
    if reader.is_at(Delimiter::LeftParenthesis) {
        reader.opening(Delimiter::LeftParenthesis, room)?;
        let arguments = read_arguments(alloc, reader, room - 1)?;
        return ended_statement(
            alloc,
            reader,
            Statement::Call {
                procedure: path,
                arguments,
            },
        );
    }
    ended_statement(
        alloc,
        reader,
        Statement::Call {
            procedure: path,
            arguments: Vec::new(alloc),
        },
    )
}

/// `X, Y)`, the arguments of a call behind their `(` (6.4).
#[tactic(auto, unfolding(crate::specs::Statements::arguments_at))]
fn read_arguments<'t>(
    alloc: Global,
    reader: &mut Reader<'t>,
    room: u32,
) -> Result<Vec<Argument<'t>>, Stop>
    ensures shorter { OnOk result (length reader.new.tokens.now < length reader.old.tokens.now) }
    ensures read { Reads (each argument_of) reader (arguments_at room) result }
{
    let first = read_argument(alloc, reader, room)?;
    let mut arguments = next_arguments(alloc, reader, room)?;
    reader.delimiter(Delimiter::RightParenthesis)?;
    arguments.insert(0, Box::into_inner(first))?;
    Ok(arguments)
}

/// `, X, Y`
fn next_arguments<'t>(
    alloc: Global,
    reader: &mut Reader<'t>,
    room: u32,
) -> Result<Vec<Argument<'t>>, Stop>
    ensures shorter { OnOk result (length reader.new.tokens.now ≤ length reader.old.tokens.now) }
    ensures read { Reads (each argument_of) reader (next_arguments_at room) result }
{
    let mut found = Vec::new(alloc);
    'arguments: while reader.is_at(Delimiter::Comma) {
        let next = next_argument(alloc, reader, room)?;
        add(&mut found, next)?;
    }
    Ok(found)
}

/// `, X`
#[tactic(auto, unfolding(crate::specs::Statements::next_argument_at))]
fn next_argument<'t>(
    alloc: Global,
    reader: &mut Reader<'t>,
    room: u32,
) -> Result<Box<Argument<'t>>, Stop>
    ensures shorter { OnOk result (length reader.new.tokens.now < length reader.old.tokens.now) }
    ensures read { Reads boxed_argument reader (next_argument_at room) result }
{
    reader.delimiter(Delimiter::Comma)?;
    read_argument(alloc, reader, room)
}

/// Whether a loop is next.
pub(crate) fn is_at_loop(reader: &Reader) -> bool
    ensures { result ≡ at_loop (lexemes_of reader.now.tokens.now) }
{
    reader.is_at_word(Word::Loop) || reader.is_at_word(Word::While) || reader.is_at_word(Word::For)
}

/// `loop`, `while X loop` or `for I in X .. Y loop`, and where the first word stands (5.5).
#[tactic(auto, unfolding(crate::specs::Statements::scheme_at))]
pub(crate) fn read_scheme<'t>(
    alloc: Global,
    reader: &mut Reader<'t>,
    room: u32,
) -> Result<(Spot, Box<Scheme<'t>>), Stop>
    ensures shorter { OnOk result (length reader.new.tokens.now < length reader.old.tokens.now) }
    ensures room { OnOk result (0 < room) }
    ensures read { Reads boxed_scheme reader (scheme_at room) result }
{
    if reader.is_at_word(Word::While) {
        return read_while(alloc, reader, room);
    }
    if reader.is_at_word(Word::For) {
        return read_for(alloc, reader, room);
    }
    let spot = reader.opening_word(Word::Loop, room)?;
    let scheme = boxed(alloc, Scheme::Endless)?;
    Ok((spot, scheme))
}

/// `while X loop`
fn read_while<'t>(
    alloc: Global,
    reader: &mut Reader<'t>,
    room: u32,
) -> Result<(Spot, Box<Scheme<'t>>), Stop>
    ensures shorter { OnOk result (length reader.new.tokens.now < length reader.old.tokens.now) }
    ensures room { OnOk result (0 < room) }
    ensures read { Reads boxed_scheme reader (while_at room) result }
{
    let spot = reader.opening_word(Word::While, room)?;
    let condition = read_expression(alloc, reader, room - 1)?;
    reader.word(Word::Loop)?;
    let scheme = while_scheme(alloc, condition)?;
    Ok((spot, scheme))
}

/// `for I in X .. Y loop`
fn read_for<'t>(
    alloc: Global,
    reader: &mut Reader<'t>,
    room: u32,
) -> Result<(Spot, Box<Scheme<'t>>), Stop>
    ensures shorter { OnOk result (length reader.new.tokens.now < length reader.old.tokens.now) }
    ensures room { OnOk result (0 < room) }
    ensures read { Reads boxed_scheme reader (for_at room) result }
{
    let spot = reader.opening_word(Word::For, room)?;
    let name = reader.identifier()?;
    reader.word(Word::In)?;
    let first = read_expression(alloc, reader, room - 1)?;
    reader.delimiter(Delimiter::DoubleDot)?;
    let last = read_expression(alloc, reader, room - 1)?;
    reader.word(Word::Loop)?;
    let scheme = for_scheme(alloc, name, first, last)?;
    Ok((spot, scheme))
}

/// A `while` of its condition.
fn while_scheme<'t>(alloc: Global, condition: Box<Expression<'t>>) -> Result<Box<Scheme<'t>>, Stop>
    ensures { BuildsScheme (while_tree (expression_of condition.entry.value)) result }
{
    boxed(alloc, Scheme::While(Box::into_inner(condition)))
}

/// A `for` of its parts.
fn for_scheme<'t>(
    alloc: Global,
    name: Identifier<'t>,
    first: Box<Expression<'t>>,
    last: Box<Expression<'t>>,
) -> Result<Box<Scheme<'t>>, Stop>
    ensures { BuildsScheme (for_tree name.entry first.entry last.entry) result }
{
    let first = Box::into_inner(first);
    let last = Box::into_inner(last);
    boxed(alloc, Scheme::For { name, first, last })
}

/// `end if;` or the like, and where `end` stands.
pub(crate) fn read_end(reader: &mut Reader, word: Word) -> Result<Spot, Stop>
    ensures shorter { OnOk result (length reader.new.tokens.now < length reader.old.tokens.now) }
    ensures read { Reads and_nothing reader (end_word_at word) result }
{
    let spot = reader.word(Word::End)?;
    reader.word(word)?;
    reader.delimiter(Delimiter::Semicolon)?;
    Ok(spot)
}

//! Reading statements (5.1).

ghost use Rattle.std.specs.Prelude.{◌≡◌, ◌<◌, ◌≤◌, length, OnOk};
ghost use Rattle.ada_text.specs.Token.{lexemes_of};
ghost use Rattle.ada_tree.specs.StatementView.{branch_of, statement_of};
ghost use Rattle.ada_reader.specs.Step.{each, Reads};
ghost use Rattle.ada_phrases.specs.Statements.{ends_statements, statement_at, statements_at};
ghost use Rattle.ada_phrases.specs.Words.{block_at, boxed_branch, boxed_statement, branch_at, branches_at, declare_block_at, if_at, loop_at, more_branches_at, more_statements_at, next_branch_at, otherwise_at};

use crate::boxes::add;
use crate::expressions::read_expression;
use crate::handlers::{read_begin, read_sequence};
use crate::nested::{block, branch, declare_block, if_statement, loop_statement};
use crate::procedures::read_declarations;
use crate::simple_statements::{is_at_loop, read_end, read_scheme, read_simple_statement};
use ada_reader::{Reader, Stop};
use ada_text::{Delimiter, Word};
use ada_tree::statements::{Branch, Statement};
use std::alloc::Global;

/// Whether statements end here.
fn is_at_end(reader: &Reader) -> bool
    ensures { result ≡ ends_statements (lexemes_of reader.now.tokens.now) }
{
    reader.is_at_word(Word::End)
        || reader.is_at_word(Word::Exception)
        || reader.is_at_word(Word::When)
        || reader.is_at_word(Word::Elsif)
        || reader.is_at_word(Word::Else)
}

/// Statements, one or more; `room` levels of nesting may be open inside.
#[cycle(nesting)]
#[tactic(auto, unfolding(crate::specs::Statements::statements_at, crate::specs::Statements::statements_in, crate::specs::Statements::statement_at))]
pub(crate) fn read_statements<'t>(
    alloc: Global,
    reader: &mut Reader<'t>,
    room: u32,
) -> Result<Vec<Statement<'t>>, Stop>
    ensures shorter { OnOk result (length reader.new.tokens.now ≤ length reader.old.tokens.now) }
    ensures read { Reads (each statement_of) reader (statements_at room) result }
{
    if is_at_end(reader) {
        return Err(Stop::Here);
    }
    read_more_statements(alloc, reader, room)
}

/// The statements up to their end.
#[cycle(nesting)]
fn read_more_statements<'t>(
    alloc: Global,
    reader: &mut Reader<'t>,
    room: u32,
) -> Result<Vec<Statement<'t>>, Stop>
    ensures shorter { OnOk result (length reader.new.tokens.now ≤ length reader.old.tokens.now) }
    ensures read { Reads (each statement_of) reader (more_statements_at room) result }
{
    let mut found = Vec::new(alloc);
    'statements: while !is_at_end(reader) {
        let next = read_statement(alloc, reader, room)?;
        add(&mut found, next)?;
    }
    Ok(found)
}

/// A statement (5.1).
#[cycle(nesting)]
#[tactic(auto, using(std::proofs::lemmas::Grind::common_steps, crate::proofs::Nesting::if_inside, crate::proofs::Nesting::loop_inside, crate::proofs::Nesting::block_inside, crate::proofs::Nesting::declare_block_inside), unfolding(crate::specs::Statements::statement_at, crate::specs::Statements::statement_in))]
fn read_statement<'t>(
    alloc: Global,
    reader: &mut Reader<'t>,
    room: u32,
) -> Result<Box<Statement<'t>>, Stop>
    ensures shorter { OnOk result (length reader.new.tokens.now < length reader.old.tokens.now) }
    ensures read { Reads boxed_statement reader (statement_at room) result }
{
    if reader.is_at_word(Word::If) {
        return read_if(alloc, reader, room);
    }
    if is_at_loop(reader) {
        return read_loop(alloc, reader, room);
    }
    if reader.is_at_word(Word::Begin) {
        return read_block(alloc, reader, room);
    }
    if reader.is_at_word(Word::Declare) {
        return read_declare_block(alloc, reader, room);
    }
    read_simple_statement(alloc, reader, room)
}

/// `if X then .. elsif Y then .. else .. end if;` (5.3)
#[cycle(nesting)]
#[tactic(auto, unfolding(crate::specs::Statements::if_in, crate::specs::Statements::end_if_at))]
fn read_if<'t>(
    alloc: Global,
    reader: &mut Reader<'t>,
    room: u32,
) -> Result<Box<Statement<'t>>, Stop>
    ensures shorter { OnOk result (length reader.new.tokens.now < length reader.old.tokens.now) }
    ensures read { Reads boxed_statement reader (if_at room) result }
{
    let spot = reader.opening_word(Word::If, room)?;
    let branches = read_branches(alloc, reader, room)?;
    let otherwise = read_otherwise(alloc, reader, room - 1)?;
    let end = read_end(reader, Word::If)?;
    if_statement(alloc, spot, branches, otherwise, end)
}

/// What stands behind `if`, up to `else` or `end`.
#[cycle(nesting)]
#[tactic(auto, unfolding(crate::specs::Statements::branches_in))]
fn read_branches<'t>(
    alloc: Global,
    reader: &mut Reader<'t>,
    room: u32,
) -> Result<Vec<Branch<'t>>, Stop>
    requires { 0 < room }
    ensures shorter { OnOk result (length reader.new.tokens.now < length reader.old.tokens.now) }
    ensures read { Reads (each branch_of) reader (branches_at room) result }
{
    let first = read_branch(alloc, reader, room)?;
    let mut branches = read_more_branches(alloc, reader, room)?;
    branches.insert(0, Box::into_inner(first))?;
    Ok(branches)
}

/// `X then ..`
#[cycle(nesting)]
#[tactic(auto, unfolding(crate::specs::Statements::branch_in))]
fn read_branch<'t>(
    alloc: Global,
    reader: &mut Reader<'t>,
    room: u32,
) -> Result<Box<Branch<'t>>, Stop>
    requires { 0 < room }
    ensures shorter { OnOk result (length reader.new.tokens.now < length reader.old.tokens.now) }
    ensures read { Reads boxed_branch reader (branch_at room) result }
{
    let condition = read_expression(alloc, reader, room - 1)?;
    reader.word(Word::Then)?;
    let statements = read_statements(alloc, reader, room - 1)?;
    branch(alloc, condition, statements)
}

/// `elsif X then ..`, as many as there are.
#[cycle(nesting)]
fn read_more_branches<'t>(
    alloc: Global,
    reader: &mut Reader<'t>,
    room: u32,
) -> Result<Vec<Branch<'t>>, Stop>
    requires { 0 < room }
    ensures shorter { OnOk result (length reader.new.tokens.now ≤ length reader.old.tokens.now) }
    ensures read { Reads (each branch_of) reader (more_branches_at room) result }
{
    let mut found = Vec::new(alloc);
    'branches: while reader.is_at_word(Word::Elsif) {
        let next = read_next_branch(alloc, reader, room)?;
        add(&mut found, next)?;
    }
    Ok(found)
}

/// `elsif X then ..`
#[cycle(nesting)]
#[tactic(auto, unfolding(crate::specs::Statements::next_branch_in))]
fn read_next_branch<'t>(
    alloc: Global,
    reader: &mut Reader<'t>,
    room: u32,
) -> Result<Box<Branch<'t>>, Stop>
    requires { 0 < room }
    ensures shorter { OnOk result (length reader.new.tokens.now < length reader.old.tokens.now) }
    ensures read { Reads boxed_branch reader (next_branch_at room) result }
{
    reader.word(Word::Elsif)?;
    read_branch(alloc, reader, room)
}

/// `else ..`, or no statements.
#[cycle(nesting)]
#[tactic(auto, unfolding(crate::specs::Statements::otherwise_in))]
fn read_otherwise<'t>(
    alloc: Global,
    reader: &mut Reader<'t>,
    room: u32,
) -> Result<Vec<Statement<'t>>, Stop>
    ensures shorter { OnOk result (length reader.new.tokens.now ≤ length reader.old.tokens.now) }
    ensures read { Reads (each statement_of) reader (otherwise_at room) result }
{
    if reader.taken_word(Word::Else).is_none() {
        return Ok(Vec::new(alloc));
    }
    read_statements(alloc, reader, room)
}

/// `while X loop .. end loop;` (5.5)
#[cycle(nesting)]
#[tactic(auto, unfolding(crate::specs::Statements::loop_in, crate::specs::Statements::end_loop_at))]
fn read_loop<'t>(
    alloc: Global,
    reader: &mut Reader<'t>,
    room: u32,
) -> Result<Box<Statement<'t>>, Stop>
    ensures shorter { OnOk result (length reader.new.tokens.now < length reader.old.tokens.now) }
    ensures read { Reads boxed_statement reader (loop_at room) result }
{
    let (spot, scheme) = read_scheme(alloc, reader, room)?;
    let statements = read_statements(alloc, reader, room - 1)?;
    let end = read_end(reader, Word::Loop)?;
    loop_statement(alloc, spot, scheme, statements, end)
}

/// `begin .. end;` (5.6)
#[cycle(nesting)]
#[tactic(auto, unfolding(crate::specs::Statements::block_in))]
fn read_block<'t>(
    alloc: Global,
    reader: &mut Reader<'t>,
    room: u32,
) -> Result<Box<Statement<'t>>, Stop>
    ensures shorter { OnOk result (length reader.new.tokens.now < length reader.old.tokens.now) }
    ensures read { Reads boxed_statement reader (block_at room) result }
{
    let begin = reader.opening_word(Word::Begin, room)?;
    let body = read_sequence(alloc, reader, room - 1, begin)?;
    reader.delimiter(Delimiter::Semicolon)?;
    block(alloc, body)
}

/// `declare .. begin .. end;` (5.6)
#[cycle(nesting)]
#[tactic(auto, unfolding(crate::specs::Statements::declare_block_in))]
fn read_declare_block<'t>(
    alloc: Global,
    reader: &mut Reader<'t>,
    room: u32,
) -> Result<Box<Statement<'t>>, Stop>
    ensures shorter { OnOk result (length reader.new.tokens.now < length reader.old.tokens.now) }
    ensures read { Reads boxed_statement reader (declare_block_at room) result }
{
    let spot = reader.opening_word(Word::Declare, room)?;
    let declarations = read_declarations(alloc, reader, room - 1)?;
    let body = read_begin(alloc, reader, room - 1)?;
    reader.delimiter(Delimiter::Semicolon)?;
    declare_block(alloc, spot, declarations, body)
}

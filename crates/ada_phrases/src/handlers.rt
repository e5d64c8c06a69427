//! Reading sequences of statements and their handlers (11.2).

ghost use Rattle.std.specs.Prelude.{◌<◌, ◌≤◌, length, OnOk};
ghost use Rattle.ada_tree.specs.StatementView.{handler_of};
ghost use Rattle.ada_reader.specs.Step.{each, Reads};
ghost use Rattle.ada_phrases.specs.Statements.{begin_in, statements_at};
ghost use Rattle.ada_phrases.specs.Words.{boxed_handler, boxed_sequence, handler_at, handlers_at, more_handlers_at, sequence_at};

use crate::boxes::{add, boxed};
use crate::nested::sequence;
use crate::parts::read_choices;
use crate::statements::read_statements;
use ada_reader::{Reader, Stop};
use ada_text::{Delimiter, Spot, Word};
use ada_tree::statements::{Handler, Sequence};
use std::alloc::Global;

/// `begin .. exception .. end`; `room` levels of nesting may be open inside.
#[cycle(nesting)]
#[tactic(auto, unfolding(crate::specs::Statements::begin_in))]
pub(crate) fn read_begin<'t>(
    alloc: Global,
    reader: &mut Reader<'t>,
    room: u32,
) -> Result<Box<Sequence<'t>>, Stop>
    ensures shorter { OnOk result (length reader.new.tokens.now < length reader.old.tokens.now) }
    ensures read { Reads boxed_sequence reader (begin_in (statements_at room)) result }
{
    let begin = reader.word(Word::Begin)?;
    read_sequence(alloc, reader, room, begin)
}

/// What stands behind `begin`, up to `end`.
#[cycle(nesting)]
#[tactic(auto, unfolding(crate::specs::Statements::sequence_in))]
pub(crate) fn read_sequence<'t>(
    alloc: Global,
    reader: &mut Reader<'t>,
    room: u32,
    begin: Spot,
) -> Result<Box<Sequence<'t>>, Stop>
    ensures shorter { OnOk result (length reader.new.tokens.now < length reader.old.tokens.now) }
    ensures read { Reads boxed_sequence reader (sequence_at room begin) result }
{
    let statements = read_statements(alloc, reader, room)?;
    let handlers = read_handlers(alloc, reader, room)?;
    let end = reader.word(Word::End)?;
    sequence(alloc, begin, statements, handlers, end)
}

/// `exception` and its handlers, or none.
#[cycle(nesting)]
#[tactic(auto, unfolding(crate::specs::Statements::handlers_in, crate::specs::Statements::some_handlers_in))]
fn read_handlers<'t>(
    alloc: Global,
    reader: &mut Reader<'t>,
    room: u32,
) -> Result<Vec<Handler<'t>>, Stop>
    ensures shorter { OnOk result (length reader.new.tokens.now ≤ length reader.old.tokens.now) }
    ensures read { Reads (each handler_of) reader (handlers_at room) result }
{
    if reader.taken_word(Word::Exception).is_none() {
        return Ok(Vec::new(alloc));
    }
    if !reader.is_at_word(Word::When) {
        return Err(Stop::Here);
    }
    read_more_handlers(alloc, reader, room)
}

/// The handlers, as many as there are.
#[cycle(nesting)]
fn read_more_handlers<'t>(
    alloc: Global,
    reader: &mut Reader<'t>,
    room: u32,
) -> Result<Vec<Handler<'t>>, Stop>
    ensures shorter { OnOk result (length reader.new.tokens.now ≤ length reader.old.tokens.now) }
    ensures read { Reads (each handler_of) reader (more_handlers_at room) result }
{
    let mut found = Vec::new(alloc);
    'handlers: while reader.is_at_word(Word::When) {
        let next = read_handler(alloc, reader, room)?;
        add(&mut found, next)?;
    }
    Ok(found)
}

/// `when A | B => ..`
#[cycle(nesting)]
#[tactic(auto, unfolding(crate::specs::Statements::handler_in))]
fn read_handler<'t>(
    alloc: Global,
    reader: &mut Reader<'t>,
    room: u32,
) -> Result<Box<Handler<'t>>, Stop>
    ensures shorter { OnOk result (length reader.new.tokens.now < length reader.old.tokens.now) }
    ensures read { Reads boxed_handler reader (handler_at room) result }
{
    let spot = reader.word(Word::When)?;
    let choices = read_choices(alloc, reader)?;
    reader.delimiter(Delimiter::Arrow)?;
    let statements = read_statements(alloc, reader, room)?;
    boxed(
        alloc,
        Handler {
            spot,
            choices,
            statements,
        },
    )
}

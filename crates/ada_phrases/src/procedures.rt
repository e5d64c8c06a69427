//! Reading declarations and the bodies of procedures (3.11, 6.3).

ghost use Rattle.std.specs.Prelude.{◌≡◌, ◌<◌, ◌≤◌, length, OnOk};
ghost use Rattle.ada_text.specs.Token.{lexemes_of};
ghost use Rattle.ada_tree.specs.StatementView.{declaration_of};
ghost use Rattle.ada_reader.specs.Step.{each, Reads};
ghost use Rattle.ada_phrases.specs.Statements.{at_procedure, declaration_at, declarations_at};
ghost use Rattle.ada_phrases.specs.Words.{body_behind, boxed_declaration, formals_behind, head_behind, is_behind, name_behind, procedure_at};

use crate::boxes::{add, ended_declaration};
use crate::declarations::{read_attribute_clause, read_object, read_type};
use crate::handlers::read_begin;
use crate::heads::{Start, is_at_instance, read_instance, read_start, refuse_formals};
use crate::nested::body_declaration;
use crate::parts::{optional_identifier, read_formals};
use ada_reader::{Reader, Stop};
use ada_text::{Delimiter, Spot, Word};
use ada_tree::declarations::{Declaration, ProcedureHead};
use std::alloc::Global;

/// The declarations up to `begin`; `room` levels of nesting may be open inside.
#[cycle(nesting)]
pub(crate) fn read_declarations<'t>(
    alloc: Global,
    reader: &mut Reader<'t>,
    room: u32,
) -> Result<Vec<Declaration<'t>>, Stop>
    ensures shorter { OnOk result (length reader.new.tokens.now ≤ length reader.old.tokens.now) }
    ensures read { Reads (each declaration_of) reader (declarations_at room) result }
{
    let mut found = Vec::new(alloc);
    'declarations: while !reader.is_at_word(Word::Begin) {
        let next = read_declaration(alloc, reader, room)?;
        add(&mut found, next)?;
    }
    Ok(found)
}

/// Whether a procedure is next.
fn is_at_procedure(reader: &Reader) -> bool
    ensures { result ≡ at_procedure (lexemes_of reader.now.tokens.now) }
{
    reader.is_at_word(Word::Procedure) || reader.is_at_word(Word::Overriding)
}

/// A declaration (3.1).
#[cycle(nesting)]
#[tactic(auto, using(std::proofs::lemmas::Grind::common_steps, crate::proofs::Nesting::procedure_inside), unfolding(crate::specs::Statements::declaration_at, crate::specs::Statements::declaration_in))]
fn read_declaration<'t>(
    alloc: Global,
    reader: &mut Reader<'t>,
    room: u32,
) -> Result<Box<Declaration<'t>>, Stop>
    ensures shorter { OnOk result (length reader.new.tokens.now < length reader.old.tokens.now) }
    ensures read { Reads boxed_declaration reader (declaration_at room) result }
{
    if is_at_procedure(reader) {
        return read_procedure(alloc, reader, room);
    }
    if reader.is_at_word(Word::Type) {
        return read_type(alloc, reader);
    }
    if reader.is_at_word(Word::For) {
        return read_attribute_clause(alloc, reader);
    }
    read_object(alloc, reader, room)
}

/// A procedure: its specification, its body or an instance (6.1, 6.3, 12.3).
#[cycle(nesting)]
#[tactic(auto, unfolding(crate::specs::Statements::procedure_in))]
fn read_procedure<'t>(
    alloc: Global,
    reader: &mut Reader<'t>,
    room: u32,
) -> Result<Box<Declaration<'t>>, Stop>
    ensures shorter { OnOk result (length reader.new.tokens.now < length reader.old.tokens.now) }
    ensures read { Reads boxed_declaration reader (procedure_at room) result }
{
    let start = read_start(reader)?;
    read_behind_name(alloc, reader, room, start)
}

/// What stands behind the name of a procedure.
#[cycle(nesting)]
#[tactic(auto, unfolding(ada_tree::specs::StatementView::declaration_of, crate::specs::Statements::behind_name_in))]
fn read_behind_name<'t>(
    alloc: Global,
    reader: &mut Reader<'t>,
    room: u32,
    start: Start<'t>,
) -> Result<Box<Declaration<'t>>, Stop>
    ensures shorter { OnOk result (length reader.new.tokens.now < length reader.old.tokens.now) }
    ensures read { Reads boxed_declaration reader (name_behind room start.entry) result }
{
    if let Some(parenthesis) = reader.taken_delimiter(Delimiter::LeftParenthesis) {
        return read_with_formals(alloc, reader, room, start, parenthesis);
    }
    if reader.taken_word(Word::Is).is_some() {
        return read_behind_is(alloc, reader, room, start);
    }
    let head = start.head(Vec::new(alloc));
    ended_declaration(alloc, reader, Declaration::Specification(head))
}

/// What stands behind the parenthesis of formals.
#[cycle(nesting)]
fn read_with_formals<'t>(
    alloc: Global,
    reader: &mut Reader<'t>,
    room: u32,
    start: Start<'t>,
    parenthesis: Spot,
) -> Result<Box<Declaration<'t>>, Stop>
    ensures shorter { OnOk result (length reader.new.tokens.now < length reader.old.tokens.now) }
    ensures read { Reads boxed_declaration reader (formals_behind room start.entry parenthesis) result }
{
    if room == 0 {
        return Err(refuse_formals(alloc, reader, start.first(), parenthesis));
    }
    let formals = read_formals(alloc, reader)?;
    read_behind_formals(alloc, reader, room - 1, start.head(formals), parenthesis)
}

/// What stands behind formals: a body, whose first level of nesting is open at its first word, or `;`.
#[cycle(nesting)]
#[tactic(auto, unfolding(ada_tree::specs::StatementView::declaration_of, crate::specs::Statements::behind_formals_in))]
fn read_behind_formals<'t>(
    alloc: Global,
    reader: &mut Reader<'t>,
    room: u32,
    head: ProcedureHead<'t>,
    parenthesis: Spot,
) -> Result<Box<Declaration<'t>>, Stop>
    ensures shorter { OnOk result (length reader.new.tokens.now < length reader.old.tokens.now) }
    ensures read { Reads boxed_declaration reader (head_behind room head.entry parenthesis) result }
{
    if !reader.is_at_word(Word::Is) {
        return ended_declaration(alloc, reader, Declaration::Specification(head));
    }
    if room == 0 {
        return Err(Stop::TooDeep(parenthesis));
    }
    reader.word(Word::Is)?;
    read_body(alloc, reader, room, head)
}

/// What stands behind the `is` of a procedure without formals: an instance or a body.
#[cycle(nesting)]
#[tactic(auto, unfolding(crate::specs::Statements::behind_is_in))]
fn read_behind_is<'t>(
    alloc: Global,
    reader: &mut Reader<'t>,
    room: u32,
    start: Start<'t>,
) -> Result<Box<Declaration<'t>>, Stop>
    ensures shorter { OnOk result (length reader.new.tokens.now < length reader.old.tokens.now) }
    ensures read { Reads boxed_declaration reader (is_behind room start.entry) result }
{
    if is_at_instance(reader, start.overriding) {
        return read_instance(alloc, reader, room, start);
    }
    if room == 0 {
        return Err(Stop::TooDeep(start.first()));
    }
    read_body(alloc, reader, room - 1, start.head(Vec::new(alloc)))
}

/// What stands behind the `is` of a body (6.3).
#[cycle(nesting)]
#[tactic(auto, unfolding(crate::specs::Statements::body_in))]
fn read_body<'t>(
    alloc: Global,
    reader: &mut Reader<'t>,
    room: u32,
    head: ProcedureHead<'t>,
) -> Result<Box<Declaration<'t>>, Stop>
    ensures shorter { OnOk result (length reader.new.tokens.now < length reader.old.tokens.now) }
    ensures read { Reads boxed_declaration reader (body_behind room head.entry) result }
{
    let declarations = read_declarations(alloc, reader, room)?;
    let body = read_begin(alloc, reader, room)?;
    let end_name = optional_identifier(reader)?;
    reader.delimiter(Delimiter::Semicolon)?;
    body_declaration(alloc, head, declarations, body, end_name)
}

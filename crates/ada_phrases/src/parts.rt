//! Reading the parts of declarations and handlers: clauses, choices, sizes, formals and heads (6.1, 10.1.2, 11.2).

ghost use Rattle.std.specs.Prelude.{◌<◌, ◌≤◌, length, OnOk};
ghost use Rattle.ada_text.specs.Token.{reserved};
ghost use Rattle.ada_text.specs.declared.word.Word.TheVariants.{With};
ghost use Rattle.ada_tree.specs.Names.{name_of, optional_ident_of};
ghost use Rattle.ada_tree.specs.Declarations.{aspect_of, choice_of, clause_of, formal_of, optional_aspect_of, size_of};
ghost use Rattle.ada_reader.specs.Step.{all_of, at, each, itself, Reads};
ghost use Rattle.ada_phrases.specs.Declarations.{aspect_at, choice_at, choices_at, clause_at, constraint_at, end_name_at, formal_at, formals_at, labelled_size_at, next_choice_at, next_formal_at, next_name_at, optional_aspect_at, optional_fixed, size_at};
ghost use Rattle.ada_phrases.specs.Words.{labelled_size_of, next_choices_at, next_formals_at, next_names_at, size_led_by};

use crate::names::read_name;
use ada_reader::{Reader, Stop};
use ada_text::{Delimiter, Spot, Word};
use ada_tree::declarations::{Aspect, Formal, Size};
use ada_tree::names::{Identifier, Name};
use ada_tree::statements::Choice;
use ada_tree::unit::Clause;
use std::alloc::Global;

/// Where a word stands, if it is next.
pub(crate) fn optional_word(reader: &mut Reader, word: Word) -> Result<Option<Spot>, Stop>
    ensures shorter { OnOk result (length reader.new.tokens.now ≤ length reader.old.tokens.now) }
    ensures read { Reads itself reader (optional_fixed (reserved word)) result }
{
    if !reader.is_at_word(word) {
        return Ok(None);
    }
    Ok(Some(reader.word(word)?))
}

/// An identifier, if one is next.
#[tactic(auto, unfolding(crate::specs::Declarations::end_name_at))]
pub(crate) fn optional_identifier<'t>(
    reader: &mut Reader<'t>,
) -> Result<Option<Identifier<'t>>, Stop>
    ensures shorter { OnOk result (length reader.new.tokens.now ≤ length reader.old.tokens.now) }
    ensures read { Reads optional_ident_of reader end_name_at result }
{
    if !reader.is_at_identifier() {
        return Ok(None);
    }
    Ok(Some(reader.identifier()?))
}

/// The `with` clauses, as many as there are (10.1.2).
pub(crate) fn read_clauses<'t>(
    alloc: Global,
    reader: &mut Reader<'t>,
) -> Result<Vec<Clause<'t>>, Stop>
    ensures shorter { OnOk result (length reader.new.tokens.now ≤ length reader.old.tokens.now) }
    ensures read { Reads (each clause_of) reader (all_of (at (reserved With)) clause_at) result }
{
    let mut found = Vec::new(alloc);
    'clauses: while reader.is_at_word(Word::With) {
        let next = read_clause(alloc, reader)?;
        found.push(next)?;
    }
    Ok(found)
}

/// `with A.B, C;`
#[tactic(auto, unfolding(crate::specs::Declarations::clause_at))]
fn read_clause<'t>(alloc: Global, reader: &mut Reader<'t>) -> Result<Clause<'t>, Stop>
    ensures shorter { OnOk result (length reader.new.tokens.now < length reader.old.tokens.now) }
    ensures read { Reads clause_of reader clause_at result }
{
    reader.word(Word::With)?;
    let first = read_name(alloc, reader)?;
    let rest = next_names(alloc, reader)?;
    reader.delimiter(Delimiter::Semicolon)?;
    Ok(Clause { first, rest })
}

/// `, A.B, C`
fn next_names<'t>(alloc: Global, reader: &mut Reader<'t>) -> Result<Vec<Name<'t>>, Stop>
    ensures shorter { OnOk result (length reader.new.tokens.now ≤ length reader.old.tokens.now) }
    ensures read { Reads (each name_of) reader next_names_at result }
{
    let mut found = Vec::new(alloc);
    'names: while reader.is_at(Delimiter::Comma) {
        let next = next_name(alloc, reader)?;
        found.push(next)?;
    }
    Ok(found)
}

/// `, A.B`
#[tactic(auto, unfolding(crate::specs::Declarations::next_name_at))]
fn next_name<'t>(alloc: Global, reader: &mut Reader<'t>) -> Result<Name<'t>, Stop>
    ensures shorter { OnOk result (length reader.new.tokens.now < length reader.old.tokens.now) }
    ensures read { Reads name_of reader next_name_at result }
{
    reader.delimiter(Delimiter::Comma)?;
    read_name(alloc, reader)
}

/// `A.B | others`, the choices of a handler (11.2).
#[tactic(auto, unfolding(crate::specs::Declarations::choices_at))]
pub(crate) fn read_choices<'t>(
    alloc: Global,
    reader: &mut Reader<'t>,
) -> Result<Vec<Choice<'t>>, Stop>
    ensures shorter { OnOk result (length reader.new.tokens.now < length reader.old.tokens.now) }
    ensures read { Reads (each choice_of) reader choices_at result }
{
    let first = read_choice(alloc, reader)?;
    let mut choices = next_choices(alloc, reader)?;
    choices.insert(0, first)?;
    Ok(choices)
}

/// `| A.B | others`
fn next_choices<'t>(alloc: Global, reader: &mut Reader<'t>) -> Result<Vec<Choice<'t>>, Stop>
    ensures shorter { OnOk result (length reader.new.tokens.now ≤ length reader.old.tokens.now) }
    ensures read { Reads (each choice_of) reader next_choices_at result }
{
    let mut found = Vec::new(alloc);
    'choices: while reader.is_at(Delimiter::Bar) {
        let next = next_choice(alloc, reader)?;
        found.push(next)?;
    }
    Ok(found)
}

/// `| A.B`
#[tactic(auto, unfolding(crate::specs::Declarations::next_choice_at))]
fn next_choice<'t>(alloc: Global, reader: &mut Reader<'t>) -> Result<Choice<'t>, Stop>
    ensures shorter { OnOk result (length reader.new.tokens.now < length reader.old.tokens.now) }
    ensures read { Reads choice_of reader next_choice_at result }
{
    reader.delimiter(Delimiter::Bar)?;
    read_choice(alloc, reader)
}

/// A name or `others`.
#[tactic(auto, unfolding(crate::specs::Declarations::choice_at))]
fn read_choice<'t>(alloc: Global, reader: &mut Reader<'t>) -> Result<Choice<'t>, Stop>
    ensures shorter { OnOk result (length reader.new.tokens.now < length reader.old.tokens.now) }
    ensures read { Reads choice_of reader choice_at result }
{
    if let Some(spot) = reader.taken_word(Word::Others) {
        return Ok(Choice::Others(spot));
    }
    Ok(Choice::Named(read_name(alloc, reader)?))
}

/// A number or a name (13.3).
#[tactic(auto, unfolding(crate::specs::Declarations::size_at))]
pub(crate) fn read_size<'t>(reader: &mut Reader<'t>) -> Result<Size<'t>, Stop>
    ensures shorter { OnOk result (length reader.new.tokens.now < length reader.old.tokens.now) }
    ensures read { Reads size_of reader size_at result }
{
    if reader.is_at_identifier() {
        return Ok(Size::Named(reader.identifier()?));
    }
    let (value, spot) = reader.number()?;
    Ok(Size::Number { spot, value })
}

/// `(Pool_Size => 64)` (3.7.1)
#[tactic(auto, unfolding(crate::specs::Declarations::constraint_at))]
pub(crate) fn read_constraint<'t>(
    reader: &mut Reader<'t>,
    room: u32,
) -> Result<(Option<Identifier<'t>>, Size<'t>), Stop>
    ensures shorter { OnOk result (length reader.new.tokens.now < length reader.old.tokens.now) }
    ensures read { Reads labelled_size_of reader (constraint_at room) result }
{
    reader.opening(Delimiter::LeftParenthesis, room)?;
    let size = read_labelled_size(reader)?;
    reader.delimiter(Delimiter::RightParenthesis)?;
    Ok(size)
}

/// `Pool_Size => 64`, or the size alone.
#[tactic(auto, unfolding(crate::specs::Declarations::labelled_size_at))]
fn read_labelled_size<'t>(
    reader: &mut Reader<'t>,
) -> Result<(Option<Identifier<'t>>, Size<'t>), Stop>
    ensures shorter { OnOk result (length reader.new.tokens.now < length reader.old.tokens.now) }
    ensures read { Reads labelled_size_of reader labelled_size_at result }
{
    if !reader.is_at_identifier() {
        let size = read_size(reader)?;
        return Ok((None, size));
    }
    let first = reader.identifier()?;
    read_size_led(reader, first)
}

/// `=> 64` behind a label, or nothing behind a name.
#[tactic(auto, unfolding(crate::specs::Declarations::size_led))]
fn read_size_led<'t>(
    reader: &mut Reader<'t>,
    first: Identifier<'t>,
) -> Result<(Option<Identifier<'t>>, Size<'t>), Stop>
    ensures shorter { OnOk result (length reader.new.tokens.now ≤ length reader.old.tokens.now) }
    ensures read { Reads labelled_size_of reader (size_led_by first.entry) result }
{
    if reader.taken_delimiter(Delimiter::Arrow).is_none() {
        return Ok((None, Size::Named(first)));
    }
    let size = read_size(reader)?;
    Ok((Some(first), size))
}

/// `with Storage_Pool => P`, if `with` is next (13.1.1).
#[tactic(auto, unfolding(crate::specs::Declarations::optional_aspect_at))]
pub(crate) fn optional_aspect<'t>(reader: &mut Reader<'t>) -> Result<Option<Aspect<'t>>, Stop>
    ensures shorter { OnOk result (length reader.new.tokens.now ≤ length reader.old.tokens.now) }
    ensures read { Reads optional_aspect_of reader optional_aspect_at result }
{
    if !reader.is_at_word(Word::With) {
        return Ok(None);
    }
    Ok(Some(read_aspect(reader)?))
}

/// `with Storage_Pool => P`
#[tactic(auto, unfolding(crate::specs::Declarations::aspect_at))]
fn read_aspect<'t>(reader: &mut Reader<'t>) -> Result<Aspect<'t>, Stop>
    ensures shorter { OnOk result (length reader.new.tokens.now < length reader.old.tokens.now) }
    ensures read { Reads aspect_of reader aspect_at result }
{
    let spot = reader.word(Word::With)?;
    let name = reader.identifier()?;
    reader.delimiter(Delimiter::Arrow)?;
    let value = reader.identifier()?;
    Ok(Aspect { spot, name, value })
}

/// `X : T; Y : in out T)`, the formals of a procedure behind their `(` (6.1).
#[tactic(auto, unfolding(crate::specs::Declarations::formals_at))]
pub(crate) fn read_formals<'t>(
    alloc: Global,
    reader: &mut Reader<'t>,
) -> Result<Vec<Formal<'t>>, Stop>
    ensures shorter { OnOk result (length reader.new.tokens.now < length reader.old.tokens.now) }
    ensures read { Reads (each formal_of) reader formals_at result }
{
    let first = read_formal(reader)?;
    let mut formals = next_formals(alloc, reader)?;
    reader.delimiter(Delimiter::RightParenthesis)?;
    formals.insert(0, first)?;
    Ok(formals)
}

/// `; X : T; Y : T`
fn next_formals<'t>(alloc: Global, reader: &mut Reader<'t>) -> Result<Vec<Formal<'t>>, Stop>
    ensures shorter { OnOk result (length reader.new.tokens.now ≤ length reader.old.tokens.now) }
    ensures read { Reads (each formal_of) reader next_formals_at result }
{
    let mut found = Vec::new(alloc);
    'formals: while reader.is_at(Delimiter::Semicolon) {
        let next = next_formal(reader)?;
        found.push(next)?;
    }
    Ok(found)
}

/// `; X : T`
#[tactic(auto, unfolding(crate::specs::Declarations::next_formal_at))]
fn next_formal<'t>(reader: &mut Reader<'t>) -> Result<Formal<'t>, Stop>
    ensures shorter { OnOk result (length reader.new.tokens.now < length reader.old.tokens.now) }
    ensures read { Reads formal_of reader next_formal_at result }
{
    reader.delimiter(Delimiter::Semicolon)?;
    read_formal(reader)
}

/// `X : in out T`
#[tactic(auto, unfolding(crate::specs::Declarations::formal_at))]
fn read_formal<'t>(reader: &mut Reader<'t>) -> Result<Formal<'t>, Stop>
    ensures shorter { OnOk result (length reader.new.tokens.now < length reader.old.tokens.now) }
    ensures read { Reads formal_of reader formal_at result }
{
    let name = reader.identifier()?;
    reader.delimiter(Delimiter::Colon)?;
    let input = optional_word(reader, Word::In)?;
    let output = optional_word(reader, Word::Out)?;
    let type_name = reader.identifier()?;
    Ok(Formal {
        name,
        input,
        output,
        type_name,
    })
}

//! Reading declarations in which no other nests (3.1).

ghost use Rattle.std.specs.Prelude.{◌<◌, length, OnOk};
ghost use Rattle.ada_reader.specs.Step.{Reads};
ghost use Rattle.ada_phrases.specs.Declarations.{attribute_clause_at, object_at, type_at};
ghost use Rattle.ada_phrases.specs.Words.{access_named, borrower_named, boxed_declaration, constant_named, definition_of, derived_named, exception_named, object_named, object_typed, record_named, type_named};

use crate::boxes::{ended_declaration, opened};
use crate::names::read_name;
use crate::parts::{optional_aspect, read_constraint, read_size};
use crate::records::{read_record, read_static};
use crate::rights::read_initial;
use ada_reader::{Reader, Stop};
use ada_text::{Delimiter, Spot, Word};
use ada_tree::declarations::Declaration;
use ada_tree::names::{Identifier, Name};
use std::alloc::Global;

/// `X : ..;` (3.3.1)
#[tactic(auto, unfolding(crate::specs::Declarations::object_at))]
pub(crate) fn read_object<'t>(
    alloc: Global,
    reader: &mut Reader<'t>,
    room: u32,
) -> Result<Box<Declaration<'t>>, Stop>
    ensures shorter { OnOk result (length reader.new.tokens.now < length reader.old.tokens.now) }
    ensures read { Reads boxed_declaration reader (object_at room) result }
{
    let name = reader.identifier()?;
    reader.delimiter(Delimiter::Colon)?;
    read_object_named(alloc, reader, room, name)
}

/// What stands behind `X :`.
#[tactic(auto, unfolding(crate::specs::Declarations::object_named_at))]
fn read_object_named<'t>(
    alloc: Global,
    reader: &mut Reader<'t>,
    room: u32,
    name: Identifier<'t>,
) -> Result<Box<Declaration<'t>>, Stop>
    ensures shorter { OnOk result (length reader.new.tokens.now < length reader.old.tokens.now) }
    ensures read { Reads boxed_declaration reader (object_named room name.entry) result }
{
    if reader.is_at_word(Word::Exception) {
        return read_exception(alloc, reader, name);
    }
    if reader.is_at_word(Word::Constant) {
        return read_constant(alloc, reader, name);
    }
    if reader.is_at_word(Word::Access) {
        return read_borrower(alloc, reader, room, name);
    }
    let type_name = read_name(alloc, reader)?;
    read_object_typed(alloc, reader, room, name, type_name)
}

/// `exception;`, behind `E :` (11.1).
#[tactic(auto, unfolding(ada_tree::specs::StatementView::declaration_of))]
fn read_exception<'t>(
    alloc: Global,
    reader: &mut Reader<'t>,
    name: Identifier<'t>,
) -> Result<Box<Declaration<'t>>, Stop>
    ensures shorter { OnOk result (length reader.new.tokens.now < length reader.old.tokens.now) }
    ensures read { Reads boxed_declaration reader (exception_named name.entry) result }
{
    reader.word(Word::Exception)?;
    ended_declaration(alloc, reader, Declaration::Exception { name })
}

/// `constant := 1;`, behind `N :` (3.3.2).
#[tactic(auto, unfolding(ada_tree::specs::StatementView::declaration_of))]
fn read_constant<'t>(
    alloc: Global,
    reader: &mut Reader<'t>,
    name: Identifier<'t>,
) -> Result<Box<Declaration<'t>>, Stop>
    ensures shorter { OnOk result (length reader.new.tokens.now < length reader.old.tokens.now) }
    ensures read { Reads boxed_declaration reader (constant_named name.entry) result }
{
    reader.word(Word::Constant)?;
    reader.delimiter(Delimiter::Assign)?;
    let value = read_static(reader)?;
    ended_declaration(alloc, reader, Declaration::Constant { name, value })
}

/// `access T := ..;`, behind `X :` (3.3.1, 3.10).
#[tactic(auto, unfolding(ada_tree::specs::StatementView::declaration_of))]
fn read_borrower<'t>(
    alloc: Global,
    reader: &mut Reader<'t>,
    room: u32,
    name: Identifier<'t>,
) -> Result<Box<Declaration<'t>>, Stop>
    ensures shorter { OnOk result (length reader.new.tokens.now < length reader.old.tokens.now) }
    ensures read { Reads boxed_declaration reader (borrower_named room name.entry) result }
{
    reader.word(Word::Access)?;
    let designated = reader.identifier()?;
    let initial = read_initial(alloc, reader, room)?;
    let initial = opened(initial);
    ended_declaration(
        alloc,
        reader,
        Declaration::Borrower {
            name,
            designated,
            initial,
        },
    )
}

/// What stands behind `X : T`.
#[tactic(auto, unfolding(ada_tree::specs::StatementView::declaration_of, crate::specs::Declarations::object_typed_at))]
fn read_object_typed<'t>(
    alloc: Global,
    reader: &mut Reader<'t>,
    room: u32,
    name: Identifier<'t>,
    type_name: Name<'t>,
) -> Result<Box<Declaration<'t>>, Stop>
    ensures shorter { OnOk result (length reader.new.tokens.now < length reader.old.tokens.now) }
    ensures read { Reads boxed_declaration reader (object_typed room name.entry type_name.entry) result }
{
    if reader.is_at(Delimiter::LeftParenthesis) {
        let (label, size) = read_constraint(reader, room)?;
        return ended_declaration(
            alloc,
            reader,
            Declaration::Pool {
                name,
                type_name,
                label,
                size,
            },
        );
    }
    let initial = read_initial(alloc, reader, room)?;
    ended_declaration(
        alloc,
        reader,
        Declaration::Object {
            name,
            type_name,
            initial: opened(initial),
        },
    )
}

/// `type T ..;` (3.2.1)
#[tactic(auto, unfolding(crate::specs::Declarations::type_at))]
pub(crate) fn read_type<'t>(
    alloc: Global,
    reader: &mut Reader<'t>,
) -> Result<Box<Declaration<'t>>, Stop>
    ensures shorter { OnOk result (length reader.new.tokens.now < length reader.old.tokens.now) }
    ensures read { Reads boxed_declaration reader type_at result }
{
    let spot = reader.word(Word::Type)?;
    let name = reader.identifier()?;
    read_type_named(alloc, reader, spot, name)
}

/// What stands behind `type T`.
#[tactic(auto, unfolding(ada_tree::specs::StatementView::declaration_of, crate::specs::Declarations::type_named_at))]
fn read_type_named<'t>(
    alloc: Global,
    reader: &mut Reader<'t>,
    spot: Spot,
    name: Identifier<'t>,
) -> Result<Box<Declaration<'t>>, Stop>
    ensures shorter { OnOk result (length reader.new.tokens.now < length reader.old.tokens.now) }
    ensures read { Reads boxed_declaration reader (type_named spot name.entry) result }
{
    if reader.is_at(Delimiter::Semicolon) {
        return ended_declaration(alloc, reader, Declaration::IncompleteType { spot, name });
    }
    reader.word(Word::Is)?;
    read_definition(alloc, reader, spot, name)
}

/// What stands behind `type T is`.
#[tactic(auto, unfolding(crate::specs::Declarations::definition_at))]
fn read_definition<'t>(
    alloc: Global,
    reader: &mut Reader<'t>,
    spot: Spot,
    name: Identifier<'t>,
) -> Result<Box<Declaration<'t>>, Stop>
    ensures shorter { OnOk result (length reader.new.tokens.now < length reader.old.tokens.now) }
    ensures read { Reads boxed_declaration reader (definition_of spot name.entry) result }
{
    if reader.is_at_word(Word::Access) {
        return read_access(alloc, reader, spot, name);
    }
    if reader.is_at_word(Word::New) {
        return read_derived(alloc, reader, spot, name);
    }
    read_record_type(alloc, reader, spot, name)
}

/// `access T with ..;`, behind `type A is` (3.10).
#[tactic(auto, unfolding(ada_tree::specs::StatementView::declaration_of))]
fn read_access<'t>(
    alloc: Global,
    reader: &mut Reader<'t>,
    spot: Spot,
    name: Identifier<'t>,
) -> Result<Box<Declaration<'t>>, Stop>
    ensures shorter { OnOk result (length reader.new.tokens.now < length reader.old.tokens.now) }
    ensures read { Reads boxed_declaration reader (access_named spot name.entry) result }
{
    reader.word(Word::Access)?;
    let designated = reader.identifier()?;
    let aspect = optional_aspect(reader)?;
    ended_declaration(
        alloc,
        reader,
        Declaration::AccessType {
            spot,
            name,
            designated,
            aspect,
        },
    )
}

/// `new P with record .. end record;`, behind `type T is` (3.4, 3.9.1).
#[tactic(auto, unfolding(ada_tree::specs::StatementView::declaration_of))]
fn read_derived<'t>(
    alloc: Global,
    reader: &mut Reader<'t>,
    spot: Spot,
    name: Identifier<'t>,
) -> Result<Box<Declaration<'t>>, Stop>
    ensures shorter { OnOk result (length reader.new.tokens.now < length reader.old.tokens.now) }
    ensures read { Reads boxed_declaration reader (derived_named spot name.entry) result }
{
    reader.word(Word::New)?;
    let parent = read_name(alloc, reader)?;
    reader.word(Word::With)?;
    let definition = read_record(alloc, reader)?;
    ended_declaration(
        alloc,
        reader,
        Declaration::DerivedType {
            spot,
            name,
            parent,
            definition,
        },
    )
}

/// `record .. end record;`, behind `type T is` (3.8).
#[tactic(auto, unfolding(ada_tree::specs::StatementView::declaration_of))]
fn read_record_type<'t>(
    alloc: Global,
    reader: &mut Reader<'t>,
    spot: Spot,
    name: Identifier<'t>,
) -> Result<Box<Declaration<'t>>, Stop>
    ensures shorter { OnOk result (length reader.new.tokens.now < length reader.old.tokens.now) }
    ensures read { Reads boxed_declaration reader (record_named spot name.entry) result }
{
    let definition = read_record(alloc, reader)?;
    ended_declaration(
        alloc,
        reader,
        Declaration::RecordType {
            spot,
            name,
            definition,
        },
    )
}

/// `for A'Storage_Size use 64;` (13.3)
#[tactic(auto, unfolding(ada_tree::specs::StatementView::declaration_of, crate::specs::Declarations::attribute_clause_at))]
pub(crate) fn read_attribute_clause<'t>(
    alloc: Global,
    reader: &mut Reader<'t>,
) -> Result<Box<Declaration<'t>>, Stop>
    ensures shorter { OnOk result (length reader.new.tokens.now < length reader.old.tokens.now) }
    ensures read { Reads boxed_declaration reader attribute_clause_at result }
{
    let spot = reader.word(Word::For)?;
    let name = reader.identifier()?;
    reader.delimiter(Delimiter::Tick)?;
    let attribute = reader.identifier()?;
    reader.word(Word::Use)?;
    let value = read_size(reader)?;
    ended_declaration(
        alloc,
        reader,
        Declaration::Clause {
            spot,
            name,
            attribute,
            value,
        },
    )
}

//! Reading the first words of procedures, and instances (6.1, 12.3).

ghost use Rattle.std.specs.Prelude.{◌≡◌, ◌<◌, length, OnOk};
ghost use Rattle.ada_text.specs.Token.{lexemes_of};
ghost use Rattle.ada_tree.specs.Declarations.{formal_of, head_of};
ghost use Rattle.ada_reader.specs.Step.{Reads, each};
ghost use Rattle.ada_phrases.specs.Declarations.{actuals_at, earlier, head_from, start_at};
ghost use Rattle.ada_phrases.specs.Statements.{at_instance};
ghost use Rattle.ada_phrases.specs.StartView.{actuals_of, start_of};
ghost use Rattle.ada_phrases.specs.Words.{RefusesFormals, boxed_declaration, instance_behind, instance_named};

use crate::boxes::ended_declaration;
use crate::names::read_name;
use crate::parts::{optional_word, read_formals};
use ada_reader::{Reader, Stop};
use ada_text::{Delimiter, Spot, Word};
use ada_tree::declarations::{Declaration, Formal, ProcedureHead};
use ada_tree::names::{Identifier, Name};
use std::alloc::Global;

/// The first words of a procedure (6.1).
#[derive(Clone, Copy)]
pub(crate) struct Start<'t> {
    /// Where the word `overriding` stands, where it is written (8.3.1).
    pub(crate) overriding: Option<Spot>,
    /// Where the word `procedure` stands.
    pub(crate) spot: Spot,
    pub(crate) name: Identifier<'t>,
}

impl<'t> Start<'t> {
    /// Where the first of them stands.
    pub(crate) fn first(self) -> Spot
        ensures { result ≡ earlier self.entry.overriding self.entry.spot }
    {
        match self.overriding {
            Some(spot) => spot,
            None => self.spot,
        }
    }

    /// The head that they begin.
    pub(crate) fn head(self, formals: Vec<Formal<'t>>) -> ProcedureHead<'t>
        ensures { head_of result ≡ head_from (start_of self.entry) (each formal_of formals.entry) }
    {
        ProcedureHead {
            overriding: self.overriding,
            spot: self.spot,
            name: self.name,
            formals,
        }
    }
}

/// `overriding procedure P`
#[tactic(auto, unfolding(crate::specs::Declarations::start_at))]
pub(crate) fn read_start<'t>(reader: &mut Reader<'t>) -> Result<Start<'t>, Stop>
    ensures shorter { OnOk result (length reader.new.tokens.now < length reader.old.tokens.now) }
    ensures read { Reads start_of reader start_at result }
{
    let overriding = optional_word(reader, Word::Overriding)?;
    let spot = reader.word(Word::Procedure)?;
    let name = reader.identifier()?;
    Ok(Start {
        overriding,
        spot,
        name,
    })
}

/// Whether an instance follows `is`, which none does behind `overriding`.
pub(crate) fn is_at_instance(reader: &Reader, overriding: Option<Spot>) -> bool
    ensures { result ≡ at_instance overriding (lexemes_of reader.now.tokens.now) }
{
    match overriding {
        Some(_) => false,
        None => reader.is_at_word(Word::New),
    }
}

/// `new Ada.Unchecked_Deallocation (T, A);`, what stands behind `procedure Free is` (12.3).
#[tactic(auto, unfolding(crate::specs::Declarations::instance_at))]
pub(crate) fn read_instance<'t>(
    alloc: Global,
    reader: &mut Reader<'t>,
    room: u32,
    start: Start<'t>,
) -> Result<Box<Declaration<'t>>, Stop>
    ensures shorter { OnOk result (length reader.new.tokens.now < length reader.old.tokens.now) }
    ensures read { Reads boxed_declaration reader (instance_behind room start.entry) result }
{
    reader.word(Word::New)?;
    let generic = read_name(alloc, reader)?;
    read_instance_named(alloc, reader, room, start, generic)
}

/// What stands behind the generic unit of an instance.
#[tactic(auto, unfolding(ada_tree::specs::StatementView::declaration_of, crate::specs::Declarations::instance_named_at))]
fn read_instance_named<'t>(
    alloc: Global,
    reader: &mut Reader<'t>,
    room: u32,
    start: Start<'t>,
    generic: Name<'t>,
) -> Result<Box<Declaration<'t>>, Stop>
    ensures shorter { OnOk result (length reader.new.tokens.now < length reader.old.tokens.now) }
    ensures read { Reads boxed_declaration reader (instance_named room start.entry generic.entry) result }
{
    let (object, access) = read_actuals(reader, room)?;
    ended_declaration(
        alloc,
        reader,
        Declaration::Instance {
            spot: start.spot,
            name: start.name,
            generic,
            object,
            access,
        },
    )
}

/// `(T, A)`
#[tactic(auto, unfolding(crate::specs::Declarations::actuals_at))]
fn read_actuals<'t>(
    reader: &mut Reader<'t>,
    room: u32,
) -> Result<(Identifier<'t>, Identifier<'t>), Stop>
    ensures shorter { OnOk result (length reader.new.tokens.now < length reader.old.tokens.now) }
    ensures read { Reads actuals_of reader (actuals_at room) result }
{
    reader.opening(Delimiter::LeftParenthesis, room)?;
    let object = reader.identifier()?;
    reader.delimiter(Delimiter::Comma)?;
    let access = reader.identifier()?;
    reader.delimiter(Delimiter::RightParenthesis)?;
    Ok((object, access))
}

/// Why reading stops at formals for which there is no room: at the first word of a body, or at their `(`.
pub(crate) fn refuse_formals(
    alloc: Global,
    reader: &mut Reader,
    first: Spot,
    parenthesis: Spot,
) -> Stop
    ensures { RefusesFormals first parenthesis reader result }
{
    match read_formals(alloc, reader) {
        Ok(_) => {
            if reader.is_at_word(Word::Is) {
                Stop::TooDeep(first)
            } else {
                Stop::TooDeep(parenthesis)
            }
        }
        Err(Stop::NoMemory) => Stop::NoMemory,
        Err(_) => Stop::TooDeep(parenthesis),
    }
}

//! Reading a compilation unit (10.1).

ghost use Rattle.ada_tree.specs.StatementView.{unit_of};
ghost use Rattle.ada_reader.specs.Step.{Reads};
ghost use Rattle.ada_phrases.specs.Units.{unit_at};
ghost use Rattle.ada_phrases.specs.Words.{boxed_unit};

use crate::boxes::boxed;
use crate::handlers::read_begin;
use crate::parts::{optional_identifier, read_clauses};
use crate::procedures::read_declarations;
use ada_reader::{Reader, Stop};
use ada_text::{Delimiter, Word};
use ada_tree::unit::Unit;
use std::alloc::Global;

/// The tree of a compilation unit.
///
/// It has a drop of its own, so that a crate that lets one go proves that drop alone, and not those of the parts.
pub struct Parsed<'t> {
    /// The tree.
    pub unit: Unit<'t>,
}

impl Drop for Parsed<'_> {
    fn drop(self) {
        let Parsed { unit: _unit } = self;
    }
}

/// `with .. procedure P is .. begin .. end P;`; `room` levels of nesting may be open inside.
pub fn read_unit<'t>(alloc: Global, reader: &mut Reader<'t>, room: u32) -> Result<Parsed<'t>, Stop>
    ensures { Reads (λ parsed. unit_of parsed.unit) reader (unit_at room) result }
{
    let unit = read_parts(alloc, reader, room)?;
    Ok(Parsed {
        unit: Box::into_inner(unit),
    })
}

/// The unit on the heap.
#[tactic(auto, unfolding(crate::specs::Units::unit_at, crate::specs::Declarations::clauses_at))]
fn read_parts<'t>(alloc: Global, reader: &mut Reader<'t>, room: u32) -> Result<Box<Unit<'t>>, Stop>
    ensures { Reads boxed_unit reader (unit_at room) result }
{
    let clauses = read_clauses(alloc, reader)?;
    let spot = reader.word(Word::Procedure)?;
    let name = reader.identifier()?;
    reader.word(Word::Is)?;
    let declarations = read_declarations(alloc, reader, room)?;
    let body = read_begin(alloc, reader, room)?;
    let end_name = optional_identifier(reader)?;
    reader.delimiter(Delimiter::Semicolon)?;
    let body = Box::into_inner(body);
    boxed(
        alloc,
        Unit {
            clauses,
            spot,
            name,
            declarations,
            body,
            end_name,
        },
    )
}

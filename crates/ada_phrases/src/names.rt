//! Reading names and paths (4.1).

ghost use Rattle.std.specs.Prelude.{◌<◌, ◌≤◌, length, OnOk};
ghost use Rattle.ada_tree.specs.Names.{ident_of, name_of, path_of, selector_of};
ghost use Rattle.ada_reader.specs.Step.{each, Reads};
ghost use Rattle.ada_phrases.specs.Expressions.{name_at, part_at, path_led, selector_at, selectors_at};
ghost use Rattle.ada_phrases.specs.Words.{parts_at};

use ada_reader::{Reader, Stop};
use ada_text::{Delimiter, Word};
use ada_tree::names::{Identifier, Name, Path, Selector};
use std::alloc::Global;

/// `A.B.C`
#[tactic(auto, unfolding(crate::specs::Expressions::name_at))]
pub(crate) fn read_name<'t>(alloc: Global, reader: &mut Reader<'t>) -> Result<Name<'t>, Stop>
    ensures shorter { OnOk result (length reader.new.tokens.now < length reader.old.tokens.now) }
    ensures read { Reads name_of reader name_at result }
{
    let first = reader.identifier()?;
    let rest = read_parts(alloc, reader)?;
    Ok(Name { first, rest })
}

/// `.B.C`
fn read_parts<'t>(alloc: Global, reader: &mut Reader<'t>) -> Result<Vec<Identifier<'t>>, Stop>
    ensures shorter { OnOk result (length reader.new.tokens.now ≤ length reader.old.tokens.now) }
    ensures read { Reads (each ident_of) reader parts_at result }
{
    let mut found = Vec::new(alloc);
    while reader.is_at(Delimiter::Dot) {
        let next = read_part(reader)?;
        found.push(next)?;
    }
    Ok(found)
}

/// `.B`
#[tactic(auto, unfolding(crate::specs::Expressions::part_at))]
fn read_part<'t>(reader: &mut Reader<'t>) -> Result<Identifier<'t>, Stop>
    ensures shorter { OnOk result (length reader.new.tokens.now < length reader.old.tokens.now) }
    ensures read { Reads ident_of reader part_at result }
{
    reader.delimiter(Delimiter::Dot)?;
    reader.identifier()
}

/// A path, of which the root was read before.
#[tactic(auto, unfolding(crate::specs::Expressions::path_led))]
pub(crate) fn read_path_behind<'t>(
    alloc: Global,
    reader: &mut Reader<'t>,
    root: Identifier<'t>,
) -> Result<Path<'t>, Stop>
    ensures shorter { OnOk result (length reader.new.tokens.now ≤ length reader.old.tokens.now) }
    ensures read { Reads path_of reader (path_led (ident_of root.entry)) result }
{
    let selectors = read_selectors(alloc, reader)?;
    Ok(Path { root, selectors })
}

/// `.B.all.C`
#[tactic(auto, unfolding(crate::specs::Expressions::selectors_at))]
fn read_selectors<'t>(alloc: Global, reader: &mut Reader<'t>) -> Result<Vec<Selector<'t>>, Stop>
    ensures shorter { OnOk result (length reader.new.tokens.now ≤ length reader.old.tokens.now) }
    ensures read { Reads (each selector_of) reader selectors_at result }
{
    let mut found = Vec::new(alloc);
    while reader.is_at(Delimiter::Dot) {
        let next = read_selector(reader)?;
        found.push(next)?;
    }
    Ok(found)
}

/// `.B` or `.all`
#[tactic(auto, unfolding(crate::specs::Expressions::selector_at))]
fn read_selector<'t>(reader: &mut Reader<'t>) -> Result<Selector<'t>, Stop>
    ensures shorter { OnOk result (length reader.new.tokens.now < length reader.old.tokens.now) }
    ensures read { Reads selector_of reader selector_at result }
{
    reader.delimiter(Delimiter::Dot)?;
    if let Some(spot) = reader.taken_word(Word::All) {
        return Ok(Selector::All(spot));
    }
    Ok(Selector::Component(reader.identifier()?))
}

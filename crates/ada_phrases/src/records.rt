//! Reading record types (3.8).

ghost use Rattle.std.specs.Prelude.{◌<◌, ◌≤◌, length, OnOk};
ghost use Rattle.ada_tree.specs.Records.{component_of, initial_static_of, record_of, static_of};
ghost use Rattle.ada_reader.specs.Step.{each, Reads};
ghost use Rattle.ada_phrases.specs.Records.{component_at, components_at, end_record_at, initial_static_at, record_at, static_at};
ghost use Rattle.ada_phrases.specs.Words.{more_components_at};

use ada_reader::{Reader, Stop};
use ada_text::{Delimiter, Word};
use ada_tree::records::{ComponentDefinition, RecordDefinition, StaticValue};
use std::alloc::Global;

/// `null record` or `record .. end record`
#[tactic(auto, unfolding(crate::specs::Records::record_at))]
pub(crate) fn read_record<'t>(
    alloc: Global,
    reader: &mut Reader<'t>,
) -> Result<RecordDefinition<'t>, Stop>
    ensures shorter { OnOk result (length reader.new.tokens.now < length reader.old.tokens.now) }
    ensures read { Reads record_of reader record_at result }
{
    if reader.taken_word(Word::Null).is_some() {
        reader.word(Word::Record)?;
        return Ok(RecordDefinition::NullRecord);
    }
    reader.word(Word::Record)?;
    if reader.taken_word(Word::Null).is_some() {
        reader.delimiter(Delimiter::Semicolon)?;
        read_end_record(reader)?;
        return Ok(RecordDefinition::NullComponents);
    }
    read_components(alloc, reader)
}

/// One component or more, and `end record`.
#[tactic(auto, unfolding(crate::specs::Records::components_at))]
fn read_components<'t>(alloc: Global, reader: &mut Reader<'t>) -> Result<RecordDefinition<'t>, Stop>
    ensures shorter { OnOk result (length reader.new.tokens.now < length reader.old.tokens.now) }
    ensures read { Reads record_of reader components_at result }
{
    let first = read_component(reader)?;
    let rest = more_components(alloc, reader)?;
    read_end_record(reader)?;
    Ok(RecordDefinition::Components { first, rest })
}

/// `end record`
#[tactic(auto, unfolding(crate::specs::Records::end_record_at))]
fn read_end_record<'t>(reader: &mut Reader<'t>) -> Result<(), Stop>
    ensures shorter { OnOk result (length reader.new.tokens.now < length reader.old.tokens.now) }
    ensures read { Reads (λ _. tt) reader end_record_at result }
{
    reader.word(Word::End)?;
    reader.word(Word::Record)?;
    Ok(())
}

/// The components up to `end`.
fn more_components<'t>(
    alloc: Global,
    reader: &mut Reader<'t>,
) -> Result<Vec<ComponentDefinition<'t>>, Stop>
    ensures shorter { OnOk result (length reader.new.tokens.now ≤ length reader.old.tokens.now) }
    ensures read { Reads (each component_of) reader more_components_at result }
{
    let mut found = Vec::new(alloc);
    'components: while !reader.is_at_word(Word::End) {
        let next = read_component(reader)?;
        found.push(next)?;
    }
    Ok(found)
}

/// `C : T := 0;`
#[tactic(auto, unfolding(crate::specs::Records::component_at))]
fn read_component<'t>(reader: &mut Reader<'t>) -> Result<ComponentDefinition<'t>, Stop>
    ensures shorter { OnOk result (length reader.new.tokens.now < length reader.old.tokens.now) }
    ensures read { Reads component_of reader component_at result }
{
    let name = reader.identifier()?;
    reader.delimiter(Delimiter::Colon)?;
    let type_name = reader.identifier()?;
    let initial = optional_static(reader)?;
    reader.delimiter(Delimiter::Semicolon)?;
    Ok(ComponentDefinition {
        name,
        type_name,
        initial,
    })
}

/// `:= -1`, if `:=` is next.
#[tactic(auto, unfolding(crate::specs::Records::initial_static_at))]
fn optional_static<'t>(reader: &mut Reader<'t>) -> Result<Option<StaticValue<'t>>, Stop>
    ensures shorter { OnOk result (length reader.new.tokens.now ≤ length reader.old.tokens.now) }
    ensures read { Reads initial_static_of reader initial_static_at result }
{
    if reader.taken_delimiter(Delimiter::Assign).is_none() {
        return Ok(None);
    }
    Ok(Some(read_static(reader)?))
}

/// A number, perhaps with a minus sign, or a name.
#[tactic(auto, unfolding(crate::specs::Records::static_at))]
pub(crate) fn read_static<'t>(reader: &mut Reader<'t>) -> Result<StaticValue<'t>, Stop>
    ensures shorter { OnOk result (length reader.new.tokens.now < length reader.old.tokens.now) }
    ensures read { Reads static_of reader static_at result }
{
    if reader.is_at_identifier() {
        return Ok(StaticValue::Named(reader.identifier()?));
    }
    if let Some(spot) = reader.taken_delimiter(Delimiter::Minus) {
        let (magnitude, _) = reader.number()?;
        return Ok(StaticValue::Number {
            spot,
            negative: true,
            magnitude,
        });
    }
    let (magnitude, spot) = reader.number()?;
    Ok(StaticValue::Number {
        spot,
        negative: false,
        magnitude,
    })
}

//! Reading operators (4.5).

ghost use Rattle.std.specs.Prelude.{◌≡◌, ◌<◌, length, OnOk};
ghost use Rattle.ada_text.specs.Token.{lexemes_of};
ghost use Rattle.ada_reader.specs.Step.{at, itself, Reads};
ghost use Rattle.ada_reader.specs.Operators.{again_at, first_word};
ghost use Rattle.ada_reader.specs.Operators.{adding_at, at_adding, at_comparing, at_multiplying, comparing_at, multiplying_at, sign_at};

use crate::reader::{Reader, Stop};
use ada_text::{Delimiter, Spot, Word};
use ada_values::operator::{BinaryOperator, UnaryOperator};

/// Whether an operator that multiplies is next (4.5.5).
pub fn is_at_multiplying(reader: &Reader<'_>) -> bool
    ensures { result ≡ at_multiplying (lexemes_of reader.now.tokens.now) }
{
    reader.is_at(Delimiter::Star)
        || reader.is_at(Delimiter::Slash)
        || reader.is_at_word(Word::Mod)
        || reader.is_at_word(Word::Rem)
}

/// Whether an operator that adds is next (4.5.3).
pub fn is_at_adding(reader: &Reader<'_>) -> bool
    ensures { result ≡ at_adding (lexemes_of reader.now.tokens.now) }
{
    reader.is_at(Delimiter::Plus) || reader.is_at(Delimiter::Minus)
}

/// Whether an operator that compares is next (4.5.2).
pub fn is_at_comparing(reader: &Reader<'_>) -> bool
    ensures { result ≡ at_comparing (lexemes_of reader.now.tokens.now) }
{
    reader.is_at(Delimiter::Equal)
        || reader.is_at(Delimiter::NotEqual)
        || reader.is_at(Delimiter::Less)
        || reader.is_at(Delimiter::LessEqual)
        || reader.is_at(Delimiter::Greater)
        || reader.is_at(Delimiter::GreaterEqual)
}

/// `*`, `/`, `mod` or `rem` (4.5.5)
#[tactic(auto, unfolding(crate::specs::Operators::multiplying_at))]
pub fn read_multiplying(reader: &mut Reader<'_>) -> Result<BinaryOperator, Stop>
    ensures shorter { OnOk result (length reader.new.tokens.now < length reader.old.tokens.now) }
    ensures read { Reads itself reader multiplying_at result }
{
    if reader.taken_delimiter(Delimiter::Star).is_some() {
        return Ok(BinaryOperator::Multiply);
    }
    if reader.taken_delimiter(Delimiter::Slash).is_some() {
        return Ok(BinaryOperator::Divide);
    }
    if reader.taken_word(Word::Mod).is_some() {
        return Ok(BinaryOperator::Modulo);
    }
    reader.word(Word::Rem)?;
    Ok(BinaryOperator::Remainder)
}

/// `+` or `-`, between terms (4.5.3)
#[tactic(auto, unfolding(crate::specs::Operators::adding_at))]
pub fn read_adding(reader: &mut Reader<'_>) -> Result<BinaryOperator, Stop>
    ensures shorter { OnOk result (length reader.new.tokens.now < length reader.old.tokens.now) }
    ensures read { Reads itself reader adding_at result }
{
    if reader.taken_delimiter(Delimiter::Plus).is_some() {
        return Ok(BinaryOperator::Add);
    }
    reader.delimiter(Delimiter::Minus)?;
    Ok(BinaryOperator::Subtract)
}

/// `+` or `-` before a term, and where it stands (4.5.4)
#[tactic(auto, unfolding(crate::specs::Operators::sign_at))]
pub fn read_sign(reader: &mut Reader<'_>) -> Result<(UnaryOperator, Spot), Stop>
    ensures shorter { OnOk result (length reader.new.tokens.now < length reader.old.tokens.now) }
    ensures read { Reads itself reader sign_at result }
{
    if let Some(spot) = reader.taken_delimiter(Delimiter::Plus) {
        return Ok((UnaryOperator::Plus, spot));
    }
    Ok((UnaryOperator::Minus, reader.delimiter(Delimiter::Minus)?))
}

/// `=`, `/=`, `<`, `<=`, `>` or `>=` (4.5.2)
#[tactic(auto, unfolding(crate::specs::Operators::comparing_at))]
pub fn read_comparing(reader: &mut Reader<'_>) -> Result<BinaryOperator, Stop>
    ensures shorter { OnOk result (length reader.new.tokens.now < length reader.old.tokens.now) }
    ensures read { Reads itself reader comparing_at result }
{
    if reader.taken_delimiter(Delimiter::Equal).is_some() {
        return Ok(BinaryOperator::Equal);
    }
    if reader.taken_delimiter(Delimiter::NotEqual).is_some() {
        return Ok(BinaryOperator::NotEqual);
    }
    if reader.taken_delimiter(Delimiter::Less).is_some() {
        return Ok(BinaryOperator::Less);
    }
    if reader.taken_delimiter(Delimiter::LessEqual).is_some() {
        return Ok(BinaryOperator::LessOrEqual);
    }
    if reader.taken_delimiter(Delimiter::Greater).is_some() {
        return Ok(BinaryOperator::Greater);
    }
    reader.delimiter(Delimiter::GreaterEqual)?;
    Ok(BinaryOperator::GreaterOrEqual)
}

/// Whether the first word of this logical operator is next.
pub fn is_at_logical(reader: &Reader<'_>, operator: BinaryOperator) -> bool
    ensures { result ≡ at (first_word operator) (lexemes_of reader.now.tokens.now) }
{
    match operator {
        BinaryOperator::And | BinaryOperator::AndThen => reader.is_at_word(Word::And),
        BinaryOperator::Or | BinaryOperator::OrElse => reader.is_at_word(Word::Or),
        _ => reader.is_at_word(Word::Xor),
    }
}

/// A logical operator that stood before (4.4).
#[tactic(auto, unfolding(crate::specs::Operators::again_at))]
pub fn read_again(reader: &mut Reader<'_>, operator: BinaryOperator) -> Result<BinaryOperator, Stop>
    ensures shorter { OnOk result (length reader.new.tokens.now < length reader.old.tokens.now) }
    ensures read { Reads itself reader (again_at operator) result }
{
    match operator {
        BinaryOperator::And => {
            reader.word(Word::And)?;
        }
        BinaryOperator::AndThen => {
            reader.word(Word::And)?;
            reader.word(Word::Then)?;
        }
        BinaryOperator::Or => {
            reader.word(Word::Or)?;
        }
        BinaryOperator::OrElse => {
            reader.word(Word::Or)?;
            reader.word(Word::Else)?;
        }
        _ => {
            reader.word(Word::Xor)?;
        }
    }
    Ok(operator)
}

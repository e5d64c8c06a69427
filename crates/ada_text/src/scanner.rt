//! From bytes to tokens.

ghost use Rattle.std.specs.Prelude.{◌≡◌, ◌≤◌, ◌<◌, List, length, IfOk, IfErr};
ghost use Rattle.ada_text.specs.Place.{StandsIn};
ghost use Rattle.ada_text.specs.Token.{Lexeme, lexeme_of, lexemes_of};
ghost use Rattle.ada_text.specs.Reading.{fault_of, Names, IsTokenAt, IsFlawAt, Spells, IsFirstFault};

use crate::element::{Flaw, Refusal, element_in_front};
use crate::fault::TextFault;
use crate::gap::past_gap;
use crate::limits::LONGEST_SOURCE;
use crate::place::Place;
use crate::spot::Spot;
use crate::token::Token;
use std::alloc::Global;

/// The fault that a flaw at `spot` is, or that memory ran out.
fn fault_at(spot: Spot, refusal: Refusal) -> TextFault
    ensures { result ≡ fault_of spot refusal }
{
    match refusal {
        Refusal::Flaw(Flaw::ByteNotAllowed) => TextFault::ByteNotAllowed(spot),
        Refusal::Flaw(Flaw::OpenString) => TextFault::OpenString(spot),
        Refusal::Flaw(Flaw::NumberRange) => TextFault::NumberRange(spot),
        Refusal::Flaw(Flaw::IdentifierForm) => TextFault::IdentifierForm(spot),
        Refusal::NoMemory => TextFault::NoMemory,
    }
}

/// The token that stands at a place.
fn token_at(alloc: Global, source: &[u8], place: Place) -> Result<Token, TextFault>
    requires limit { length source.now ≤ LONGEST_SOURCE }
    requires here { StandsIn source.now place }
    requires more { place.at < length source.now }
    ensures token { IfOk result (λ t. IsTokenAt source.now place.at (lexeme_of t)) }
    ensures fault { IfErr result (λ fault. Names (IsFlawAt source.now place.at) ⊥ fault) }
{
    match element_in_front(alloc, &source[place.at..]) {
        Ok((kind, len)) => Ok(Token {
            kind,
            line: place.line,
            column: place.column,
            from: place.at,
            to: place.at + len,
        }),
        Err(refusal) => Err(fault_at(place.spot(), refusal)),
    }
}

/// The tokens of a source, in order.
///
/// # Errors
///
/// The first fault from the left: a byte that begins nothing, a string that is not closed, a number
/// that is too great, an identifier of the wrong form; of these the number's range comes before its
/// form. A source that is too long has that fault, whatever else it holds. `NoMemory` comes where
/// memory was refused, and says nothing of the source.
pub fn tokens(alloc: Global, source: &[u8]) -> Result<Vec<Token>, TextFault>
    ensures tokens { IfOk result (λ found. Spells source.now (lexemes_of found.items)) }
    ensures fault { IfErr result (λ fault. IsFirstFault source.now fault) }
    // No other tokens are those of the source.
    ensures only { IfOk result (λ found. (ts : List Lexeme) → Spells source.now ts
        → ts ≡ lexemes_of found.items) }
    // A source with a fault has none.
    ensures none { IfErr result (λ fault. (ts : List Lexeme) → Spells source.now ts
        → fault ≡ TextFault.NoMemory) }
{
    if source.len() > LONGEST_SOURCE {
        return Err(TextFault::SourceTooLong);
    }
    let mut found = Vec::new(alloc);
    let mut place = past_gap(source, Place::START);
    while place.at < source.len() {
        let token = token_at(alloc, source, place)?;
        place = past_gap(source, place.past(source, token.to - token.from));
        if found.push(token).is_err() {
            return Err(TextFault::NoMemory);
        }
    }
    Ok(found)
}

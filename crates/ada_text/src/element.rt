//! What a text begins with.

ghost use Rattle.std.specs.Prelude.{◌<◌, length};
ghost use Rattle.ada_text.specs.Element.{element};
ghost use Rattle.ada_text.specs.Refusal.{Gives};

use crate::delimiter::Delimiter;
use crate::identifier::word_in_front;
use crate::literal::string_behind;
use crate::number::number_in_front;
use crate::token::TokenKind;
use std::alloc::Global;

/// What may be wrong with the element that stands at a place.
#[derive(Clone, Copy, Debug, PartialEq, Eq)]
pub enum Flaw {
    ByteNotAllowed,
    OpenString,
    NumberRange,
    IdentifierForm,
}

/// Why no token was read.
#[derive(Clone, Copy, Debug, PartialEq, Eq)]
pub enum Refusal {
    Flaw(Flaw),
    NoMemory,
}

/// The token that a text begins with, and how many bytes it takes.
#[tactic(auto, using(std::proofs::lemmas::Grind::common_steps, crate::proofs::ElementLemmas::element_first))]
pub fn element_in_front(alloc: Global, text: &[u8]) -> Result<(TokenKind, usize), Refusal>
    requires { 0 < length text.now }
    ensures { Gives result (element text.now) }
{
    match text[0] {
        b'a'..=b'z' | b'A'..=b'Z' => word_in_front(alloc, text),
        b'0'..=b'9' => number_in_front(text).map_err(Refusal::Flaw),
        b'"' => string_behind(alloc, &text[1..]),
        _ => match Delimiter::in_front(text) {
            Some(delimiter) => Ok((TokenKind::Delimiter(delimiter), delimiter.width())),
            None => Err(Refusal::Flaw(Flaw::ByteNotAllowed)),
        },
    }
}

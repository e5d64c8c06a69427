//! String literals.

ghost use Rattle.std.specs.Prelude.{◌+◌};
ghost use Rattle.ada_text.specs.Literal.{literal};
ghost use Rattle.ada_text.specs.Element.{string_element};
ghost use Rattle.ada_text.specs.Refusal.{Gives};

use crate::bytes::{has_byte, is_graphic};
use crate::element::{Flaw, Refusal};
use crate::token::TokenKind;
use std::alloc::Global;

/// The string literal whose opening quote stands before `text`, and how many bytes it takes (2.6).
#[tactic(auto, using(std::proofs::lemmas::Grind::common_steps, crate::proofs::LiteralLemmas::steps))]
pub fn string_behind(alloc: Global, text: &[u8]) -> Result<(TokenKind, usize), Refusal>
    ensures { Gives result (string_element (literal text.now)) }
{
    let mut said = String::new(alloc);
    let mut at = 0;
    while at < text.len() {
        let byte = text[at];
        if byte == b'"' {
            if !has_byte(text, at + 1, b'"') {
                return Ok((TokenKind::Text(said), at + 2));
            }
            at += 1;
        } else if !is_graphic(byte) {
            return Err(Refusal::Flaw(Flaw::OpenString));
        }
        if said.push(char::from(byte)).is_err() {
            return Err(Refusal::NoMemory);
        }
        at += 1;
    }
    Err(Refusal::Flaw(Flaw::OpenString))
}

//! Identifiers and reserved words.

ghost use Rattle.std.specs.Prelude.{◌≡◌, ◌<◌, map, IfOk};
ghost use Rattle.std.specs.List.{prefix_len, All};
ghost use Rattle.std.specs.Char.{to_ascii_uppercase};
ghost use Rattle.std.specs.String.{string_bytes};
ghost use Rattle.ada_text.specs.Bytes.{is_word_byte};
ghost use Rattle.ada_text.specs.Identifier.{underscores_stand_alone};
ghost use Rattle.ada_text.specs.Element.{word_element};
ghost use Rattle.ada_text.specs.Refusal.{Gives};

use crate::bytes::is_word_byte;
use crate::element::{Flaw, Refusal};
use crate::limits::LONGEST_IDENTIFIER;
use crate::reserved::reserved_word;
use crate::token::TokenKind;
use std::alloc::{AllocError, Global};

/// How many letters, digits and underscores a text begins with.
fn word_len(text: &[u8]) -> usize
    ensures { result ≡ prefix_len is_word_byte text.now }
{
    for (i, byte) in text.iter().enumerate() {
        if !is_word_byte(*byte) {
            return i;
        }
    }
    text.len()
}

/// Whether no underscore is the last byte and none stands before another (2.3).
#[tactic(auto, using(std::proofs::lemmas::Grind::common_steps, crate::proofs::IdentifierLemmas::steps))]
fn underscores_stand_alone(word: &[u8]) -> bool
    ensures { result ≡ underscores_stand_alone word.now }
{
    let mut after_underscore = false;
    for byte in word {
        let underscore = *byte == b'_';
        if underscore && after_underscore {
            return false;
        }
        after_underscore = underscore;
    }
    !after_underscore
}

/// The letters in upper case.
fn upper_case(alloc: Global, word: &[u8]) -> Result<String, AllocError>
    requires { All (λ b. b < 128) word.now }
    ensures { IfOk result (λ letters. string_bytes letters ≡ map to_ascii_uppercase word.now) }
{
    let mut letters = String::with_capacity(alloc, word.len())?;
    for byte in word {
        letters.push(char::from(byte.to_ascii_uppercase()))?;
    }
    Ok(letters)
}

/// The identifier or reserved word that a text begins with, and how many bytes it takes.
#[tactic(auto, using(std::proofs::lemmas::Grind::common_steps), unfolding(crate::specs::Element::word_element))]
pub fn word_in_front(alloc: Global, text: &[u8]) -> Result<(TokenKind, usize), Refusal>
    ensures { Gives result (word_element text.now) }
{
    let len = word_len(text);
    let word = &text[..len];
    if len > LONGEST_IDENTIFIER || !underscores_stand_alone(word) {
        return Err(Refusal::Flaw(Flaw::IdentifierForm));
    }
    let kind = match reserved_word(word) {
        Some(word) => TokenKind::Word(word),
        None => match upper_case(alloc, word) {
            Ok(letters) => TokenKind::Identifier(letters),
            Err(_) => return Err(Refusal::NoMemory),
        },
    };
    Ok((kind, len))
}

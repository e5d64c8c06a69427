//! Decimal literals.

ghost use Rattle.std.specs.Prelude.{◌≡◌, ◌≤◌, ◌+◌, drop, length, IfOk, IfErr};
ghost use Rattle.std.specs.Option.{SomeIff};
ghost use Rattle.ada_text.specs.Number.{begins_with_digit, number_len, value};
ghost use Rattle.ada_text.specs.Element.{token, flaw, begins_like_word, number_element};
ghost use Rattle.ada_text.specs.Token.{kind_of};

use crate::element::Flaw;
use crate::limits::GREATEST_NUMBER;
use crate::token::TokenKind;

/// Whether a digit stands at `at`.
fn has_digit(text: &[u8], at: usize) -> bool
    ensures { result ≡ begins_with_digit (drop at text.now) }
{
    at < text.len() && text[at].is_ascii_digit()
}

/// Whether a letter or an underscore stands at `at`.
fn has_word_start(text: &[u8], at: usize) -> bool
    ensures { result ≡ begins_like_word (drop at text.now) }
{
    at < text.len() && (text[at].is_ascii_alphabetic() || text[at] == b'_')
}

/// How many bytes the number takes that a text begins with.
#[tactic(auto, using(std::proofs::lemmas::Grind::common_steps, crate::proofs::NumberLemmas::lengths))]
fn number_len(text: &[u8]) -> usize
    ensures len { result ≡ number_len text.now }
    ensures within { result ≤ length text.now }
{
    for (i, byte) in text.iter().enumerate() {
        if !(byte.is_ascii_digit() || *byte == b'_' && has_digit(text, i + 1)) {
            return i;
        }
    }
    text.len()
}

/// What digits stand for, underscores aside; none above 2147483647.
#[tactic(auto, using(std::proofs::lemmas::Grind::common_steps, crate::proofs::NumberLemmas::steps))]
fn value(digits: &[u8]) -> Option<u32>
    ensures { SomeIff result (value digits.now ≤ GREATEST_NUMBER) (value digits.now) }
{
    let mut value = 0u64;
    for byte in digits {
        if byte.is_ascii_digit() {
            value = value * 10 + u64::from(*byte - b'0');
            if value > u64::from(GREATEST_NUMBER) {
                return None;
            }
        }
    }
    Some(value as u32)
}

/// The number that a text begins with, and how many bytes it takes (2.4.1).
#[tactic(auto, using(std::proofs::lemmas::Grind::common_steps), unfolding(crate::specs::Element::number_element))]
pub fn number_in_front(text: &[u8]) -> Result<(TokenKind, usize), Flaw>
    ensures ok { IfOk result (λ found. number_element text.now ≡ token (kind_of found.0) found.1) }
    ensures err { IfErr result (λ f. number_element text.now ≡ flaw f) }
{
    let len = number_len(text);
    match value(&text[..len]) {
        None => Err(Flaw::NumberRange),
        Some(_) if has_word_start(text, len) => Err(Flaw::IdentifierForm),
        Some(value) => Ok((TokenKind::Number(value), len)),
    }
}

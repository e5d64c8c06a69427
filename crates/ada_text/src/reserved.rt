//! Telling reserved words from identifiers.

ghost use Rattle.std.specs.Prelude.{◌≡◌, find, map};
ghost use Rattle.std.specs.Char.{to_ascii_uppercase};
ghost use Rattle.std.specs.Str.{bytes_eq};
ghost use Rattle.ada_text.specs.Word.{reserved_word, is_spelled};
ghost use Rattle.ada_text.specs.Reserved.{words_from};

use crate::bytes::byte_or_zero;
use crate::word::Word;

/// The reserved words that begin with a letter in upper case.
fn words_from(letter: u8) -> &'static [Word]
    ensures { result.now ≡ words_from letter }
{
    match letter {
        b'A' => &[
            Word::Abort,
            Word::Abs,
            Word::Abstract,
            Word::Accept,
            Word::Access,
            Word::Aliased,
            Word::All,
            Word::And,
            Word::Array,
            Word::At,
        ],
        b'B' => &[Word::Begin, Word::Body],
        b'C' => &[Word::Case, Word::Constant],
        b'D' => &[
            Word::Declare,
            Word::Delay,
            Word::Delta,
            Word::Digits,
            Word::Do,
        ],
        b'E' => &[
            Word::Else,
            Word::Elsif,
            Word::End,
            Word::Entry,
            Word::Exception,
            Word::Exit,
        ],
        b'F' => &[Word::For, Word::Function],
        b'G' => &[Word::Generic, Word::Goto],
        b'I' => &[Word::If, Word::In, Word::Interface, Word::Is],
        b'L' => &[Word::Limited, Word::Loop],
        b'M' => &[Word::Mod],
        b'N' => &[Word::New, Word::Not, Word::Null],
        b'O' => &[
            Word::Of,
            Word::Or,
            Word::Others,
            Word::Out,
            Word::Overriding,
        ],
        b'P' => &[
            Word::Package,
            Word::Pragma,
            Word::Private,
            Word::Procedure,
            Word::Protected,
        ],
        b'R' => &[
            Word::Raise,
            Word::Range,
            Word::Record,
            Word::Rem,
            Word::Renames,
            Word::Requeue,
            Word::Return,
            Word::Reverse,
        ],
        b'S' => &[
            Word::Select,
            Word::Separate,
            Word::Some,
            Word::Subtype,
            Word::Synchronized,
        ],
        b'T' => &[
            Word::Tagged,
            Word::Task,
            Word::Terminate,
            Word::Then,
            Word::Type,
        ],
        b'U' => &[Word::Until, Word::Use],
        b'W' => &[Word::When, Word::While, Word::With],
        b'X' => &[Word::Xor],
        _ => &[],
    }
}

/// Whether a text has these letters, which are in upper case; case does not matter.
#[tactic(auto, using(std::proofs::lemmas::Grind::common_steps, crate::proofs::WordLemmas::comparing))]
fn is_spelled(text: &[u8], letters: &[u8]) -> bool
    ensures { result ≡ bytes_eq (map to_ascii_uppercase text.now) letters.now }
{
    if text.len() != letters.len() {
        return false;
    }
    for (i, byte) in text.iter().enumerate() {
        if byte.to_ascii_uppercase() != letters[i] {
            return false;
        }
    }
    true
}

/// The first of some words that a text spells, in upper or lower case.
fn word_among(words: &[Word], text: &[u8]) -> Option<Word>
    ensures { result ≡ find (is_spelled (map to_ascii_uppercase text.now)) words.now }
{
    words
        .iter()
        .copied()
        .find(|word| is_spelled(text, word.spelling()))
}

/// The reserved word that a text spells, in upper or lower case.
pub fn reserved_word(text: &[u8]) -> Option<Word>
    ensures { result ≡ reserved_word (map to_ascii_uppercase text.now) }
{
    let initial = byte_or_zero(text, 0).to_ascii_uppercase();
    word_among(words_from(initial), text)
}

//! Tokens: what a source is made of.
ghost use Rattle.std.specs.Prelude.{◌≡◌};

use crate::delimiter::Delimiter;
use crate::spot::Spot;
use crate::word::Word;

/// What a token is.
#[derive(Debug, Drop, PartialEq, Eq)]
pub enum TokenKind {
    /// An identifier in upper case, of at most 64 bytes (2.3).
    Identifier(String),
    /// A decimal literal, at most 2147483647 (2.4.1).
    Number(u32),
    /// A string literal's bytes: its quotes taken off, and of each doubled quote one (2.6).
    Text(String),
    /// A reserved word (2.9).
    Word(Word),
    /// A delimiter (2.2).
    Delimiter(Delimiter),
}

/// One token of a source: what it is, where it begins, and its bytes `from..to`.
#[derive(Debug, Drop, PartialEq, Eq)]
pub struct Token {
    pub kind: TokenKind,
    /// The line of its first byte, from 1.
    pub line: u32,
    /// The column of its first byte, from 1, in bytes.
    pub column: u32,
    /// Where its first byte stands in the source, from 0.
    pub from: usize,
    /// Where the byte after its last stands.
    pub to: usize,
}

impl Token {
    /// Where the token begins.
    pub fn spot(&self) -> Spot
        ensures line { result.line ≡ self.now.line }
        ensures column { result.column ≡ self.now.column }
    {
        Spot {
            line: self.line,
            column: self.column,
        }
    }
}

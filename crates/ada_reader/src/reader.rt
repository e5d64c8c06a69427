//! The tokens that are left to read, and how one of them is taken.

ghost use Rattle.std.specs.Prelude.{◌≡◌, ◌<◌, length, OnOk};
ghost use Rattle.ada_text.specs.Token.{delimiter as delimiter_kind, lexemes_of, reserved};
ghost use Rattle.ada_tree.specs.Names.{ident_of};
ghost use Rattle.ada_reader.specs.Step.{at, fixed, identifier_at, is_at as is_at_kind, is_identifier, is_number, is_string, itself, number_at, opening_in, Reads, string_at, TakesIfNext};

use ada_text::{Delimiter, Spot, Token, TokenKind, Word};
use ada_tree::names::Identifier;
use std::alloc::{AllocError, AllocFailed};

/// Why reading stops.
#[derive(Debug, Drop)]
pub enum Stop {
    /// The first token that is left may not stand there, or no token is left.
    Here,
    /// The token at this spot opens a level of nesting past the limit.
    TooDeep(Spot),
    /// Memory ran out.
    NoMemory,
}

impl From<AllocError> for Stop {
    ghost use Rattle.ada_reader.specs.declared.reader.Stop.TheVariants.{NoMemory};

    ghost from_gives = { λ _ e. e ≡ NoMemory };

    fn from(_error: AllocError) -> Stop {
        Stop::NoMemory
    }
}

impl<T: Drop> From<AllocFailed<T>> for Stop {
    ghost use Rattle.ada_reader.specs.declared.reader.Stop.TheVariants.{NoMemory};

    ghost from_gives = { λ _ e. e ≡ NoMemory };

    fn from(_failed: AllocFailed<T>) -> Stop {
        Stop::NoMemory
    }
}

/// The tokens that are left to read.
#[derive(Debug, Drop)]
pub struct Reader<'t> {
    /// The tokens, the next one first.
    pub tokens: &'t [Token],
}

impl<'t> Reader<'t> {
    /// Whether the next token is this reserved word.
    pub fn is_at_word(&self, word: Word) -> bool
        ensures { result ≡ at (reserved word) (lexemes_of self.now.tokens.now) }
    {
        match self.tokens {
            [
                Token {
                    kind: TokenKind::Word(next),
                    ..
                },
                ..
            ] => *next == word,
            _ => false,
        }
    }

    /// Whether the next token is this delimiter.
    pub fn is_at(&self, delimiter: Delimiter) -> bool
        ensures { result ≡ at (delimiter_kind delimiter) (lexemes_of self.now.tokens.now) }
    {
        match self.tokens {
            [
                Token {
                    kind: TokenKind::Delimiter(next),
                    ..
                },
                ..
            ] => *next == delimiter,
            _ => false,
        }
    }

    /// Whether the next token is an identifier.
    pub fn is_at_identifier(&self) -> bool
        ensures { result ≡ is_at_kind is_identifier (lexemes_of self.now.tokens.now) }
    {
        match self.tokens {
            [
                Token {
                    kind: TokenKind::Identifier(_),
                    ..
                },
                ..
            ] => true,
            _ => false,
        }
    }

    /// Whether the next token is a number.
    pub fn is_at_number(&self) -> bool
        ensures { result ≡ is_at_kind is_number (lexemes_of self.now.tokens.now) }
    {
        match self.tokens {
            [
                Token {
                    kind: TokenKind::Number(_),
                    ..
                },
                ..
            ] => true,
            _ => false,
        }
    }

    /// Whether the next token is a string.
    pub fn is_at_text(&self) -> bool
        ensures { result ≡ is_at_kind is_string (lexemes_of self.now.tokens.now) }
    {
        match self.tokens {
            [
                Token {
                    kind: TokenKind::Text(_),
                    ..
                },
                ..
            ] => true,
            _ => false,
        }
    }

    /// Takes a delimiter that opens a level of nesting; `room` levels more may be open.
    pub fn opening(&mut self, delimiter: Delimiter, room: u32) -> Result<Spot, Stop>
        ensures shorter { OnOk result (length self.new.tokens.now < length self.old.tokens.now) }
        ensures room { OnOk result (0 < room) }
        ensures read { Reads itself self (opening_in room (delimiter_kind delimiter)) result }
    {
        let spot = self.delimiter(delimiter)?;
        if room == 0 {
            return Err(Stop::TooDeep(spot));
        }
        Ok(spot)
    }

    /// Takes a word that opens a level of nesting; `room` levels more may be open.
    pub fn opening_word(&mut self, word: Word, room: u32) -> Result<Spot, Stop>
        ensures shorter { OnOk result (length self.new.tokens.now < length self.old.tokens.now) }
        ensures room { OnOk result (0 < room) }
        ensures read { Reads itself self (opening_in room (reserved word)) result }
    {
        let spot = self.word(word)?;
        if room == 0 {
            return Err(Stop::TooDeep(spot));
        }
        Ok(spot)
    }

    /// Takes a string, and tells where it stands.
    #[tactic(auto, unfolding(crate::specs::Step::string_at))]
    pub fn text(&mut self) -> Result<(&'t str, Spot), Stop>
        ensures shorter { OnOk result (length self.new.tokens.now < length self.old.tokens.now) }
        ensures read { Reads (λ x. (x.0.now, x.1)) self string_at result }
    {
        match self.tokens {
            [
                Token {
                    kind: TokenKind::Text(text),
                    line,
                    column,
                    ..
                },
                rest @ ..,
            ] => {
                self.tokens = rest;
                Ok((
                    text.as_str(),
                    Spot {
                        line: *line,
                        column: *column,
                    },
                ))
            }
            _ => Err(Stop::Here),
        }
    }

    /// Takes a reserved word, and tells where it stands.
    #[tactic(auto, unfolding(crate::specs::Step::fixed))]
    pub fn word(&mut self, word: Word) -> Result<Spot, Stop>
        ensures shorter { OnOk result (length self.new.tokens.now < length self.old.tokens.now) }
        ensures read { Reads itself self (fixed (reserved word)) result }
    {
        match self.tokens {
            [
                Token {
                    kind: TokenKind::Word(next),
                    line,
                    column,
                    ..
                },
                rest @ ..,
            ] if *next == word => {
                self.tokens = rest;
                Ok(Spot {
                    line: *line,
                    column: *column,
                })
            }
            _ => Err(Stop::Here),
        }
    }

    /// Takes a delimiter, and tells where it stands.
    #[tactic(auto, unfolding(crate::specs::Step::fixed))]
    pub fn delimiter(&mut self, delimiter: Delimiter) -> Result<Spot, Stop>
        ensures shorter { OnOk result (length self.new.tokens.now < length self.old.tokens.now) }
        ensures read { Reads itself self (fixed (delimiter_kind delimiter)) result }
    {
        match self.tokens {
            [
                Token {
                    kind: TokenKind::Delimiter(next),
                    line,
                    column,
                    ..
                },
                rest @ ..,
            ] if *next == delimiter => {
                self.tokens = rest;
                Ok(Spot {
                    line: *line,
                    column: *column,
                })
            }
            _ => Err(Stop::Here),
        }
    }

    /// Takes a reserved word, if it is next, and tells where it stood.
    #[tactic(auto, unfolding(crate::specs::Step::fixed))]
    pub fn taken_word(&mut self, word: Word) -> Option<Spot>
        ensures { TakesIfNext (reserved word) self result }
    {
        match self.tokens {
            [
                Token {
                    kind: TokenKind::Word(next),
                    line,
                    column,
                    ..
                },
                rest @ ..,
            ] if *next == word => {
                self.tokens = rest;
                Some(Spot {
                    line: *line,
                    column: *column,
                })
            }
            _ => None,
        }
    }

    /// Takes a delimiter, if it is next, and tells where it stood.
    #[tactic(auto, unfolding(crate::specs::Step::fixed))]
    pub fn taken_delimiter(&mut self, delimiter: Delimiter) -> Option<Spot>
        ensures { TakesIfNext (delimiter_kind delimiter) self result }
    {
        match self.tokens {
            [
                Token {
                    kind: TokenKind::Delimiter(next),
                    line,
                    column,
                    ..
                },
                rest @ ..,
            ] if *next == delimiter => {
                self.tokens = rest;
                Some(Spot {
                    line: *line,
                    column: *column,
                })
            }
            _ => None,
        }
    }

    /// Takes an identifier.
    #[tactic(auto, unfolding(crate::specs::Step::identifier_at))]
    pub fn identifier(&mut self) -> Result<Identifier<'t>, Stop>
        ensures shorter { OnOk result (length self.new.tokens.now < length self.old.tokens.now) }
        ensures read { Reads ident_of self identifier_at result }
    {
        match self.tokens {
            [
                Token {
                    kind: TokenKind::Identifier(text),
                    line,
                    column,
                    ..
                },
                rest @ ..,
            ] => {
                self.tokens = rest;
                Ok(Identifier {
                    text: text.as_str(),
                    spot: Spot {
                        line: *line,
                        column: *column,
                    },
                })
            }
            _ => Err(Stop::Here),
        }
    }

    /// Takes a number, and tells where it stands.
    #[tactic(auto, unfolding(crate::specs::Step::number_at))]
    pub fn number(&mut self) -> Result<(u32, Spot), Stop>
        ensures shorter { OnOk result (length self.new.tokens.now < length self.old.tokens.now) }
        ensures read { Reads itself self number_at result }
    {
        match self.tokens {
            [
                Token {
                    kind: TokenKind::Number(value),
                    line,
                    column,
                    ..
                },
                rest @ ..,
            ] => {
                self.tokens = rest;
                Ok((
                    *value,
                    Spot {
                        line: *line,
                        column: *column,
                    },
                ))
            }
            _ => Err(Stop::Here),
        }
    }
}

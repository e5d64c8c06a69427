//! The delimiters.

ghost use Rattle.std.specs.Prelude.{◌≡◌, ◌<◌, [], ◌∷◌, length};

use crate::bytes::byte_or_zero;

/// A delimiter, simple or compound (2.2).
#[derive(Clone, Copy, Debug, PartialEq, Eq)]
pub enum Delimiter {
    /// `:=`
    Assign,
    /// `/=`
    NotEqual,
    /// `<=`
    LessEqual,
    /// `>=`
    GreaterEqual,
    /// `=>`
    Arrow,
    /// `..`
    DoubleDot,
    /// `(`
    LeftParenthesis,
    /// `)`
    RightParenthesis,
    /// `,`
    Comma,
    /// `;`
    Semicolon,
    /// `:`
    Colon,
    /// `.`
    Dot,
    /// `'`
    Tick,
    /// `+`
    Plus,
    /// `-`
    Minus,
    /// `*`
    Star,
    /// `/`
    Slash,
    /// `=`
    Equal,
    /// `<`
    Less,
    /// `>`
    Greater,
    /// `|`
    Bar,
}

impl Delimiter {
    ghost use Rattle.ada_text.specs.Delimiter.{delimiter_in_front, spelling};

    /// The longest delimiter that a text begins with.
    #[tactic(auto, using(std::proofs::lemmas::Grind::common_steps, crate::proofs::DelimiterLemmas::by_two_bytes))]
    pub(crate) fn in_front(text: &[u8]) -> Option<Delimiter>
        requires { 0 < length text.now }
        ensures { result ≡ delimiter_in_front text.now }
    {
        Delimiter::of(text[0], byte_or_zero(text, 1))
    }

    /// The delimiter that two bytes begin with.
    #[tactic(auto, unfolding(crate::specs::Delimiter::delimiter_in_front))]
    fn of(first: u8, second: u8) -> Option<Delimiter>
        ensures { result ≡ delimiter_in_front (first ∷ second ∷ []) }
    {
        Some(match (first, second) {
            (b':', b'=') => Delimiter::Assign,
            (b'/', b'=') => Delimiter::NotEqual,
            (b'<', b'=') => Delimiter::LessEqual,
            (b'>', b'=') => Delimiter::GreaterEqual,
            (b'=', b'>') => Delimiter::Arrow,
            (b'.', b'.') => Delimiter::DoubleDot,
            (b'(', _) => Delimiter::LeftParenthesis,
            (b')', _) => Delimiter::RightParenthesis,
            (b',', _) => Delimiter::Comma,
            (b';', _) => Delimiter::Semicolon,
            (b':', _) => Delimiter::Colon,
            (b'.', _) => Delimiter::Dot,
            (b'\'', _) => Delimiter::Tick,
            (b'+', _) => Delimiter::Plus,
            (b'-', _) => Delimiter::Minus,
            (b'*', _) => Delimiter::Star,
            (b'/', _) => Delimiter::Slash,
            (b'=', _) => Delimiter::Equal,
            (b'<', _) => Delimiter::Less,
            (b'>', _) => Delimiter::Greater,
            (b'|', _) => Delimiter::Bar,
            _ => return None,
        })
    }

    /// How many bytes it has.
    pub(crate) fn width(self) -> usize
        ensures { result ≡ length (spelling self) }
    {
        match self {
            Delimiter::Assign
            | Delimiter::NotEqual
            | Delimiter::LessEqual
            | Delimiter::GreaterEqual
            | Delimiter::Arrow
            | Delimiter::DoubleDot => 2,
            _ => 1,
        }
    }
}

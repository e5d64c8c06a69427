//! The classes of bytes that tokens are told apart by.

ghost use Rattle.std.specs.Prelude.{◌≡◌, drop, slice_index};
ghost use Rattle.ada_text.specs.Bytes.{is_separator, is_word_byte, is_graphic, begins_with};

/// Whether a byte separates tokens: a tab, a line feed, a carriage return or a blank (2.2).
pub fn is_separator(byte: u8) -> bool
    ensures { result ≡ is_separator byte }
{
    matches!(byte, b'\t' | b'\n' | b'\r' | b' ')
}

/// Whether identifiers and reserved words are made of it: a letter, a digit or an underscore (2.3).
pub fn is_word_byte(byte: u8) -> bool
    ensures { result ≡ is_word_byte byte }
{
    byte.is_ascii_alphanumeric() || byte == b'_'
}

/// Whether it may stand between the quotes of a string literal (2.6).
pub fn is_graphic(byte: u8) -> bool
    ensures { result ≡ is_graphic byte }
{
    matches!(byte, b' '..=b'~')
}

/// Whether `byte` stands at `at`.
pub fn has_byte(text: &[u8], at: usize, byte: u8) -> bool
    ensures { result ≡ begins_with byte (drop at text.now) }
{
    at < text.len() && text[at] == byte
}

/// The byte at `at`, and 0 past the end.
pub fn byte_or_zero(text: &[u8], at: usize) -> u8
    ensures { result ≡ slice_index text.now at }
{
    if at < text.len() { text[at] } else { 0 }
}

//! What follows from the definitions, in the subject's own words.

ghost use Rattle.std.specs.Prelude.{◌≡◌, ◌≢◌, ◌≤◌, List, ℕ, length};
ghost use Rattle.ada_text.specs.Token.{Lexeme};
ghost use Rattle.ada_text.specs.Reading.{Spells, IsFirstFault};
ghost use Rattle.ada_text.specs.Layout.{Lie};
ghost use Rattle.ada_text.specs.Form.{HaveForms};
ghost use Rattle.ada_text.specs.Writing.{written, IsReadAgain};

use crate::fault::TextFault;
use crate::limits::LONGEST_SOURCE;

/// A source has at most one list of tokens.
pub fn one_list_of_tokens()
    ensures { (source : List ℕ) (ts us : List Lexeme)
        → Spells source ts → Spells source us → ts ≡ us }
{}

/// A source has at most one first fault, and none if it has tokens; want of memory is no fault.
pub fn one_first_fault()
    ensures one { (source : List ℕ) (f g : TextFault)
        → IsFirstFault source f → IsFirstFault source g
        → f ≢ TextFault.NoMemory → g ≢ TextFault.NoMemory → f ≡ g }
    ensures none { (source : List ℕ) (ts : List Lexeme) (f : TextFault)
        → Spells source ts → IsFirstFault source f → f ≡ TextFault.NoMemory }
{}

/// The tokens of a source lie in order and apart, and only separators and comments stand between them.
pub fn tokens_lie_in_order()
    ensures { (source : List ℕ) (ts : List Lexeme) → Spells source ts → Lie source 0 ts }
{}

/// The tokens of a source, written with blanks between them, are read again as tokens of the same
/// kinds, unless what was written is too long.
pub fn tokens_are_read_again()
    ensures { (source : List ℕ) (ts : List Lexeme) → Spells source ts
        → length (written source ts) ≤ LONGEST_SOURCE → IsReadAgain source ts }
{}

/// The bytes of each token have the form that the manual's grammar gives its kind.
pub fn tokens_have_their_forms()
    ensures { (source : List ℕ) (ts : List Lexeme) → Spells source ts → HaveForms source ts }
{}

//! What follows from the definitions, in the subject's own words.

ghost use Rattle.std.specs.Prelude.{◌≡◌, ◌+◌, ◌-◌, ◌^◌, ◌++◌, ◌∷◌, List, [], ℕ, ℤ, pos, neg_ℤ, codes, length, map, All, Some, None, Ok, Err};
ghost use Rattle.ada_input.specs.Input.{input_of, number_of, words_from};
ghost use Rattle.ada_input.specs.Place.{StandsIn};
ghost use Rattle.ada_input.specs.Written.{AreSeparators, EndsWord, IsBadWord, IsInteger, Spaced, StandApart, number_in, written};

/// Integers that were written in decimal, with separators before, between and perhaps behind them, are read again.
#[tactic(auto, using(crate::proofs::WrittenLemmas::read_again))]
pub fn numbers_are_read_again()
    ensures { (lead : List ℕ) (xs : List Spaced) → AreSeparators lead → StandApart xs []
        → input_of (lead ++ written xs) ≡ Ok (map number_in xs) }
{}

/// A bad word behind numbers is told by the place of its first byte, whatever stands behind it.
#[tactic(auto, using(crate::proofs::WrittenLemmas::bad_word))]
pub fn first_bad_words_are_told()
    ensures { (lead : List ℕ) (xs : List Spaced) (word rest : List ℕ)
        → AreSeparators lead → StandApart xs (word ++ rest) → IsBadWord word → EndsWord rest
        → input_of (lead ++ (written xs ++ (word ++ rest))) ≡ Err (1 + length lead + length (written xs)) }
{}

/// The words of an input stand at their places, whole: no separator is in one, and one stands before it and behind it,
/// or an end of the input.
#[tactic(auto, using(crate::proofs::PlaceLemmas::words_stand))]
pub fn words_stand_at_their_places()
    ensures { (bytes : List ℕ) → All (StandsIn bytes) (words_from 1 bytes) }
{}

/// A word's number is an Integer, and the words at the bounds are numbers.
#[tactic(auto, using(crate::proofs::WrittenLemmas::number_of_IsInteger), unfolding(crate::specs::Input::number_of, crate::specs::Input::magnitude_of, crate::specs::Input::value))]
pub fn numbers_are_integers()
    ensures in_range { (word : List ℕ) (z : ℤ) → number_of word ≡ Some z → IsInteger z }
    ensures least { number_of (codes "-2147483648") ≡ Some (neg_ℤ (pos (2 ^ 31))) }
    ensures greatest { number_of (codes "2147483647") ≡ Some (pos (2 ^ 31 - 1)) }
    ensures minus_zero { number_of (codes "-0") ≡ Some (pos 0) }
    ensures zeros { number_of (codes "00000000000000000007") ≡ Some (pos 7) }
{}

/// Words past the bounds are no numbers, nor are words with a plus sign, an underscore or a letter, or with no digit.
#[tactic(auto, unfolding(crate::specs::Input::number_of, crate::specs::Input::magnitude_of, crate::specs::Input::value))]
pub fn other_words_are_bad()
    ensures below { number_of (codes "-2147483649") ≡ None }
    ensures above { number_of (codes "2147483648") ≡ None }
    ensures plus { number_of (codes "+1") ≡ None }
    ensures sign { number_of (codes "-") ≡ None }
    ensures signs { number_of (codes "--1") ≡ None }
    ensures underscore { number_of (codes "1_000") ≡ None }
    ensures letter { number_of (codes "7x") ≡ None }
{}

/// Inputs with no number, with two, and with a bad word.
#[tactic(auto, using(crate::proofs::WrittenLemmas::blank), unfolding(crate::specs::Input::number_of, crate::specs::Input::magnitude_of, crate::specs::Input::value, crate::specs::Input::words_among, crate::specs::Input::numbers_of, crate::specs::Input::is_separator))]
pub fn inputs_have_their_numbers()
    ensures blank { (gap : List ℕ) → AreSeparators gap → input_of gap ≡ Ok [] }
    ensures two { input_of (codes " 7\n\t-8\r\n") ≡ Ok (pos 7 ∷ neg_ℤ (pos 8) ∷ []) }
    ensures first { input_of (codes "7x") ≡ Err 1 }
    ensures second { input_of (codes "7 -2147483649") ≡ Err 3 }
{}

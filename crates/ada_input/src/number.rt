//! The number that a word writes.

ghost use Rattle.std.specs.Prelude.{◌≡◌, ◌≤◌, ◌<◌, length, IsTrue, IfSome};
ghost use Rattle.std.specs.Str.Parse.{starts_with_minus};
ghost use Rattle.ada_input.specs.Input.{magnitude_of, number_of};

/// The absolute value of the least Integer.
const GREATEST_NEGATIVE: u32 = 1 << 31;
/// The greatest Integer.
const GREATEST_POSITIVE: u32 = (1 << 31) - 1;

/// What digits stand for, if there is at least one, nothing else among them, and they stand for at most `greatest`.
#[tactic(auto, using(std::proofs::lemmas::Grind::common_steps, crate::proofs::NumberLemmas::steps), unfolding(crate::specs::Input::magnitude_of))]
fn magnitude(digits: &[u8], greatest: u32) -> Option<u32>
    ensures value { result ≡ magnitude_of greatest digits.now }
    ensures within { IfSome result (λ value. value ≤ greatest) }
{
    if digits.is_empty() {
        return None;
    }
    let mut value = 0u64;
    for digit in digits {
        if !digit.is_ascii_digit() {
            return None;
        }
        value = value * 10 + u64::from(*digit - b'0');
        if value > u64::from(greatest) {
            return None;
        }
    }
    Some(value as u32)
}

/// Whether a minus sign stands first.
fn is_negative(word: &[u8]) -> bool
    ensures sign { result ≡ starts_with_minus word.now }
    ensures byte { IsTrue result → 0 < length word.now }
{
    !word.is_empty() && word[0] == b'-'
}

/// The Integer that a word writes, if it writes one.
#[tactic(auto, using(std::proofs::lemmas::Int::ints, crate::proofs::NumberLemmas::number_of_minus, crate::proofs::NumberLemmas::number_of_plain))]
pub fn number(word: &[u8]) -> Option<i32>
    ensures { result ≡ number_of word.now }
{
    if is_negative(word) {
        let value = magnitude(&word[1..], GREATEST_NEGATIVE)?;
        Some((-i64::from(value)) as i32)
    } else {
        let value = magnitude(word, GREATEST_POSITIVE)?;
        Some(value as i32)
    }
}

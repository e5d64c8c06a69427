//! From the bytes of an input to its numbers.

ghost use Rattle.std.specs.Prelude.{◌≡◌, ℕ, ◌≤◌, ◌<◌, length, slice_index, true, false, Ok, IfOk, IfErr};
ghost use Rattle.ada_input.specs.Input.{is_separator, input_of, IsFaultOf};

use crate::fault::InputFault;
use crate::number::number;
use std::alloc::Global;

/// Whether a byte separates words.
#[tactic(auto, unfolding(crate::specs::Input::is_separator))]
fn is_separator(byte: u8) -> bool
    ensures { result ≡ is_separator byte }
{
    matches!(byte, b'\t' | b'\n' | b'\r' | b' ')
}

/// How many bytes stand before the first separator.
fn word_len(bytes: &[u8]) -> usize
    ensures within { result ≤ length bytes.now }
    ensures before { (k : ℕ) → k < result → is_separator (slice_index bytes.now k) ≡ false }
    ensures behind { result < length bytes.now → is_separator (slice_index bytes.now result) ≡ true }
{
    for (i, byte) in bytes.iter().enumerate() {
        if is_separator(*byte) {
            return i;
        }
    }
    bytes.len()
}

/// The numbers that the words of an input write, in order.
///
/// # Errors
///
/// `BadWord` where a word is no number of the type Integer: the place of the first such word. `NoMemory` where memory
/// was refused; it says nothing of the input.
pub fn numbers(alloc: Global, bytes: &[u8]) -> Result<Vec<i32>, InputFault>
    ensures numbers { IfOk result (λ found. input_of bytes.now ≡ Ok found.items) }
    ensures fault { IfErr result (λ fault. IsFaultOf bytes.now fault) }
{
    let mut found = Vec::new(alloc);
    let mut at = 0;
    while at < bytes.len() {
        if is_separator(bytes[at]) {
            at += 1;
            continue;
        }
        let end = at + word_len(&bytes[at..]);
        let Some(value) = number(&bytes[at..end]) else {
            return Err(InputFault::BadWord { place: at + 1 });
        };
        if found.push(value).is_err() {
            return Err(InputFault::NoMemory);
        }
        at = end;
    }
    Ok(found)
}

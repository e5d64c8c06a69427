//! What stands between tokens: separators and comments.

ghost use Rattle.std.specs.Prelude.{◌≡◌, ◌+◌, ◌≤◌, ◌<◌, length, drop};
ghost use Rattle.std.specs.List.{prefix_len};
ghost use Rattle.ada_text.specs.Bytes.{stays_on_line};
ghost use Rattle.ada_text.specs.Gap.{begins_comment, next_start};
ghost use Rattle.ada_text.specs.Place.{StandsIn};

use crate::bytes::{has_byte, is_separator};
use crate::limits::LONGEST_SOURCE;
use crate::place::Place;

/// Whether two hyphens stand at `at`.
fn begins_comment(source: &[u8], at: usize) -> bool
    requires { at < length source.now }
    ensures { result ≡ begins_comment (drop at source.now) }
{
    source[at] == b'-' && has_byte(source, at + 1, b'-')
}

/// How many bytes of a text stand on its first line, the line feed aside.
fn line_len(text: &[u8]) -> usize
    ensures { result ≡ prefix_len stays_on_line text.now }
{
    for (i, byte) in text.iter().enumerate() {
        if *byte == b'\n' {
            return i;
        }
    }
    text.len()
}

/// The first place from `start` on where neither a separator nor a comment stands.
///
/// A comment runs from `--` to the line's end and may hold any byte (2.7).
#[tactic(auto, using(std::proofs::lemmas::Grind::common_steps, crate::proofs::GapLemmas::steps))]
pub fn past_gap(source: &[u8], start: Place) -> Place
    requires limit { length source.now ≤ LONGEST_SOURCE }
    requires here { StandsIn source.now start }
    ensures at { result.at ≡ next_start source.now start.at }
    ensures stands { StandsIn source.now result }
{
    let mut place = start;
    while place.at < source.len() {
        if begins_comment(source, place.at) {
            place = place.past(source, line_len(&source[place.at..]));
        } else if is_separator(source[place.at]) {
            place = place.next(source);
        } else {
            return place;
        }
    }
    place
}

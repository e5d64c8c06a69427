//! Where a reader stands in a source.

ghost use Rattle.std.specs.Prelude.{◌≡◌, ◌+◌, ◌≤◌, ◌<◌, length, drop, take};
ghost use Rattle.std.specs.List.{AllPass};
ghost use Rattle.ada_text.specs.Bytes.{stays_on_line};

use crate::limits::LONGEST_SOURCE;
use crate::spot::Spot;

/// A place in a source: how many bytes stand before it, and its line and column.
#[derive(Clone, Copy, Debug)]
pub struct Place {
    pub at: usize,
    pub line: u32,
    pub column: u32,
}

impl Place {
    ghost use Rattle.ada_text.specs.Place.{StandsIn};

    /// The source's first byte.
    pub const START: Place = Place {
        at: 0,
        line: 1,
        column: 1,
    };

    /// The place as people count it.
    pub fn spot(self) -> Spot
        ensures line { result.line ≡ self.line }
        ensures column { result.column ≡ self.column }
    {
        Spot {
            line: self.line,
            column: self.column,
        }
    }

    /// The place behind the byte that stands here.
    #[tactic(auto, using(crate::proofs::PlaceLemmas::steps))]
    pub fn next(self, source: &[u8]) -> Place
        requires limit { length source.now ≤ LONGEST_SOURCE }
        requires here { StandsIn source.now self }
        requires more { self.at < length source.now }
        ensures at { result.at ≡ self.at + 1 }
        ensures stands { StandsIn source.now result }
    {
        if source[self.at] == b'\n' {
            Place {
                at: self.at + 1,
                line: self.line + 1,
                column: 1,
            }
        } else {
            Place {
                at: self.at + 1,
                line: self.line,
                column: self.column + 1,
            }
        }
    }

    /// The place behind `count` bytes that stand here, none of which ends the line.
    #[tactic(auto, using(crate::proofs::PlaceLemmas::steps))]
    pub fn past(self, source: &[u8], count: usize) -> Place
        requires limit { length source.now ≤ LONGEST_SOURCE }
        requires here { StandsIn source.now self }
        requires more { self.at + count ≤ length source.now }
        requires on_line { AllPass stays_on_line (take count (drop self.at source.now)) }
        ensures at { result.at ≡ self.at + count }
        ensures stands { StandsIn source.now result }
    {
        Place {
            at: self.at + count,
            line: self.line,
            column: self.column + count as u32,
        }
    }
}

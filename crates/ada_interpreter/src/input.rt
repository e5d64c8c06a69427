//! The input of a run.

ghost use Rattle.std.specs.Prelude.{◌≡◌, [], ◌∷◌, MatchOption};
ghost use Rattle.ada_meaning.specs.Step.{older};

use std::marker::Model;

/// The numbers of the input, seen as those that are left.
#[derive(Drop)]
pub(crate) struct Input {
    numbers: Vec<i32>,
    /// How many have been taken.
    taken: usize,
}

impl Model for Input {
    ghost use Rattle.std.specs.Prelude.{List, ℤ, drop};

    ghost Value = { List ℤ };

    ghost view = { λ s. drop s.taken s.numbers.items };
}

impl Input {
    /// All of these numbers are left.
    pub(crate) fn new(numbers: Vec<i32>) -> Input
        ensures { result ≡ numbers.items }
    {
        Input { numbers, taken: 0 }
    }

    /// Takes the next number, if there is one.
    pub(crate) fn next(&mut self) -> Option<i32>
        ensures number { MatchOption result (self.old ≡ []) (λ i. self.old ≡ i ∷ older self.old) }
        ensures left { self.new ≡ older self.old }
    {
        let number = *self.numbers.get(self.taken)?;
        self.taken += 1;
        Some(number)
    }
}

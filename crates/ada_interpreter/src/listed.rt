//! Choices that follow a list of answers.

ghost use Rattle.std.specs.Prelude.{◌≡◌, true};
ghost use Rattle.ada_meaning.specs.Step.{older};
ghost use Rattle.ada_interpreter.specs.Listed.{first_or, is_asked};

use crate::choices::Choices;
use ada_meaning::Request;
use std::alloc::AllocError;
use std::collections::VecDeque;
use std::marker::Model;

/// Follows answers, seen as those that are left. Once none is left it grants, and takes the newest member.
#[derive(Drop)]
pub struct Listed {
    grants: VecDeque<bool>,
    picks: VecDeque<usize>,
}

impl Model for Listed {
    ghost use Rattle.ada_interpreter.specs.Listed.{Answers};

    ghost Value = { Answers };

    ghost view = { λ s. record { grants = s.grants.items; picks = s.picks.items } };
}

impl Listed {
    /// Whether each request for storage in turn is granted, and which member is taken each time, counted from the
    /// newest, the 0th.
    pub fn new(grants: VecDeque<bool>, picks: VecDeque<usize>) -> Listed
        ensures { result ≡ record { grants = grants.items; picks = picks.items } }
    {
        Listed { grants, picks }
    }
}

impl Choices for Listed {
    ghost use Rattle.std.specs.Prelude.{◌≡◌};
    ghost use Rattle.ada_meaning.specs.Step.{older};
    ghost use Rattle.ada_interpreter.specs.Listed.{first_or, granted_by, left_by, member_below};

    ghost grants = { λ before request yes after. (yes ≡ granted_by request before.grants)
        × (after ≡ record before { grants = left_by request before.grants }) };

    ghost picks = { λ before n i after. (i ≡ member_below n (first_or 0 before.picks))
        × (after ≡ record before { picks = older before.picks }) };

    fn grant(&mut self, request: &Request) -> Result<bool, AllocError> {
        if is_asked(request) {
            Ok(next_grant(&mut self.grants))
        } else {
            Ok(true)
        }
    }

    fn pick(&mut self, n: usize) -> usize {
        let i = next_pick(&mut self.picks);
        if i < n { i } else { 0 }
    }
}

/// Whether a request is answered, and not only told.
pub(crate) fn is_asked(request: &Request) -> bool
    ensures { result ≡ is_asked request.now }
{
    match request {
        Request::Allocate {
            pool: _,
            owner: _,
            words: _,
            object: _,
        } => true,
        Request::Open { pool: _, owner: _ } => true,
        Request::Back { object: _ } => false,
        Request::Close { pool: _, owner: _ } => false,
        Request::New {
            pool: _,
            declaration: _,
        } => false,
        Request::Gone { pool: _ } => false,
    }
}

/// The next answer to a request; yes, if none is left.
fn next_grant(answers: &mut VecDeque<bool>) -> bool
    ensures answer { result ≡ first_or true answers.old.items }
    ensures left { answers.new.items ≡ older answers.old.items }
{
    match answers.pop_front() {
        Some(answer) => answer,
        None => true,
    }
}

/// The next answer to a choice of members; the newest, if none is left.
fn next_pick(answers: &mut VecDeque<usize>) -> usize
    ensures answer { result ≡ first_or 0 answers.old.items }
    ensures left { answers.new.items ≡ older answers.old.items }
{
    match answers.pop_front() {
        Some(answer) => answer,
        None => 0,
    }
}

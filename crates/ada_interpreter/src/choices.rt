//! What a run leaves open: whether a request is granted, and which of several members is taken.

ghost use Rattle.std.specs.Prelude.{◌≡◌, ℕ, Bool, true, ◌<◌, IfOk};

use crate::listed::is_asked;
use ada_meaning::Request;
use std::alloc::AllocError;

/// Who answers what a run leaves open.
pub trait Choices {
    ghost use Rattle.ada_meaning.specs.declared.request.Request.{Request};

    /// From the first state the request may be answered so, and the second is left.
    ghost grants: { Self → Request → Bool → Self → Type 0 };

    /// From the first state this one of the members, counted from the newest, may be taken, and the second is left.
    ghost picks: { Self → ℕ → ℕ → Self → Type 0 };

    /// Whether a request is granted.
    ///
    /// # Errors
    /// Where a growth was refused.
    fn grant(&mut self, request: &Request) -> Result<bool, AllocError>
        ensures { IfOk result (λ yes. grants self.old request.now yes self.new) };

    /// One of `n` remaining members, counted from 0, the newest.
    fn pick(&mut self, n: usize) -> usize
        requires { 0 < n }
        ensures below { result < n }
        ensures picked { picks self.old n result self.new };
}

/// Refuses one request for storage and grants the others (11.1, 13.11), and takes the newest member. What is only told
/// does not count.
#[derive(Clone, Copy)]
pub struct RefuseOne {
    /// How many requests for storage it is until the one that is refused; 0 where none will be.
    pub left: u32,
}

impl Choices for RefuseOne {
    ghost use Rattle.std.specs.Prelude.{◌≡◌, ◌-◌, ◌&&◌, nat_eq, not, cond};
    ghost use Rattle.ada_interpreter.specs.Listed.{is_asked};

    ghost grants = { λ before request yes after. (yes ≡ not (is_asked request && nat_eq before.left 1))
        × (after.left ≡ cond (is_asked request) (before.left - 1) before.left) };

    ghost picks = { λ before _ i after. (i ≡ 0) × (after ≡ before) };

    fn grant(&mut self, request: &Request) -> Result<bool, AllocError> {
        if self.left == 0 || !is_asked(request) {
            return Ok(true);
        }
        self.left -= 1;
        Ok(self.left != 0)
    }

    fn pick(&mut self, _n: usize) -> usize {
        0
    }
}

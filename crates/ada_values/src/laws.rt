//! Laws of the operators, by the definition alone.

ghost use Rattle.std.specs.Prelude.{◌≡◌, ◌≢◌, ◌/◌, ◌↔◌, ℤ, pos, neg_ℤ, ◌+ℤ◌, ◌*ℤ◌, unsigned_abs, FitsSigned};
ghost use Rattle.std.specs.Int.{w32};
ghost use Rattle.ada_values.specs.Operators.{first_integer, IsInRange, HasSign, IsQuotient, IsRemainder, IsModulus, Overflows, UnaryOverflows, IsOutcome, UnaryIsOutcome};
ghost use Rattle.ada_values.specs.Outcome.{outcome_of, unary_outcome_of};
ghost use Rattle.ada_values.specs.One.{HasOne, HasOneOutcome};

use crate::operator::{BinaryOperator, UnaryOperator};
use crate::value::Value;

/// An operator gives one value or has one fault, whatever its operands are, and never two.
pub fn each_operator_has_one_outcome()
    ensures unary { (operator : UnaryOperator) (operand : Value)
        → HasOneOutcome (UnaryIsOutcome operator operand) }
    ensures binary { (operator : BinaryOperator) (left right : Value)
        → HasOneOutcome (IsOutcome operator left right) }
{}

/// The outcome as a function is the outcome, whatever the operands are.
pub fn the_outcome_is_that_of_the_operator()
    ensures unary { (operator : UnaryOperator) (operand : Value)
        → UnaryIsOutcome operator operand (unary_outcome_of operator operand) }
    ensures binary { (operator : BinaryOperator) (left right : Value)
        → IsOutcome operator left right (outcome_of operator left right) }
{}

/// A division by a number other than 0 has one quotient, one remainder and one modulus (4.5.5).
pub fn each_division_has_one_result()
    ensures quotient { (a b : ℤ) → b ≢ pos 0 → HasOne (IsQuotient a b) }
    ensures remainder { (a b : ℤ) → b ≢ pos 0 → HasOne (IsRemainder a b) }
    ensures modulus { (a b : ℤ) → b ≢ pos 0 → HasOne (IsModulus a b) }
{}

/// A division by 0 has no quotient, no remainder and no modulus (4.5.5).
pub fn division_by_zero_has_no_result()
    ensures quotient { (a q : ℤ) → ¬ IsQuotient a (pos 0) q }
    ensures remainder { (a r : ℤ) → ¬ IsRemainder a (pos 0) r }
    ensures modulus { (a m : ℤ) → ¬ IsModulus a (pos 0) m }
{}

/// `A = (A/B)*B + (A rem B)` (4.5.5).
pub fn quotient_and_remainder_make_the_whole()
    ensures { (a b q r : ℤ) → IsQuotient a b q → IsRemainder a b r → a ≡ q *ℤ b +ℤ r }
{}

/// A quotient is rounded toward zero, and `(-A)/B = -(A/B) = A/(-B)` (4.5.5).
pub fn quotients_are_rounded_toward_zero()
    ensures size { (a b q : ℤ) → IsQuotient a b q
        → unsigned_abs q ≡ unsigned_abs a / unsigned_abs b }
    ensures left { (a b q : ℤ) → IsQuotient a b q → IsQuotient (neg_ℤ a) b (neg_ℤ q) }
    ensures right { (a b q : ℤ) → IsQuotient a b q → IsQuotient a (neg_ℤ b) (neg_ℤ q) }
{}

/// A remainder has the sign of the left operand or is 0, `A rem (-B) = A rem B`, and `(-A) rem B = -(A rem B)` (4.5.5).
pub fn remainders_follow_the_left_operand()
    ensures sign { (a b r : ℤ) → IsRemainder a b r → HasSign r a }
    ensures right { (a b r : ℤ) → IsRemainder a b r → IsRemainder a (neg_ℤ b) r }
    ensures left { (a b r : ℤ) → IsRemainder a b r → IsRemainder (neg_ℤ a) b (neg_ℤ r) }
{}

/// A modulus has the sign of the right operand or is 0, and `(A + K*B) mod B = A mod B` (4.5.5).
pub fn moduli_follow_the_right_operand()
    ensures sign { (a b m : ℤ) → IsModulus a b m → HasSign m b }
    ensures shifted { (a b k m : ℤ) → IsModulus a b m → IsModulus (a +ℤ k *ℤ b) b m }
{}

/// `rem` and `mod` are the same where the left operand has the sign of the right one, or is 0 (4.5.5).
pub fn rem_is_mod_where_the_signs_agree()
    ensures { (a b z : ℤ) → HasSign a b → IsRemainder a b z ↔ IsModulus a b z }
{}

/// The range of Integer is that of `i32` (3.5.4).
pub fn the_range_is_that_of_i32()
    ensures { (z : ℤ) → IsInRange z ↔ FitsSigned w32 z }
{}

/// The opposite of the first Integer is the only one that overflows (4.5.4).
pub fn one_opposite_overflows()
    ensures minus { (a : ℤ) → IsInRange a
        → UnaryOverflows UnaryOperator.Minus (Value.Integer a) ↔ (a ≡ first_integer) }
    ensures plus { (a : ℤ) → IsInRange a
        → ¬ UnaryOverflows UnaryOperator.Plus (Value.Integer a) }
{}

/// The first Integer divided by -1 is the only division of Integers that overflows (4.5.5).
pub fn one_division_overflows()
    ensures divide { (a b : ℤ) → IsInRange a → IsInRange b
        → Overflows BinaryOperator.Divide (Value.Integer a) (Value.Integer b)
        ↔ ((a ≡ first_integer) × (b ≡ neg_ℤ (pos 1))) }
    ensures remainder { (a b : ℤ) → IsInRange a → IsInRange b
        → ¬ Overflows BinaryOperator.Remainder (Value.Integer a) (Value.Integer b) }
    ensures modulo { (a b : ℤ) → IsInRange a → IsInRange b
        → ¬ Overflows BinaryOperator.Modulo (Value.Integer a) (Value.Integer b) }
{}

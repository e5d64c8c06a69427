//! What is known after two ways: of each variable what both say of it.

ghost use Rattle.std.specs.Prelude.{◌≡◌};
ghost use Rattle.ada_flow.specs.Flow as rules;
ghost use Rattle.ada_flow.specs.Told.{held};

use crate::known::Known;
use crate::rule::{Hold, Region};

/// What is known of a variable after two ways.
fn join_hold(one: Hold, other: Hold) -> Hold
    ensures { result ≡ rules.join_hold one other }
{
    match (one, other) {
        (Hold::Null, Hold::Kept(region)) | (Hold::Kept(region), Hold::Null) => Hold::Own(region),
        (Hold::Null, hold) | (hold, Hold::Null) => hold,
        (Hold::Kept(Region::Whole), Hold::Kept(Region::Whole)) => one,
        (
            Hold::Kept(Region::Whole) | Hold::Own(Region::Whole),
            Hold::Kept(Region::Whole) | Hold::Own(Region::Whole),
        ) => Hold::Own(Region::Whole),
        (Hold::Alias(Region::Whole), Hold::Alias(Region::Whole)) => one,
        _ => Hold::Lost,
    }
}

/// What each variable holds after two ways, as far as both know of variables.
#[tactic(auto, using(std::proofs::lemmas::Grind::common_steps, crate::proofs::Joined::join_short))]
fn join_holds(one: &mut Vec<Hold>, other: &[Hold])
    ensures { one.new.items ≡ rules.join one.old.items other.now }
{
    one.truncate(other.len());
    for number in 0..one.len() {
        one[number] = join_hold(one[number], other[number]);
    }
}

/// What is known of each variable after two ways.
#[tactic(auto, using(std::proofs::lemmas::Grind::common_steps, crate::proofs::Aliased::told_of_join))]
pub(crate) fn join_into(one: &mut Known, other: &Known)
    ensures { one.new.holds.items ≡ rules.join one.old.holds.items other.now.holds.items }
{
    join_holds(&mut one.holds, other.holds());
    one.aliased |= other.aliased;
}

/// What is known where one way, or both, may not come to their end.
pub(crate) fn join_ends(one: Option<Known>, other: Option<Known>) -> Option<Known>
    ensures { held result ≡ rules.join_option (held one) (held other) }
{
    match (one, other) {
        (None, other) => other,
        (Some(one), None) => Some(one),
        (Some(mut one), Some(other)) => {
            join_into(&mut one, &other);
            Some(one)
        }
    }
}

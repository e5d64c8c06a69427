//! The paths that expressions follow: the leftmost rule that one breaks, and where.

ghost use Rattle.std.specs.Prelude.{◌≡◌};
ghost use Rattle.ada_flow.specs.Flow as rules;
ghost use Rattle.ada_flow.specs.Told.{Follows, broken, tracks_in};
ghost use Rattle.ada_program.specs.Form.{path_form, record_path_form, expression_form, links_form};

use crate::fault::Breach;
use crate::holds::hold_seen;
use crate::rule::{Hold, Rule};
use crate::tracking::is_whole_formal;
use crate::tracks::Tracks;
use ada_program::program::{Expression, Link, RecordPath};
use ada_program::{Path, Spot};

/// Follows the paths of an expression.
///
/// # Errors
/// The leftmost place where a path follows a lost value.
pub(crate) fn follow(
    tracks: Tracks<'_>,
    holds: &[Hold],
    expression: &Expression,
) -> Result<(), Breach>
    ensures { Follows result
        (rules.broken_among (tracks_in tracks.entry) holds.now (rules.uses_in (expression_form expression.now))) }
{
    unless_broken(broken_in(tracks, holds, expression))
}

/// Follows the path of a target up to the object in which its component lies.
///
/// # Errors
/// Where it follows a lost value.
pub(crate) fn follow_target(tracks: Tracks<'_>, holds: &[Hold], target: &Path) -> Result<(), Breach>
    ensures { Follows result
        (rules.broken_among (tracks_in tracks.entry) holds.now (rules.uses_in_target (path_form target.now))) }
{
    unless_broken(broken_in_target(tracks, holds, target))
}

/// A rule that is broken is told.
pub(crate) fn unless_broken(breach: Option<Breach>) -> Result<(), Breach>
    ensures { Follows result (broken breach) }
{
    match breach {
        None => Ok(()),
        Some(breach) => Err(breach),
    }
}

/// The leftmost rule that the path of a target breaks.
pub(crate) fn broken_in_target(tracks: Tracks<'_>, holds: &[Hold], target: &Path) -> Option<Breach>
    ensures { broken result
        ≡ rules.broken_among (tracks_in tracks.entry) holds.now (rules.uses_in_target (path_form target.now)) }
{
    leftmost(broken_in_path(tracks, holds, target), None)
}

/// The leftmost rule that an expression breaks.
#[cycle(following)]
#[tactic(auto, using(std::proofs::lemmas::Grind::common_steps, ada_program::specs::Form::expression_rules, crate::proofs::Leftmost::broken_steps))]
pub(crate) fn broken_in(
    tracks: Tracks<'_>,
    holds: &[Hold],
    expression: &Expression,
) -> Option<Breach>
    ensures { broken result
        ≡ rules.broken_among (tracks_in tracks.entry) holds.now (rules.uses_in (expression_form expression.now)) }
{
    match expression {
        Expression::Integer(_) | Expression::Boolean(_) => None,
        Expression::Path(path) => broken_in_path(tracks, holds, path),
        Expression::NullTest { path, equal: _ } => broken_in_test(tracks, holds, path),
        Expression::Unary {
            operator: _,
            operand,
        } => broken_in(tracks, holds, operand),
        Expression::Chain { first, links } => leftmost(
            broken_in(tracks, holds, first),
            broken_in_links(tracks, holds, links),
        ),
    }
}

/// The leftmost rule that the operands behind the first one break.
#[cycle(following)]
#[tactic(auto, using(std::proofs::lemmas::Grind::common_steps, ada_program::specs::Form::expression_rules, crate::proofs::Leftmost::broken_steps))]
fn broken_in_links(tracks: Tracks<'_>, holds: &[Hold], links: &[Link]) -> Option<Breach>
    ensures { broken result
        ≡ rules.broken_among (tracks_in tracks.entry) holds.now (rules.uses_in_links (links_form links.now)) }
{
    let mut found = None;
    'links: for link in links {
        found = leftmost(found, broken_in(tracks, holds, &link.operand));
    }
    found
}

/// The rule that reading a path breaks: a component is not found behind a lost value.
pub(crate) fn broken_in_path(tracks: Tracks<'_>, holds: &[Hold], path: &Path) -> Option<Breach>
    ensures { broken result ≡ rules.broken_in (tracks_in tracks.entry) holds.now (rules.reads_it (path_form path.now)) }
{
    if tracks.seen(path).selectors.is_empty() {
        None
    } else {
        lost_by(hold_seen(tracks, holds, path), path.spot)
    }
}

/// The rule that comparing a path with null breaks: a variable's own value must not be lost either.
fn broken_in_test(tracks: Tracks<'_>, holds: &[Hold], path: &Path) -> Option<Breach>
    ensures { broken result ≡ rules.broken_in (tracks_in tracks.entry) holds.now (rules.compares_it (path_form path.now)) }
{
    lost_by(hold_seen(tracks, holds, path), path.spot)
}

/// The rule that the path to the object in which a record lies breaks: its variable must not be lost.
pub(crate) fn broken_in_reach(tracks: Tracks<'_>, holds: &[Hold], path: &Path) -> Option<Breach>
    ensures { broken result ≡ rules.broken_in (tracks_in tracks.entry) holds.now (rules.reaches_it (path_form path.now)) }
{
    lost_by(hold_seen(tracks, holds, path), path.spot)
}

/// The rule that a record breaks that is copied or passed: the formal parameter as a whole is not, while one of its tracked
/// components has no owner in it. Costs as much as components are tracked.
pub(crate) fn broken_in_sharing(
    tracks: Tracks<'_>,
    holds: &[Hold],
    path: &RecordPath,
) -> Option<Breach>
    ensures { broken result ≡ rules.broken_in (tracks_in tracks.entry) holds.now (rules.shares_it (record_path_form path.now)) }
{
    if is_whole_formal(path) && !tracks.are_owned(holds) {
        Some(Breach {
            spot: path.object.spot,
            rule: Rule::AliasMoved,
        })
    } else {
        None
    }
}

/// What is lost is neither followed nor compared.
pub(crate) fn lost_by(hold: Hold, spot: Spot) -> Option<Breach>
    ensures { broken result ≡ rules.lost_by hold spot }
{
    match hold {
        Hold::Null | Hold::Kept(_) | Hold::Own(_) | Hold::Alias(_) => None,
        Hold::Lost => Some(Breach {
            spot,
            rule: Rule::LostValue,
        }),
    }
}

/// The leftmost of two breaches, where they are there.
pub(crate) fn leftmost(one: Option<Breach>, other: Option<Breach>) -> Option<Breach>
    ensures { broken result ≡ rules.leftmost (broken one) (broken other) }
{
    match (one, other) {
        (None, other) => other,
        (Some(breach), None) => Some(breach),
        (Some(breach), Some(another)) => if is_left_of(another.spot, breach.spot) {
            other
        } else {
            one
        },
    }
}

/// Whether a place stands before another in the text.
fn is_left_of(one: Spot, other: Spot) -> bool
    ensures { result ≡ rules.is_left_of one other }
{
    one.line < other.line || one.line == other.line && one.column < other.column
}

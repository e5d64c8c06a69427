//! What each variable holds, by its number.

ghost use Rattle.std.specs.Prelude.{◌≡◌};
ghost use Rattle.std.specs.List.{list_any};
ghost use Rattle.ada_flow.specs.Aliases.{is_alias};
ghost use Rattle.ada_flow.specs.Flow.{hold_at, hold_seen};
ghost use Rattle.ada_flow.specs.Told.{tracks_in};
ghost use Rattle.ada_program.specs.Form.{path_form};

use crate::rule::Hold;
use crate::tracks::Tracks;
use ada_program::{Path, VariableNo};

/// What a variable holds; one that is not declared yet is lost.
pub(crate) fn hold_of(holds: &[Hold], variable: VariableNo) -> Hold
    ensures { result ≡ hold_at holds.now variable.0 }
{
    match holds.get(variable.0) {
        Some(hold) => *hold,
        None => Hold::Lost,
    }
}

/// What is held where a path begins, as it is judged.
pub(crate) fn hold_seen(tracks: Tracks<'_>, holds: &[Hold], path: &Path) -> Hold
    ensures { result ≡ hold_seen (tracks_in tracks.entry) holds.now (path_form path.now) }
{
    hold_of(holds, tracks.seen(path).root)
}

/// Whether a hold is an alias.
pub(crate) fn is_alias(hold: Hold) -> bool
    ensures { result ≡ is_alias hold }
{
    matches!(hold, Hold::Alias(_))
}

/// Whether a variable holds an alias.
pub(crate) fn have_alias(holds: &[Hold]) -> bool
    ensures { result ≡ list_any is_alias holds.now }
{
    holds.iter().any(|hold| is_alias(*hold))
}

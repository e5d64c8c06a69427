//! Where a statement stands.

ghost use Rattle.std.specs.Prelude.{◌≡◌, Some, None, map};
ghost use Rattle.ada_effects.specs.Found.{effects_in};
ghost use Rattle.ada_flow.specs.Flow as rules;
ghost use Rattle.ada_flow.specs.Told.{around_of, gone_of, keepings_in, tracks_in, types_in, variable_number, variables_in};
ghost use Rattle.ada_program.specs.ProgramForm.{type_form, variable_form};

use crate::gone::Gone;
use crate::rule::Hold;
use crate::setting::Setting;
use ada_program::{Spot, VariableNo};

/// Where a statement stands.
#[derive(Clone, Copy)]
pub(crate) struct Around<'a> {
    /// What is the same for all statements of its body.
    pub(crate) setting: Setting<'a>,
    /// What is known where the innermost loop around it starts, if there is one.
    pub(crate) start: Option<&'a [Hold]>,
    /// What goes with the blocks between that loop and the statement.
    pub(crate) inside: &'a Gone,
    /// What goes with the body and with all blocks around the statement.
    pub(crate) within: &'a Gone,
}

impl<'a> Around<'a> {
    /// In no loop, and in no block but the body, with which this goes.
    pub(crate) fn in_body(setting: Setting<'a>, inside: &'a Gone, within: &'a Gone) -> Around<'a>
        ensures types { types_in result ≡ map type_form setting.entry.types.now }
        ensures variables { variables_in result ≡ map variable_form setting.entry.variables.now }
        ensures place { around_of result ≡ record {
          effects = effects_in setting.entry.effects;
          kept = keepings_in setting.entry.kept.now;
          tracks = tracks_in setting.entry.tracks;
          owed = map variable_number setting.entry.owed.now;
          start = None;
          inside = gone_of inside.now;
          within = gone_of within.now;
        } }
    {
        Around {
            setting,
            start: None,
            inside,
            within,
        }
    }

    /// In a loop with this start, and in blocks inside it with which this goes, and in those around it.
    pub(crate) fn in_loop(
        setting: Setting<'a>,
        start: &'a [Hold],
        inside: &'a Gone,
        within: &'a Gone,
    ) -> Around<'a>
        ensures types { types_in result ≡ map type_form setting.entry.types.now }
        ensures variables { variables_in result ≡ map variable_form setting.entry.variables.now }
        ensures place { around_of result ≡ record {
          effects = effects_in setting.entry.effects;
          kept = keepings_in setting.entry.kept.now;
          tracks = tracks_in setting.entry.tracks;
          owed = map variable_number setting.entry.owed.now;
          start = Some start.now;
          inside = gone_of inside.now;
          within = gone_of within.now;
        } }
    {
        Around {
            setting,
            start: Some(start),
            inside,
            within,
        }
    }

    /// Where the name of a variable is declared: nowhere, if there is no such variable.
    pub(crate) fn declared_at(&self, variable: VariableNo) -> Spot
        ensures { result ≡ rules.declared_at (variables_in self.now) variable.0 }
    {
        match self.setting.variables.get(variable.0) {
            None => Spot { line: 0, column: 0 },
            Some(variable) => variable.spot,
        }
    }
}

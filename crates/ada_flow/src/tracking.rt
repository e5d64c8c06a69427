//! The components of its formal parameter that a body tracks: what they hold is followed as what variables hold (7.6).

ghost use Rattle.std.specs.Prelude.{◌≡◌, ◌+◌, ◌≤◌, ◌++◌, length, map, IfOk, OnOk};
ghost use Rattle.std.specs.List.{slice_get};
ghost use Rattle.ada_flow.specs.Flow as rules;
ghost use Rattle.ada_flow.specs.Flow.{all_give_back};
ghost use Rattle.ada_flow.specs.Told.{tracks_in, variable_number};
ghost use Rattle.ada_flow.specs.Tracking as tracking;
ghost use Rattle.ada_program.specs.Form.{component_number, path_form, record_path_form};
ghost use Rattle.ada_program.specs.ProgramForm.{part_form, type_form, variable_form};
ghost use Rattle.ada_program.specs.WellFormed as fits;

use crate::frees::object_record;
use crate::holds::hold_of;
use crate::keeping::gives_back;
use crate::rule::{Hold, Region};
use crate::tracks::Tracks;
use ada_program::lookup::{selected_kind, variable_kind};
use ada_program::program::{
    ComponentKind, ComponentNo, Finalization, Operations, Part, PartKind, RecordPath,
    TypeDefinition, Variable, VariableKind,
};
use ada_program::{Path, Spot, VariableNo};
use std::alloc::{AllocError, Global};

/// A path as it is judged: what it begins with, and the components that are named behind that.
#[derive(Clone, Copy)]
pub(crate) struct Seen<'p> {
    pub(crate) root: VariableNo,
    pub(crate) selectors: &'p [ComponentNo],
}

/// Whether a path begins with a component of the formal parameter.
fn begins_with(component: ComponentNo, path: &Path) -> bool
    ensures { let begun = path_form path.now in
        result ≡ tracking.begins_with component.0 begun.root begun.selectors }
{
    match path.selectors.first() {
        None => false,
        Some(first) => path.root.0 == 0 && *first == component,
    }
}

/// Whether a path is a component of the formal parameter.
fn is_component(component: ComponentNo, path: &Path) -> bool
    ensures { let named = path_form path.now in
        result ≡ tracking.is_component component.0 named.root named.selectors }
{
    match path.selectors.as_slice() {
        [only] => path.root.0 == 0 && *only == component,
        _ => false,
    }
}

/// Whether a record is the formal parameter as a whole.
pub(crate) fn is_whole_formal(path: &RecordPath) -> bool
    ensures { result ≡ tracking.is_whole_formal (record_path_form path.now) }
{
    path.object.selectors.is_empty() && path.object.root.0 == 0 && path.part.0 == 0
}

impl<'a> Tracks<'a> {
    /// A body that tracks nothing.
    pub(crate) fn nothing() -> Tracks<'static>
        ensures { tracks_in result ≡ tracking.no_tracks }
    {
        Tracks {
            first: 0,
            components: &[],
        }
    }

    /// A body that has so many variables, and tracks these components behind them, if there are any.
    pub(crate) fn behind(variables: usize, components: &'a [ComponentNo]) -> Tracks<'a>
        requires { variables + length components.now ≤ 18446744073709551615 }
        ensures { tracks_in result ≡ tracking.tracks_behind variables (map component_number components.now) }
    {
        match components {
            [] => Tracks::nothing(),
            [_, ..] => Tracks {
                first: variables,
                components,
            },
        }
    }

    /// A path as it is judged. Costs as much as components are tracked.
    #[tactic(auto, using(std::proofs::lemmas::Grind::common_steps, crate::proofs::Tracked::seen_steps))]
    pub(crate) fn seen<'p>(&self, path: &'p Path) -> Seen<'p>
        ensures root { result.root.0 ≡ (tracking.seen (tracks_in self.now) (path_form path.now)).root }
        ensures selectors { map component_number result.selectors.now
            ≡ (tracking.seen (tracks_in self.now) (path_form path.now)).selectors }
    {
        for (number, component) in self.components.iter().enumerate() {
            if begins_with(*component, path) {
                return Seen {
                    root: VariableNo(self.first + number),
                    selectors: &path.selectors[1..],
                };
            }
        }
        Seen {
            root: path.root,
            selectors: &path.selectors,
        }
    }

    /// Whether a path is a tracked component itself. Costs as much as components are tracked.
    pub(crate) fn has(&self, path: &Path) -> bool
        ensures { result ≡ tracking.is_tracked (tracks_in self.now) (path_form path.now) }
    {
        'components: for component in self.components {
            if is_component(*component, path) {
                return true;
            }
        }
        false
    }
    /// Whether each tracked component is null, or owns what it names.
    #[tactic(auto, using(std::proofs::lemmas::Grind::common_steps, crate::proofs::Tracked::number_steps))]
    pub(crate) fn are_owned(&self, holds: &[Hold]) -> bool
        ensures { result ≡ all_give_back (tracking.tracked_numbers (tracks_in self.now)) holds.now }
    {
        for number in 0..self.components.len() {
            if !gives_back(hold_of(holds, VariableNo(self.first + number))) {
                return false;
            }
        }
        true
    }

    /// The numbers of the tracked components among what is held join others.
    #[tactic(auto, using(std::proofs::lemmas::Grind::common_steps, crate::proofs::Tracked::number_steps))]
    pub(crate) fn add_numbers(&self, owed: &mut Vec<VariableNo>) -> Result<(), AllocError>
        ensures { OnOk result (map variable_number owed.new.items
            ≡ map variable_number owed.old.items ++ tracking.tracked_numbers (tracks_in self.now)) }
    {
        for number in 0..self.components.len() {
            owed.push(VariableNo(self.first + number))?;
        }
        Ok(())
    }

    /// What the tracked components hold at first joins what variables hold: another owns what they name.
    #[tactic(auto, using(std::proofs::lemmas::Grind::common_steps, crate::proofs::Tracked::hold_steps))]
    pub(crate) fn add_holds(&self, holds: &mut Vec<Hold>) -> Result<(), AllocError>
        ensures { OnOk result (holds.new.items
            ≡ holds.old.items ++ map rules.tracked_hold (tracks_in self.now).components) }
    {
        for _ in 0..self.components.len() {
            holds.push(Hold::Alias(Region::Whole))?;
        }
        Ok(())
    }
}

/// Whether a procedure overrides the Adjust of a record type that is finalized so.
fn adjusts(procedure: usize, finalization: &Option<Finalization>) -> bool
    ensures { result ≡ rules.adjusts procedure finalization.now }
{
    match finalization {
        Some(
            Finalization {
                number: _,
                parts: _,
                limited: _,
                operations: Operations {
                    initialize: _,
                    adjust: Some(adjust),
                    finalize: _,
                },
            },
        ) => adjust.0 == procedure,
        _ => false,
    }
}

/// The declared components that are of access types.
fn access_components(alloc: Global, parts: &[Part]) -> Result<Vec<ComponentNo>, AllocError>
    ensures { IfOk result
        (λ found. map component_number found.items ≡ tracking.access_numbers (map part_form parts.now)) }
{
    let mut found = Vec::new(alloc);
    'parts: for part in parts {
        match part.kind {
            PartKind::Elementary(ComponentKind::Access(_)) => found.push(part.first)?,
            PartKind::Elementary(
                ComponentKind::Integer { initial: _ } | ComponentKind::Boolean { initial: _ },
            )
            | PartKind::Record(_)
            | PartKind::Parent => {}
        }
    }
    Ok(found)
}

/// The components that the body of a procedure tracks, which has these variables. Constant, but for an Adjust, where it costs
/// the number of the components that are declared in its type.
pub(crate) fn tracked_components(
    alloc: Global,
    types: &[TypeDefinition],
    procedure: usize,
    variables: &[Variable],
) -> Result<Vec<ComponentNo>, AllocError>
    ensures { let all = map type_form types.now in
        let formal = fits.variable_kind (map variable_form variables.now) 0 in
        IfOk result (λ found. map component_number found.items
        ≡ rules.tracked_by_adjust all procedure (rules.object_record all formal)) }
{
    match object_record(types, variable_kind(variables, 0)) {
        None => Ok(Vec::new(alloc)),
        Some(record_type) => tracked_of(alloc, types, procedure, record_type),
    }
}

/// The components of objects of a record type that its Adjust tracks, where a procedure is that.
fn tracked_of(
    alloc: Global,
    types: &[TypeDefinition],
    procedure: usize,
    record_type: usize,
) -> Result<Vec<ComponentNo>, AllocError>
    ensures { IfOk result (λ found. map component_number found.items
        ≡ rules.tracked_of procedure (slice_get (map type_form types.now) record_type)) }
{
    match types.get(record_type) {
        Some(
            TypeDefinition::Record {
                name: _,
                parts,
                components: _,
                finalization,
            },
        ) if adjusts(procedure, finalization) => access_components(alloc, parts),
        _ => Ok(Vec::new(alloc)),
    }
}

/// A component of the formal parameter of this kind, as the variable as which it is judged.
fn tracked_variable(
    alloc: Global,
    types: &[TypeDefinition],
    formal: Option<VariableKind>,
    component: ComponentNo,
) -> Variable
    ensures { variable_form result
        ≡ tracking.tracked_variable (map type_form types.now) formal component.0 }
{
    let kind = match selected_kind(types, formal, component.0) {
        None => VariableKind::Integer,
        Some(kind) => kind,
    };
    Variable {
        name: String::new(alloc),
        spot: Spot { line: 0, column: 0 },
        kind,
        borrows: false,
    }
}

/// The same variable once more.
fn copied(variable: &Variable) -> Result<Variable, AllocError>
    ensures { IfOk result (λ copy. variable_form copy ≡ variable_form variable.now) }
{
    Ok(Variable {
        name: variable.name.clone()?,
        spot: variable.spot,
        kind: variable.kind,
        borrows: variable.borrows,
    })
}

/// The same variables once more.
fn all_copied(alloc: Global, variables: &[Variable]) -> Result<Vec<Variable>, AllocError>
    ensures { IfOk result (λ copies. map variable_form copies.items ≡ map variable_form variables.now) }
{
    let mut copies = Vec::new(alloc);
    'variables: for variable in variables {
        copies.push(copied(variable)?)?;
    }
    Ok(copies)
}

/// The variables of a body as they are judged, and behind them one for each of these tracked components. Costs their number.
pub(crate) fn judged(
    alloc: Global,
    types: &[TypeDefinition],
    components: &[ComponentNo],
    variables: &[Variable],
) -> Result<Vec<Variable>, AllocError>
    ensures { let own = map variable_form variables.now in
        let behind = tracking.tracked_variable (map type_form types.now) (fits.variable_kind own 0) in
        IfOk result (λ all. map variable_form all.items ≡ own ++ map behind (map component_number components.now)) }
{
    let mut all = all_copied(alloc, variables)?;
    let formal = variable_kind(variables, 0);
    'components: for component in components {
        all.push(tracked_variable(alloc, types, formal, *component))?;
    }
    Ok(all)
}

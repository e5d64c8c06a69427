//! Whether a call fits: its procedure may be called, and its actual parameters suit the formal ones
//! (6.4).

ghost use Rattle.std.specs.Prelude.{◌≡◌, ◌&&◌, Some, length, map, take};
ghost use Rattle.std.specs.List.{slice_get};
ghost use Rattle.ada_program.specs.Form.{actual_form, path_form, record_path_form};
ghost use Rattle.ada_program.specs.Kept.{profiles_in, types_in, variables_in};
ghost use Rattle.ada_program.specs.ProgramForm.{body_form};
ghost use Rattle.ada_program.specs.WellFormed as fits;

use crate::borrowers::names_borrower;
use crate::lookup::{is_this, path_access, record_of};
use crate::program::{
    Actual, FormalMode, Path, Procedure, RecordPath, ScalarType, TypeDefinition, Variable,
    VariableKind,
};
use crate::records::is_record_path;
use crate::typing::{has_type, is_type, read_type};

/// Whether a procedure that may be called has the number, and the actual parameters suit it (6.4.1).
pub(crate) fn call_fits(
    types: &[TypeDefinition],
    variables: &[Variable],
    callable: &[Procedure],
    number: usize,
    actuals: &[Actual],
) -> bool
    ensures { let profile = slice_get (profiles_in callable.now) number in
        let given = map actual_form actuals.now in
        result ≡ fits.suits_profile (types_in types.now) (variables_in variables.now) profile given }
{
    match callable.get(number) {
        None => false,
        Some(procedure) => suits(types, variables, procedure, actuals),
    }
}

/// Whether the actual parameters suit a procedure (6.4.1).
#[tactic(auto, using(std::proofs::lemmas::Grind::common_steps, crate::proofs::Profiles::first_forms))]
fn suits(
    types: &[TypeDefinition],
    variables: &[Variable],
    procedure: &Procedure,
    actuals: &[Actual],
) -> bool
    ensures { let profile = fits.profile_of (body_form procedure.now) in
        let given = map actual_form actuals.now in
        result ≡ fits.suits_profile (types_in types.now) (variables_in variables.now) (Some profile) given }
{
    actuals_fit(types, variables, formals_of(procedure), actuals)
        && modes_fit(&procedure.formals, actuals)
}

/// The formal parameters of a procedure: the first of its variables (6.1).
pub(crate) fn formals_of<'p>(procedure: &'p Procedure) -> &'p [Variable]
    ensures { result.now ≡ take (length procedure.now.formals.items) procedure.now.variables.items }
{
    match procedure.variables.get(..procedure.formals.len()) {
        None => &procedure.variables,
        Some(formals) => formals,
    }
}

/// Whether there is an actual parameter for each formal one, in order (6.4.1).
fn actuals_fit(
    types: &[TypeDefinition],
    variables: &[Variable],
    formals: &[Variable],
    actuals: &[Actual],
) -> bool
    ensures { let kinds = map fits.kind_held (variables_in formals.now) in
        let given = map actual_form actuals.now in
        result ≡ fits.actuals_fit (types_in types.now) (variables_in variables.now) kinds given }
{
    let mut left = formals;
    'actuals: for actual in actuals {
        match left.split_first() {
            None => return false,
            Some((formal, others)) => {
                if !actual_fits(types, variables, formal.kind, actual) {
                    return false;
                }
                left = others;
            }
        }
    }
    left.first().is_none()
}

/// Whether an actual parameter suits a formal one that holds this (6.4.1).
fn actual_fits(
    types: &[TypeDefinition],
    variables: &[Variable],
    kind: VariableKind,
    actual: &Actual,
) -> bool
    ensures { let given = actual_form actual.now in
        result ≡ fits.actual_fits (types_in types.now) (variables_in variables.now) kind given }
{
    match kind {
        VariableKind::Integer => is_scalar_given(types, variables, ScalarType::Integer, actual),
        VariableKind::Boolean => is_scalar_given(types, variables, ScalarType::Boolean, actual),
        VariableKind::Access(access) => is_access_given(types, variables, access.0, actual),
        VariableKind::Record(object) => is_record_given(types, variables, object.0, actual),
    }
}

/// Whether an actual parameter is of this type, an Integer or a Boolean; one that gets a value back is a variable or a
/// component (6.4.1).
#[tactic(auto, using(std::proofs::lemmas::Grind::common_steps, crate::specs::Form::expression_rules))]
fn is_scalar_given(
    types: &[TypeDefinition],
    variables: &[Variable],
    type_wanted: ScalarType,
    actual: &Actual,
) -> bool
    ensures { let given = actual_form actual.now in
        result ≡ fits.is_scalar_given (types_in types.now) (variables_in variables.now) type_wanted given }
{
    match actual {
        Actual::In(value) => has_type(types, variables, type_wanted, value),
        Actual::InOut(path) => {
            is_type(type_wanted, read_type(types, variables, path)) && path.selectors.is_empty()
        }
        Actual::InOutComponent(path) => {
            is_type(type_wanted, read_type(types, variables, path)) && !path.selectors.is_empty()
        }
        Actual::InNull
        | Actual::InAccess(_)
        | Actual::InRecord(_)
        | Actual::InOutAccess(_)
        | Actual::InOutRecord(_) => false,
    }
}

/// Whether an actual parameter is a value of this access type; one that gets a value back is a variable or a component
/// (6.4.1).
fn is_access_given(
    types: &[TypeDefinition],
    variables: &[Variable],
    access: usize,
    actual: &Actual,
) -> bool
    ensures { let given = actual_form actual.now in
        result ≡ fits.is_access_given (types_in types.now) (variables_in variables.now) access given }
{
    match actual {
        Actual::InNull => true,
        Actual::InAccess(path) => names_access(types, variables, access, path),
        Actual::InOutAccess(path) => {
            names_access(types, variables, access, path) && path.selectors.is_empty()
        }
        Actual::InOutComponent(path) => {
            names_access(types, variables, access, path) && !path.selectors.is_empty()
        }
        Actual::In(_) | Actual::InRecord(_) | Actual::InOut(_) | Actual::InOutRecord(_) => false,
    }
}

/// Whether an actual parameter is a record of the type that this object's type stands for (6.2, 6.4.1).
fn is_record_given(
    types: &[TypeDefinition],
    variables: &[Variable],
    object: usize,
    actual: &Actual,
) -> bool
    ensures { let given = actual_form actual.now in
        result ≡ fits.is_record_given (types_in types.now) (variables_in variables.now) object given }
{
    match actual {
        Actual::InRecord(path) | Actual::InOutRecord(path) => {
            names_record(types, variables, object, path)
        }
        Actual::In(_)
        | Actual::InNull
        | Actual::InAccess(_)
        | Actual::InOut(_)
        | Actual::InOutAccess(_)
        | Actual::InOutComponent(_) => false,
    }
}

/// Whether a path leads to a record of the type that this object's type stands for (6.2).
fn names_record(
    types: &[TypeDefinition],
    variables: &[Variable],
    object: usize,
    path: &RecordPath,
) -> bool
    ensures { let named = record_path_form path.now in
        result ≡ fits.names_record (types_in types.now) (variables_in variables.now) object named }
{
    is_record_path(types, variables, path) && is_this(path.record.0, record_of(types, object))
}

/// Whether a path names a value of this access type, and is no borrower (3.10).
fn names_access(
    types: &[TypeDefinition],
    variables: &[Variable],
    access: usize,
    path: &Path,
) -> bool
    ensures { let named = path_form path.now in
        result ≡ fits.names_access (types_in types.now) (variables_in variables.now) access named }
{
    is_this(access, path_access(types, variables, path)) && !names_borrower(variables, path)
}

/// Whether each actual parameter is passed as its formal one says, in order (6.2).
fn modes_fit(modes: &[FormalMode], actuals: &[Actual]) -> bool
    ensures { result ≡ fits.modes_fit modes.now (map actual_form actuals.now) }
{
    let mut left = modes;
    'actuals: for actual in actuals {
        let Some((mode, others)) = left.split_first() else {
            return false;
        };
        if !is_passed(*mode, actual) {
            return false;
        }
        left = others;
    }
    left.get(0).is_none()
}

/// Whether an actual parameter is passed in a mode (6.2).
fn is_passed(mode: FormalMode, actual: &Actual) -> bool
    ensures { result ≡ fits.same_mode mode (fits.mode_of (actual_form actual.now)) }
{
    match (mode, actual) {
        (FormalMode::In, Actual::In(_) | Actual::InNull | Actual::InAccess(_) | Actual::InRecord(_))
        | (
            FormalMode::InOut,
            Actual::InOut(_)
            | Actual::InOutAccess(_)
            | Actual::InOutComponent(_)
            | Actual::InOutRecord(_),
        ) => true,
        (
            FormalMode::In,
            Actual::InOut(_)
            | Actual::InOutAccess(_)
            | Actual::InOutComponent(_)
            | Actual::InOutRecord(_),
        )
        | (
            FormalMode::InOut,
            Actual::In(_) | Actual::InNull | Actual::InAccess(_) | Actual::InRecord(_),
        ) => false,
    }
}

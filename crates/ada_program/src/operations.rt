//! Whether the procedures that override operations of controlled types are for records of these types (7.6).

ghost use Rattle.std.specs.Prelude.{◌≡◌, Some};
ghost use Rattle.std.specs.List.{list_all, slice_get};
ghost use Rattle.ada_program.specs.Kept.{profiles_in, types_in};
ghost use Rattle.ada_program.specs.ProgramForm.{body_form, program_form, type_form};
ghost use Rattle.ada_program.specs.WellFormed as fits;

use crate::calls::formals_of;
use crate::lookup::{is_this, record_of};
use crate::parts::finalization_in;
use crate::program::{
    Finalization, FormalMode, Procedure, ProcedureNo, Program, TypeDefinition, VariableKind,
};

impl Program {
    /// Whether no type of the program overrides an operation.
    #[tactic(auto, using(std::proofs::lemmas::Grind::common_steps, crate::proofs::Viewed::views))]
    pub fn overrides_none(&self) -> bool
        ensures { result ≡ fits.overrides_none (program_form self.now) }
    {
        override_nothing(&self.types)
    }
}

/// Whether each of these types overrides no operation.
fn override_nothing(types: &[TypeDefinition]) -> bool
    ensures { result ≡ list_all (λ d. fits.overrides_nothing (fits.finalization_in (Some (type_form d)))) types.now }
{
    types.iter().all(|definition| overrides_nothing(finalization_in(definition)))
}

/// Whether a type overrides no operation.
fn overrides_nothing(finalization: Option<Finalization>) -> bool
    ensures { result ≡ fits.overrides_nothing finalization }
{
    match finalization {
        None => true,
        Some(finalization) => finalization.operations.initialize.is_none()
            && finalization.operations.adjust.is_none()
            && finalization.operations.finalize.is_none(),
    }
}

/// Whether each operation that a type overrides is such a procedure.
pub(crate) fn have_operations(types: &[TypeDefinition], procedures: &[Procedure]) -> bool
    ensures { result ≡ fits.have_operations (types_in types.now) (profiles_in procedures.now) 0 (types_in types.now) }
{
    for (number, definition) in types.iter().enumerate() {
        if !has_operations(types, procedures, number, finalization_in(definition)) {
            return false;
        }
    }
    true
}

/// Whether each operation of the record type of a number is such a procedure, or inherited.
fn has_operations(
    types: &[TypeDefinition],
    procedures: &[Procedure],
    number: usize,
    finalization: Option<Finalization>,
) -> bool
    ensures { result ≡ fits.has_operations (types_in types.now) (profiles_in procedures.now) number finalization }
{
    match finalization {
        None => true,
        Some(finalization) => {
            let operations = finalization.operations;
            overrides_rightly(types, procedures, number, operations.initialize)
                && overrides_rightly(types, procedures, number, operations.adjust)
                && overrides_rightly(types, procedures, number, operations.finalize)
        }
    }
}

/// Whether an operation of the record type of a number is such a procedure, or inherited.
fn overrides_rightly(
    types: &[TypeDefinition],
    procedures: &[Procedure],
    number: usize,
    procedure: Option<ProcedureNo>,
) -> bool
    ensures { result ≡ fits.overrides_rightly (types_in types.now) (profiles_in procedures.now) number procedure }
{
    match procedure {
        None => true,
        Some(procedure) => match procedures.get(procedure.0) {
            None => false,
            Some(procedure) => is_operation(types, number, procedure),
        },
    }
}

/// Whether a procedure has one formal parameter, of mode `in out`, that stands for a record of the type of a number.
#[tactic(auto, using(std::proofs::lemmas::Grind::common_steps, crate::proofs::Profiles::first_forms))]
fn is_operation(types: &[TypeDefinition], number: usize, procedure: &Procedure) -> bool
    ensures { let profile = fits.profile_of (body_form procedure.now) in
        result ≡ fits.is_operation (types_in types.now) number (Some profile) }
{
    match (formals_of(procedure), procedure.formals.as_slice()) {
        ([formal], [FormalMode::InOut]) => stands_for(types, number, formal.kind),
        _ => false,
    }
}

/// Whether a formal parameter stands for a record of the type of a number (6.2).
fn stands_for(types: &[TypeDefinition], number: usize, kind: VariableKind) -> bool
    ensures { result ≡ fits.stands_for (types_in types.now) number kind }
{
    match kind {
        VariableKind::Integer | VariableKind::Boolean | VariableKind::Access(_) => false,
        VariableKind::Record(object) => is_this(number, record_of(types, object.0)),
    }
}

//! Resolution of assignments (5.2).

ghost use Rattle.std.specs.Prelude.{◌≡◌};
ghost use Rattle.ada_program.specs.Form.{expression_form};
ghost use Rattle.ada_program.specs.Kept.{variables_in};
ghost use Rattle.ada_resolve.specs.Assignments.{assignment_of, held_by_target, read_target, read_wanted, target_borrows, target_meant, target_wanted};
ghost use Rattle.ada_resolve.specs.Look.{Looks, assignment_look, target_look};
ghost use Rattle.ada_resolve.specs.Method.{IsNoted};
ghost use Rattle.ada_resolve.specs.View.{assigned_in, meant_of, stmt_in, target_in};

use crate::fault::{NameFault, NameRule};
use crate::meant::Meant;
use crate::notes::Notes;
use crate::resolver::Resolver;
use crate::rights::{Assigned, Held};
use ada_program::Spot;
use ada_program::borrowers::names_borrower;
use ada_program::program::{self, Expression, RecordPath, Stmt, Variable};
use ada_tree::expressions::Right;
use ada_tree::names::Path;

/// What is assigned to (5.2).
#[derive(Drop)]
pub(crate) enum Target {
    /// A variable or a component, with what it holds.
    Value(program::Path, Held),
    /// A record.
    Record(RecordPath),
}

impl<'t> Resolver<'t> {
    /// `X := ..;`, `A.C := ..;` or `X.all := ..;` (5.2): to a variable, a component or a record.
    #[tactic(auto, unfolding(crate::specs::View::known_of, crate::specs::Assignments::assignment_remark, crate::specs::Assignments::assignment_found))]
    pub(crate) fn assignment(
        &self,
        target: &Path<'t>,
        value: &Right<'t>,
        notes: &mut Notes,
    ) -> Result<Option<Stmt>, NameFault>
        ensures { Looks stmt_in result notes (assignment_look self target.now value.now) }
    {
        notes.node(target.root.spot);
        let target = self.target(target, notes)?;
        let held = held_by(&target);
        let borrows = borrows(&self.variables, &target);
        let value = self.right(value, held, borrows, notes)?;
        Ok(assigned_to(target, value))
    }

    /// What is assigned to: it is no constant.
    #[tactic(auto, unfolding(crate::specs::Assignments::target_remark, crate::specs::Assignments::target_found))]
    fn target(&self, target: &Path<'t>, notes: &mut Notes) -> Result<Option<Target>, NameFault>
        ensures { Looks target_in result notes (target_look self target.now) }
    {
        let meant = self.path(target, notes)?;
        self.written(target, &meant, notes);
        Ok(target_meant(meant, target.root.spot, notes))
    }
}

/// What is held where a target is, where it is known.
fn held_by(target: &Option<Target>) -> Option<Held>
    ensures { result ≡ held_by_target (target_in target.now) }
{
    match target {
        Some(Target::Value(_, held)) => Some(*held),
        Some(Target::Record(path)) => Some(Held::Record(path.record)),
        None => None,
    }
}

/// Whether the target is a borrower, where it is known.
fn borrows(variables: &[Variable], target: &Option<Target>) -> bool
    ensures { result ≡ target_borrows (variables_in variables.now) (target_in target.now) }
{
    match target {
        Some(Target::Value(path, _)) => names_borrower(variables, path),
        Some(Target::Record(_)) | None => false,
    }
}

/// The assignment of a value to a target, or of a record to a record, where both are known.
#[tactic(auto, using(std::proofs::lemmas::Grind::common_steps, ada_program::specs::Form::statement_rules))]
fn assigned_to(target: Option<Target>, value: Option<Assigned>) -> Option<Stmt>
    ensures { stmt_in result ≡ assignment_of (target_in target) (assigned_in value) }
{
    match (target, value) {
        (Some(Target::Value(target, _)), Some(Assigned::Value(value))) => {
            Some(Stmt::Assign { target, value })
        }
        (Some(Target::Record(target)), Some(Assigned::Record(items))) => {
            Some(Stmt::AssignRecord { target, items })
        }
        _ => None,
    }
}

/// What a path means as a target.
fn target_meant(meant: Meant, spot: Spot, notes: &mut Notes) -> Option<Target>
    ensures found { target_in result ≡ target_meant (meant_of meant) }
    ensures remark { IsNoted notes (target_wanted (meant_of meant) spot) }
{
    match meant {
        Meant::Unknown | Meant::Lent(_) => None,
        Meant::Integer(value) => read_target(value, Held::Integer, spot, notes),
        Meant::Boolean(value) => read_target(value, Held::Boolean, spot, notes),
        Meant::Access(path, access) => Some(Target::Value(path, Held::Access(access))),
        Meant::Record(path) => Some(Target::Record(path)),
        Meant::Null | Meant::Aggregate(_, _) => {
            notes.note(spot, NameRule::WrongType);
            None
        }
    }
}

/// The path that an expression reads, where this is held.
#[tactic(auto, using(std::proofs::lemmas::Grind::common_steps, ada_program::specs::Form::expression_rules))]
fn read_target(value: Expression, held: Held, spot: Spot, notes: &mut Notes) -> Option<Target>
    ensures found { target_in result ≡ read_target held (expression_form value) }
    ensures remark { IsNoted notes (read_wanted (expression_form value) spot) }
{
    match value {
        Expression::Path(path) => Some(Target::Value(path, held)),
        Expression::Integer(_)
        | Expression::Boolean(_)
        | Expression::NullTest { .. }
        | Expression::Unary { .. }
        | Expression::Chain { .. } => {
            notes.note(spot, NameRule::WrongType);
            None
        }
    }
}

//! The actual parameters of calls of procedures (6.4.1).

ghost use Rattle.std.specs.Prelude.{◌≡◌, pos, take, IfErr};
ghost use Rattle.ada_tree.specs.ExpressionView.{expression_of};
ghost use Rattle.ada_program.specs.Form.{actual_form, expression_form, in_out_access, in_out_component, in_out_path, in_value, integer, path_form};
ghost use Rattle.ada_resolve.specs.Actuals.{first_mode, given_read, given_value, given_variable, is_path, kind_wanted, other_modes, path_wanted, reference_wanted, variable_or_component, variable_wanted};
ghost use Rattle.ada_resolve.specs.Assignments.{read_wanted};
ghost use Rattle.ada_resolve.specs.Look.{Looks, actuals_look, given_look, given_variable_look, procedure_call_look, profile_look};
ghost use Rattle.ada_resolve.specs.Method.{known, each, IsNoted, Remarks, too_many_remark};
ghost use Rattle.ada_resolve.specs.Paths.{record_of_object};
ghost use Rattle.ada_resolve.specs.View.{meant_of, stmt_in};

use crate::arguments::none_wanted;
use crate::fault::{NameFault, NameRule};
use crate::meant::Meant;
use crate::notes::Notes;
use crate::paths::is_record_kind;
use crate::resolver::Resolver;
use crate::spots::{argument_spot, expression_spot};
use ada_program::program::{
    Actual, Expression, FormalMode, Path, ProcedureNo, Stmt, Variable, VariableKind,
};
use ada_program::{Spot, TypeNo};
use ada_tree::expressions::{Argument, Expression as Value};

impl<'t> Resolver<'t> {
    /// A call of a procedure whose body has ended (6.4).
    #[tactic(auto, using(std::proofs::lemmas::Grind::common_steps, ada_program::specs::Form::statement_rules))]
    pub(crate) fn procedure_call(
        &self,
        procedure: ProcedureNo,
        called: Spot,
        arguments: &[Argument<'t>],
        notes: &mut Notes,
    ) -> Result<Option<Stmt>, NameFault>
        ensures { Looks stmt_in result notes
            (procedure_call_look self procedure called arguments.now) }
    {
        let actuals = self.actuals_of(procedure, called, arguments, notes)?;
        Ok(Some(Stmt::Call { procedure, actuals }))
    }

    /// The actual parameters for the formal ones of a procedure.
    #[tactic(auto, using(std::proofs::lemmas::Grind::common_steps, crate::proofs::Profiles::profile_read, crate::proofs::Profiles::profile_past))]
    fn actuals_of(
        &self,
        procedure: ProcedureNo,
        called: Spot,
        arguments: &[Argument<'t>],
        notes: &mut Notes,
    ) -> Result<Vec<Actual>, NameFault>
        ensures { Looks (each actual_form) result notes
            (profile_look self procedure called arguments.now) }
    {
        match self.procedures.get(procedure.0) {
            Some(body) => {
                let formals = first_variables(&body.variables, body.formals.len());
                self.actuals(called, formals, &body.formals, arguments, notes)
            }
            None => self.actuals(called, &[], &[], arguments, notes),
        }
    }

    /// The actual parameters for these formal ones: one for each, in order.
    fn actuals(
        &self,
        called: Spot,
        formals: &[Variable],
        modes: &[FormalMode],
        arguments: &[Argument<'t>],
        notes: &mut Notes,
    ) -> Result<Vec<Actual>, NameFault>
        ensures { Looks (each actual_form) result notes
            (actuals_look self called formals.now modes.now arguments.now) }
    {
        let mut made = Vec::new(self.alloc);
        let mut modes_left = modes;
        'formals: for formal in formals {
            let Some(argument) = arguments.get(made.len()) else {
                notes.note(called, NameRule::WrongType);
                return Ok(made);
            };
            let given = self.given(first_mode(modes_left), formal.kind, argument, notes)?;
            modes_left = other_modes(modes_left);
            made.push(given)?;
        }
        self.too_many(arguments.get(formals.len()..).unwrap_or(&[]), notes)?;
        Ok(made)
    }

    /// Actual parameters that are too many: the first of them is told.
    fn too_many(&self, arguments: &[Argument<'t>], notes: &mut Notes) -> Result<(), NameFault>
        ensures remark { Remarks result notes (too_many_remark self arguments.now) }
        ensures memory { IfErr result (λ e. e ≡ NameFault.NoMemory) }
    {
        none_wanted(arguments, notes);
        self.arguments(arguments, notes)
    }

    /// The actual parameter for a formal one of a mode that holds this: 0 where something is wrong.
    #[tactic(auto, using(std::proofs::lemmas::Grind::common_steps, ada_program::specs::Form::expression_rules), unfolding(crate::specs::View::known_of))]
    fn given(
        &self,
        mode: FormalMode,
        kind: VariableKind,
        argument: &Argument<'t>,
        notes: &mut Notes,
    ) -> Result<Actual, NameFault>
        ensures { Looks actual_form result notes (given_look self mode kind argument.now) }
    {
        match (mode, argument) {
            (FormalMode::In, Argument::Expression(value)) => {
                let meant = self.expression(value, notes)?;
                self.kind_wanted(kind, &meant, expression_spot(value), notes);
                path_wanted(kind, value, notes);
                Ok(given_value(meant))
            }
            (FormalMode::InOut, Argument::Expression(value)) => {
                self.given_variable(kind, value, notes)
            }
            (_, Argument::Text { .. } | Argument::Attribute { .. }) => {
                notes.note(argument_spot(argument), NameRule::WrongType);
                self.argument(argument, notes)?;
                Ok(no_actual())
            }
        }
    }

    /// The variable that an actual parameter for a formal one of mode `in out` names: 0 where something is wrong.
    #[tactic(auto, using(std::proofs::lemmas::Grind::common_steps, ada_tree::specs::ExpressionView::tree_rules, crate::proofs::Actuals::linked_given, crate::proofs::Actuals::linked_given_remark), unfolding(crate::specs::View::known_of, crate::specs::Expressions::expression_remark))]
    fn given_variable(
        &self,
        kind: VariableKind,
        value: &Value<'t>,
        notes: &mut Notes,
    ) -> Result<Actual, NameFault>
        ensures { Looks actual_form result notes (given_variable_look self kind value.now) }
    {
        match value {
            Value::Path(path) => {
                let spot = path.root.spot;
                notes.node(spot);
                let meant = self.path(path, notes)?;
                self.variable_wanted(kind, &meant, spot, notes);
                self.written(path, &meant, notes);
                Ok(given_variable(meant))
            }
            Value::Chain { first, links } if links.is_empty() => {
                self.given_variable(kind, first, notes)
            }
            Value::Number { .. }
            | Value::Null(_)
            | Value::Aggregate { .. }
            | Value::Enclosed { .. }
            | Value::Unary { .. }
            | Value::Chain { .. } => {
                self.no_path(value, notes)?;
                Ok(no_actual())
            }
        }
    }

    /// A value of what a formal parameter holds is wanted, where the meaning is known.
    #[tactic(auto, unfolding(crate::specs::View::known_of))]
    fn kind_wanted(&self, kind: VariableKind, meant: &Meant, spot: Spot, notes: &mut Notes)
        ensures { let found = known self in
            IsNoted notes (kind_wanted found.types found.variables kind (meant_of meant.now) spot) }
    {
        match kind {
            VariableKind::Integer => meant.integer_wanted(spot, notes),
            VariableKind::Boolean => meant.boolean_wanted(spot, notes),
            VariableKind::Access(access) => {
                meant.access_wanted(access, spot, notes);
                meant.owner_wanted(&self.variables, spot, notes);
            }
            VariableKind::Record(object) => self.reference_wanted(object, meant, spot, notes),
        }
    }

    /// A record of the type is wanted that a formal parameter has which is known by this type.
    fn reference_wanted(&self, object: TypeNo, meant: &Meant, spot: Spot, notes: &mut Notes)
        ensures { let wanted = record_of_object (known self).types object.0 in
            IsNoted notes (reference_wanted wanted (meant_of meant.now) spot) }
    {
        match (self.record_of_object(object), meant) {
            (Some(_), Meant::Unknown) => {}
            (Some(record), Meant::Record(path)) => {
                notes.note_if(record.0 != path.record.0, spot, NameRule::WrongType);
            }
            (Some(_), _) => notes.note(spot, NameRule::WrongType),
            (None, _) => notes.note(spot, NameRule::NotInProfile),
        }
    }

    /// A variable, a component or a record is wanted that holds this, for a formal parameter of mode `in out`.
    #[tactic(auto, unfolding(crate::specs::View::known_of))]
    fn variable_wanted(&self, kind: VariableKind, meant: &Meant, spot: Spot, notes: &mut Notes)
        ensures { let found = known self in
            IsNoted notes (variable_wanted found.types found.variables kind (meant_of meant.now) spot) }
    {
        match (kind, meant) {
            (_, Meant::Unknown) => {}
            (VariableKind::Integer, Meant::Integer(value))
            | (VariableKind::Boolean, Meant::Boolean(value)) => read_wanted(value, spot, notes),
            (VariableKind::Access(access), Meant::Access(_, _)) => {
                meant.access_wanted(access, spot, notes);
                meant.owner_wanted(&self.variables, spot, notes);
            }
            (VariableKind::Record(object), Meant::Record(_)) => {
                self.reference_wanted(object, meant, spot, notes);
            }
            _ => notes.note(spot, NameRule::WrongType),
        }
    }
}

/// The first of these modes: `in`, where there is none.
fn first_mode(modes: &[FormalMode]) -> FormalMode
    ensures { result ≡ first_mode modes.now }
{
    match modes {
        [mode, ..] => *mode,
        [] => FormalMode::In,
    }
}

/// The modes behind the first.
fn other_modes(modes: &[FormalMode]) -> &[FormalMode]
    ensures { result.now ≡ other_modes modes.now }
{
    match modes {
        [_, others @ ..] => others,
        [] => &[],
    }
}

/// What a formal parameter gets where something is wrong with the actual one: 0.
#[tactic(auto, using(ada_program::specs::Form::expression_rules))]
fn no_actual() -> Actual
    ensures { actual_form result ≡ in_value (integer (pos 0)) }
{
    Actual::In(Expression::Integer(0))
}

/// What a formal parameter of mode `in` gets; 0 where something is wrong.
#[tactic(auto, using(std::proofs::lemmas::Grind::common_steps, ada_program::specs::Form::expression_rules))]
fn given_value(meant: Meant) -> Actual
    ensures { actual_form result ≡ given_value (meant_of meant) }
{
    match meant {
        Meant::Null => Actual::InNull,
        Meant::Access(path, _) => Actual::InAccess(path),
        Meant::Record(path) => Actual::InRecord(path),
        _ => Actual::In(meant.into_scalar()),
    }
}

/// What a formal parameter of mode `in out` stands for; 0 where something is wrong.
fn given_variable(meant: Meant) -> Actual
    ensures { actual_form result ≡ given_variable (meant_of meant) }
{
    match meant {
        Meant::Integer(value) | Meant::Boolean(value) => given_read(value),
        Meant::Access(path, _) => given_access(path),
        Meant::Record(path) => Actual::InOutRecord(path),
        _ => no_actual(),
    }
}

/// The Integer or Boolean variable, or the component, whose value this is; 0 where it is that of neither.
#[tactic(auto, using(std::proofs::lemmas::Grind::common_steps, ada_program::specs::Form::expression_rules))]
fn given_read(value: Expression) -> Actual
    ensures { actual_form result ≡ given_read (expression_form value) }
{
    match value {
        Expression::Path(path) => given_scalar(path),
        Expression::Integer(_)
        | Expression::Boolean(_)
        | Expression::NullTest { .. }
        | Expression::Unary { .. }
        | Expression::Chain { .. } => no_actual(),
    }
}

/// What is read somewhere is wanted: a path names it.
#[tactic(auto, using(std::proofs::lemmas::Grind::common_steps, ada_program::specs::Form::expression_rules))]
fn read_wanted(value: &Expression, spot: Spot, notes: &mut Notes)
    ensures { IsNoted notes (read_wanted (expression_form value.now) spot) }
{
    match value {
        Expression::Path(_) => {}
        Expression::Integer(_)
        | Expression::Boolean(_)
        | Expression::NullTest { .. }
        | Expression::Unary { .. }
        | Expression::Chain { .. } => notes.note(spot, NameRule::WrongType),
    }
}

/// The Integer or Boolean variable, or the component, to which a path leads.
fn given_scalar(path: Path) -> Actual
    ensures { let given = path_form path in
        actual_form result ≡ variable_or_component (in_out_path given) (in_out_component given) given.selectors }
{
    if path.selectors.is_empty() {
        Actual::InOut(path)
    } else {
        Actual::InOutComponent(path)
    }
}

/// The variable or the component of an access type to which a path leads.
fn given_access(path: Path) -> Actual
    ensures { let given = path_form path in
        actual_form result ≡ variable_or_component (in_out_access given) (in_out_component given) given.selectors }
{
    if path.selectors.is_empty() {
        Actual::InOutAccess(path)
    } else {
        Actual::InOutComponent(path)
    }
}

/// A record is passed by reference: a path leads to it.
fn path_wanted(kind: VariableKind, value: &Value<'_>, notes: &mut Notes)
    ensures { IsNoted notes (path_wanted kind (expression_of value.now)) }
{
    let is_wrong = is_record_kind(kind) && !is_path(value);
    notes.note_if(is_wrong, expression_spot(value), NameRule::WrongType);
}

/// Whether an expression is a path, without parentheses.
#[tactic(auto, using(std::proofs::lemmas::Grind::common_steps, ada_tree::specs::ExpressionView::tree_rules, crate::proofs::Actuals::linked_path))]
fn is_path(value: &Value<'_>) -> bool
    ensures { result ≡ is_path (expression_of value.now) }
{
    match value {
        Value::Path(_) => true,
        Value::Chain { first, links } if links.is_empty() => is_path(first),
        Value::Number { .. }
        | Value::Null(_)
        | Value::Aggregate { .. }
        | Value::Enclosed { .. }
        | Value::Unary { .. }
        | Value::Chain { .. } => false,
    }
}

/// The first of some variables, up to a count.
#[tactic(auto, using(std::proofs::lemmas::List::take_all))]
fn first_variables(variables: &[Variable], count: usize) -> &[Variable]
    ensures { result.now ≡ take count variables.now }
{
    if count <= variables.len() {
        &variables[..count]
    } else {
        variables
    }
}

//! Whether a program is well formed: each number is that of something there, and each form has the types that it wants.

ghost use Rattle.std.specs.Prelude.{◌≡◌, ◌&&◌, true};
ghost use Rattle.std.specs.List.{list_all};
ghost use Rattle.ada_program.specs.Form.{StmtsForm, stmts_form};
ghost use Rattle.ada_program.specs.ProgramForm.{program_form};
ghost use Rattle.ada_program.specs.Kept as kept;
ghost use Rattle.ada_program.specs.Kept.{texts_in, types_in};
ghost use Rattle.ada_program.specs.WellFormed as fits;

use crate::bodies::{bodies_fit, main_fits};
use crate::borrowers::{lends_to, names_borrower};
use crate::calls::call_fits;
use crate::creations::{has_collections, pools_fit};
use crate::declarations::declarations_fit;
use crate::kinds::types_fit;
use crate::layout::components_lie;
use crate::lookup::{path_access, path_kind, scalar_of, variable_kind};
use crate::operations::have_operations;
use crate::program::{
    Branch, Choice, Exception, Expression, Handler, Procedure, Program, ScalarType, Stmt,
    TypeDefinition, Variable,
};
use crate::records::{is_record_path, record_fits};
use crate::targets::{is_freed_by, is_integer_target};
use crate::typing::{has_type, is_type};
use crate::values::right_fits;

impl Program {
    /// Whether the program is well formed; the resolver gives no other.
    #[tactic(auto, using(std::proofs::lemmas::Grind::common_steps, crate::proofs::Viewed::views))]
    pub fn is_well_formed(&self) -> bool
        ensures is { result ≡ true → fits.IsWellFormed (program_form self.now) }
        ensures answers { fits.IsWellFormed (program_form self.now) → result ≡ true }
    {
        tables_fit(self)
            && main_fits(self)
            && bodies_fit(&self.types, &self.texts, &self.exceptions, &self.procedures)
    }
}

/// Whether the types of a program fit, with where their components lie, their operations, their pools and their collections
/// (3.8, 3.10, 7.6, 13.11, 7.6.1).
#[tactic(auto, using(std::proofs::lemmas::Grind::common_steps, crate::proofs::Viewed::views))]
fn tables_fit(program: &Program) -> bool
    ensures { result ≡ fits.tables_fit (program_form program.now) }
{
    definitions_fit(&program.types)
        && have_operations(&program.types, &program.procedures)
        && pools_fit(program)
        && has_collections(program)
}

/// Whether types fit, and their components lie where they say (3.8, 3.10).
#[tactic(auto, using(std::proofs::lemmas::Grind::common_steps, crate::proofs::Viewed::views))]
fn definitions_fit(types: &[TypeDefinition]) -> bool
    ensures { let forms = types_in types.now in
        result ≡ (list_all (fits.type_fits forms) forms && list_all (fits.components_lie forms) forms) }
{
    types_fit(types) && components_lie(types)
}

/// Whether each statement names variables and texts, has the types that it wants, and calls
/// procedures that may be called.
#[cycle(fitting)]
pub(crate) fn statements_fit(
    types: &[TypeDefinition],
    variables: &[Variable],
    texts: &[String],
    exceptions: &[String],
    callable: &[Procedure],
    inside_loop: bool,
    statements: &[Stmt],
) -> bool
    ensures { result
        ≡ kept.stmts_fit types.now variables.now texts.now exceptions.now callable.now inside_loop statements.now }
{
    'statements: for statement in statements {
        if !statement_fits(
            types,
            variables,
            texts,
            exceptions,
            callable,
            inside_loop,
            statement,
        ) {
            return false;
        }
    }
    true
}

/// Whether a statement names variables and texts, has the types that it wants, and calls a procedure
/// that may be called.
#[cycle(fitting)]
#[tactic(auto, using(std::proofs::lemmas::Grind::common_steps, crate::proofs::Viewed::views, crate::specs::Form::statement_rules))]
fn statement_fits(
    types: &[TypeDefinition],
    variables: &[Variable],
    texts: &[String],
    exceptions: &[String],
    callable: &[Procedure],
    inside_loop: bool,
    statement: &Stmt,
) -> bool
    ensures { result
        ≡ kept.statement_fits types.now variables.now texts.now exceptions.now callable.now inside_loop statement.now }
{
    match statement {
        Stmt::Null | Stmt::Return(_) => true,
        Stmt::Assign { target, value } => right_fits(
            types,
            variables,
            path_kind(types, variables, target),
            value,
        ) && lends_to(variables, names_borrower(variables, target), value),
        Stmt::AssignRecord { target, items } => is_record_path(types, variables, target)
            && record_fits(types, variables, target.record.0, items),
        Stmt::Free { access, path } => is_freed_by(
            types,
            access.0,
            path_access(types, variables, path),
        ) && !names_borrower(variables, path),
        Stmt::Get(target) => is_integer_target(types, variables, target),
        Stmt::PutImage(expression) => has_type(types, variables, ScalarType::Integer, expression),
        Stmt::PutText(text) => text.0 < texts.len(),
        Stmt::If {
            branches,
            otherwise,
        } => branches_fit(
            types,
            variables,
            texts,
            exceptions,
            callable,
            inside_loop,
            branches,
        ) && statements_fit(
            types,
            variables,
            texts,
            exceptions,
            callable,
            inside_loop,
            otherwise,
        ),
        Stmt::Loop {
            condition,
            statements,
            end: _,
        } => condition_fits(types, variables, condition)
            && has_statement(statements)
            && statements_fit(
                types, variables, texts, exceptions, callable, true, statements,
            ),
        Stmt::For {
            parameter,
            first,
            last,
            statements,
            end: _,
        } => is_type(
            ScalarType::Integer,
            scalar_of(variable_kind(variables, parameter.0)),
        ) && has_type(types, variables, ScalarType::Integer, first)
            && has_type(types, variables, ScalarType::Integer, last)
            && has_statement(statements)
            && statements_fit(
                types, variables, texts, exceptions, callable, true, statements,
            ),
        Stmt::Exit { condition, spot: _ } => inside_loop
            && condition_fits(types, variables, condition),
        Stmt::Call { procedure, actuals } => call_fits(
            types,
            variables,
            callable,
            procedure.0,
            actuals,
        ),
        Stmt::Raise(exception) => exception_fits(exceptions, *exception),
        Stmt::Block {
            declarations,
            statements,
            handlers,
        } => declarations_fit(types, variables, declarations)
            && statements_fit(
                types,
                variables,
                texts,
                exceptions,
                callable,
                inside_loop,
                statements,
            )
            && handlers_fit(
                types,
                variables,
                texts,
                exceptions,
                callable,
                inside_loop,
                handlers,
            ),
    }
}

/// Whether each branch has a condition and statements that fit.
#[cycle(fitting)]
fn branches_fit(
    types: &[TypeDefinition],
    variables: &[Variable],
    texts: &[String],
    exceptions: &[String],
    callable: &[Procedure],
    inside_loop: bool,
    branches: &[Branch],
) -> bool
    ensures { (others : StmtsForm)
        → kept.branches_fit types.now variables.now texts.now exceptions.now callable.now inside_loop branches.now others
        ≡ (result && kept.forms_fit types.now variables.now texts.now exceptions.now callable.now inside_loop others) }
{
    'branches: for branch in branches {
        if !has_type(types, variables, ScalarType::Boolean, &branch.condition) {
            return false;
        }
        if !statements_fit(
            types,
            variables,
            texts,
            exceptions,
            callable,
            inside_loop,
            &branch.statements,
        ) {
            return false;
        }
    }
    true
}

/// Whether each handler is of exceptions of the program, and has statements that fit (11.2).
#[cycle(fitting)]
#[tactic(auto, using(std::proofs::lemmas::Grind::common_steps))]
pub(crate) fn handlers_fit(
    types: &[TypeDefinition],
    variables: &[Variable],
    texts: &[String],
    exceptions: &[String],
    callable: &[Procedure],
    inside_loop: bool,
    handlers: &[Handler],
) -> bool
    ensures { result
        ≡ kept.handlers_fit types.now variables.now texts.now exceptions.now callable.now inside_loop handlers.now }
{
    'handlers: for handler in handlers {
        if !(choices_fit(exceptions, &handler.choices) && has_statement(&handler.statements)) {
            return false;
        }
        if !statements_fit(
            types,
            variables,
            texts,
            exceptions,
            callable,
            inside_loop,
            &handler.statements,
        ) {
            return false;
        }
    }
    true
}

/// Whether each choice of a handler names an exception of the program (11.2).
fn choices_fit(exceptions: &[String], choices: &[Choice]) -> bool
    ensures { result ≡ list_all (fits.choice_fits (texts_in exceptions.now)) choices.now }
{
    choices
        .iter()
        .all(|choice| choice_fits(exceptions, *choice))
}

/// Whether a choice names an exception of the program, or all others.
fn choice_fits(exceptions: &[String], choice: Choice) -> bool
    ensures { result ≡ fits.choice_fits (texts_in exceptions.now) choice }
{
    match choice {
        Choice::Exception(exception) => exception_fits(exceptions, exception),
        Choice::Others => true,
    }
}

/// Whether an exception is predefined, or one that the program declares (11.1).
fn exception_fits(exceptions: &[String], exception: Exception) -> bool
    ensures { result ≡ fits.exception_fits (texts_in exceptions.now) exception }
{
    match exception {
        Exception::ConstraintError
        | Exception::ProgramError
        | Exception::StorageError
        | Exception::EndError => true,
        Exception::Declared(declared) => declared.0 < exceptions.len(),
    }
}

/// Whether there is a statement (5.1).
fn has_statement(statements: &[Stmt]) -> bool
    ensures { result ≡ fits.has_statement (stmts_form statements.now) }
{
    match statements.first() {
        None => false,
        Some(_) => true,
    }
}

/// Whether a condition, where there is one, is a Boolean.
fn condition_fits(
    types: &[TypeDefinition],
    variables: &[Variable],
    condition: &Option<Expression>,
) -> bool
    ensures { result ≡ kept.condition_fits types.now variables.now condition.now }
{
    match condition {
        None => true,
        Some(condition) => has_type(types, variables, ScalarType::Boolean, condition),
    }
}

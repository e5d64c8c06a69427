//! What forms do themselves, whatever they call.

ghost use Rattle.std.specs.Prelude.{◌≡◌, ◌||◌, ◌&&◌, Bool, OnOk, map};
ghost use Rattle.ada_deeds.specs.Forms as rules;
ghost use Rattle.ada_deeds.specs.View.{does_found, sought, Finds};
ghost use Rattle.ada_deeds.specs.declared.deed.Callee.{Callee};
ghost use Rattle.ada_deeds.specs.declared.deed.Deed.{Deed};
ghost use Rattle.ada_deeds.specs.declared.deed.Deed.TheVariants as deed;
ghost use Rattle.ada_program.specs.declared.program.Exception.TheVariants.{ConstraintError};
ghost use Rattle.ada_program.specs.Form.{actual_form, condition_form, expression_form, handlers_form, path_form, record_path_form};
ghost use Rattle.ada_program.specs.Handling as handling;
ghost use Rattle.ada_program.specs.Kept.{types_in, variables_in};

use crate::follows::{
    follow_actuals, follow_condition, follow_expression, follow_path, follow_record_path,
};
use crate::found::Found;
use crate::search::Search;
use ada_effects::{
    actuals_raise, condition_raises, expression_raises, path_raises, record_path_raises,
};
use ada_program::program::{
    Actual, Choice, Exception, Expression, Handler, RecordPath, TypeDefinition, Variable,
};
use ada_program::{Path, TypeNo};
use std::alloc::AllocError;

/// Whether two exceptions are one.
fn is_same(exception: Exception, other: Exception) -> bool
    ensures { result ≡ handling.is_same exception other }
{
    match (exception, other) {
        (Exception::ConstraintError, Exception::ConstraintError)
        | (Exception::ProgramError, Exception::ProgramError)
        | (Exception::StorageError, Exception::StorageError)
        | (Exception::EndError, Exception::EndError) => true,
        (Exception::Declared(number), Exception::Declared(other)) => number.0 == other.0,
        _ => false,
    }
}

impl Found {
    /// An exception that is sought comes out of a part, or does not.
    #[tactic(auto, unfolding(crate::specs::View::does_found))]
    fn note(&mut self, exception: Exception, raised: bool)
        ensures { (known : Callee → Bool) → does_found self.new (deed.Raises exception) known
            ≡ (does_found self.old (deed.Raises exception) known || raised) }
    {
        if raised {
            self.itself = true;
        }
    }

    /// An exception that is sought comes out of an evaluation, if that may raise Constraint_Error (11.5).
    fn fail(&mut self, exception: Exception, fails: bool)
        ensures { (known : Callee → Bool) → does_found self.new (deed.Raises exception) known
            ≡ (does_found self.old (deed.Raises exception) known
            || (handling.is_same ConstraintError exception && fails)) }
    {
        self.note(
            exception,
            is_same(Exception::ConstraintError, exception) && fails,
        );
    }

    /// An exception is raised (11.3).
    pub(crate) fn raise(&mut self, search: Search, raised: Exception)
        ensures { (d : Deed) (known : Callee → Bool) → does_found self.new (sought search d) known
            ≡ (does_found self.old (sought search d) known || rules.is_raising raised (sought search d)) }
    {
        match search {
            Search::Exception(exception) => self.note(exception, is_same(raised, exception)),
            Search::Others => (),
        }
    }

    /// An allocator creates an object, and may want storage (4.8, 11.1).
    pub(crate) fn allocate(&mut self, search: Search)
        ensures { (d : Deed) (known : Callee → Bool) → does_found self.new (sought search d) known
            ≡ (does_found self.old (sought search d) known || rules.allocation_does (sought search d)) }
    {
        match search {
            Search::Exception(exception) => {
                self.note(exception, is_same(Exception::StorageError, exception))
            }
            Search::Others => self.itself = true,
        }
    }

    /// An object of an access type is freed (13.11.2).
    pub(crate) fn free(&mut self, search: Search, access: Option<usize>) -> Result<(), AllocError>
        ensures { Finds result search self.old self.new (λ d known. rules.freeing_does d access) }
    {
        match (search, access) {
            (Search::Others, Some(number)) => {
                self.freed.push(TypeNo(number))?;
                Ok(())
            }
            _ => Ok(()),
        }
    }
}

/// What a path does: it may find null, and follows access values (4.1).
pub(crate) fn find_path(
    types: &[TypeDefinition],
    variables: &[Variable],
    search: Search,
    path: &Path,
    found: &mut Found,
) -> Result<(), AllocError>
    ensures { Finds result search found.old found.new
        (λ d known. rules.path_does (types_in types.now) (variables_in variables.now) d (path_form path.now)) }
{
    match search {
        Search::Exception(exception) => {
            found.fail(exception, path_raises(path));
            Ok(())
        }
        Search::Others => follow_path(types, variables, path, &mut found.followed),
    }
}

/// What a path to a record does (4.1).
pub(crate) fn find_record_path(
    types: &[TypeDefinition],
    variables: &[Variable],
    search: Search,
    path: &RecordPath,
    found: &mut Found,
) -> Result<(), AllocError>
    ensures { Finds result search found.old found.new
        (λ d known. rules.record_path_does (types_in types.now) (variables_in variables.now) d (record_path_form path.now)) }
{
    match search {
        Search::Exception(exception) => {
            found.fail(exception, record_path_raises(path));
            Ok(())
        }
        Search::Others => follow_record_path(types, variables, path, &mut found.followed),
    }
}

/// What an expression does (4.4).
pub(crate) fn find_expression(
    types: &[TypeDefinition],
    variables: &[Variable],
    search: Search,
    expression: &Expression,
    found: &mut Found,
) -> Result<(), AllocError>
    ensures { Finds result search found.old found.new
        (λ d known. rules.expression_does (types_in types.now) (variables_in variables.now) d (expression_form expression.now)) }
{
    match search {
        Search::Exception(exception) => {
            found.fail(exception, expression_raises(expression));
            Ok(())
        }
        Search::Others => follow_expression(types, variables, expression, &mut found.followed),
    }
}

/// What a condition does, where there is one.
pub(crate) fn find_condition(
    types: &[TypeDefinition],
    variables: &[Variable],
    search: Search,
    condition: &Option<Expression>,
    found: &mut Found,
) -> Result<(), AllocError>
    ensures { Finds result search found.old found.new
        (λ d known. rules.condition_does (types_in types.now) (variables_in variables.now) d (condition_form condition.now)) }
{
    match search {
        Search::Exception(exception) => {
            found.fail(exception, condition_raises(condition));
            Ok(())
        }
        Search::Others => follow_condition(types, variables, condition, &mut found.followed),
    }
}

/// What the evaluation of actual parameters does (6.4.1).
pub(crate) fn find_actuals(
    types: &[TypeDefinition],
    variables: &[Variable],
    search: Search,
    actuals: &[Actual],
    found: &mut Found,
) -> Result<(), AllocError>
    ensures { Finds result search found.old found.new
        (λ d known. rules.actuals_do (types_in types.now) (variables_in variables.now) d (map actual_form actuals.now)) }
{
    match search {
        Search::Exception(exception) => {
            found.fail(exception, actuals_raise(actuals));
            Ok(())
        }
        Search::Others => follow_actuals(types, variables, actuals, &mut found.followed),
    }
}

/// Whether what statements do leaves them by their handlers: an exception that one of these takes does not (11.4).
pub(crate) fn is_left(handlers: &[Handler], search: Search) -> bool
    ensures { (d : Deed) → rules.is_left (handlers_form handlers.now) (sought search d) ≡ result }
{
    match search {
        Search::Exception(exception) => !is_taken(handlers, exception),
        Search::Others => true,
    }
}

/// Whether a handler takes an exception (11.2).
fn is_taken(handlers: &[Handler], exception: Exception) -> bool
    ensures { result ≡ handling.is_taken (handlers_form handlers.now) exception }
{
    'handlers: for handler in handlers {
        if some_takes(exception, &handler.choices) {
            return true;
        }
    }
    false
}

/// Whether one of these choices does.
fn some_takes(exception: Exception, choices: &[Choice]) -> bool
    ensures { result ≡ handling.some_takes exception choices.now }
{
    'choices: for choice in choices {
        if takes(exception, *choice) {
            return true;
        }
    }
    false
}

/// Whether a choice names an exception, or all of them.
fn takes(exception: Exception, choice: Choice) -> bool
    ensures { result ≡ handling.takes exception choice }
{
    match choice {
        Choice::Exception(other) => is_same(exception, other),
        Choice::Others => true,
    }
}

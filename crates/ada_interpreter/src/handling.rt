//! Where jumps land, and which handler takes an exception.

ghost use Rattle.std.specs.Prelude.{◌≡◌};
ghost use Rattle.ada_program.specs.Form.{handlers_form};
ghost use Rattle.ada_program.specs.Handling.{takes, some_takes, handler_of};
ghost use Rattle.ada_meaning.specs.Frame.{handler_landing};
ghost use Rattle.ada_interpreter.specs.Process.{landing_of};

use ada_meaning::Exception;
use ada_program::Stmt;
use ada_program::program::{Choice, Handler};

/// Where a jump lands.
#[derive(Clone, Copy)]
pub(crate) enum Landing<'a> {
    /// It passes.
    PassesOn,
    /// It ends, and what is behind is next.
    GoesBehind,
    /// It ends in these statements.
    GoesIn(&'a [Stmt]),
}

/// An exception goes on in the first of these handlers that takes it (11.4).
pub(crate) fn landing_among<'a>(exception: Exception, handlers: &'a [Handler]) -> Landing<'a>
    ensures { landing_of result
        ≡ handler_landing (handler_of exception (handlers_form handlers.now)) }
{
    for handler in handlers {
        if some_takes(exception, handler.choices.as_slice()) {
            return Landing::GoesIn(handler.statements.as_slice());
        }
    }
    Landing::PassesOn
}

/// Does one of these choices of a handler name the exception (11.2)?
fn some_takes(exception: Exception, choices: &[Choice]) -> bool
    ensures { result ≡ some_takes exception choices.now }
{
    for choice in choices {
        if takes(exception, *choice) {
            return true;
        }
    }
    false
}

/// Does a choice of a handler name the exception (11.2)?
fn takes(exception: Exception, choice: Choice) -> bool
    ensures { result ≡ takes exception choice }
{
    match choice {
        Choice::Exception(named) => exception == named,
        Choice::Others => true,
    }
}

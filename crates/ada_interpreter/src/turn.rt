//! What one turn of a process answers.

ghost use Rattle.std.specs.Prelude.{◌≡◌, ◌<◌};
ghost use Rattle.ada_meaning.specs.declared.request.Request.TheVariants.{Allocate};

use crate::newest::Destination;
use ada_meaning::{Event, Halt, Id, Request};
use ada_program::program::Expression;
use ada_program::{Stmt, TypeNo, VariableNo};

/// The answer of one turn.
#[derive(Clone, Copy)]
pub(crate) enum Turn {
    /// There is no step.
    Halts(Halt),
    /// The step is made, and this is its event.
    Moves(Event),
    /// The step is made, and the pools are to be told.
    Tells(Request, Event),
    /// A request is open.
    Asks(Allocation),
    /// One of the objects of an item that is left is to be taken.
    Picks(Leaving),
    /// One of the components that are open is to be treated next (7.6, 7.6.1).
    PicksComponent(Open),
}

/// The step is made, and nothing can be seen.
pub(crate) const QUIET: Turn = Turn::Moves(Event::Quiet);

/// An allocator that waits for its storage. The values of its components are the newest operands, as many as `count`.
#[derive(Clone, Copy)]
pub(crate) struct Allocation {
    pub(crate) access: TypeNo,
    pub(crate) count: usize,
    /// Where the object goes, if the pool grants its words.
    pub(crate) home: Destination,
    pub(crate) words: usize,
    /// The name that the object has then.
    pub(crate) object: Id,
}

impl Allocation {
    /// What a pool is asked for it.
    pub(crate) fn request(&self) -> Request
        ensures { let a = self.now in result ≡ Allocate a.home.pool 0 a.words a.object }
    {
        Request::Allocate {
            pool: self.home.pool,
            owner: 0,
            words: self.words,
            object: self.object,
        }
    }
}

/// The leaving of a master, at an item that still has objects: a collection, or a record object.
#[derive(Clone, Copy)]
pub(crate) struct Leaving {
    pub(crate) master: u64,
    /// The number of the item.
    pub(crate) item: usize,
    /// The pool that the words of its objects go back to; none for a record object.
    pub(crate) pool: Option<usize>,
    /// How many objects it has.
    pub(crate) count: usize,
    ghost some: { 0 < count },
}

/// The components that are open in a treatment that goes on: the first of what is left to do.
#[derive(Clone, Copy)]
pub(crate) struct Open {
    /// How many there are.
    pub(crate) count: usize,
    ghost some: { 0 < count },
}

/// How far statements were run at once.
#[derive(Clone, Copy)]
pub(crate) struct Run {
    /// Are all of them done?
    pub(crate) is_done: bool,
    /// How many statements may still begin.
    pub(crate) left: u32,
}

/// What is known at once of the next turn of a loop.
#[derive(Clone, Copy)]
pub(crate) enum NextTurn<'a> {
    /// It begins: these statements come in front of what is left to do.
    Begins(&'a [Stmt]),
    /// There is none, and the loop is done.
    Ends,
    /// Nothing is known.
    Unknown,
}

/// What a statement in which others stand begins with, where that is known at once.
#[derive(Clone, Copy)]
pub(crate) enum Inner<'a> {
    /// The statements of a branch (5.3).
    Branch(&'a [Stmt]),
    /// The turns of a loop (5.5).
    Turns {
        condition: Option<&'a Expression>,
        statements: &'a [Stmt],
    },
    /// The turns of a `for` loop, for each value from the first to the last (5.5). There is one.
    Counts {
        parameter: VariableNo,
        first: i32,
        last: i32,
        statements: &'a [Stmt],
    },
}

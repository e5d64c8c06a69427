//! What a step shows to the outside, and how a run ends.

use crate::state::Id;
use ada_program::program::{Exception, TextNo};
use ada_program::{RecordNo, TypeNo};
use std::fmt;

/// What one step does that can be seen from outside.
#[derive(Clone, Copy)]
pub enum Event {
    /// A controlled value has come to exist (7.6).
    Born {
        value: Controlled,
        /// Its type.
        record: RecordNo,
        /// The trace number: births are counted from 1.
        number: u64,
        by: Birth,
    },
    /// Finalize of a controlled value begins (7.6.1).
    Finalized {
        value: Controlled,
        record: RecordNo,
        number: u64,
        cause: Cause,
    },
    /// The storage of an object goes back: to a pool, or to one of its subpools, where it was allocated (13.11.2).
    Back {
        object: Id,
        /// Its access type, or the type that a record object is known by.
        access: TypeNo,
        /// The trace number: allocations are counted from 1. 0 for a declared object.
        number: u64,
        /// The pool's number; 0 is the standard pool. None for a declared object.
        pool: Option<usize>,
        /// The number of the subpool; none yet.
        subpool: Option<usize>,
        cause: Cause,
    },
    /// An access value is followed (4.1).
    Followed {
        object: Id,
    },
    /// A master has been left; nothing of it exists any more (7.6.1).
    Left {
        master: u64,
    },
    /// A line is written.
    Line(Line),
    /// Nothing that can be seen.
    Quiet,
}

/// A controlled value: a part of an object, and how often that part had a value before.
#[derive(Clone, Copy)]
pub struct Controlled {
    pub object: Id,
    /// The number of the part in the object's type; 0 is the whole.
    pub part: usize,
    pub turn: u64,
}

/// How a controlled value comes to exist (7.6).
#[derive(Clone, Copy)]
pub enum Birth {
    /// Its object is created, and it has been initialized.
    Creation,
    /// Its object is created as a copy of another, and it has been adjusted.
    Copy,
    /// It was copied by the assignment of this number, and has been adjusted.
    Adjustment { number: u64 },
}

/// What ends an object or a value, each with a number of its own, so that two of them are told apart.
#[derive(Clone, Copy)]
pub enum Cause {
    /// The leaving of a master, at one of its items.
    Leaving { master: u64, item: usize },
    /// A call of an instance of Unchecked_Deallocation.
    Freeing { number: u64 },
    /// An assignment to a record that has controlled parts.
    Assigning { number: u64 },
    /// An Initialize that an exception left: what was initialized of its object before.
    Undoing { number: u64 },
}

/// A line of output, without its line feed.
#[derive(Clone, Copy)]
pub enum Line {
    /// `Integer'Image`: a blank or a minus sign, then digits.
    Image(i32),
    /// A string literal of the program.
    Literal(TextNo),
}

/// How a run ends. After it the machine answers the same again.
#[derive(Clone, Copy)]
pub enum Halt {
    /// The main procedure has been left, and everything in it.
    Finished,
    /// An exception left the main procedure (11.4).
    Unhandled(Exception),
    /// An exception would leave an Adjust or a Finalize (7.6.1).
    Escaped(Exception),
    /// The next action would be erroneous (13.11.2).
    Erroneous(Why),
    /// The next action has no meaning: the program is not well formed.
    Stuck,
    /// The machine's own memory could not grow, or one of its counters, of 64 bits, is used up.
    Memory,
}

/// Why an action would be erroneous (13.11.2); it prints its number.
#[derive(Clone, Copy)]
pub enum Why {
    /// It would follow an access value whose object is gone.
    FollowsGone,
    /// It would end an object twice, or give its words back twice.
    EndsTwice,
    /// It would give words to another pool than the object's own.
    GivesElsewhere,
    /// It would finalize a controlled value that is not alive.
    FinalizesTwice,
}

impl fmt::Display for Why {
    ghost use Rattle.std.specs.Prelude.{Some};
    ghost use Rattle.ada_meaning.specs.Text.{why_text};

    ghost output = { λ why. Some (why_text why) };

    fn fmt<W: fmt::Write>(&self, f: &mut fmt::Formatter<W>) -> fmt::Result {
        match self {
            Why::FollowsGone => write!(f, "E1"),
            Why::EndsTwice => write!(f, "E2"),
            Why::GivesElsewhere => write!(f, "E3"),
            Why::FinalizesTwice => write!(f, "E4"),
        }
    }
}

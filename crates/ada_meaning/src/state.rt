//! Values, the stages of objects, and how a run goes on.

use ada_program::program::Exception;

/// The name of an allocated object: names are counted, and none is used twice.
#[derive(Clone, Copy)]
pub struct Id(pub usize);

/// What a variable or a component holds. An access value keeps its name when the object is gone.
#[derive(Clone, Copy)]
pub enum Value {
    Null,
    Names(Id),
    /// An Integer or a Boolean.
    Scalar(ada_values::Value),
    /// What refers to a record that lies in an object at a place, as a record parameter does (6.2); or to the component there,
    /// where that is given for a formal parameter of mode `in out`.
    Part { object: Id, place: Place },
}

/// Where a record lies in an object: the numbers of its first elementary component, and of its first controlled part (7.6).
#[derive(Clone, Copy)]
pub struct Place {
    pub component: usize,
    pub part: usize,
}

/// The stages of an object's life; none comes back (7.6.1, 13.11.2).
#[derive(Clone, Copy)]
pub enum Stage {
    /// It is being initialized. No object is before there are controlled types.
    Building,
    Existing,
    Gone,
}

/// Whether the run goes on, or a jump is on its way (5.7, 6.5, 11.4).
#[derive(Clone, Copy)]
pub enum Mode {
    Running,
    /// An exception looks for a handler (11.4).
    Raising(Exception),
    /// An exit looks for the innermost loop (5.7).
    Exiting,
    /// A return looks for the end of the body (6.5).
    Returning,
}

//! What is left to do.

ghost use Rattle.std.specs.Prelude.{◌≡◌};
ghost use Rattle.ada_program.specs.Form.{actual_form};
ghost use Rattle.ada_meaning.specs.Frame as frame;
ghost use Rattle.ada_meaning.specs.Frame.{is_master, is_return, passes_on, operation_landing, exit_landing, return_landing, exception_landing, landing, begins_by};
ghost use Rattle.ada_interpreter.specs.CommonSteps.{counted_to};
ghost use Rattle.ada_interpreter.specs.Process.{frame_of, landing_of, asks_by};

use crate::handling::{Landing, landing_among};
use crate::treatment::Treated;
use ada_meaning::{Birth, Cause, Exception, Mode, Place, Value};
use ada_program::program::{
    Actual, Branch, ComponentNo, Declaration, Expression, Handler, Item, Link, Procedure,
    ProcedureNo, RecordPath, Right,
};
use ada_program::{Path, Stmt, TypeNo, VariableNo};
use ada_values::operator::{BinaryOperator, UnaryOperator};

/// One thing that is left to do.
#[derive(Drop)]
pub(crate) enum Frame<'a> {
    /// The declarations that are left of a master, and the statements behind them with their handlers (3.11).
    Elaborates {
        declarations: &'a [Declaration],
        statements: &'a [Stmt],
        handlers: &'a [Handler],
    },
    /// The statements that are left (5.1).
    Does(&'a [Stmt]),
    /// The newest operand is a condition: these statements are done if it is true, else one of the other branches (5.3).
    Decides {
        statements: &'a [Stmt],
        branches: &'a [Branch],
        otherwise: &'a [Stmt],
    },
    /// A loop comes to its next turn (5.5).
    Repeats {
        condition: Option<&'a Expression>,
        statements: &'a [Stmt],
    },
    /// The newest operand is the condition of a loop: there is a turn if it is true (5.5).
    Turns {
        condition: &'a Expression,
        statements: &'a [Stmt],
    },
    /// The two newest operands are the bounds of a `for` loop (5.5).
    Ranges {
        parameter: VariableNo,
        statements: &'a [Stmt],
    },
    /// A `for` loop has begun a turn with this value of its parameter, and comes to the next one, up to the last (5.5).
    Counts {
        parameter: VariableNo,
        value: i32,
        last: i32,
        statements: &'a [Stmt],
    },
    /// The newest operand is the condition of an exit (5.7).
    Exits,
    /// The statements in front of this have these handlers (11.2).
    Handles(&'a [Handler]),
    /// The statements of the innermost master are in front of this; it is left then (7.6.1).
    Closes,
    /// The innermost master is being left, newest item first; then the mode goes on (7.6.1).
    Leaves(Mode),
    /// The newest operands are the values of these actual parameters of a call: the procedure's body begins (6.4).
    Calls {
        procedure: ProcedureNo,
        body: &'a Procedure,
        actuals: &'a [Actual],
    },
    /// The body of a call with these actual parameters is in front of this: its activation ends then, and that of its
    /// caller goes on (6.4, 6.5). The references are to the components that are given for formal parameters of mode
    /// `in out`, in order: where there are none, they take no memory.
    Returns {
        actuals: &'a [Actual],
        references: Vec<Value>,
    },
    /// What is assigned is to be evaluated; null where nothing is written (5.2).
    Evaluates(Option<&'a Right>),
    /// An expression is to be evaluated: its value becomes the newest operand (4.4).
    Computes(&'a Expression),
    /// A path is to be read, as an expression that is one is evaluated (4.1, 4.4).
    Reads(&'a Path),
    /// The access value that a path names is to be evaluated, as what is assigned is (4.1, 5.2).
    Names(&'a Path),
    /// The newest operand is an access value, and these components are named behind it (4.1.3).
    Follows(&'a [ComponentNo]),
    /// The newest operand is an access value: is it null, or is it not (4.5.2)?
    TestsNull {
        equal: bool,
    },
    /// The record to which a path leads is to be found: what refers to it becomes the newest operand (6.2).
    Refers(&'a RecordPath),
    /// The newest operand gives access to an object in which a record of this type lies at a place: what refers to the
    /// record becomes the newest operand (6.2).
    RefersIn {
        place: Place,
        record_type: TypeNo,
    },
    /// The component to which a path leads is to be found, for a formal parameter of mode `in out` (6.4.1).
    Opens(&'a Path),
    /// The newest operand gives access to an object, whose component is given for such a parameter: what refers to it
    /// becomes an operand, and its value the newest one (6.4.1).
    OpensIn(ComponentNo),
    /// The operators of a chain that are left; the newest operand is the left one of the first (4.5).
    Continues(&'a [Link]),
    /// An operator is to be applied to the two newest operands (4.5).
    Applies(BinaryOperator),
    /// An operator is to be applied to the newest operand (4.5.4, 4.5.6).
    AppliesAlone(UnaryOperator),
    /// The items of an aggregate that are left to be evaluated (4.3.1).
    Fills(&'a [Item]),
    /// The newest operand gives access to an object in which a record of this type lies, from a component on: its
    /// components become the newest operands (4.3.1).
    Copies {
        first: ComponentNo,
        record_type: TypeNo,
    },
    /// A pool is to be asked for a new object, whose components are the newest operands, as many as `count` (4.8).
    Creates {
        access: TypeNo,
        count: usize,
    },
    /// The newest operand goes to a variable (5.2).
    Stores(VariableNo),
    /// The newest operand gives access to an object, whose component is assigned to: what goes there is evaluated next
    /// (5.2).
    Targets {
        component: ComponentNo,
        right: &'a Right,
    },
    /// The newest operand goes to a component of an object (5.2).
    StoresIn {
        object: Value,
        component: ComponentNo,
    },
    /// The newest operand gives access to an object in which a record of this type lies, from a component on, that is
    /// assigned to: what its components get is evaluated next (5.2).
    TargetsRecord {
        first: ComponentNo,
        record_type: TypeNo,
        items: &'a [Item],
    },
    /// The newest operands go to the components of an object, as many as `count` from one on (5.2).
    StoresRecord {
        object: Value,
        first: ComponentNo,
        count: usize,
    },
    /// The two newest operands refer to records of this type, which have controlled parts: the newest one is assigned to
    /// the other (5.2, 7.6).
    Assigns(TypeNo),
    /// The newest operand gives access to an object, whose component takes the next number of the input.
    Receives(ComponentNo),
    /// The newest operand gives access to an object, whose component is freed by the instance for this access type
    /// (13.11.2).
    FreesIn {
        access: TypeNo,
        component: ComponentNo,
    },
    /// The newest operand is the initial value of a variable, which then is created (3.3.1).
    Declares(VariableNo),
    /// The newest operands are the components of a record object, which then is created (3.3.1).
    DeclaresRecord {
        variable: VariableNo,
        object: TypeNo,
    },
    /// The controlled parts of an object are initialized, or finalized (7.6, 7.6.1).
    Treats(Box<Treated>),
    /// The body of the operation that begins a part of an object is in front of this: then the part, which is of this type,
    /// has its value, and the treatment goes on (7.6).
    Awaits {
        by: Birth,
        treated: Box<Treated>,
        of: usize,
        part: usize,
    },
    /// The body of a Finalize is in front of this: no exception leaves it (7.6.1).
    Confines,
    /// What a jump had to wait for is done: it goes on.
    Resumes(Mode),
    /// The newest operand is to be written (A.10.7).
    Writes,
    /// An object ceases to exist (13.11.2).
    Ends(Value),
    /// Its storage goes back, to a pool if it is from one (13.11.2).
    GivesBack {
        object: Value,
        cause: Cause,
        pool: Option<usize>,
    },
    /// A variable becomes null: the end of a Free (13.11.2).
    Clears(VariableNo),
    /// A component of an object becomes null: the end of a Free (13.11.2).
    ClearsIn {
        object: Value,
        component: ComponentNo,
    },
}

impl<'a> Frame<'a> {
    /// An actual parameter is to be evaluated (6.4.1): the value that is given, or what the variable holds. A record and a
    /// component are to be found.
    pub(crate) fn evaluating(actual: &'a Actual) -> Frame<'a>
        ensures { frame_of result ≡ frame.evaluating (actual_form actual.now) }
    {
        match actual {
            Actual::In(value) => Frame::Computes(value),
            Actual::InNull => Frame::Evaluates(None),
            Actual::InOut(path) => Frame::Reads(path),
            Actual::InAccess(path) | Actual::InOutAccess(path) => Frame::Names(path),
            Actual::InOutComponent(path) => Frame::Opens(path),
            Actual::InRecord(path) | Actual::InOutRecord(path) => Frame::Refers(path),
        }
    }

    /// A `for` loop begins a turn with this value of its parameter (5.5). Any other frame stays as it is.
    pub(crate) fn set_count(&mut self, count: i32)
        ensures { self.new ≡ counted_to count self.old }
    {
        match self {
            Frame::Counts {
                parameter: _,
                value,
                last: _,
                statements: _,
            } => *value = count,
            _ => {}
        }
    }

    /// Does it begin a statement?
    pub(crate) fn begins(&self) -> bool
        ensures { result ≡ begins_by (frame_of self.now) }
    {
        match self {
            Frame::Does(statements) => statements.first().is_some(),
            _ => false,
        }
    }

    /// Does a jump stop here, until a master has been left (7.6.1, 11.4)?
    pub(crate) fn is_master(&self) -> bool
        ensures { result ≡ is_master (frame_of self.now) }
    {
        match self {
            Frame::Elaborates {
                declarations: _,
                statements: _,
                handlers: _,
            } => true,
            Frame::Closes => true,
            _ => false,
        }
    }

    /// May the step that it makes leave open which answer comes?
    pub(crate) fn asks(&self) -> bool
        ensures { result ≡ asks_by (frame_of self.now) }
    {
        match self {
            Frame::Leaves(_) => true,
            Frame::Creates {
                access: _,
                count: _,
            } => true,
            Frame::Treats(_) => true,
            _ => false,
        }
    }

    /// Does the body of a call come to its end here?
    fn is_return(&self) -> bool
        ensures { result ≡ is_return (frame_of self.now) }
    {
        match self {
            Frame::Returns {
                actuals: _,
                references: _,
            } => true,
            _ => false,
        }
    }

    /// Where a jump lands that comes to this frame, which waits for no operation of a part.
    pub(crate) fn landing(&self, mode: Mode) -> Landing<'a>
        requires { operation_landing (frame_of self.now) ≡ passes_on }
        ensures { landing_of result ≡ landing mode (frame_of self.now) }
    {
        match mode {
            Mode::Raising(exception) => self.exception_landing(exception),
            Mode::Exiting => self.exit_landing(),
            Mode::Returning => self.return_landing(),
            Mode::Running => Landing::PassesOn,
        }
    }

    /// An exit goes on behind the innermost loop (5.7).
    fn exit_landing(&self) -> Landing<'a>
        requires { operation_landing (frame_of self.now) ≡ passes_on }
        ensures { landing_of result ≡ exit_landing (frame_of self.now) }
    {
        match self {
            Frame::Repeats {
                condition: _,
                statements: _,
            } => Landing::GoesBehind,
            Frame::Counts {
                parameter: _,
                value: _,
                last: _,
                statements: _,
            } => Landing::GoesBehind,
            _ => Landing::PassesOn,
        }
    }

    /// A return goes on behind the call of its body (6.5).
    fn return_landing(&self) -> Landing<'a>
        requires { operation_landing (frame_of self.now) ≡ passes_on }
        ensures { landing_of result ≡ return_landing (frame_of self.now) }
    {
        if self.is_return() {
            Landing::GoesBehind
        } else {
            Landing::PassesOn
        }
    }

    /// An exception goes on in the first handler that takes it (11.4).
    fn exception_landing(&self, exception: Exception) -> Landing<'a>
        requires { operation_landing (frame_of self.now) ≡ passes_on }
        ensures { landing_of result ≡ exception_landing exception (frame_of self.now) }
    {
        match self {
            Frame::Handles(handlers) => landing_among(exception, handlers),
            _ => Landing::PassesOn,
        }
    }
}

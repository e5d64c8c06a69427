//! The program that a tree means: names are numbers, types are known, and nothing is left to look up.

use ada_text::Spot;
use ada_values::operator::{BinaryOperator, UnaryOperator};

/// The number of a type in `Program::types`.
#[derive(Clone, Copy, Debug, PartialEq, Eq)]
pub struct TypeNo(pub usize);

/// The number of a variable in its body: `Program::variables`, or `Procedure::variables`.
#[derive(Clone, Copy, Debug, PartialEq, Eq)]
pub struct VariableNo(pub usize);

/// The number of a text in `Program::texts`.
#[derive(Clone, Copy, Debug, PartialEq, Eq)]
pub struct TextNo(pub usize);

/// The number of an exception in `Program::exceptions`.
#[derive(Clone, Copy, Debug, PartialEq, Eq)]
pub struct ExceptionNo(pub usize);

/// The number of a procedure in `Program::procedures`.
#[derive(Clone, Copy, Debug, PartialEq, Eq)]
pub struct ProcedureNo(pub usize);

/// The number of a pool in `Program::pools`.
#[derive(Clone, Copy, Debug, PartialEq, Eq)]
pub struct PoolNo(pub usize);

/// The number of an elementary component in its record type, from 0: components that are records count by their own.
#[derive(Clone, Copy, Debug, PartialEq, Eq)]
pub struct ComponentNo(pub usize);

/// The number of a controlled part in its record type, from 0 (7.6): a controlled record stands before its components, and
/// these in order.
#[derive(Clone, Copy, Debug, PartialEq, Eq)]
pub struct PartNo(pub usize);

/// The number of a record type among those that have controlled parts, in the order in which they are complete: each stands
/// behind the types of its components.
#[derive(Clone, Copy, Debug, PartialEq, Eq)]
pub struct RecordNo(pub usize);

/// A whole program: its types, its pools, its procedures, the variables of its main procedure, and what that does.
#[derive(Drop)]
pub struct Program {
    pub types: Vec<TypeDefinition>,
    /// The storage pools that it declares, in the order of the text (13.11).
    pub pools: Vec<Pool>,
    /// The procedures that it declares, in the order in which their bodies end in the text: each stands behind those that
    /// it may call.
    pub procedures: Vec<Procedure>,
    pub variables: Vec<Variable>,
    /// The string literals that it writes, in the order of the text (2.6).
    pub texts: Vec<String>,
    /// The names of the exceptions that it declares, in upper case, in the order of the text (11.1).
    pub exceptions: Vec<String>,
    /// What is elaborated before the statements, in order (3.11).
    pub declarations: Vec<Declaration>,
    pub statements: Vec<Stmt>,
    /// What handles the exceptions that the statements raise (11.2).
    pub handlers: Vec<Handler>,
}

/// A procedure that the program declares (6.1, 6.3): its variables, and what its body does.
#[derive(Drop)]
pub struct Procedure {
    /// The modes of its formal parameters, in order: these are the first of its variables.
    pub formals: Vec<FormalMode>,
    pub variables: Vec<Variable>,
    /// What is elaborated before the statements, in order (3.11).
    pub declarations: Vec<Declaration>,
    pub statements: Vec<Stmt>,
    /// What handles the exceptions that the statements raise (11.2).
    pub handlers: Vec<Handler>,
    /// Where its first token stands: `procedure`, or `overriding`.
    pub start: Spot,
    /// Where its last `end` stands.
    pub end: Spot,
}

/// The mode of a formal parameter (6.2).
#[derive(Clone, Copy, Debug, PartialEq, Eq)]
pub enum FormalMode {
    /// The actual parameter gives a value, or is the record that the formal one stands for.
    In,
    /// The actual parameter is a variable or a component, and gets what the formal one holds where the body ends normally, or
    /// it is the record that the formal one stands for.
    InOut,
}

/// A type that the program declares.
#[derive(Drop)]
pub enum TypeDefinition {
    /// A record type (3.8).
    Record {
        name: String,
        /// Its components as they are declared, in order.
        parts: Vec<Part>,
        /// Its elementary components at any depth, in order.
        components: Vec<ComponentKind>,
        /// How its objects are finalized (7.6). None, where they have no controlled parts.
        finalization: Option<Finalization>,
    },
    /// An access type and the record type that it designates (3.10).
    Access {
        name: String,
        designated: TypeNo,
        /// The pool that a storage clause or an aspect names (13.11); the standard pool, where none does.
        pool: Option<PoolNo>,
    },
    /// What one record object or record parameter is known by (3.3.1, 6.2), and its record type. Its variable alone is of
    /// this type.
    Object {
        record: TypeNo,
    },
}

/// How objects of a record type are finalized that have controlled parts (7.6).
#[derive(Clone, Copy, Debug, PartialEq, Eq)]
pub struct Finalization {
    pub number: RecordNo,
    /// How many controlled parts an object has at any depth, itself included.
    pub parts: usize,
    /// Whether the type is limited (7.5): derived from `Ada.Finalization.Limited_Controlled`, or with a component that is. Its
    /// objects are not copied.
    pub limited: bool,
    /// What the type itself overrides, where it is controlled.
    pub operations: Operations,
}

/// The procedures that override the operations of a controlled type (7.6). None, where one is inherited: it does nothing.
#[derive(Clone, Copy, Debug, PartialEq, Eq)]
pub struct Operations {
    pub initialize: Option<ProcedureNo>,
    pub adjust: Option<ProcedureNo>,
    pub finalize: Option<ProcedureNo>,
}

/// A storage pool that a declaration creates (13.11): a `First_Fit_Pool`.
#[derive(Drop)]
pub struct Pool {
    pub name: String,
    /// Its size in words, as its declaration says: at most 65,536.
    pub words: u32,
}

/// A component of a record type, as it is declared.
#[derive(Drop)]
pub struct Part {
    pub name: String,
    pub kind: PartKind,
    /// The number of its first elementary component in the record type: that of the next one, where it has none.
    pub first: ComponentNo,
    /// The number of its first controlled part in the record type: that of the next one, where it has none.
    pub part: PartNo,
}

/// What a declared component is.
#[derive(Clone, Copy, Debug, PartialEq, Eq)]
pub enum PartKind {
    Elementary(ComponentKind),
    /// A record, of a type that is declared before.
    Record(TypeNo),
    /// The parent part of a type that is derived from `Ada.Finalization.Controlled` or `Limited_Controlled` (3.4, 7.6): the
    /// type is controlled. It has no name, and no component lies in it.
    Parent,
}

/// What an elementary component holds, and what it holds at first where no value is given.
#[derive(Clone, Copy, Debug, PartialEq, Eq)]
pub enum ComponentKind {
    Integer { initial: i32 },
    Boolean { initial: bool },
    /// Null at first.
    Access(TypeNo),
}

/// A variable: an object that a declaration names (3.3.1).
#[derive(Drop)]
pub struct Variable {
    pub name: String,
    /// Where its name is declared.
    pub spot: Spot,
    pub kind: VariableKind,
    /// Whether it is a borrower: declared with `access T` (3.10), it holds null or names an object that another owns.
    /// Its kind is that of the access type whose values it borrows.
    pub borrows: bool,
}

/// What a variable holds (3.3.1).
#[derive(Clone, Copy, Debug, PartialEq, Eq)]
pub enum VariableKind {
    Integer,
    Boolean,
    /// A value of an access type.
    Access(TypeNo),
    /// A record object, known by the type that is its own. It is the same one as long as the variable is there. A formal
    /// parameter stands for a record that lies in another object.
    Record(TypeNo),
}

/// A type that an expression can have (3.5.3, 3.5.4).
#[derive(Clone, Copy, Debug, PartialEq, Eq)]
pub enum ScalarType {
    Integer,
    Boolean,
}

/// An exception (11.1): a predefined one, that of a read behind the last number of the input, or a declared one.
#[derive(Clone, Copy, Debug, PartialEq, Eq)]
pub enum Exception {
    ConstraintError,
    ProgramError,
    StorageError,
    EndError,
    Declared(ExceptionNo),
}

/// What a handler names (11.2).
#[derive(Clone, Copy, Debug, PartialEq, Eq)]
pub enum Choice {
    Exception(Exception),
    Others,
}

/// What one step of the elaboration of the declarations does (3.11).
#[derive(Drop)]
pub enum Declaration {
    /// A pool is created (13.11).
    Pool(PoolNo),
    /// The collection of an access type is created (7.6.1).
    Collection(TypeNo),
    /// An object is created, and gets its initial value where one is written, else null (3.3.1).
    Variable {
        variable: VariableNo,
        initial: Option<Right>,
    },
    /// A record object is created, known by a type of its own. Its components get the initial value, by its items in the
    /// order of the components; where none is written, what they hold at first (3.3.1).
    Record {
        variable: VariableNo,
        object: TypeNo,
        initial: Option<Vec<Item>>,
    },
}

/// A statement (5.1).
#[derive(Drop)]
#[cycle(statement)]
pub enum Stmt {
    Null,
    /// The value goes to what the path names (5.2).
    Assign {
        target: Path,
        value: Right,
    },
    /// The components of a record get the values of the items, in order (5.2): those of an aggregate, or another record of
    /// the type, which is one item.
    AssignRecord {
        target: RecordPath,
        items: Vec<Item>,
    },
    /// A call of the instance of Unchecked_Deallocation for an access type (13.11.2).
    Free {
        access: TypeNo,
        path: Path,
    },
    /// `Run_Input.Get (..);` The next number of the input goes to an Integer.
    Get(Path),
    /// `Ada.Text_IO.Put_Line (Integer'Image (..));` (A.10.7)
    PutImage(Expression),
    /// `Ada.Text_IO.Put_Line ("..");` (A.10.7)
    PutText(TextNo),
    /// `if`: the statements of the first branch whose condition is true, or the others (5.3).
    If {
        branches: Vec<Branch>,
        otherwise: Vec<Stmt>,
    },
    /// `loop`, or `while` with a condition (5.5); it has a statement.
    Loop {
        condition: Option<Expression>,
        statements: Vec<Stmt>,
        /// Where its `end` stands.
        end: Spot,
    },
    /// `for`: the parameter takes each value from the first to the last, both of which are evaluated once (5.5).
    For {
        parameter: VariableNo,
        first: Expression,
        last: Expression,
        statements: Vec<Stmt>,
        /// Where its `end` stands.
        end: Spot,
    },
    /// `exit`, perhaps with a condition, of the innermost loop (5.7).
    Exit {
        condition: Option<Expression>,
        spot: Spot,
    },
    /// A call of a procedure, with an actual parameter for each formal one, in order (6.4).
    Call {
        procedure: ProcedureNo,
        actuals: Vec<Actual>,
    },
    /// `return` (6.5).
    Return(Spot),
    /// `raise` (11.3).
    Raise(Exception),
    /// A block: a master with declarations and handlers of its own (5.6).
    Block {
        declarations: Vec<Declaration>,
        statements: Vec<Stmt>,
        handlers: Vec<Handler>,
    },
}

/// An actual parameter (6.4.1).
#[derive(Drop)]
pub enum Actual {
    /// The value of a formal parameter of mode `in`, an Integer or a Boolean.
    In(Expression),
    /// Null, for a formal parameter of mode `in` of an access type.
    InNull,
    /// The access value that a path names, for a formal parameter of mode `in`: what it names stays with its owner.
    InAccess(Path),
    /// The record that a formal parameter of mode `in` stands for: it is passed by reference (6.2).
    InRecord(RecordPath),
    /// The Integer or Boolean variable for which a formal parameter of mode `in out` stands.
    InOut(Path),
    /// The variable of an access type for which a formal parameter of mode `in out` stands: what it owns goes to the formal
    /// parameter, and comes back where the body ends normally.
    InOutAccess(Path),
    /// The component for which a formal parameter of mode `in out` stands: it gets back what that holds where the body ends
    /// normally.
    InOutComponent(Path),
    /// The record that a formal parameter of mode `in out` stands for: it is passed by reference (6.2).
    InOutRecord(RecordPath),
}

/// A branch of an `if` (5.3).
#[derive(Drop)]
#[cycle(statement)]
pub struct Branch {
    pub condition: Expression,
    pub statements: Vec<Stmt>,
}

/// A handler (11.2); it has a statement.
#[derive(Drop)]
#[cycle(statement)]
pub struct Handler {
    pub choices: Vec<Choice>,
    pub statements: Vec<Stmt>,
}

/// What is assigned.
#[derive(Drop)]
pub enum Right {
    Null,
    /// The access value that a path names: that of a variable, or of a component.
    Path(Path),
    /// A new object of the type that the access type designates; its items in the order of the components (4.8).
    Allocator { access: TypeNo, items: Vec<Item> },
    /// Such an object, whose components hold what they hold at first where no value is given (4.8, 3.3.1).
    Default(TypeNo),
    /// An Integer or a Boolean (4.4).
    Value(Expression),
}

/// An item of an aggregate (4.3.1), for one elementary component, or for those of a record. The items of an aggregate in
/// another one stand in its place.
#[derive(Drop)]
pub enum Item {
    Null,
    /// The access value that a path names: that of a variable, or of a component.
    Path(Path),
    /// An Integer or a Boolean (4.4).
    Value(Expression),
    /// A record, whose components are copied.
    Record(RecordPath),
}

/// An expression of type Integer or Boolean (4.4). Parentheses, named numbers and enumeration literals are gone.
#[derive(Drop)]
#[cycle(expression)]
pub enum Expression {
    Integer(i32),
    Boolean(bool),
    /// The value that a path names: that of a variable, or of a component (4.1).
    Path(Path),
    /// `X = null`, or `X /= null` where it is not equal that is asked (4.5.2).
    NullTest {
        path: Path,
        equal: bool,
    },
    /// `-X`, `not X` (4.5.4, 4.5.6)
    Unary {
        operator: UnaryOperator,
        operand: Box<Expression>,
    },
    /// `A + B - C`: operators of one level, which are applied from left to right (4.5).
    Chain {
        first: Box<Expression>,
        links: Vec<Link>,
    },
}

/// An operator of a chain, and its right operand (4.5).
#[derive(Drop)]
#[cycle(expression)]
pub struct Link {
    pub operator: BinaryOperator,
    pub operand: Expression,
}

/// A path (4.1): a variable, and the components named behind it, each of the object that the value before it gives
/// access to. `X.C` and `X.all.C` are one path. Where the variable is a record object, the first component is its own, and
/// nothing is followed to it.
#[derive(Drop)]
pub struct Path {
    pub root: VariableNo,
    /// Whether the variable is a record object.
    pub of_record: bool,
    pub selectors: Vec<ComponentNo>,
    /// Where its first name stands.
    pub spot: Spot,
}

/// A path to a record (4.1): to a record object, to the object that an access value gives access to (`X.all`), or to a
/// component of either that is a record.
#[derive(Drop)]
pub struct RecordPath {
    /// The path to the object in which the record lies: a record object, or an access value.
    pub object: Path,
    /// The number of the record's first elementary component in the object.
    pub first: ComponentNo,
    /// The number of its first controlled part there.
    pub part: PartNo,
    /// Its record type.
    pub record: TypeNo,
}

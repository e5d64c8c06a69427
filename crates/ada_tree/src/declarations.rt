//! Declarations (3.1).

use crate::expressions::Right;
use crate::names::{Identifier, Name};
use crate::records::{RecordDefinition, StaticValue};
use crate::statements::Sequence;
use ada_text::Spot;

/// A declaration; the spot is that of its first word, where it begins with one.
#[derive(Drop)]
#[cycle(tree)]
pub enum Declaration<'t> {
    /// `E : exception;` (11.1)
    Exception {
        name: Identifier<'t>,
    },
    /// `N : constant := 1;` (3.3.2)
    Constant {
        name: Identifier<'t>,
        value: StaticValue<'t>,
    },
    /// `P : T (Pool_Size => 64);`, an object whose type has one discriminant, a number of storage elements (3.7.1, 13.11)
    Pool {
        name: Identifier<'t>,
        type_name: Name<'t>,
        label: Option<Identifier<'t>>,
        size: Size<'t>,
    },
    /// `X : T := ..;` (3.3.1)
    Object {
        name: Identifier<'t>,
        type_name: Name<'t>,
        initial: Option<Right<'t>>,
    },
    /// `X : access T := ..;`, an object of an anonymous access type (3.3.1, 3.10)
    Borrower {
        name: Identifier<'t>,
        designated: Identifier<'t>,
        initial: Option<Right<'t>>,
    },
    /// `type T;` (3.10.1)
    IncompleteType {
        spot: Spot,
        name: Identifier<'t>,
    },
    /// `type A is access T;` or `type A is access T with Storage_Pool => P;` (3.10, 13.1.1)
    AccessType {
        spot: Spot,
        name: Identifier<'t>,
        designated: Identifier<'t>,
        aspect: Option<Aspect<'t>>,
    },
    /// `type T is record .. end record;` (3.8)
    RecordType {
        spot: Spot,
        name: Identifier<'t>,
        definition: RecordDefinition<'t>,
    },
    /// `type T is new P with record .. end record;` (3.4, 3.9.1)
    DerivedType {
        spot: Spot,
        name: Identifier<'t>,
        parent: Name<'t>,
        definition: RecordDefinition<'t>,
    },
    /// `for A'Storage_Size use 64;` (13.3)
    Clause {
        spot: Spot,
        name: Identifier<'t>,
        attribute: Identifier<'t>,
        value: Size<'t>,
    },
    /// `procedure P (..);` (6.1)
    Specification(ProcedureHead<'t>),
    /// `procedure P (..) is .. begin .. end P;` (6.3)
    Body {
        head: ProcedureHead<'t>,
        declarations: Vec<Declaration<'t>>,
        body: Sequence<'t>,
        /// The name after the last `end`, where one is written.
        end_name: Option<Identifier<'t>>,
    },
    /// `procedure Free is new Ada.Unchecked_Deallocation (T, A);` (12.3, 13.11.2)
    Instance {
        spot: Spot,
        name: Identifier<'t>,
        generic: Name<'t>,
        object: Identifier<'t>,
        access: Identifier<'t>,
    },
}

/// A number of storage elements, or the name of what is given in the place of one.
#[derive(Clone, Copy)]
pub enum Size<'t> {
    Number { spot: Spot, value: u32 },
    Named(Identifier<'t>),
}

/// `with Storage_Pool => P` (13.1.1)
#[derive(Clone, Copy)]
pub struct Aspect<'t> {
    /// Where the word `with` stands.
    pub spot: Spot,
    pub name: Identifier<'t>,
    pub value: Identifier<'t>,
}

/// What stands before the `;` or the `is` of a procedure (6.1).
#[derive(Drop)]
pub struct ProcedureHead<'t> {
    /// Where the word `overriding` stands, where it is written (8.3.1).
    pub overriding: Option<Spot>,
    /// Where the word `procedure` stands.
    pub spot: Spot,
    pub name: Identifier<'t>,
    /// The formals: an empty list where no parentheses are written.
    pub formals: Vec<Formal<'t>>,
}

/// `X : in out T`, a formal of a procedure (6.1)
#[derive(Clone, Copy)]
pub struct Formal<'t> {
    pub name: Identifier<'t>,
    /// Where the word `in` stands, where it is written.
    pub input: Option<Spot>,
    /// Where the word `out` stands, where it is written.
    pub output: Option<Spot>,
    pub type_name: Identifier<'t>,
}

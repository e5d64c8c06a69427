//! Compilation units (10.1.1).

use crate::declarations::Declaration;
use crate::names::{Identifier, Name};
use crate::statements::Sequence;
use ada_text::Spot;

/// A compilation unit: one procedure, and the library units that it names before (10.1.1).
#[derive(Drop)]
pub struct Unit<'t> {
    pub clauses: Vec<Clause<'t>>,
    /// Where the word `procedure` stands.
    pub spot: Spot,
    pub name: Identifier<'t>,
    pub declarations: Vec<Declaration<'t>>,
    pub body: Sequence<'t>,
    /// The name after the last `end`, where one is written.
    pub end_name: Option<Identifier<'t>>,
}

/// `with A.B, C;` (10.1.2)
#[derive(Drop)]
pub struct Clause<'t> {
    pub first: Name<'t>,
    pub rest: Vec<Name<'t>>,
}

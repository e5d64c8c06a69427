//! Record types (3.8), and the values that are known before the run (4.9).

use crate::names::Identifier;
use ada_text::Spot;

/// What a record type is made of (3.8).
#[derive(Drop)]
pub enum RecordDefinition<'t> {
    /// `null record`
    NullRecord,
    /// `record null; end record`
    NullComponents,
    /// `record .. end record` with one component or more
    Components {
        first: ComponentDefinition<'t>,
        rest: Vec<ComponentDefinition<'t>>,
    },
}

/// `C : T := 0;` in a record type (3.8).
#[derive(Drop)]
pub struct ComponentDefinition<'t> {
    pub name: Identifier<'t>,
    pub type_name: Identifier<'t>,
    pub initial: Option<StaticValue<'t>>,
}

/// A value that is known before the run: a number, perhaps with a minus sign, or a name (4.9).
#[derive(Drop)]
pub enum StaticValue<'t> {
    /// The spot is that of the sign, where there is one.
    Number {
        spot: Spot,
        negative: bool,
        magnitude: u32,
    },
    Named(Identifier<'t>),
}

//! The law of declarations that settle. A law is a function that does nothing, and whose contract is the theorem.

ghost use Rattle.ada_settled.specs.Laws.{NoCircleSettles};

/// In a well-formed program in which no body leads back to itself by what its own declarations create, that leads through no more calls of
/// operations than there are bodies: so a statement ends, or another one begins.
pub fn no_circle_settles()
    ensures { NoCircleSettles }
{}

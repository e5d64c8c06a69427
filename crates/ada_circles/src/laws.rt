//! Laws of bodies that lead back to themselves, by the definitions alone. Each is a function that does nothing, and whose contract is the
//! theorem.

ghost use Rattle.ada_circles.specs.Example.{ABlockMayDeclare, ExamplesFit, ItsOwnTypeIsTold, LeadingAlonePasses, TheFirstIsTold};
ghost use Rattle.ada_circles.specs.Laws.{LeadingGoesOn, OneIsFirst};

/// A program has one first body that leads back to itself, or none.
pub fn one_is_first()
    ensures { OneIsFirst }
{}

/// What leads to something leads to what that leads to.
pub fn leading_goes_on()
    ensures { LeadingGoesOn }
{}

/// The rule refuses some programs and not others: a Finalize whose own declarations hold an object of its type, and two of which each
/// declares an object of the other's type; not one that declares its object in a block inside its statements, nor one that leads to another
/// one, which does not lead back.
pub fn neither_all_nor_none()
    ensures fit { ExamplesFit }
    ensures itself { ItsOwnTypeIsTold }
    ensures crossing { TheFirstIsTold }
    ensures block { ABlockMayDeclare }
    ensures passing { LeadingAlonePasses }
{}

//! The laws of bodies as they are judged. Each is a function that does nothing, and whose contract is the theorem.

ghost use Rattle.ada_judged.specs.Fitting.{FittingIsMet, TrackedComponentsFitAsVariables};
ghost use Rattle.ada_judged.specs.Obeying.{ObeyingIsMet, TrackedComponentsObeyAsVariables};

/// A body whose formal parameter has tracked components (7.6) is well formed as one that has a variable for each of them, where no
/// initial value names one: over the variables as they are judged each of its forms, as it is judged, has the types that it wants;
/// and it creates the same, frees each object by the instance for its own access type, and may raise the same exceptions and free
/// objects of the same access types.
pub fn tracked_components_fit_as_variables()
    ensures { TrackedComponentsFitAsVariables }
{}

/// The premises are met: a body assigns a tracked component of its formal parameter to a variable, makes it null, and frees it.
pub fn fitting_is_met()
    ensures { FittingIsMet }
{}

/// Where flow lets a body through whose formal parameter has tracked components (7.6), it lets the body through that has a
/// variable for each of them, and what is known behind it is the same; so it is of its statements, branches, handlers and
/// declarations.
pub fn tracked_components_obey_as_variables()
    ensures { TrackedComponentsObeyAsVariables }
{}

/// The premises are met: by the body of an Adjust that takes the value of a tracked component by a take pair.
pub fn obeying_is_met()
    ensures { ObeyingIsMet }
{}

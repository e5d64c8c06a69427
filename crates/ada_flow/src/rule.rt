//! What is known of a variable at a place in the program, and the rules of the flow of values.

/// Where the object of an access value may lie. Regions tell the objects of one subpool from those of another.
#[derive(Clone, Copy)]
pub enum Region {
    /// Anywhere in the pool. Programs have no subpools yet, so this is the only region.
    Whole,
}

/// What a variable may be relied on for, from most to least.
#[derive(Clone, Copy)]
pub enum Hold {
    /// It holds null.
    Null,
    /// It is a formal parameter of mode `in out`, and holds what its call gave it: null, or an object that it owns. Should an
    /// exception leave the body, the caller's variable owns that again.
    Kept(Region),
    /// It holds null, or owns the object that it names: no other variable and no component owns it.
    Own(Region),
    /// It holds null, or names an object that exists, which another may own: so do borrowers and formal parameters of mode
    /// `in`, and so does a record parameter of either mode, whose record lies in another's object.
    Alias(Region),
    /// Nothing: its object may be gone.
    Lost,
}

/// A rule of the flow of values.
#[derive(Clone, Copy)]
pub enum Rule {
    /// A value that may be gone is followed, passed, moved or freed.
    LostValue,
    /// A variable is moved, freed or given for a formal parameter of mode `in out` whose object another one owns.
    AliasMoved,
    /// A value is moved out of a component that keeps it: the next statement does not set it to null, and it is not what gets the new object.
    /// Or a component of an access type is given for a formal parameter of mode `in out`.
    TakePair,
    /// At the end of a loop's body, or at an exit, less is known of a variable than at the loop's start.
    LoopState,
    /// A component is freed whose path follows a value of the component's own access type, or of one of which the finalization of the object
    /// may free or follow objects: the object that is freed may be one on the way. Or a component of a record parameter's own is freed, where the
    /// finalization may free or follow objects that are of the parameter's record type, or have a part of it: it may come to the parameter's object.
    /// Or two actual parameters of a call begin with one variable, and one of them is for mode `in out`: what is done through
    /// one formal parameter would be seen through the other. Or a record is passed, or a component given for mode `in out`, whose
    /// path follows a value of an access type of which the call may free objects: what is passed may be gone before the call ends.
    /// Or a component gets a new object, or a record another value, whose path follows a value of an access type of which the operations
    /// that are called for that may free objects: so does the path of what a record is copied from.
    UnsafePath,
    /// At a normal end of a body a formal parameter of mode `in out` owns nothing that it could give back, and is not null.
    FormalNotOwned,
    /// A record is copied that has a component of an access type, or an aggregate with such a component stands outside an allocator: what it names
    /// would have two owners.
    RecordCopied,
}

//! The flow of values: what each variable may be relied on for, from statement to statement.
//!
//! `flow` goes through the bodies of the procedures and then through the main one, and in each through the
//! declarations, the statements and the handlers in order, and answers exactly: either no rule is broken, or this is
//! the rule that is broken first, and where, want of memory aside. Each body is examined on its own, and of the first
//! faults of all bodies the one that stands first in the text is told. A value that may be gone is neither read
//! through, compared, lent, passed, moved, handed over nor freed (S1), what another owns is neither moved, handed over
//! nor freed (S2), a value is moved out of a component only where the next statement sets that component to null, or
//! where the component gets the new object that takes the value, so no component of an access type is given for a
//! formal parameter of mode `in out` (S3), no way leads back to a loop's start, or out of the loop, with less than is
//! known at that start (S5), no component is freed whose path follows a value of the component's own access type, nor
//! do two actual parameters of a call begin with one variable where one of the two is for mode `in out`, nor is a
//! record passed, or a component given for mode `in out`, whose path follows a value of an access type of which the
//! call may free objects, nor does a component get a new object, or a record another value, whose path follows a value
//! of an access type of which the operations that are called for that may free objects, nor is a component freed whose
//! path follows a value of one that the finalization of its object reaches, nor one of a record parameter's own, where
//! that reaches an access type whose objects are of the parameter's record type, or have a part of it at any depth
//! (S6), at each normal end of a body its formal parameters of mode `in out` of access types own what they give back,
//! or are null (S7), and no record is copied with a component of an access type, unless a controlled type with an
//! Adjust of its own declares that component, nor does an aggregate with one stand outside an allocator (S11). Of the
//! rules that one simple statement breaks the leftmost is told, and where an actual parameter breaks more than one at
//! its spot, S1 comes before S2 and S3, and these before S6. Behind a block its variables are lost, and so are those of
//! the access types whose collections it created, and a handler begins with what is known wherever its statements may
//! raise an exception (11.4).
//!
//! A borrower (3.10) holds null or an alias, or is lost: the value of a path is lent to it, and stays where it is. By
//! S2 nothing is moved out of an alias, and it frees nothing. Where an owner is moved its aliases stay, since the
//! object does. Behind `Free (X)` every alias of the access type of X is lost, since it may name the object that is
//! gone. Behind `Free (P.C)` every alias of the component's access type is, and so it is where the statement raises an
//! exception, since a value on the path is null.
//!
//! Operations of controlled types are called (7.6) where a new object without items or a record object is initialized,
//! where a record object gets its initial value, where a record is assigned, and where an object is freed or a block is
//! left. `flow` is told of which access types they may free objects: behind the form every alias of these types is
//! lost, and so it is where the form raises an exception.
//!
//! A formal parameter of an access type (6.4.1) begins as an alias where its mode is `in`, and where it is `in out` as
//! kept: it holds what its call handed over, until it is assigned, moved, freed or handed over. A procedure keeps those
//! that are kept wherever an exception leaves its body.
//!
//! A record parameter (6.2) stands for a record that lies in another's object, and begins as an alias whatever its
//! mode is. It is never lost: that object is there as long as the body runs, since the path to it follows no value
//! of an access type of which the call may free objects. A path that begins with a record parameter of the caller
//! follows none to that parameter's own object; but whatever a call in a body may free, so may the calls of that
//! body, which were asked the same. A component that is given for a formal parameter of mode `in out` is found in
//! the same way, since it gets something back behind the body: its object must be there still. What is known of
//! variables does not change by either.
//!
//! An Adjust (7.6) gets a copy of a record, of which another still owns what the components name. So the body that
//! overrides it for a type tracks the components of access types that the type declares: what each holds is followed as
//! what a variable holds, and begins as an alias. Nothing is moved out of it but by a take pair, its old value does not
//! matter where it gets another, and at each normal end of the body it owns what it names, or is null (S7). Until
//! then the formal parameter as a whole is neither copied nor passed (S2).
//!
//! A call (6.4) has no part in the variables of its caller but in those that it gets, but it may free objects, as
//! `ada_effects` tells of the procedure: behind it every alias of the access types of which it may do so is lost, and
//! so it is where the call raises an exception. A variable that is handed over owns what comes back; where the call
//! raises an exception it is what it was, if the procedure keeps its formal parameter, and else it owns nothing.
//!
//! A statement costs no more than its size, and so it does once more for each loop around it; an aggregate costs the
//! number of its items besides for each name in the paths that they move, since no path is moved twice; a record that
//! is copied, or that gets a value as a whole, costs the number of its components besides, and of those that are
//! declared in it, once for each record around them, among which one of an access type is looked for; a path in an
//! Adjust costs the number of the components that its type declares; a branch, a loop, an exit and a handler cost the
//! number of variables besides, since each way begins with a copy of what is known and ends where it is joined or
//! compared; and so does a `return` from a body with formal parameters of mode `in out` of access types, which looks
//! at each of these. A `Free` costs the number of variables besides where one may hold an alias: it goes over what is
//! known of each, and looks up the access type of an alias alone. Where none does, as in each body without borrowers
//! and without formal parameters of access types and records, it costs no more than its size. A block, an exit from blocks and such a `return` mark the access types
//! of the blocks that are left by their numbers, and then go over the variables once, and over those that the blocks
//! declare: that costs the number of types besides. A block costs what goes with the blocks around it and with the
//! body. A call costs the size of what is known of it, and for each of its actual parameters that is no expression the
//! number of those before it; for each record, and each component for mode `in out`, the length of its path as often
//! as there are access types of which the call may free objects; and where a variable may hold an alias the number of
//! variables and of types besides. Where operations of controlled types that are called may free objects, an
//! assignment, a declaration and a `Free` cost the number of variables and of types besides, if a variable may hold an
//! alias; and an assignment to a component or a record, and a `Free` of a component, cost the length of the path as
//! often as there are access types of which they may do so. Which records a finalization reaches is marked once for
//! the program: for each type whose objects' finalization frees objects of access types, or follows their values, that
//! costs the number of types and of their components. A body costs the number of its variables, which are its own, and
//! what `ada_effects` needs for what is known of its calls. Where a handler around wants to know it, or in a body that
//! has formal parameters, so that it is known what it keeps, each place that may raise an exception costs the number
//! of variables, too, and each block around its size once more, to tell what its handlers let pass; elsewhere nothing
//! is noted.
#![tactic(auto)]

mod analysis;
mod around;
mod blocks;
mod bodies;
mod calls;
mod compute;
mod fault;
mod follow;
mod frees;
mod gone;
mod holds;
mod implicit;
mod joins;
mod keeping;
mod kinds;
mod known;
mod loops;
mod losing;
mod marks;
mod moves;
mod owning;
mod pairs;
mod passing;
mod raised;
mod reached;
mod records;
mod repetition;
mod rule;
mod setting;
mod statements;
mod touching;
mod tracking;
mod tracks;

pub use crate::bodies::flow;
pub use crate::fault::FlowFault;
pub use crate::rule::{Hold, Region, Rule};

//! Plain and quiet operations: those procedures that override Initialize, Adjust or Finalize of a controlled type (7.6), read and write
//! Integers and Booleans alone, and call nothing, are plain; and quiet, where they let no exception out. An Initialize, a Finalize or an
//! Adjust that is never called is frugal that allocates, moves, follows and frees objects, and calls procedures with frugal bodies, but
//! assigns a record with controlled parts as a whole only as below, and declares variables, which may be given what it allocates, and
//! record objects, those with controlled parts by default, or as copies, where no Adjust tracks, or none is called for these (3.3.1, 7.6).
//! It may assign to a record with controlled parts as a whole in a record object that it declares itself, where such a copy may be declared
//! (5.2); and the body of an operation also to one that is inert, so that nothing is called, and that lies in a component of the formal
//! parameter (7.6). No access value is followed to it. What a frugal body frees may have controlled parts, whichever operation it is
//! (13.11.2): the operations that end these run inside. So may what it declares, and what it allocates that is initialized by default (4.8,
//! 7.6): the operations that begin these run inside as well, also an Adjust, and those that end declared ones where their master is left.
//! That a Finalize allocates is not refused here, but by rule S10. That what the declarations of bodies create comes back to none of them
//! is asked by `ada_circles`. An exception may come out of a frugal Initialize; that none comes out of an Adjust or a Finalize,
//! `ada_operations` asks of a program before. Which procedures are frugal is found before any operation is asked, in the order in which
//! they call each other.
//!
//! Where nothing in the text of a program creates an object with controlled parts (3.3.1, 4.8), or assigns a record with some (5.2), no
//! operation is called: operations are idle, and each is in use, whatever its body does. Where nothing in it copies such a record, no
//! Adjust is called, and one is in use whose body is frugal. Bodies count that nothing calls, too; and operations are to stand apart, and
//! the components of records in order, as below.
//!
//! In other programs `first_unused` finds the first body in the text that overrides an operation and is not in use: Initialize is to be
//! plain or, where it may be, frugal, Finalize is to be quiet or, where it may be, frugal, and so is Adjust; but of a type with a
//! component of an access type, declared in it directly, Adjust is to be simple, where it may track that component: a quiet one would leave
//! it as it is. A simple body allocates objects without controlled parts, and frees some, moves and follows, calls nothing, assigns no
//! record with controlled parts, and declares variables alone, none of them a record.
//!
//! An Initialize and a Finalize may be frugal in a program in which operations stand apart, as below (`may_be_frugal`), whatever components
//! the objects of its collections have, and in whatever order these are created. While a master is left, its collections go one after the
//! other, the newest one first (7.6.1), and components may name what has gone. By rule S8, which `ada_operations` asks, no operation that
//! is called then follows such a value or frees it: it uses collections alone that are created before that of its object, and go later.
//!
//! Variables and components free objects (13.11.2), whatever runs where these end. While an object is finalized that is freed, no component
//! names it but the one that frees it, if one does; and nothing that runs there comes to the object in which that component lies:
//! an allocated one by rule S6, which `ada_flow` asks, and a declared one is named by no access value.
//!
//! In all these programs operations are to stand apart. No procedure that overrides an Adjust of a type with a component of an access
//! type, declared in it directly, is called or overrides another operation: so it runs nowhere else. And no allocator gives values to
//! the components of an object with controlled parts, or copies a record with some, to which no Adjust would see there (4.8): so each
//! such object that is allocated is initialized by default. So an Initialize is called where an object is declared or allocated (7.6),
//! and a Finalize where an object's master is left, an exception comes out of the initialization of one (7.6.1), another record is
//! assigned to it (7.6), or a variable or a component is freed that names it (13.11.2), and nowhere else.
//!
//! An Adjust that may be called, and does not track, may be frugal where an Initialize may be, if none tracks beside it
//! (`tracks_beside_none`): no Adjust of the program tracks, or no record type has, at any depth, a part whose Adjust does and one whose
//! Adjust touches storage otherwise. So where one is called for a part of a copy, the copy has no component of an access type, at any depth.
//!
//! An Adjust may track where a Finalize may be frugal, if also the elementary components of each record type stand in the order of its
//! declared ones, and a record whose type overrides Adjust is controlled itself, as in each program that is resolved (`may_track`). Its
//! variables, and components of any object, may name the object that is adjusted: by rule S8, which `ada_operations` asks, nothing that
//! runs there follows such a value or frees it. A record may have any number of controlled parts: where it is copied, they are adjusted one
//! behind the other (7.6). Until a part of the copy is adjusted, its components name the same objects as those of the source: while another
//! part is adjusted before it, these are to stay, whatever that frees. They do, since no body that runs there comes to the source, by the
//! same rule S8: its object has such a part, too.
//!
//! A program with another body is refused (F23), since no theorem covers it so far: an Initialize, an Adjust or a Finalize that touches
//! storage in another program, gives values to the components of objects with controlled parts that it allocates, declares other records
//! with an initial value where an Adjust tracks, or assigns other records with such parts, an Adjust that tracks and frees objects with
//! controlled parts, one that touches storage and does not track where a record type has both kinds of parts, operations that call
//! procedures that are not frugal, and an Adjust that tracks and calls, declares record objects, or assigns records with controlled parts.
#![tactic(auto)]

mod apart;
mod bare;
mod bodies;
mod calm;
mod first;
mod frugal;
mod idle;
pub mod laws;
mod marks;
mod mixed;
mod numbered;
mod operations;
mod simple;
mod statements;
mod tracking;
mod uses;
mod values;

pub use crate::first::{first_of, first_unused, start_unless};
pub use crate::operations::operations_are_quiet;

//! The laws of owners. Each is a function that does nothing, and whose contract is the theorem.

ghost use Rattle.ada_owners.specs.Example.{LinksFit, PartedLinksFit, TwoOwnersDangle, BorrowerDangles};
ghost use Rattle.ada_owners.specs.Keeping.{OwnedAreThere, BorrowedAreThere, OwnersAreAlone, WalksAreRight};
ghost use Rattle.ada_owners.specs.Keeping.{MovesKeep, BorrowsKeep, StoresKeep, TakesKeep, ClearsKeep, TakePairsKeep};
ghost use Rattle.ada_owners.specs.Keeping.{ComponentPairsKeep, AllocationsKeep, InsertionsKeep, PutsKeep};
ghost use Rattle.ada_owners.specs.Keeping.{EndsKeep, FreesKeep, ComponentFreesKeep, SparesKeep, MembersEnd, ClosesKeep};
ghost use Rattle.ada_owners.specs.Keeping.{FirstStatesFit, CallsKeep, ReturnsKeep, ActualsKeep, CopiesBackKeep};
ghost use Rattle.ada_owners.specs.Walks.{PathsWalk};

/// Where all places are as they are relied on to be, what owns or borrows names an object that is there, and no object has two
/// owners. All other laws say what keeps that.
pub fn what_is_relied_on_is_there()
    ensures owned { OwnedAreThere }
    ensures borrowed { BorrowedAreThere }
    ensures alone { OwnersAreAlone }
{}

/// A move, a loan to a variable, and a store of what a variable owned keep all places as they are relied on to be: no object gets
/// a second owner (5.2).
pub fn assignments_keep_owners()
    ensures moves { MovesKeep }
    ensures borrows { BorrowsKeep }
    ensures stores { StoresKeep }
{}

/// A take pair, `X := O.C; O.C := null;`, keeps all places as they are relied on to be, also between its two statements, and
/// also where its target is a component.
pub fn take_pairs_keep_owners()
    ensures takes { TakesKeep }
    ensures clears { ClearsKeep }
    ensures pairs { TakePairsKeep }
    ensures components { ComponentPairsKeep }
{}

/// An allocator whose items were in hand keeps all places as they are relied on to be (4.8), and so does the assignment of what
/// is in hand.
pub fn allocations_keep_owners()
    ensures allocations { AllocationsKeep }
    ensures insertions { InsertionsKeep }
    ensures puts { PutsKeep }
{}

/// The end of an object that is in hand keeps all places as they are relied on to be, once no place borrows an object of its
/// access type (13.11.2).
pub fn ends_keep_others()
    ensures ends { EndsKeep }
    ensures frees { FreesKeep }
    ensures components { ComponentFreesKeep }
{}

/// While a collection goes, its objects end in any order, whichever of them own others, and what is relied on elsewhere stays
/// as it is (7.6.1).
pub fn collections_end()
    ensures spares { SparesKeep }
    ensures members { MembersEnd }
    ensures closes { ClosesKeep }
{}

/// Before anything is allocated, all places are as they are relied on to be.
pub fn first_states_fit()
    ensures { FirstStatesFit }
{}

/// A call and a return keep all places as they are relied on to be, seen from the activation that runs (6.4, 6.5), and they
/// hand over what a variable owns (6.4.1).
pub fn calls_keep_owners()
    ensures calls { CallsKeep }
    ensures returns { ReturnsKeep }
    ensures actuals { ActualsKeep }
    ensures copies { CopiesBackKeep }
{}

/// A path from a value that may be relied on never comes to an object that is gone, and a run follows it as a walk does (4.1).
pub fn walks_find_what_exists()
    ensures right { WalksAreRight }
    ensures steps { PathsWalk }
{}

/// The laws are not empty: the places of a list of nodes, with an owner and a borrower, are as they are relied on to be. And
/// their premises are needed: where an object has two owners, its end leaves one of them with a name that is gone; and where
/// a variable borrows it, it leaves that one so.
pub fn premises_are_met_and_needed()
    ensures met { LinksFit }
    ensures parted { PartedLinksFit }
    ensures owners { TwoOwnersDangle }
    ensures borrowers { BorrowerDangles }
{}

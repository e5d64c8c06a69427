//! The laws of still bodies. Each is a function that does nothing, and whose contract is the theorem.

ghost use Rattle.ada_still.specs.Beside.{OwnTypesHaveOneCollection};
ghost use Rattle.ada_still.specs.Example.{PremiseIsMet, PremiseIsNeeded, TextSaysSo};
ghost use Rattle.ada_still.specs.Law.{CollectionsStandStill, StandStillWhereStill};
ghost use Rattle.ada_still.specs.Text.{BesideByText, OneCollectionByText, StillByText};

/// While the collection of one of these access types is open, no treatment of controlled parts comes next, and no operation's body
/// runs in front of its end, whichever procedures are still where they call each other alone.
pub fn stand_still_where_still()
    ensures { StandStillWhereStill }
{}

/// So it is where the procedures that declare such collections are found still in the order in which they call each other.
pub fn collections_stand_still()
    ensures { CollectionsStandStill }
{}

/// No access type has two collections at a time, also where operations declare access types of their own in still bodies, and nest beside
/// the others.
pub fn own_types_have_one_collection()
    ensures { OwnTypesHaveOneCollection }
{}

/// The premise is met: a Finalize declares an access type, allocates an object of it, and comes to its end.
pub fn premise_is_met()
    ensures { PremiseIsMet }
{}

/// It is needed: where the Finalize declares an object of its own type besides, that is finalized while the collection is open.
pub fn premise_is_needed()
    ensures { PremiseIsNeeded }
{}

/// Types are those of still procedures wherever the text of a program says so.
pub fn still_by_text()
    ensures { StillByText }
{}

/// They nest beside the others wherever the text says so, in a well-formed program: objects of other types name none of them, each body
/// names them only inside what creates their collections, and operations, and what they call, create collections of them alone.
pub fn beside_by_text()
    ensures { BesideByText }
{}

/// So no access type has two collections at a time where the text says both.
pub fn one_collection_by_text()
    ensures { OneCollectionByText }
{}

/// The text of the program that meets the premise says both, of the own types of its operations.
pub fn text_says_so()
    ensures { TextSaysSo }
{}

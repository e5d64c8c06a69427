//! The laws of the order in which collections are created. Each is a function that does nothing, and whose contract is the theorem.

ghost use Rattle.ada_created.specs.Example.{OlderIsUsed};
ghost use Rattle.ada_created.specs.Law.{CollectionsAreCreatedInOrder, NothingUsedGoesFirst};

/// Of two collections that a master owns, the newer one is that of the access type whose collection the text creates later: so a master
/// that is left loses its collections in the reverse of that order (7.6.1).
pub fn collections_are_created_in_order()
    ensures { CollectionsAreCreatedInOrder }
{}

/// Where operations break no rule, no collection of a master is newer than one whose objects have a part with an operation that frees
/// objects of the former or follows their access values. So while a collection of a master goes, none is gone that its Finalizes use (rule
/// S8).
pub fn nothing_used_goes_first()
    ensures { NothingUsedGoesFirst }
{}

/// The premises are met: in a run of a program whose operations break no rule a master owns two collections, and the Finalize of the
/// objects of the newer one frees objects of the older one.
pub fn premises_are_met()
    ensures { OlderIsUsed }
{}

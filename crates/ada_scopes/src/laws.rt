//! The laws of collections that nest. Each is a function that does nothing, and whose contract is the theorem.

ghost use Rattle.ada_scopes.specs.Example.{CollectionsOfBlocksNest, CollectionsOfCallsNest};
ghost use Rattle.ada_scopes.specs.Example.{ObjectsLieAbove, OrderIsNeeded};
ghost use Rattle.ada_scopes.specs.Example.{CollectionsGoOneByOne, NestingIsNeeded, OperationsAreCalled};
ghost use Rattle.ada_scopes.specs.Example.{OperationsMayFindOpen, OperationsMustNest, OperationsMustFindOpen};
ghost use Rattle.ada_scopes.specs.Scopes.{TypesHaveOneCollection, ObjectsLieInCollections, ComponentsAreOutlived};
ghost use Rattle.ada_scopes.specs.Scopes.{ObjectsGoFirst};
ghost use Rattle.ada_scopes.specs.Scopes.{NamesStayOutside, InnermostIsNotNamed, OnlyInnermostIsLeft};

/// No two items of the masters that are entered are collections of one access type (7.6.1).
pub fn types_have_one_collection()
    ensures { TypesHaveOneCollection }
{}

/// In each master that is entered, no collection and no pool is newer than a variable or a record object (3.11). So when
/// the master is left, its objects go first, and a collection or a pool only when it owns no object any more (7.6.1).
pub fn objects_go_first()
    ensures { ObjectsGoFirst }
{}

/// A master comes to own both: in a run of a program a block owns a variable above its collection.
pub fn objects_lie_above()
    ensures { ObjectsLieAbove }
{}

/// That the program is well formed is needed: where a part creates an object before a collection or a pool, that is newer.
pub fn order_is_needed()
    ensures { OrderIsNeeded }
{}

/// The home of an object that is in its collection is an item of a master that is entered: the collection of its own
/// access type (7.6.1), whose pool is the one that the object is from (13.11), or the record object that it is.
pub fn objects_lie_in_collections()
    ensures { ObjectsLieInCollections }
{}

/// Where operations find open what they need, the collection of what a component names is open, in the master of the
/// object's home or in an outer one (3.10.2). Only while such a master is being left, it may have gone before the object's
/// own. Where no type overrides an operation, that is the innermost one.
pub fn components_are_outlived()
    ensures outlived { ComponentsAreOutlived }
    ensures innermost { OnlyInnermostIsLeft }
{}

/// What a component names lies in a collection of the same master as the object, or of an outer one. So when the innermost
/// master is left, no object of an outer one has a component that names an object of the innermost one.
pub fn names_stay_outside()
    ensures home { NamesStayOutside }
    ensures innermost { InnermostIsNotNamed }
{}

/// The premises are met: in a run of a program a block has an object with a component of an access type of the main
/// procedure, and one of its own.
pub fn collections_of_blocks_nest()
    ensures { CollectionsOfBlocksNest }
{}

/// So has the body of a procedure that is called: a call nests as if the body stood where it is called (6.4).
pub fn collections_of_calls_nest()
    ensures { CollectionsOfCallsNest }
{}

/// They are needed: where an outer access type's objects have components of an access type of a block, an object is there
/// without a collection for what its component names that lasts as long.
pub fn nesting_is_needed()
    ensures { NestingIsNeeded }
{}

/// While a master is being left, its collections go one by one: an object may outlast the collection of what its component
/// names, where both are of that master.
pub fn collections_go_one_by_one()
    ensures { CollectionsGoOneByOne }
{}

/// So it is while the body of a Finalize runs: the premises are met by a run that calls an operation, and more than the
/// innermost master may be being left.
pub fn operations_are_called()
    ensures { OperationsAreCalled }
{}

/// An operation may create record objects with components of access types that the main procedure declares: it need not nest
/// where the collections of these are not open.
pub fn operations_may_find_open()
    ensures { OperationsMayFindOpen }
{}

/// That operations nest is needed: where a Finalize creates a collection and an object of its own type, it is called while
/// its collection is open, and creates that once more. Where an Initialize creates an object with a component of an access
/// type of a block, it nests, but the object is there without a collection for what the component names.
pub fn nesting_of_operations_is_needed()
    ensures collection { OperationsMustNest }
    ensures record_object { OperationsMustFindOpen }
{}

//! The laws of record objects and the collections that they need. Each is a function that does nothing, and whose contract is
//! the theorem.

ghost use Rattle.ada_outlived.specs.Example.{ObjectsEndInside};
ghost use Rattle.ada_outlived.specs.Outlived.{RecordsAreNewer, RecordsAreOutlived};

/// As long as the item of a record object is there, the collection of each access type that one of its components has is
/// open, in the master that owns the object or in an outer one (3.10.2): also while such a master is being left, and while
/// the object is being finalized. The item of that collection is older than the object's, so it goes later (7.6.1).
pub fn records_are_outlived()
    ensures outlived { RecordsAreOutlived }
    ensures newer { RecordsAreNewer }
{}

/// The premises are met: in a run of a program the main procedure is being left, and owns a record object that is being
/// finalized, with a component of an access type whose collection the main procedure owns, too.
pub fn premises_are_met()
    ensures { ObjectsEndInside }
{}

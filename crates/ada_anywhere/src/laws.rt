//! The laws of operations that nest anywhere. Each is a function that does nothing, and whose contract is the theorem.

ghost use Rattle.ada_anywhere.specs.Anywhere.{OperationsCollectNothing};
ghost use Rattle.ada_anywhere.specs.Example.{PremisesAreMet};

/// While an operation of a controlled type runs, the masters that were entered since the outermost one was called own no
/// collection (7.6, 7.6.1): neither its body nor a block in it, nor a procedure that is called meanwhile, creates one.
pub fn operations_collect_nothing()
    ensures { OperationsCollectNothing }
{}

/// The premises are met: in a run of a program the body of a Finalize is entered, while the main procedure owns a collection.
pub fn premises_are_met()
    ensures { PremisesAreMet }
{}

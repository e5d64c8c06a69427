//! Laws of what does a deed, by the definitions alone. Each is a function that does nothing, and whose contract is the theorem.

ghost use Rattle.ada_deeds.specs.Example.{BothRaise, TheThirdDoesNot};
ghost use Rattle.ada_deeds.specs.KnownExamples.{PassingFits, PassesAll, CopyingFits, FinalizeIsUnknown, AdjustIsUnknown};
ghost use Rattle.ada_deeds.specs.Rounds.{CalleesAreToldApart, ComingGoesOn};
ghost use Rattle.ada_deeds.specs.Within.{CountsAreEnough};
ghost use Rattle.ada_deeds.specs.Laws.{MoreDoMore, IsClosedUnderCalls, IsTheLeast, RaisesAreDone, FreesAreDone, RaisesAreKnown, FreesAreKnown};

/// Where more is known to do a deed, more does it.
pub fn more_do_more()
    ensures { MoreDoMore }
{}

/// What does a deed is the least set that is closed under calls.
pub fn does_is_least()
    ensures closed { IsClosedUnderCalls }
    ensures least { IsTheLeast }
{}

/// What does a deed is known within as many calls of calls as the program has callees.
pub fn counts_are_enough()
    ensures { CountsAreEnough }
{}

/// What comes to something by calls comes to what that comes to, and callees are told apart there.
pub fn coming_goes_on()
    ensures apart { CalleesAreToldApart }
    ensures onward { ComingGoesOn }
{}

/// What is known of the calls of procedures is done.
pub fn effects_are_done()
    ensures raises { RaisesAreDone }
    ensures frees { FreesAreDone }
{}

/// What procedures do is known of their calls: so effects say exactly what is done. An exception is not to come out of an Adjust or a Finalize,
/// and for Frees no aggregate is to give a record a part which its type has not.
pub fn effects_are_exact()
    ensures raises { RaisesAreKnown }
    ensures frees { FreesAreKnown }
{}

/// There are such programs: what a procedure raises and frees is known of one that calls it, and another exception is not.
pub fn effects_know_what_is_done()
    ensures fits { PassingFits }
    ensures all { PassesAll }
{}

/// Neither condition can be left out: in a well-formed program it is not known what a Finalize raises, nor what an Adjust frees
/// where an aggregate gives a record such a part.
pub fn neither_condition_is_idle()
    ensures fits { CopyingFits }
    ensures finalize { FinalizeIsUnknown }
    ensures adjust { AdjustIsUnknown }
{}

/// The laws are not empty: of two procedures that call one another both raise what one of them raises, and another one does not.
pub fn neither_all_nor_none()
    ensures both { BothRaise }
    ensures third { TheThirdDoesNot }
{}

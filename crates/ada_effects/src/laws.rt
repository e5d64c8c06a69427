//! Laws of the exceptions that statements may raise, by the definitions alone.

ghost use Rattle.ada_effects.specs.Laws.{SameMeansEqual, AnswersAgree, SomethingPasses};
ghost use Rattle.ada_effects.specs.ProgramLaws.{UntakenPasses, OthersTakeAll, CallsRaiseEach, CallsDoAsBodies};

/// The test of two exceptions tells whether they are equal.
pub fn same_means_equal()
    ensures { SameMeansEqual }
{}

/// Whether statements may raise one of some exceptions depends on nothing but which these are.
pub fn answers_agree()
    ensures { AnswersAgree }
{}

/// An exception that statements may raise, and that no handler takes, passes (11.4).
pub fn untaken_passes()
    ensures { UntakenPasses }
{}

/// Where something passes, it is an exception that the statements may raise and that no handler takes.
pub fn something_passes()
    ensures { SomethingPasses }
{}

/// A handler with `others` takes every exception, so that nothing passes (11.2).
pub fn others_take_all()
    ensures { OthersTakeAll }
{}

/// A call may raise one of some exceptions where it may raise a single one of these.
pub fn calls_raise_each()
    ensures { CallsRaiseEach }
{}

/// What is known of the calls of a procedure is told by its body, and by what is known of those before it (6.4).
pub fn calls_do_as_bodies()
    ensures { CallsDoAsBodies }
{}

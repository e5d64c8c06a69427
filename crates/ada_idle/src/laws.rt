//! The laws of programs that call no operation of a controlled type. Each is a function that does nothing, and whose contract is the
//! theorem.

ghost use Rattle.ada_idle.specs.Example.{PremiseIsMetAndNeeded};
ghost use Rattle.ada_idle.specs.Law.{IdleProgramsTreatNothing, ProgramsThatCopyNothingAdjustNothing};

/// Where the text of a program creates no object with controlled parts, and assigns no record with some, nothing is initialized,
/// adjusted or finalized in any run of it (7.6, 7.6.1): so no operation of a controlled type is called where an object is created,
/// assigned to, freed or left.
pub fn idle_programs_treat_nothing()
    ensures { IdleProgramsTreatNothing }
{}

/// Where the text of a program copies no record with controlled parts, nothing is adjusted in any run of it (7.6): so no Adjust is called
/// where an object is declared, or a record is assigned to.
pub fn programs_that_copy_nothing_adjust_nothing()
    ensures { ProgramsThatCopyNothingAdjustNothing }
{}

/// The premise of the first law is met, by a program with a controlled type that overrides Finalize; and it is needed: where an object of
/// such a type is declared, it is treated. That of the second law is met by a program that declares one object of a type that overrides
/// Adjust; and it is needed: where another one is declared as a copy of it, it is adjusted.
pub fn premise_is_met_and_needed()
    ensures { PremiseIsMetAndNeeded }
{}

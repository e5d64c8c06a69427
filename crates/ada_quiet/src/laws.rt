//! Laws of what is in use, and of calm types, by the definitions alone. Each is a function that does nothing, and whose contract is the
//! theorem.

ghost use Rattle.ada_quiet.specs.Laws.{
  CalmIsToldWithin,
  PlainIsFrugal,
  QuietIsInUse,
  QuietIsSimple,
};

/// A plain body is frugal, whatever is known of types and procedures: what touches no storage allocates, moves, follows and frees nothing.
pub fn plain_is_frugal()
    ensures { PlainIsFrugal }
{}

/// A quiet body is simple: it calls nothing, copies no record, and frees nothing.
pub fn quiet_is_simple()
    ensures { QuietIsSimple }
{}

/// Where all operations are quiet, all are in use.
pub fn quiet_is_in_use()
    ensures { QuietIsInUse }
{}

/// In a well-formed program a record type with controlled parts is told to be calm exactly where the own operations are so of each record
/// that lies in its objects, itself included, whatever is asked about them.
pub fn calm_is_told_within()
    ensures { CalmIsToldWithin }
{}

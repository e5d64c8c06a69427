//! What follows from the definitions, in the subject's own words.

ghost use Rattle.std.specs.Prelude.{List};
ghost use Rattle.ada_text.specs.Token.{Lexeme};
ghost use Rattle.ada_parser.specs.Laws.{HasAtMostOneFault, HasAtMostOneTree, HasFaultOrTree};

/// Tokens have at most one tree.
pub fn tokens_have_one_tree()
    ensures { (tokens : List Lexeme) → HasAtMostOneTree tokens }
{}

/// Tokens have at most one first fault; running out of memory is no fault.
pub fn tokens_have_one_first_fault()
    ensures { (tokens : List Lexeme) → HasAtMostOneFault tokens }
{}

/// Tokens with a first fault have no tree; running out of memory is no fault.
pub fn faults_exclude_trees()
    ensures { (tokens : List Lexeme) → HasFaultOrTree tokens }
{}

//! What follows from the definitions: a source has one program at most, one first fault at most, and never both.

ghost use Rattle.std.specs.Prelude.{ℕ, List};
ghost use Rattle.ada_verdict.specs.First.{HasAtMostOneFault, HasAtMostOneProgram, HasFaultOrProgram};

use ada_parser::{faults_exclude_trees, tokens_have_one_first_fault, tokens_have_one_tree};
use ada_text::{one_first_fault, one_list_of_tokens};

/// A source has at most one program, wherever it lies in memory.
pub fn a_source_has_one_program()
    ensures { (source : List ℕ) → HasAtMostOneProgram source }
{
    one_list_of_tokens();
    tokens_have_one_tree();
}

/// A source that is a program and obeys the rules has no fault.
pub fn accepted_sources_have_no_fault()
    ensures { (source : List ℕ) → HasFaultOrProgram source }
{
    one_list_of_tokens();
    one_first_fault();
    tokens_have_one_tree();
    faults_exclude_trees();
}

/// A source has at most one first fault.
pub fn a_source_has_one_first_fault()
    ensures { (source : List ℕ) → HasAtMostOneFault source }
{
    one_list_of_tokens();
    one_first_fault();
    tokens_have_one_tree();
    tokens_have_one_first_fault();
    faults_exclude_trees();
}

//! What is left of a construct in which the fault lies: it stays where something stays in it, and else nothing does.

ghost use Rattle.std.specs.Prelude.{◌≡◌, ◌||◌, ◌++◌, ◌<◌, map, option_to_list, vec_len, vec_capacity};
ghost use Rattle.ada_front.specs.Front as front;
ghost use Rattle.ada_front.specs.View.{branches_left, branches_of, declarations_left, handlers_left, statements_left};
ghost use Rattle.ada_tree.specs.Declarations.{choice_of, head_of};
ghost use Rattle.ada_tree.specs.ExpressionView.{expression_of};
ghost use Rattle.ada_tree.specs.Statements.{has_statements};
ghost use Rattle.ada_tree.specs.StatementView.{declarations_of, scheme_of, sequence_of, statements_of};

use ada_text::Spot;
use ada_tree::declarations::{Declaration, ProcedureHead};
use ada_tree::expressions::Expression;
use ada_tree::statements::{Branch, Choice, Handler, Scheme, Sequence, Statement};

/// Puts behind a list what is left of an element that was taken from it.
pub(crate) fn put_back<T: Drop>(list: &mut Vec<T>, left: Option<T>)
    requires { vec_len list.old < vec_capacity list.old }
    ensures { list.new.items ≡ list.old.items ++ option_to_list left }
{
    if let Some(element) = left {
        let _ = list.push(element);
    }
}

/// Whether there is a statement.
#[tactic(auto, using(std::proofs::lemmas::Grind::common_steps, crate::proofs::Stays::any_rules))]
fn any_statement(statements: &[Statement<'_>]) -> bool
    ensures { result ≡ has_statements (statements_of statements.now) }
{
    !statements.is_empty()
}

/// Whether there is a branch.
#[tactic(auto, using(std::proofs::lemmas::Grind::common_steps, crate::proofs::Stays::any_rules))]
fn any_branch(branches: &[Branch<'_>]) -> bool
    ensures { result ≡ front.has_branches (branches_of branches.now) }
{
    !branches.is_empty()
}

/// Whether a sequence has a statement.
#[tactic(auto, using(std::proofs::lemmas::Grind::common_steps, crate::proofs::Stays::any_rules))]
fn any_in_sequence(body: &Sequence<'_>) -> bool
    ensures { result ≡ has_statements (front.statements_in (sequence_of body.now)) }
{
    any_statement(&body.statements)
}

/// Whether there is a declaration or a statement of the sequence behind.
#[tactic(auto, using(std::proofs::lemmas::Grind::common_steps, crate::proofs::Stays::any_rules))]
fn any_of_part(declarations: &[Declaration<'_>], body: &Sequence<'_>) -> bool
    ensures { result ≡ (front.has_declarations (declarations_of declarations.now) || has_statements (front.statements_in (sequence_of body.now))) }
{
    !declarations.is_empty() || any_in_sequence(body)
}

/// A body with these declarations and statements, where there are any; the name behind its `end` is left out.
#[tactic(auto, using(std::proofs::lemmas::Grind::common_steps, ada_tree::specs::StatementView::statement_rules, crate::proofs::Stays::left_rules))]
pub(crate) fn body_left<'t>(
    head: ProcedureHead<'t>,
    declarations: Vec<Declaration<'t>>,
    body: Sequence<'t>,
) -> Option<Declaration<'t>>
    ensures { declarations_left result ≡ front.left_body (head_of head.entry) (declarations_of declarations.entry.items) (sequence_of body.entry) }
{
    if any_of_part(&declarations, &body) {
        Some(Declaration::Body {
            head,
            declarations,
            body,
            end_name: None,
        })
    } else {
        None
    }
}

/// An `if` with these branches, where there are any.
#[tactic(auto, using(std::proofs::lemmas::Grind::common_steps, ada_tree::specs::StatementView::statement_rules, crate::proofs::Stays::left_rules))]
pub(crate) fn if_left<'t>(
    spot: Spot,
    branches: Vec<Branch<'t>>,
    otherwise: Vec<Statement<'t>>,
    end: Spot,
) -> Option<Statement<'t>>
    ensures { statements_left result ≡ front.left_if spot (branches_of branches.entry.items) (statements_of otherwise.entry.items) end }
{
    if any_branch(&branches) {
        Some(Statement::If {
            spot,
            branches,
            otherwise,
            end,
        })
    } else {
        None
    }
}

/// A loop with these statements, where there are any.
#[tactic(auto, using(std::proofs::lemmas::Grind::common_steps, ada_tree::specs::StatementView::statement_rules, crate::proofs::Stays::left_rules))]
pub(crate) fn loop_left<'t>(
    spot: Spot,
    scheme: Scheme<'t>,
    statements: Vec<Statement<'t>>,
    end: Spot,
) -> Option<Statement<'t>>
    ensures { statements_left result ≡ front.left_loop spot (scheme_of scheme.entry) (statements_of statements.entry.items) end }
{
    if any_statement(&statements) {
        Some(Statement::Loop {
            spot,
            scheme,
            statements,
            end,
        })
    } else {
        None
    }
}

/// A block with these statements, where there are any.
#[tactic(auto, using(std::proofs::lemmas::Grind::common_steps, ada_tree::specs::StatementView::statement_rules, crate::proofs::Stays::left_rules))]
pub(crate) fn block_left<'t>(body: Sequence<'t>) -> Option<Statement<'t>>
    ensures { statements_left result ≡ front.left_block (sequence_of body.entry) }
{
    if any_in_sequence(&body) {
        Some(Statement::Block(body))
    } else {
        None
    }
}

/// A block with these declarations and statements, where there are any.
#[tactic(auto, using(std::proofs::lemmas::Grind::common_steps, ada_tree::specs::StatementView::statement_rules, crate::proofs::Stays::left_rules))]
pub(crate) fn declare_block_left<'t>(
    spot: Spot,
    declarations: Vec<Declaration<'t>>,
    body: Sequence<'t>,
) -> Option<Statement<'t>>
    ensures { statements_left result ≡ front.left_declare_block spot (declarations_of declarations.entry.items) (sequence_of body.entry) }
{
    if any_of_part(&declarations, &body) {
        Some(Statement::DeclareBlock {
            spot,
            declarations,
            body,
        })
    } else {
        None
    }
}

/// A branch with these statements, where there are any.
#[tactic(auto, using(std::proofs::lemmas::Grind::common_steps, ada_tree::specs::StatementView::statement_rules, crate::proofs::Stays::left_rules))]
pub(crate) fn branch_left<'t>(
    condition: Expression<'t>,
    statements: Vec<Statement<'t>>,
) -> Option<Branch<'t>>
    ensures { branches_left result ≡ front.left_branch (expression_of condition.entry) (statements_of statements.entry.items) }
{
    if any_statement(&statements) {
        Some(Branch {
            condition,
            statements,
        })
    } else {
        None
    }
}

/// A handler with these statements, where there are any.
#[tactic(auto, using(std::proofs::lemmas::Grind::common_steps, ada_tree::specs::StatementView::statement_rules, crate::proofs::Stays::left_rules))]
pub(crate) fn handler_left<'t>(
    spot: Spot,
    choices: Vec<Choice<'t>>,
    statements: Vec<Statement<'t>>,
) -> Option<Handler<'t>>
    ensures { handlers_left result ≡ front.left_handler spot (map choice_of choices.entry.items) (statements_of statements.entry.items) }
{
    if any_statement(&statements) {
        Some(Handler {
            spot,
            choices,
            statements,
        })
    } else {
        None
    }
}

//! Where a construct begins: the spot of its first token.

ghost use Rattle.std.specs.Prelude.{◌≡◌};
ghost use Rattle.ada_tree.specs.Declarations.{head_of};
ghost use Rattle.ada_tree.specs.ExpressionView.{expression_of, right_of, argument_of};
ghost use Rattle.ada_tree.specs.StatementView.{declaration_of, statement_of};
ghost use Rattle.ada_resolve.specs.Spots.{expression_spot, right_spot, argument_spot, declaration_spot, statement_spot, first_or, head_spot};

use ada_program::Spot;
use ada_tree::declarations::{Declaration, ProcedureHead};
use ada_tree::expressions::{Argument, Expression, Right};
use ada_tree::statements::Statement;

/// Where an expression begins: with an operator between operands, where the left one does (4.4).
#[tactic(auto, using(std::proofs::lemmas::Grind::common_steps, ada_tree::specs::ExpressionView::tree_rules, crate::proofs::Chains::linked_spot), unfolding(crate::specs::Spots::expression_spot))]
pub(crate) fn expression_spot(expression: &Expression<'_>) -> Spot
    ensures { result ≡ expression_spot (expression_of expression.now) }
{
    match expression {
        Expression::Number { spot, .. }
        | Expression::Null(spot)
        | Expression::Enclosed { spot, .. }
        | Expression::Unary { spot, .. } => *spot,
        Expression::Path(path) => path.root.spot,
        Expression::Aggregate { type_name, .. } => type_name.spot,
        Expression::Chain { first, .. } => expression_spot(first),
    }
}

/// Where what is assigned begins (5.2).
pub(crate) fn right_spot(right: &Right<'_>) -> Spot
    ensures { result ≡ right_spot (right_of right.now) }
{
    match right {
        Right::Expression(expression) => expression_spot(expression),
        Right::Allocator { spot, .. } => *spot,
        Right::Creation { function, .. } => function.root.spot,
    }
}

/// Where an argument begins (6.4).
pub(crate) fn argument_spot(argument: &Argument<'_>) -> Spot
    ensures { result ≡ argument_spot (argument_of argument.now) }
{
    match argument {
        Argument::Expression(expression) => expression_spot(expression),
        Argument::Text { spot, .. } => *spot,
        Argument::Attribute { prefix, .. } => prefix.spot,
    }
}

/// Where a declaration begins (3.1).
#[tactic(auto, using(std::proofs::lemmas::Grind::common_steps, ada_tree::specs::StatementView::statement_rules), unfolding(crate::specs::Spots::declaration_spot))]
pub(crate) fn declaration_spot(declaration: &Declaration<'_>) -> Spot
    ensures { result ≡ declaration_spot (declaration_of declaration.now) }
{
    match declaration {
        Declaration::Exception { name }
        | Declaration::Constant { name, .. }
        | Declaration::Pool { name, .. }
        | Declaration::Object { name, .. }
        | Declaration::Borrower { name, .. } => name.spot,
        Declaration::IncompleteType { spot, .. }
        | Declaration::AccessType { spot, .. }
        | Declaration::RecordType { spot, .. }
        | Declaration::DerivedType { spot, .. }
        | Declaration::Clause { spot, .. }
        | Declaration::Instance { spot, .. } => *spot,
        Declaration::Specification(head) | Declaration::Body { head, .. } => head_spot(head),
    }
}

/// Where a specification or a body of a procedure begins (6.1, 6.3).
pub(crate) fn head_spot(head: &ProcedureHead<'_>) -> Spot
    ensures { result ≡ head_spot (head_of head.now) }
{
    first_or(head.overriding, head.spot)
}

/// Where a procedure begins: at `overriding`, where that is written (8.3.1).
fn first_or(overriding: Option<Spot>, procedure: Spot) -> Spot
    ensures { result ≡ first_or overriding procedure }
{
    overriding.unwrap_or(procedure)
}

/// Where a statement begins (5.1).
#[tactic(auto, using(std::proofs::lemmas::Grind::common_steps, ada_tree::specs::StatementView::statement_rules), unfolding(crate::specs::Spots::statement_spot))]
pub(crate) fn statement_spot(statement: &Statement<'_>) -> Spot
    ensures { result ≡ statement_spot (statement_of statement.now) }
{
    match statement {
        Statement::Null(spot)
        | Statement::Return(spot)
        | Statement::If { spot, .. }
        | Statement::Loop { spot, .. }
        | Statement::Exit { spot, .. }
        | Statement::Raise { spot, .. }
        | Statement::DeclareBlock { spot, .. } => *spot,
        Statement::Assignment { target, .. } => target.root.spot,
        Statement::Call { procedure, .. } => procedure.root.spot,
        Statement::Block(body) => body.begin,
    }
}

//! Places in the text, and where what may be cut begins.

ghost use Rattle.std.specs.Prelude.{◌≡◌};
ghost use Rattle.ada_front.specs.Front as front;
ghost use Rattle.ada_front.specs.Spots.{declaration_start, expression_start, first_or, statement_start};
ghost use Rattle.ada_tree.specs.ExpressionView.{expression_of};
ghost use Rattle.ada_front.specs.View.{handlers_of};
ghost use Rattle.ada_tree.specs.StatementView.{declaration_of, statement_of, statements_of};

use ada_text::Spot;
use ada_tree::declarations::Declaration;
use ada_tree::expressions::Expression;
use ada_tree::statements::{Handler, Statement};

/// Whether a place stands before another one in the text.
pub fn stands_before(one: Spot, other: Spot) -> bool
    ensures { result ≡ front.stands_before one other }
{
    one.line < other.line || one.line == other.line && one.column < other.column
}

/// Where an expression begins (4.4).
#[tactic(auto, using(std::proofs::lemmas::Grind::common_steps, ada_tree::specs::ExpressionView::tree_rules, crate::proofs::Chains::linked_start), unfolding(crate::specs::Spots::expression_start))]
pub fn expression_start(expression: &Expression<'_>) -> Spot
    ensures { result ≡ expression_start (expression_of expression.now) }
{
    match expression {
        Expression::Number { spot, .. }
        | Expression::Null(spot)
        | Expression::Enclosed { spot, .. }
        | Expression::Unary { spot, .. } => *spot,
        Expression::Path(path) => path.root.spot,
        Expression::Aggregate { type_name, .. } => type_name.spot,
        Expression::Chain { first, .. } => expression_start(first),
    }
}

/// Where a declaration begins (3.1).
#[tactic(auto, using(std::proofs::lemmas::Grind::common_steps, ada_tree::specs::StatementView::statement_rules), unfolding(crate::specs::Spots::declaration_start))]
pub fn declaration_start(declaration: &Declaration<'_>) -> Spot
    ensures { result ≡ declaration_start (declaration_of declaration.now) }
{
    match declaration {
        Declaration::Exception { name }
        | Declaration::Constant { name, .. }
        | Declaration::Pool { name, .. }
        | Declaration::Object { name, .. }
        | Declaration::Borrower { name, .. } => name.spot,
        Declaration::IncompleteType { spot, .. }
        | Declaration::AccessType { spot, .. }
        | Declaration::RecordType { spot, .. }
        | Declaration::DerivedType { spot, .. }
        | Declaration::Clause { spot, .. }
        | Declaration::Instance { spot, .. } => *spot,
        Declaration::Specification(head) | Declaration::Body { head, .. } => {
            first_or(head.overriding, head.spot)
        }
    }
}

/// Where a procedure begins: at `overriding`, where that is written (8.3.1).
fn first_or(overriding: Option<Spot>, procedure: Spot) -> Spot
    ensures { result ≡ first_or overriding procedure }
{
    overriding.unwrap_or(procedure)
}

/// Where a statement begins (5.1).
#[tactic(auto, using(std::proofs::lemmas::Grind::common_steps, ada_tree::specs::StatementView::statement_rules), unfolding(crate::specs::Spots::statement_start))]
pub fn statement_start(statement: &Statement<'_>) -> Spot
    ensures { result ≡ statement_start (statement_of statement.now) }
{
    match statement {
        Statement::Null(spot)
        | Statement::Return(spot)
        | Statement::If { spot, .. }
        | Statement::Loop { spot, .. }
        | Statement::Exit { spot, .. }
        | Statement::Raise { spot, .. }
        | Statement::DeclareBlock { spot, .. } => *spot,
        Statement::Assignment { target, .. } => target.root.spot,
        Statement::Call { procedure, .. } => procedure.root.spot,
        Statement::Block(body) => body.begin,
    }
}

/// Where statements begin; where there are none, what stands behind them.
pub fn statements_start(statements: &[Statement<'_>], behind: Spot) -> Spot
    ensures { result ≡ front.statements_start (statements_of statements.now) behind }
{
    match statements.first() {
        Some(first) => statement_start(first),
        None => behind,
    }
}

/// Where handlers begin; where there are none, what stands behind them.
pub fn handlers_start(handlers: &[Handler<'_>], behind: Spot) -> Spot
    ensures { result ≡ front.handlers_start (handlers_of handlers.now) behind }
{
    match handlers.first() {
        Some(first) => first.spot,
        None => behind,
    }
}

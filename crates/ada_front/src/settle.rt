//! Parts that lack nothing at their `begin`.

ghost use Rattle.std.specs.Prelude.{◌≡◌, ◌<◌, ◌≤◌, map, vec_len};
ghost use Rattle.std.specs.List.{list_any};
ghost use Rattle.ada_front.specs.Front as front;
ghost use Rattle.ada_front.specs.Front.{settled, settled_all};
ghost use Rattle.ada_front.specs.View.{completes_in, is_body_in, settled_as, settled_at};
ghost use Rattle.ada_tree.specs.Declarations.{formal_of, head_of};
ghost use Rattle.ada_tree.specs.Names.{ident_of};
ghost use Rattle.ada_tree.specs.Statements.{incomplete_type, specification};
ghost use Rattle.ada_tree.specs.StatementView.{declaration_of, declarations_of};

use ada_text::Spot;
use ada_tree::declarations::{Declaration, Formal, ProcedureHead};
use ada_tree::names::Identifier;
use ada_tree::records::RecordDefinition;

/// What a declaration of a part lacks.
#[derive(Clone, Copy)]
pub(crate) enum Lack<'t> {
    Nothing,
    /// The body of the operation that it specifies.
    Body,
    /// What completes the incomplete type that it declares.
    Completion { spot: Spot, name: Identifier<'t> },
}

/// The name of the type of a procedure's first formal parameter, if it has one.
fn operand_name<'t>(formals: &[Formal<'t>]) -> &'t str
    ensures { result.now ≡ front.operand_name (map formal_of formals.now) }
{
    match formals.first() {
        Some(formal) => formal.type_name.text,
        None => "",
    }
}

/// Whether a declaration is the body of an operation with this head.
#[tactic(auto, using(std::proofs::lemmas::Grind::common_steps, ada_tree::specs::StatementView::statement_rules))]
fn is_body_of(head: &ProcedureHead<'_>, declaration: &Declaration<'_>) -> bool
    ensures { result ≡ front.is_body_of (head_of head.now) (declaration_of declaration.now) }
{
    match declaration {
        Declaration::Body { head: other, .. } => {
            other.name.text == head.name.text
                && operand_name(&other.formals) == operand_name(&head.formals)
        }
        Declaration::Exception { .. }
        | Declaration::Constant { .. }
        | Declaration::Pool { .. }
        | Declaration::Object { .. }
        | Declaration::Borrower { .. }
        | Declaration::IncompleteType { .. }
        | Declaration::AccessType { .. }
        | Declaration::RecordType { .. }
        | Declaration::DerivedType { .. }
        | Declaration::Clause { .. }
        | Declaration::Specification(_)
        | Declaration::Instance { .. } => false,
    }
}

/// Whether an operation has its body among these.
fn has_body(head: &ProcedureHead<'_>, declarations: &[Declaration<'_>]) -> bool
    ensures { result ≡ list_any (is_body_in (head_of head.now)) declarations.now }
{
    declarations.iter().any(|one| is_body_of(head, one))
}

/// Whether a declaration completes the incomplete type of this name.
#[tactic(auto, using(std::proofs::lemmas::Grind::common_steps, ada_tree::specs::StatementView::statement_rules))]
fn completes(name: Identifier<'_>, declaration: &Declaration<'_>) -> bool
    ensures { result ≡ front.completes (ident_of name.entry) (declaration_of declaration.now) }
{
    match declaration {
        Declaration::AccessType { name: other, .. }
        | Declaration::RecordType { name: other, .. }
        | Declaration::DerivedType { name: other, .. } => other.text == name.text,
        Declaration::Exception { .. }
        | Declaration::Constant { .. }
        | Declaration::Pool { .. }
        | Declaration::Object { .. }
        | Declaration::Borrower { .. }
        | Declaration::IncompleteType { .. }
        | Declaration::Clause { .. }
        | Declaration::Specification(_)
        | Declaration::Body { .. }
        | Declaration::Instance { .. } => false,
    }
}

/// Whether an incomplete type is completed among these.
fn is_completed(name: Identifier<'_>, declarations: &[Declaration<'_>]) -> bool
    ensures { result ≡ list_any (completes_in (ident_of name.entry)) declarations.now }
{
    declarations.iter().any(|one| completes(name, one))
}

/// What the specification of an operation lacks before these.
#[tactic(auto, using(std::proofs::lemmas::Grind::common_steps, crate::proofs::Settling::body_among))]
fn lack_of_operation<'t>(head: &ProcedureHead<'t>, behind: &[Declaration<'t>]) -> Lack<'t>
    ensures { settled (specification (head_of head.now)) (declarations_of behind.now)
        ≡ settled_as result (specification (head_of head.now)) (declarations_of behind.now) }
{
    if has_body(head, behind) {
        Lack::Nothing
    } else {
        Lack::Body
    }
}

/// What an incomplete type lacks before these.
#[tactic(auto, using(std::proofs::lemmas::Grind::common_steps, crate::proofs::Settling::completed_among))]
fn lack_of_type<'t>(spot: Spot, name: Identifier<'t>, behind: &[Declaration<'t>]) -> Lack<'t>
    ensures { settled (incomplete_type spot (ident_of name.entry)) (declarations_of behind.now)
        ≡ settled_as result (incomplete_type spot (ident_of name.entry)) (declarations_of behind.now) }
{
    if is_completed(name, behind) {
        Lack::Nothing
    } else {
        Lack::Completion { spot, name }
    }
}

/// What a declaration lacks before these.
#[tactic(auto, using(std::proofs::lemmas::Grind::common_steps, ada_tree::specs::StatementView::statement_rules))]
fn lack_of<'t>(declaration: &Declaration<'t>, behind: &[Declaration<'t>]) -> Lack<'t>
    ensures { settled (declaration_of declaration.now) (declarations_of behind.now)
        ≡ settled_as result (declaration_of declaration.now) (declarations_of behind.now) }
{
    match declaration {
        Declaration::Specification(head) => lack_of_operation(head, behind),
        Declaration::IncompleteType { spot, name } => lack_of_type(*spot, *name, behind),
        Declaration::Exception { .. }
        | Declaration::Constant { .. }
        | Declaration::Pool { .. }
        | Declaration::Object { .. }
        | Declaration::Borrower { .. }
        | Declaration::AccessType { .. }
        | Declaration::RecordType { .. }
        | Declaration::DerivedType { .. }
        | Declaration::Clause { .. }
        | Declaration::Body { .. }
        | Declaration::Instance { .. } => Lack::Nothing,
    }
}

/// Settles the declaration at a place.
fn settle_at(declarations: &mut Vec<Declaration<'_>>, at: usize)
    requires { at < vec_len declarations.old }
    ensures settled { declarations_of declarations.new.items ≡ settled_at at (declarations_of declarations.old.items) }
    ensures room { at ≤ vec_len declarations.new }
{
    match lack_of(&declarations[at], &declarations[at + 1..]) {
        Lack::Nothing => {}
        Lack::Body => {
            let _ = declarations.remove(at);
        }
        Lack::Completion { spot, name } => {
            declarations[at] = Declaration::RecordType {
                spot,
                name,
                definition: RecordDefinition::NullRecord,
            };
        }
    }
}

/// Takes out of the declarations of a part what it would lack at its `begin`, from the last one on.
pub fn settle(declarations: &mut Vec<Declaration<'_>>)
    ensures { declarations_of declarations.new.items ≡ settled_all (declarations_of declarations.old.items) }
{
    let mut at = declarations.len();
    while at > 0 {
        at -= 1;
        settle_at(declarations, at);
    }
}

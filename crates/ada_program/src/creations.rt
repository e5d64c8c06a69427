//! What a program creates: in each body each variable once, in the order of the text (3.11), and one
//! collection for each access type (7.6.1).

ghost use Rattle.std.specs.Prelude.{◌≡◌, ◌==◌, ◌++◌, Some, map, length, count_by};
ghost use Rattle.ada_program.specs.Created.{seen_next, seen_after, is_complete};
ghost use Rattle.ada_program.specs.Form.{StmtsForm, stmt_form, stmts_form, branches_form, handlers_form};
ghost use Rattle.ada_program.specs.ProgramForm.{body_form, program_form};
ghost use Rattle.ada_program.specs.Kept as kept;
ghost use Rattle.ada_program.specs.WellFormed as fits;
ghost use Rattle.ada_program.specs.WellFormed.{of_pool, of_collection, of_variable};

use crate::kinds::have_known_pools;
use crate::program::{
    Branch, Declaration, Handler, Procedure, Program, Stmt, TypeDefinition, Variable,
};

/// What has been seen of the creations so far.
#[derive(Clone, Copy, Debug, PartialEq, Eq)]
pub(crate) enum Seen {
    /// Variables in order; the next of so many has this number.
    Variables { next: usize, count: usize },
    /// The collection of this access type at most once.
    Collection { access: usize, created: bool },
    /// Pools of the program alone, of which there are so many.
    Pools { count: usize },
}

impl Seen {
    /// What is seen after one more collection: none, if it is a second one of the access type.
    fn after_collection(self, collection: usize) -> Option<Seen>
        ensures { result ≡ seen_next self (of_collection collection) }
    {
        match self {
            Seen::Variables { .. } | Seen::Pools { .. } => Some(self),
            Seen::Collection { access, created } => {
                if collection != access {
                    Some(self)
                } else if created {
                    None
                } else {
                    Some(Seen::Collection {
                        access,
                        created: true,
                    })
                }
            }
        }
    }

    /// What is seen after one more variable: none, if it is not the next one.
    fn after_variable(self, variable: usize) -> Option<Seen>
        ensures { result ≡ seen_next self (of_variable variable) }
    {
        match self {
            Seen::Variables { next, count } => {
                if variable == next && next < count {
                    Some(Seen::Variables {
                        next: next + 1,
                        count,
                    })
                } else {
                    None
                }
            }
            Seen::Collection { .. } | Seen::Pools { .. } => Some(self),
        }
    }

    /// What is seen after one more pool: none, if the program has no such pool.
    fn after_pool(self, pool: usize) -> Option<Seen>
        ensures { result ≡ seen_next self (of_pool pool) }
    {
        match self {
            Seen::Variables { .. } | Seen::Collection { .. } => Some(self),
            Seen::Pools { count } => { if pool < count { Some(self) } else { None } }
        }
    }

    /// What is seen after what a declaration creates.
    fn after_declaration(self, declaration: &Declaration) -> Option<Seen>
        ensures { result ≡ seen_next self (kept.creation declaration.now) }
    {
        match declaration {
            Declaration::Pool(pool) => self.after_pool(pool.0),
            Declaration::Collection(access) => self.after_collection(access.0),
            Declaration::Variable {
                variable,
                initial: _,
            }
            | Declaration::Record {
                variable,
                object: _,
                initial: _,
            } => self.after_variable(variable.0),
        }
    }

    /// Whether each variable, or the collection, has been created, and no other pool.
    fn is_complete(self) -> bool
        ensures { result ≡ is_complete (Some self) }
    {
        match self {
            Seen::Variables { next, count } => next == count,
            Seen::Collection { access: _, created } => created,
            Seen::Pools { count: _ } => true,
        }
    }
}

/// Whether the main procedure creates each variable once, in the order of the text (3.11).
pub(crate) fn creates_in_order(program: &Program) -> bool
    ensures { result ≡ fits.creates_from (length program.now.variables.items) 0 (kept.creations program.now) }
{
    creates_from(
        0,
        &program.variables,
        &program.declarations,
        &program.statements,
        &program.handlers,
    )
}

/// Whether a procedure creates each variable behind its formal parameters once, in the order of the
/// text (3.11).
pub(crate) fn creates_locals(procedure: &Procedure) -> bool
    ensures { let body = body_form procedure.now in
        result ≡ fits.creates_from (length body.variables) (length body.formals) (fits.created_in body) }
{
    creates_from(
        procedure.formals.len(),
        &procedure.variables,
        &procedure.declarations,
        &procedure.statements,
        &procedure.handlers,
    )
}

/// Whether a body creates each of its variables from the first of these on once, in the order of the
/// text (3.11).
#[tactic(auto, using(std::proofs::lemmas::Grind::common_steps, crate::proofs::InOrder::tells))]
fn creates_from(
    first: usize,
    variables: &[Variable],
    declarations: &[Declaration],
    statements: &[Stmt],
    handlers: &[Handler],
) -> bool
    ensures { let by_statements = fits.created_by_all (stmts_form statements.now) in
        let by_handlers = fits.created_by_handlers (handlers_form handlers.now) in
        let creations = kept.created declarations.now ++ by_statements ++ by_handlers in
        result ≡ fits.creates_from (length variables.now) first creations }
{
    let seen = Seen::Variables {
        next: first,
        count: variables.len(),
    };
    is_all_seen(after_body(seen, declarations, statements, handlers))
}

/// Whether the program creates one collection for each access type (7.6.1).
#[tactic(auto, using(std::proofs::lemmas::Grind::common_steps, crate::proofs::InOrder::tells))]
pub(crate) fn has_collections(program: &Program) -> bool
    ensures { result ≡ kept.has_collections (kept.all_creations program.now) program.now.types.items }
{
    let types = &program.types;
    for (access, definition) in types.iter().enumerate() {
        let has_one = match definition {
            TypeDefinition::Record { .. } | TypeDefinition::Object { .. } => true,
            TypeDefinition::Access { .. } => has_collection(access, program),
        };
        if !has_one {
            return false;
        }
    }
    true
}

/// Whether the pools that access types have, and those that are created, are the program's (13.11).
#[tactic(auto, using(std::proofs::lemmas::Grind::common_steps, crate::proofs::InOrder::tells, crate::proofs::Viewed::views, crate::proofs::Viewed::length_viewed))]
pub(crate) fn pools_fit(program: &Program) -> bool
    ensures { result ≡ fits.pools_fit (program_form program.now) }
{
    let count = program.pools.len();
    let seen = Seen::Pools { count };
    have_known_pools(count, &program.types) && is_all_seen(after_program(seen, program))
}

/// Whether the program creates one collection for this access type.
#[tactic(auto, using(std::proofs::lemmas::Grind::common_steps, crate::proofs::InOrder::tells))]
fn has_collection(access: usize, program: &Program) -> bool
    ensures { result ≡ (count_by (fits.is_collection access) (kept.all_creations program.now) == 1) }
{
    let seen = Seen::Collection {
        access,
        created: false,
    };
    is_all_seen(after_program(seen, program))
}

/// Whether what is wanted has been created at the end, and nothing was wrong before.
fn is_all_seen(seen: Option<Seen>) -> bool
    ensures { result ≡ is_complete seen }
{
    match seen {
        None => false,
        Some(seen) => seen.is_complete(),
    }
}

/// What is seen after all that a program creates.
#[tactic(auto, using(std::proofs::lemmas::Grind::common_steps, crate::proofs::InOrder::steps))]
fn after_program(seen: Seen, program: &Program) -> Option<Seen>
    ensures { result ≡ seen_after (Some seen) (kept.all_creations program.now) }
{
    let seen = after_procedures(seen, &program.procedures)?;
    after_body(
        seen,
        &program.declarations,
        &program.statements,
        &program.handlers,
    )
}

/// What is seen after all that procedures create.
#[tactic(auto, using(std::proofs::lemmas::Grind::common_steps, crate::proofs::InOrder::steps))]
fn after_procedures(seen: Seen, procedures: &[Procedure]) -> Option<Seen>
    ensures { result ≡ seen_after (Some seen) (fits.created_in_all (map body_form procedures.now)) }
{
    let mut seen = seen;
    'procedures: for procedure in procedures {
        seen = after_body(
            seen,
            &procedure.declarations,
            &procedure.statements,
            &procedure.handlers,
        )?;
    }
    Some(seen)
}

/// What is seen after all that a body creates.
#[tactic(auto, using(std::proofs::lemmas::Grind::common_steps, crate::proofs::InOrder::steps))]
fn after_body(
    seen: Seen,
    declarations: &[Declaration],
    statements: &[Stmt],
    handlers: &[Handler],
) -> Option<Seen>
    ensures { let by_statements = fits.created_by_all (stmts_form statements.now) in
        let by_handlers = fits.created_by_handlers (handlers_form handlers.now) in
        let creations = kept.created declarations.now ++ by_statements ++ by_handlers in
        result ≡ seen_after (Some seen) creations }
{
    let seen = after_declarations(seen, declarations)?;
    let seen = after_statements(seen, statements)?;
    after_handlers(seen, handlers)
}

/// What is seen after what declarations create.
#[tactic(auto, using(std::proofs::lemmas::Grind::common_steps, crate::proofs::InOrder::steps))]
fn after_declarations(seen: Seen, declarations: &[Declaration]) -> Option<Seen>
    ensures { result ≡ seen_after (Some seen) (kept.created declarations.now) }
{
    let mut seen = seen;
    'declarations: for declaration in declarations {
        seen = seen.after_declaration(declaration)?;
    }
    Some(seen)
}

/// What is seen after what statements create.
#[cycle(creating)]
#[tactic(auto, using(std::proofs::lemmas::Grind::common_steps, crate::proofs::InOrder::steps))]
fn after_statements(seen: Seen, statements: &[Stmt]) -> Option<Seen>
    ensures { result ≡ seen_after (Some seen) (fits.created_by_all (stmts_form statements.now)) }
{
    let mut seen = seen;
    'statements: for statement in statements {
        seen = after_statement(seen, statement)?;
    }
    Some(seen)
}

/// What is seen after what a statement creates.
#[cycle(creating)]
#[tactic(auto, using(std::proofs::lemmas::Grind::common_steps, crate::proofs::InOrder::steps, crate::specs::Form::statement_rules))]
fn after_statement(seen: Seen, statement: &Stmt) -> Option<Seen>
    ensures { result ≡ seen_after (Some seen) (fits.created_by (stmt_form statement.now)) }
{
    match statement {
        Stmt::Null
        | Stmt::Assign { .. }
        | Stmt::AssignRecord { .. }
        | Stmt::Free { .. }
        | Stmt::Get(_)
        | Stmt::PutImage(_)
        | Stmt::PutText(_)
        | Stmt::Exit { .. }
        | Stmt::Call { .. }
        | Stmt::Return(_)
        | Stmt::Raise(_) => Some(seen),
        Stmt::If {
            branches,
            otherwise,
        } => {
            let seen = after_branches(seen, branches)?;
            after_statements(seen, otherwise)
        }
        Stmt::Loop {
            condition: _,
            statements,
            end: _,
        } => after_statements(seen, statements),
        Stmt::For {
            parameter,
            first: _,
            last: _,
            statements,
            end: _,
        } => {
            let seen = seen.after_variable(parameter.0)?;
            after_statements(seen, statements)
        }
        Stmt::Block {
            declarations,
            statements,
            handlers,
        } => {
            let seen = after_declarations(seen, declarations)?;
            let seen = after_statements(seen, statements)?;
            after_handlers(seen, handlers)
        }
    }
}

/// What is seen after what branches create.
#[cycle(creating)]
#[tactic(auto, using(std::proofs::lemmas::Grind::common_steps, crate::proofs::InOrder::steps))]
fn after_branches(seen: Seen, branches: &[Branch]) -> Option<Seen>
    ensures { (others : StmtsForm)
        → seen_after (Some seen) (fits.created_by_branches (branches_form branches.now others))
        ≡ seen_after result (fits.created_by_all others) }
{
    let mut seen = seen;
    'branches: for branch in branches {
        seen = after_statements(seen, &branch.statements)?;
    }
    Some(seen)
}

/// What is seen after what handlers create.
#[cycle(creating)]
#[tactic(auto, using(std::proofs::lemmas::Grind::common_steps, crate::proofs::InOrder::steps))]
fn after_handlers(seen: Seen, handlers: &[Handler]) -> Option<Seen>
    ensures { result ≡ seen_after (Some seen) (fits.created_by_handlers (handlers_form handlers.now)) }
{
    let mut seen = seen;
    'handlers: for handler in handlers {
        seen = after_statements(seen, &handler.statements)?;
    }
    Some(seen)
}

//! The places of all collections of a program.

ghost use Rattle.std.specs.Prelude.{◌≡◌, ◌<◌, ℕ, length, map, flat_map, IfOk};
ghost use Rattle.std.specs.List.{slice_get};
ghost use Rattle.ada_operations.specs.Created as created;
ghost use Rattle.ada_operations.specs.View as rules;
ghost use Rattle.ada_program.specs.Form.{StmtsForm, branches_form, declaration_form, handlers_form, stmt_form, stmts_form};
ghost use Rattle.ada_program.specs.Nested.{collected};
ghost use Rattle.ada_program.specs.ProgramForm.{body_form, program_form};

use crate::places::{Place, Places};
use ada_program::program::{Branch, Declaration, Handler, Procedure};
use ada_program::{Program, Stmt, TypeNo};
use std::alloc::{AllocError, Global};

/// The first collection that declarations create.
fn first_collected(declarations: &[Declaration]) -> Option<usize>
    ensures { result ≡ slice_get (collected (map declaration_form declarations.now)) 0 }
{
    'declarations: for declaration in declarations {
        if let Declaration::Collection(access) = declaration {
            return Some(access.0);
        }
    }
    None
}

/// The collections of declarations are created in a part, in order.
fn add_collections(places: &mut Places, part: usize, declarations: &[Declaration])
    ensures { places.new.table.items
        ≡ rules.with_places part 0 (collected (map declaration_form declarations.now)) places.old.table.items }
{
    let mut order = 0;
    'declarations: for declaration in declarations {
        if let Declaration::Collection(access) = declaration {
            places.add(*access, Place { part, order });
            order += 1;
        }
    }
}

/// Those of a declarative part are.
fn add_part(places: &mut Places, declarations: &[Declaration])
    ensures { places.new.table.items
        ≡ rules.with_part (collected (map declaration_form declarations.now)) places.old.table.items }
{
    match first_collected(declarations) {
        None => (),
        Some(part) => add_collections(places, part, declarations),
    }
}

/// Those of the blocks in a statement are (5.6).
#[cycle(walking)]
#[tactic(auto, using(std::proofs::lemmas::Grind::common_steps, ada_program::specs::Form::statement_rules, crate::proofs::Table::parts_append))]
fn add_statement(places: &mut Places, statement: &Stmt)
    ensures { places.new.table.items
        ≡ rules.with_parts (created.stmt_collections (stmt_form statement.now)) places.old.table.items }
{
    match statement {
        Stmt::Null
        | Stmt::Assign { .. }
        | Stmt::AssignRecord { .. }
        | Stmt::Free { .. }
        | Stmt::Get(_)
        | Stmt::PutImage(_)
        | Stmt::PutText(_)
        | Stmt::Exit { .. }
        | Stmt::Call { .. }
        | Stmt::Return(_)
        | Stmt::Raise(_) => (),
        Stmt::If {
            branches,
            otherwise,
        } => {
            add_branches(places, branches);
            add_statements(places, otherwise);
        }
        Stmt::Loop {
            condition: _,
            statements,
            end: _,
        }
        | Stmt::For {
            parameter: _,
            first: _,
            last: _,
            statements,
            end: _,
        } => add_statements(places, statements),
        Stmt::Block {
            declarations,
            statements,
            handlers,
        } => {
            add_part(places, declarations);
            add_statements(places, statements);
            add_handlers(places, handlers);
        }
    }
}

/// Those of statements are.
#[cycle(walking)]
#[tactic(auto, using(std::proofs::lemmas::Grind::common_steps, crate::proofs::Table::parts_append))]
fn add_statements(places: &mut Places, statements: &[Stmt])
    ensures { places.new.table.items
        ≡ rules.with_parts (created.stmts_collections (stmts_form statements.now)) places.old.table.items }
{
    'statements: for statement in statements {
        add_statement(places, statement);
    }
}

/// Those of branches are.
#[cycle(walking)]
#[tactic(auto, using(std::proofs::lemmas::Grind::common_steps, crate::proofs::Table::parts_append))]
fn add_branches(places: &mut Places, branches: &[Branch])
    ensures { (others : StmtsForm) →
        rules.with_parts (created.branches_collections (branches_form branches.now others)) places.old.table.items
        ≡ rules.with_parts (created.stmts_collections others) places.new.table.items }
{
    'branches: for branch in branches {
        add_statements(places, &branch.statements);
    }
}

/// Those of handlers are.
#[cycle(walking)]
#[tactic(auto, using(std::proofs::lemmas::Grind::common_steps, crate::proofs::Table::parts_append))]
fn add_handlers(places: &mut Places, handlers: &[Handler])
    ensures { places.new.table.items
        ≡ rules.with_parts (created.handlers_collections (handlers_form handlers.now)) places.old.table.items }
{
    'handlers: for handler in handlers {
        add_statements(places, &handler.statements);
    }
}

/// Those of a body are.
#[tactic(auto, using(std::proofs::lemmas::Grind::common_steps, crate::proofs::Table::parts_append))]
fn add_body(places: &mut Places, procedure: &Procedure)
    ensures { places.new.table.items ≡ rules.with_parts (created.body_collections (body_form procedure.now)) places.old.table.items }
{
    add_part(places, &procedure.declarations);
    add_statements(places, &procedure.statements);
    add_handlers(places, &procedure.handlers);
}

/// Those of bodies are.
#[tactic(auto, using(std::proofs::lemmas::Grind::common_steps, crate::proofs::Table::parts_append))]
fn add_bodies(places: &mut Places, procedures: &[Procedure])
    ensures { places.new.table.items
        ≡ rules.with_parts (flat_map created.body_collections (map body_form procedures.now)) places.old.table.items }
{
    'procedures: for procedure in procedures {
        add_body(places, procedure);
    }
}

/// Where the collections of a program are created. Linear in the program.
///
/// # Errors
/// `AllocError` where memory was refused.
#[tactic(auto, using(std::proofs::lemmas::Grind::common_steps, crate::proofs::Table::parts_append))]
pub(crate) fn places_of(alloc: Global, program: &Program) -> Result<Places, AllocError>
    ensures size { IfOk result (λ places. length places.table.items ≡ length program.now.types.items) }
    ensures places { IfOk result (λ places. (t : ℕ) → t < length program.now.types.items →
        rules.place_at places.table.items t ≡ created.place_of (created.collections_of (program_form program.now)) t) }
{
    let mut places = Places::unknown(alloc, program.types.len())?;
    add_part(&mut places, &program.declarations);
    add_statements(&mut places, &program.statements);
    add_handlers(&mut places, &program.handlers);
    add_bodies(&mut places, &program.procedures);
    Ok(places)
}

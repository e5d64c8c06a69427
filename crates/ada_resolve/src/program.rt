//! From the tree to the program: what each name stands for, and whether each form has the types that it wants.

ghost use Rattle.std.specs.Prelude.{◌≡◌, map, IfOk, IfErr};
ghost use Rattle.ada_tree.specs.Declarations.{clause_of};
ghost use Rattle.ada_tree.specs.Names.{ident_of, name_of};
ghost use Rattle.ada_tree.specs.StatementView.{unit_of};
ghost use Rattle.ada_program.specs.Freed.{FreesItsOwn};
ghost use Rattle.ada_program.specs.Nested.{CollectionsNest};
ghost use Rattle.ada_program.specs.ProgramForm.{program_form};
ghost use Rattle.ada_program.specs.WellFormed.{IsWellFormed};
ghost use Rattle.ada_resolve.specs.Method.{Finds, IsNoted, program_in, procedure_outcome};
ghost use Rattle.ada_resolve.specs.Resolution.{units_of, clause_told, clauses_told, alone_remark, Resolves, no_units, unit_told};
ghost use Rattle.ada_resolve.specs.View.{same_units, Answers, Faults};

use crate::components::definitions;
use crate::fault::{NameFault, NameRule};
use crate::laws::{collections_nest, programs_are_well_formed, programs_free_their_own};
use crate::library::{LibraryName, Withs, is_primitive, library_name};
use crate::notes::Notes;
use crate::procedures::{Sequence, same_name};
use crate::resolver::Resolver;
use crate::scope::is_taken;
use ada_program::{Program, Spot};
use ada_tree::names::{Identifier, Name};
use ada_tree::unit::{Clause, Unit};
use std::alloc::Global;

/// The program of a tree, which is well formed, whose collections nest, and which frees each object by the instance for its
/// very access type.
///
/// # Errors
/// At the first declaration or statement that breaks a rule of names; there at the leftmost spot, and of two rules
/// at one spot at the lower number.
pub fn resolve(alloc: Global, unit: &Unit<'_>) -> Result<Program, NameFault>
    ensures resolves { IfOk result (λ p. Resolves (unit_of unit.now) (program_form p)) }
    ensures first { IfErr result (λ e. Faults e (unit_of unit.now)) }
    ensures well_formed { IfOk result (λ p. IsWellFormed (program_form p)) }
    ensures nests { IfOk result (λ p. CollectionsNest (program_form p)) }
    ensures frees_own { IfOk result (λ p. FreesItsOwn (program_form p)) }
{
    programs_are_well_formed();
    collections_nest();
    programs_free_their_own();
    whole_program(alloc, unit)
}

/// The program of a tree, from its parts in order.
fn whole_program(alloc: Global, unit: &Unit<'_>) -> Result<Program, NameFault>
    ensures resolves { IfOk result (λ p. Resolves (unit_of unit.now) (program_form p)) }
    ensures first { IfErr result (λ e. Faults e (unit_of unit.now)) }
{
    let withs = library_units(&unit.clauses)?;
    program_behind(Resolver::new(alloc, withs, unit.name.text), unit)
}

/// The program of a tree behind its `with` clauses.
fn program_behind<'t>(resolver: Resolver<'t>, unit: &Unit<'t>) -> Result<Program, NameFault>
    ensures { Answers result program_form (procedure_outcome resolver.entry unit.now) }
{
    let mut resolver = resolver;
    let body = procedure(&mut resolver, unit)?;
    assemble(resolver, body)
}

/// The body of the procedure, behind its name and its declarations; and its end.
fn procedure<'t>(resolver: &mut Resolver<'t>, unit: &Unit<'t>) -> Result<Sequence, NameFault>
    ensures { Answers result (program_in resolver.new) (procedure_outcome resolver.old unit.now) }
{
    let mut notes = Notes::new();
    alone(unit.name, unit.spot, &mut notes);
    notes.settle()?;
    resolver.declarations(&unit.declarations, &mut notes)?;
    let body = resolver.sequence(&unit.body, false, &mut notes)?;
    same_name(unit.name, unit.end_name)?;
    Ok(body)
}

/// The library units of the `with` clauses: each is one that is in use.
fn library_units(clauses: &[Clause<'_>]) -> Result<Withs, NameFault>
    ensures { Answers result same_units (clauses_told (map clause_of clauses.now) no_units) }
{
    let mut units = Withs {
        text_io: false,
        deallocation: false,
        finalization: false,
        pools: false,
        run_input: false,
    };
    for clause in clauses {
        units = with_clause(clause, units)?;
    }
    Ok(units)
}

/// The library units with those of one more clause.
fn with_clause(clause: &Clause<'_>, units: Withs) -> Result<Withs, NameFault>
    ensures { Answers result same_units (clause_told (clause_of clause.now) units) }
{
    let first = with_unit(&clause.first, units)?;
    with_units(&clause.rest, first)
}

/// The library units with those of these names.
fn with_units(names: &[Name<'_>], units: Withs) -> Result<Withs, NameFault>
    ensures { Answers result same_units (units_of (map name_of names.now) units) }
{
    let mut units = units;
    for name in names {
        units = with_unit(name, units)?;
    }
    Ok(units)
}

/// The library units with that of one more name.
fn with_unit(name: &Name<'_>, units: Withs) -> Result<Withs, NameFault>
    ensures { Answers result same_units (unit_told (name_of name.now) units) }
{
    match library_name(name.first.text, &name.rest) {
        LibraryName::TextIo => Ok(Withs {
            text_io: true,
            ..units
        }),
        LibraryName::UncheckedDeallocation => Ok(Withs {
            deallocation: true,
            ..units
        }),
        LibraryName::Finalization => Ok(Withs {
            finalization: true,
            ..units
        }),
        LibraryName::Pools => Ok(Withs {
            pools: true,
            ..units
        }),
        LibraryName::RunInput => Ok(Withs {
            run_input: true,
            ..units
        }),
        _ => Err(NameFault::Broken {
            spot: name.first.spot,
            rule: NameRule::NotInProfile,
        }),
    }
}

/// What is wrong with a name that no other one of its part can be, in a construct that begins at the spot.
pub(crate) fn alone(name: Identifier<'_>, spot: Spot, notes: &mut Notes)
    ensures { IsNoted notes (alone_remark (ident_of name.entry) spot) }
{
    notes.note_if(is_taken(name.text), name.spot, NameRule::DeclaredTwice);
    notes.note_if(is_primitive(name.text), spot, NameRule::NotInProfile);
}

/// The program of what is resolved.
#[tactic(auto, unfolding(crate::specs::View::known_of))]
fn assemble(resolver: Resolver<'_>, body: Sequence) -> Result<Program, NameFault>
    ensures program { Finds program_form result (program_in resolver.entry body) }
    ensures memory { IfErr result (λ e. e ≡ NameFault.NoMemory) }
{
    let types = definitions(resolver.alloc, &resolver.types)?;
    let Resolver {
        alloc: _,
        withs: _,
        procedure: _,
        here,
        outer: _,
        types: _,
        pools,
        procedures,
        variables,
        exceptions,
        texts,
        frozen: _,
        controlled: _,
        limited: _,
    } = resolver;
    Ok(Program {
        types,
        pools,
        procedures,
        variables,
        texts,
        exceptions,
        declarations: here.into_declarations(),
        statements: body.statements,
        handlers: body.handlers,
    })
}

//! The flow of values through bodies, and through a whole program: each body on its own, with what is known of the calls of
//! the procedures before it.

ghost use Rattle.std.specs.Prelude.{◌≡◌, ◌++◌, ◌∷◌, [], Option, None, IfOk, MatchResult, OnOk, length, map};
ghost use Rattle.ada_effects.specs.Effects as rules;
ghost use Rattle.ada_effects.specs.Effects.{known_of};
ghost use Rattle.ada_effects.specs.Found.{calls_in, effects_in, implicit_in};
ghost use Rattle.ada_flow.specs.Flow.{Holds, bodies_flow, body_flow, body_keeps, ends_body, faults, flow_of, goes, judged_flow, kept_by, leftmost, tracks_of};
ghost use Rattle.ada_flow.specs.Reached.{AreRows};
ghost use Rattle.ada_flow.specs.Told.{Ends, body_in, breach_of, broken, fault_in, held, judgement, keeping_in, keepings_in, kept_judgement, parts_of, tracks_in, variable_number};
ghost use Rattle.ada_flow.specs.Tracking.{no_tracks};
ghost use Rattle.ada_program.specs.ProgramForm.{body_form, main_body, program_form, type_form, variable_form};
ghost use Rattle.ada_text.specs.Exactly.{Exactly};

use crate::analysis::declare;
use crate::around::Around;
use crate::blocks::handled;
use crate::fault::{Breach, FlowFault};
use crate::follow::leftmost;
use crate::gone::Gone;
use crate::keeping::{Keeping, all_give_back, holds_at_first, owed_at_ends, what_is_kept};
use crate::kinds::leave_end;
use crate::known::Known;
use crate::raised::Raised;
use crate::reached::ReachedRecords;
use crate::rule::Rule;
use crate::setting::Setting;
use crate::statements::statements;
use crate::tracking::{judged, tracked_components};
use crate::tracks::Tracks;
use ada_effects::{Effect, Effects, Implicit, effect_of};
use ada_program::program::{Declaration, FormalMode, Handler, Procedure, TypeDefinition, Variable};
use ada_program::{Program, Spot, Stmt, VariableNo};
use std::alloc::{AllocError, Global};

/// The declarations of a body, and then its statements with their handlers.
#[tactic(auto, using(std::proofs::lemmas::Grind::common_steps, crate::proofs::Noted::body_ends, crate::proofs::Noted::parts_end))]
fn parts(
    alloc: Global,
    around: &Around<'_>,
    mut known: Known,
    raised: &mut Raised,
    declarations: &[Declaration],
    statements: &[Stmt],
    handlers: &[Handler],
) -> Result<Option<Known>, FlowFault>
    ensures { Ends result raised.old raised.new
        (parts_of around.now declarations.now statements.now handlers.now known.holds.items) }
{
    declare(alloc, around, &mut known, raised, declarations)?;
    let mut inner = raised.with_handlers(handlers);
    let end = self::statements(alloc, around, known, &mut inner, statements)?;
    handled(alloc, around, inner, end, raised, handlers, statements)
}

/// Where a body comes to its end, each formal parameter gives back what it is to give back.
///
/// # Errors
/// Where one gives nothing back.
fn give_all_back(owed: &[VariableNo], end: &Option<Known>, spot: Spot) -> Result<(), Breach>
    ensures { let given = (λ (raising : Option Holds). ends_body (map variable_number owed.now) spot (goes (held end.now) raising)) in
        (raising : Option Holds) → MatchResult result (λ _. given raising ≡ goes (held end.now) raising)
        (λ breach. given raising ≡ faults breach.spot breach.rule) }
{
    match end {
        Some(known) if !all_give_back(owed, known.holds()) => Err(Breach {
            spot,
            rule: Rule::FormalNotOwned,
        }),
        _ => Ok(()),
    }
}

/// Whether a body obeys the rules of the flow of values, whose variables are judged as these: its declarations, its statements and
/// their handlers. What it keeps of its formal parameters, where it does.
///
/// # Errors
/// The first rule that is broken, with its spot, or want of memory.
fn body(
    alloc: Global,
    types: &[TypeDefinition],
    effects: Effects<'_>,
    reached: &ReachedRecords,
    kept: &[Keeping],
    tracks: Tracks<'_>,
    judged: &[Variable],
    formals: &[FormalMode],
    variables: &[Variable],
    declarations: &[Declaration],
    statements: &[Stmt],
    handlers: &[Handler],
    end: Spot,
) -> Result<Keeping, FlowFault>
    requires { AreRows (map type_form types.now) (implicit_in effects.implicit.now) reached.now.rows.items }
    ensures { let whole = body_in formals.now variables.now declarations.now statements.now handlers.now end in
        Exactly keeping_in breach_of result
        (kept_judgement
        (judged_flow (map type_form types.now) (map variable_form judged.now) (effects_in effects.entry) (keepings_in kept.now)
        (tracks_in tracks.entry) whole)
        formals.now) }
{
    let owed = owed_at_ends(alloc, tracks, formals, variables)?;
    let gone = Gone::with(alloc, declarations)?;
    let nothing = Gone::nothing(alloc);
    let setting = Setting {
        types,
        variables: judged,
        tracks,
        effects,
        reached,
        kept,
        owed: &owed,
    };
    let around = Around::in_body(setting, &nothing, &gone);
    let known = Known::of(holds_at_first(alloc, tracks, formals, variables)?);
    let mut raised = Raised::at_first(formals);
    let last = parts(
        alloc,
        &around,
        known,
        &mut raised,
        declarations,
        statements,
        handlers,
    )?;
    let last = leave_end(alloc, judged, &gone, last)?;
    give_all_back(&owed, &last, end)?;
    let raising = leave_end(alloc, judged, &gone, raised.into_known())?;
    Ok(what_is_kept(alloc, &raising, formals)?)
}

/// The first rule that a body breaks, and where, if it breaks one, and what it keeps of its formal parameters.
///
/// # Errors
/// Want of memory.
#[tactic(auto, using(std::proofs::lemmas::Grind::common_steps, crate::proofs::FirstFaults::fault_steps))]
fn body_fault(
    alloc: Global,
    types: &[TypeDefinition],
    effects: Effects<'_>,
    reached: &ReachedRecords,
    kept: &[Keeping],
    tracks: Tracks<'_>,
    judged: &[Variable],
    formals: &[FormalMode],
    variables: &[Variable],
    declarations: &[Declaration],
    statements: &[Stmt],
    handlers: &[Handler],
    end: Spot,
) -> Result<(Option<Breach>, Keeping), FlowFault>
    requires { AreRows (map type_form types.now) (implicit_in effects.implicit.now) reached.now.rows.items }
    ensures found { let whole = body_in formals.now variables.now declarations.now statements.now handlers.now end in
        let flow = judged_flow (map type_form types.now) (map variable_form judged.now) (effects_in effects.entry)
        (keepings_in kept.now) (tracks_in tracks.entry) whole in
        MatchResult result (λ told. broken told.0 ≡ fault_in flow) (λ fault. breach_of fault ≡ None) }
    ensures keeps { let whole = body_in formals.now variables.now declarations.now statements.now handlers.now end in
        let flow = judged_flow (map type_form types.now) (map variable_form judged.now) (effects_in effects.entry)
        (keepings_in kept.now) (tracks_in tracks.entry) whole in
        IfOk result (λ told. keeping_in told.1 ≡ kept_by flow formals.now) }
{
    match body(
        alloc,
        types,
        effects,
        reached,
        kept,
        tracks,
        judged,
        formals,
        variables,
        declarations,
        statements,
        handlers,
        end,
    ) {
        Ok(keeping) => Ok((None, keeping)),
        Err(FlowFault::Broken { spot, rule }) => Ok((
            Some(Breach { spot, rule }),
            Keeping {
                formals: Vec::new(alloc),
            },
        )),
        Err(FlowFault::NoMemory) => Err(FlowFault::NoMemory),
    }
}

/// What is known of the calls of a procedure joins what is known of those of the procedures before it.
fn learn(
    alloc: Global,
    types: &[TypeDefinition],
    implicit: &Implicit,
    calls: &mut Vec<Effect>,
    procedure: &Procedure,
) -> Result<(), AllocError>
    ensures { let known = known_of (implicit_in implicit.now) (calls_in calls.old.items) in
        OnOk result (calls_in calls.new.items ≡ calls_in calls.old.items
        ++ rules.effect_of (map type_form types.now) known (body_form procedure.now) ∷ []) }
{
    let effect = effect_of(alloc, types, Effects { implicit, calls }, procedure)?;
    calls.push(effect)?;
    Ok(())
}

/// What a procedure keeps joins what those before it keep.
fn keep(kept: &mut Vec<Keeping>, keeping: Keeping) -> Result<(), AllocError>
    ensures { OnOk result (keepings_in kept.new.items
        ≡ keepings_in kept.old.items ++ keeping_in keeping ∷ []) }
{
    kept.push(keeping)?;
    Ok(())
}

/// The first rule that the body of the procedure of a number breaks, and where, if it breaks one, and what it keeps of its formal
/// parameters. An Adjust tracks components of its own.
///
/// # Errors
/// Want of memory.
fn own_fault(
    alloc: Global,
    types: &[TypeDefinition],
    effects: Effects<'_>,
    reached: &ReachedRecords,
    kept: &[Keeping],
    number: usize,
    procedure: &Procedure,
) -> Result<(Option<Breach>, Keeping), FlowFault>
    requires { AreRows (map type_form types.now) (implicit_in effects.implicit.now) reached.now.rows.items }
    ensures found { let whole = body_form procedure.now in
        let all = map type_form types.now in
        let flow = body_flow all (effects_in effects.entry) (keepings_in kept.now) (tracks_of all number whole) whole in
        MatchResult result (λ told. broken told.0 ≡ fault_in flow) (λ fault. breach_of fault ≡ None) }
    ensures keeps { let whole = body_form procedure.now in
        let all = map type_form types.now in
        let flow = body_flow all (effects_in effects.entry) (keepings_in kept.now) (tracks_of all number whole) whole in
        IfOk result (λ told. keeping_in told.1 ≡ kept_by flow procedure.now.formals.items) }
{
    let components = tracked_components(alloc, types, number, &procedure.variables)?;
    let variables = judged(alloc, types, &components, &procedure.variables)?;
    let tracks = Tracks::behind(procedure.variables.len(), &components);
    body_fault(
        alloc,
        types,
        effects,
        reached,
        kept,
        tracks,
        &variables,
        &procedure.formals,
        &procedure.variables,
        &procedure.declarations,
        &procedure.statements,
        &procedure.handlers,
        procedure.end,
    )
}

/// The first rule that the body of a procedure breaks, and where, if it breaks one. What is known of its calls and what it keeps
/// join those of the procedures before it.
///
/// # Errors
/// Want of memory.
fn procedure_fault(
    alloc: Global,
    types: &[TypeDefinition],
    implicit: &Implicit,
    reached: &ReachedRecords,
    calls: &mut Vec<Effect>,
    kept: &mut Vec<Keeping>,
    procedure: &Procedure,
) -> Result<Option<Breach>, FlowFault>
    requires { AreRows (map type_form types.now) (implicit_in implicit.now) reached.now.rows.items }
    ensures found { let known = known_of (implicit_in implicit.now) (calls_in calls.old.items) in
        let tracks = tracks_of (map type_form types.now) (length (calls_in calls.old.items)) (body_form procedure.now) in
        MatchResult result
        (λ found. broken found
        ≡ fault_in (body_flow (map type_form types.now) known (keepings_in kept.old.items) tracks (body_form procedure.now)))
        (λ fault. breach_of fault ≡ None) }
    ensures known { let known = known_of (implicit_in implicit.now) (calls_in calls.old.items) in
        OnOk result (calls_in calls.new.items ≡ calls_in calls.old.items
        ++ rules.effect_of (map type_form types.now) known (body_form procedure.now) ∷ []) }
    ensures keeps { let known = known_of (implicit_in implicit.now) (calls_in calls.old.items) in
        let tracks = tracks_of (map type_form types.now) (length (calls_in calls.old.items)) (body_form procedure.now) in
        OnOk result (keepings_in kept.new.items ≡ keepings_in kept.old.items
        ++ body_keeps (map type_form types.now) known (keepings_in kept.old.items) tracks (body_form procedure.now) ∷ []) }
{
    let effects = Effects { implicit, calls };
    let (found, keeping) = own_fault(alloc, types, effects, reached, kept, calls.len(), procedure)?;
    learn(alloc, types, implicit, calls, procedure)?;
    keep(kept, keeping)?;
    Ok(found)
}

/// The leftmost of the first rules that the bodies of procedures break, if one breaks one, and what is known of their calls, and
/// what they keep.
///
/// # Errors
/// Want of memory.
#[tactic(auto, using(std::proofs::lemmas::Grind::common_steps, crate::proofs::FirstFaults::body_steps))]
fn procedures_fault(
    alloc: Global,
    program: &Program,
    implicit: &Implicit,
    reached: &ReachedRecords,
    calls: &mut Vec<Effect>,
    kept: &mut Vec<Keeping>,
) -> Result<Option<Breach>, FlowFault>
    requires { AreRows (map type_form program.now.types.items) (implicit_in implicit.now) reached.now.rows.items }
    ensures { let main = main_body (program_form program.now) in
        let types = map type_form program.now.types.items in
        let bodies = map body_form program.now.procedures.items in
        let implicit_calls = implicit_in implicit.now in
        MatchResult result
        (λ found. leftmost (broken found)
        (fault_in (body_flow types (known_of implicit_calls (calls_in calls.new.items)) (keepings_in kept.new.items) no_tracks main))
        ≡ fault_in (bodies_flow types implicit_calls (calls_in calls.old.items) (keepings_in kept.old.items) bodies main))
        (λ fault. breach_of fault ≡ None) }
{
    let mut first = None;
    'procedures: for procedure in &program.procedures {
        let found = procedure_fault(
            alloc,
            &program.types,
            implicit,
            reached,
            calls,
            kept,
            procedure,
        )?;
        first = leftmost(first, found);
    }
    Ok(first)
}

/// Whether the program obeys the rules of the flow of values, where this is known of the operations of controlled types that are
/// called implicitly (7.6). Of the faults of its bodies, the first one in the text is told.
///
/// # Errors
/// The first rule that is broken, with its spot, or want of memory.
#[tactic(auto, using(std::proofs::lemmas::Grind::common_steps, crate::proofs::FirstFaults::program_steps))]
pub fn flow(alloc: Global, program: &Program, implicit: &Implicit) -> Result<(), FlowFault>
    ensures { Exactly (λ _. tt) breach_of result (judgement (flow_of (implicit_in implicit.now) (program_form program.now))) }
{
    let mut calls = Vec::new(alloc);
    let mut kept = Vec::new(alloc);
    let reached = ReachedRecords::of(alloc, &program.types, implicit)?;
    let first = procedures_fault(alloc, program, implicit, &reached, &mut calls, &mut kept)?;
    let (last, _) = body_fault(
        alloc,
        &program.types,
        Effects {
            implicit,
            calls: &calls,
        },
        &reached,
        &kept,
        Tracks::nothing(),
        &program.variables,
        &[],
        &program.variables,
        &program.declarations,
        &program.statements,
        &program.handlers,
        Spot { line: 0, column: 0 },
    )?;
    match leftmost(first, last) {
        None => Ok(()),
        Some(breach) => Err(FlowFault::Broken {
            spot: breach.spot,
            rule: breach.rule,
        }),
    }
}

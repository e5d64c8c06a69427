//! The activations of bodies, with the places of all of them behind one another.

ghost use Rattle.std.specs.Prelude.{◌≡◌, ◌≢◌, IfSome, [], ◌∷◌, ◌++◌, take, drop, reverse, map, Some, None, IfOk, OnOk};
ghost use Rattle.std.specs.List.{slice_index_or, slice_set};
ghost use Rattle.ada_program.specs.Form.{actual_form};
ghost use Rattle.ada_program.specs.ProgramForm.{variable_form};
ghost use Rattle.ada_meaning.specs.Step.{first_or, older, places_of, operands_of, with_places, with_operands, in_front, blanks, given_places, copied_back, stored_back, operand_count, given_values, references_in};
ghost use Rattle.ada_meaning.specs.Named.{named};
ghost use Rattle.ada_interpreter.specs.Activations.{kept_by, waiting_behind};

use crate::given::{
    copy_back_behind, lay_blanks, lay_parameter, lay_places, operand_count, push_references,
    push_stored,
};
use crate::stack::Stack;
use crate::values::{set_value_behind, value_at, values_behind};
use ada_meaning::Value;
use ada_program::VariableNo;
use ada_program::program::{Actual, ProcedureNo, Variable};
use std::alloc::{AllocError, Global};
use std::marker::Model;
use std::mem;

/// An activation that has begun: its places are those from `base` on, up to where those of the next one begin.
#[derive(Clone, Copy)]
struct Begun {
    /// None for the main body.
    procedure: Option<ProcedureNo>,
    base: usize,
    /// Whether its caller keeps operands meanwhile: the newest of those that wait.
    keeps: bool,
}

/// The activations that have begun (6.4), seen as the list of them, the running one first. Once the stacks have grown,
/// a call takes no memory; that of an operation does where its caller keeps operands.
#[derive(Drop)]
pub(crate) struct Activations {
    alloc: Global,
    /// The running one is the newest.
    begun: Stack<Begun>,
    /// What the variables of all of them hold: each one's places lie behind those of its caller.
    places: Vec<Value>,
    /// What pending forms of the running one have computed.
    operands: Stack<Value>,
    /// What pending forms of callers have computed. A call is a statement, and no form of its caller waits for a value; but
    /// an operation of a controlled type is called in the middle of such forms.
    waiting: Stack<Stack<Value>>,
    /// Vectors that calls which have ended no longer use, whatever lies in them: the next calls take them.
    spare: Vec<Vec<Value>>,
}

impl Model for Activations {
    ghost use Rattle.std.specs.Prelude.{List};
    ghost use Rattle.ada_meaning.specs.declared.state.Value.{Value as HeldValue};
    ghost use Rattle.ada_meaning.specs.State.{Activation};

    ghost Value = { List (Activation HeldValue) };

    ghost use Rattle.ada_interpreter.specs.Activations.{activations_of, AreAwaited};

    ghost view = { λ s. activations_of s.begun s.places.items s.operands s.waiting };

    ghost invariant = { λ s. AreAwaited s.begun s.operands };
}

impl Activations {
    /// The activation of the main body, before its declarations are elaborated.
    pub(crate) fn new(alloc: Global, variables: &[Variable]) -> Result<Activations, AllocError>
        ensures { let places = blanks named (map variable_form variables.now) in
            IfOk result
            (λ activations. activations ≡ record { procedure = None; places = places; operands = [] } ∷ []) }
    {
        let mut begun = Stack::new(alloc);
        begun.push(Begun {
            procedure: None,
            base: 0,
            keeps: false,
        })?;
        let mut places = Vec::new(alloc);
        lay_blanks(&mut places, variables)?;
        Ok(Activations {
            alloc,
            begun,
            places,
            operands: Stack::new(alloc),
            waiting: Stack::new(alloc),
            spare: Vec::new(alloc),
        })
    }

    /// What a variable of the running activation holds; null, if there is none.
    pub(crate) fn held(&self, variable: VariableNo) -> Value
        ensures { result ≡ slice_index_or (places_of self.now) variable.0 Value.Null }
    {
        match self.begun.at(0) {
            Some(running) => {
                let places = values_behind(self.places.as_slice(), running.base);
                value_at(places, variable.0)
            }
            None => Value::Null,
        }
    }

    /// What the variables of the running activation hold, if one runs.
    pub(crate) fn running_places(&self) -> Option<&[Value]>
        ensures { IfSome result (λ places. (self.now ≢ []) × (places_of self.now ≡ places.now)) }
    {
        match self.begun.at(0) {
            Some(running) => Some(values_behind(self.places.as_slice(), running.base)),
            None => None,
        }
    }

    /// A variable of the running activation gets a value; nothing, if there is none.
    pub(crate) fn put(&mut self, variable: VariableNo, value: Value)
        ensures { self.new ≡ with_places (slice_set (places_of self.old) variable.0 value) self.old }
    {
        if let Some(running) = self.begun.at(0) {
            set_value_behind(self.places.as_mut_slice(), running.base, variable.0, value);
        }
    }

    /// The newest operand; null, if there is none.
    pub(crate) fn newest(&self) -> Value
        ensures { result ≡ first_or Value.Null (operands_of self.now) }
    {
        match self.operands.at(0) {
            Some(value) => value,
            None => Value::Null,
        }
    }

    /// The operand before the newest; null, if there is none.
    pub(crate) fn second(&self) -> Value
        ensures { result ≡ first_or Value.Null (older (operands_of self.now)) }
    {
        match self.operands.at(1) {
            Some(value) => value,
            None => Value::Null,
        }
    }

    /// So many of the newest operands, or all if there are not so many: in the order in which they were computed.
    pub(crate) fn newest_ones(&self, count: usize) -> &[Value]
        ensures { result.now ≡ reverse (take count (operands_of self.now)) }
    {
        self.operands.newest(count)
    }

    /// A value is kept for the form that waits for it. Where nothing runs, none waits.
    pub(crate) fn push(&mut self, value: Value) -> Result<(), AllocError>
        ensures { OnOk result (self.new ≡ with_operands (value ∷ operands_of self.old) self.old) }
    {
        if self.begun.len() > 0 {
            self.operands.push(value)
        } else {
            Ok(())
        }
    }

    /// Values are kept, one after another.
    pub(crate) fn push_all(&mut self, values: &[Value]) -> Result<(), AllocError>
        ensures { OnOk result
            (self.new ≡ with_operands (in_front values.now (operands_of self.old)) self.old) }
    {
        for value in values {
            self.push(*value)?;
        }
        Ok(())
    }

    /// The newest operand is taken away.
    pub(crate) fn pop(&mut self)
        ensures { self.new ≡ with_operands (older (operands_of self.old)) self.old }
    {
        self.operands.shorten();
    }

    /// So many of the newest operands are taken away, or all if there are not so many.
    pub(crate) fn shorten_by(&mut self, count: usize)
        ensures { self.new ≡ with_operands (drop count (operands_of self.old)) self.old }
    {
        self.operands.shorten_by(count);
    }

    /// So many of the newest operands are taken away, or all if there are not so many: in the order in which they were
    /// computed.
    pub(crate) fn take(&mut self, count: usize) -> Result<Vec<Value>, AllocError>
        ensures taken { IfOk result
            (λ taken. taken.items ≡ reverse (take count (operands_of self.old))) }
        ensures left { OnOk result
            (self.new ≡ with_operands (drop count (operands_of self.old)) self.old) }
    {
        self.operands.take(count)
    }

    /// All operands are dropped.
    pub(crate) fn drop_operands(&mut self)
        ensures { self.new ≡ with_operands [] self.old }
    {
        self.operands.clear();
    }

    /// An activation of a procedure's body begins (6.4): of the newest operands, which are those of these actual parameters,
    /// its formal parameters get their values, and what lies in its other places is blank. Its caller keeps no operand.
    /// Returns what refers to the components that are given (6.4.1), in order.
    pub(crate) fn begin(
        &mut self,
        procedure: ProcedureNo,
        variables: &[Variable],
        actuals: &[Actual],
    ) -> Result<Vec<Value>, AllocError>
        ensures begun { let given = map actual_form actuals.now in
            let computed = reverse (take (operand_count given) (operands_of self.old)) in
            let places = given_places named (given_values given computed) (map variable_form variables.now) in
            OnOk result
            (self.new ≡
            record { procedure = Some procedure.0; places = places; operands = [] } ∷ with_operands [] self.old) }
        ensures references { let given = map actual_form actuals.now in
            let computed = reverse (take (operand_count given) (operands_of self.old)) in
            IfOk result (λ references. references.items ≡ references_in given computed) }
    {
        let base = self.places.len();
        let computed = self.operands.newest(operand_count(actuals));
        lay_places(&mut self.places, actuals, computed, variables)?;
        let mut references = empty(&mut self.spare, self.alloc);
        push_references(&mut references, actuals, computed)?;
        self.begun.push(Begun {
            procedure: Some(procedure),
            base,
            keeps: false,
        })?;
        self.operands.clear();
        Ok(references)
    }

    /// An activation of the body of an operation begins (7.6, 6.4): its one formal parameter is this reference. Its caller
    /// keeps its operands.
    pub(crate) fn begin_operation(
        &mut self,
        procedure: ProcedureNo,
        variables: &[Variable],
        reference: Value,
    ) -> Result<(), AllocError>
        ensures { let places = given_places named (reference ∷ []) (map variable_form variables.now) in
            OnOk result
            (self.new ≡ record { procedure = Some procedure.0; places = places; operands = [] } ∷ self.old) }
    {
        let base = self.places.len();
        lay_parameter(&mut self.places, reference, variables)?;
        let keeps = self.operands.len() > 0;
        if keeps {
            let operands = mem::replace(&mut self.operands, Stack::new(self.alloc));
            self.waiting.push(operands)?;
        }
        self.begun.push(Begun {
            procedure: Some(procedure),
            base,
            keeps,
        })
    }

    /// What referred to components is no longer used: its vector waits for a later call, if it has room for anything. Where
    /// memory is wanted for that and refused, the vector is dropped.
    pub(crate) fn put_by(&mut self, references: Vec<Value>)
        ensures { self.new ≡ self.old }
    {
        if references.capacity() > 0 {
            let _ = self.spare.push(references);
        }
    }

    /// The running activation ends normally (6.4.1, 6.5), and its caller goes on: its variables get back what they are to
    /// get, and what components are to get back is computed.
    pub(crate) fn end_normally(&mut self, actuals: &[Actual]) -> Result<(), AllocError>
        ensures { let caller = older self.old in
            let given = map actual_form actuals.now in
            let places = copied_back given (places_of self.old) (places_of caller) in
            let stored = stored_back given (places_of self.old) ++ operands_of caller in
            OnOk result (self.new ≡ with_operands stored (with_places places caller)) }
    {
        self.give_back(actuals);
        self.end_storing(actuals)
    }

    /// The formal parameters of the running activation give back what they hold to its caller, where they are of mode
    /// `in out` (6.4.1): each to the variable for which it stands. Takes no memory.
    fn give_back(&mut self, actuals: &[Actual])
        ensures given { let caller = older self.old in
            let places = copied_back (map actual_form actuals.now) (places_of self.old) (places_of caller) in
            older self.new ≡ with_places places caller }
        ensures same { places_of self.new ≡ places_of self.old }
    {
        if let Some(running) = self.begun.at(0) {
            if let Some(caller) = self.begun.at(1) {
                let places = self.places.as_mut_slice();
                copy_back_behind(places, caller.base, running.base, actuals);
            }
        }
    }

    /// The running activation ends (6.5): what its formal parameters give back to components becomes the operands of its
    /// caller, the first one newest (6.4.1).
    fn end_storing(&mut self, actuals: &[Actual]) -> Result<(), AllocError>
        ensures { let caller = older self.old in
            let stored = stored_back (map actual_form actuals.now) (places_of self.old) in
            OnOk result (self.new ≡ with_operands (stored ++ operands_of caller) caller) }
    {
        if let Some(running) = self.begun.at(0) {
            let waits = self.begun.len() > 1;
            take_up(
                &mut self.operands,
                &mut self.waiting,
                waits && running.keeps,
            );
            if waits {
                let formals = values_behind(self.places.as_slice(), running.base);
                push_stored(&mut self.operands, formals, actuals)?;
            }
            self.places.truncate(running.base);
            self.begun.shorten();
        }
        Ok(())
    }

    /// The running activation ends (6.5), and what its forms have computed goes: that of its caller goes on.
    pub(crate) fn end(&mut self)
        ensures { self.new ≡ older self.old }
    {
        if let Some(running) = self.begun.at(0) {
            let waits = self.begun.len() > 1;
            take_up(
                &mut self.operands,
                &mut self.waiting,
                waits && running.keeps,
            );
            self.places.truncate(running.base);
            self.begun.shorten();
        }
    }
}

/// The operands become those of the caller of the running activation, where it keeps some: the newest that wait.
fn take_up(operands: &mut Stack<Value>, waiting: &mut Stack<Stack<Value>>, keeps: bool)
    ensures kept { operands.new ≡ kept_by keeps waiting.old }
    ensures left { waiting.new ≡ waiting_behind keeps waiting.old }
{
    operands.clear();
    if keeps {
        if let Some(held) = waiting.pop() {
            *operands = held;
        }
    }
}

/// An empty vector: one of those that wait, if there is one.
fn empty(spare: &mut Vec<Vec<Value>>, alloc: Global) -> Vec<Value>
    ensures { result.items ≡ [] }
{
    match spare.pop() {
        Some(mut vector) => {
            vector.clear();
            vector
        }
        None => Vec::new(alloc),
    }
}

//! Records as wholes: copies, and what they are assigned.

ghost use Rattle.std.specs.Prelude.{◌≡◌, List, map, OnOk};
ghost use Rattle.ada_program.specs.declared.program.TypeDefinition.{TypeDefinition};
ghost use Rattle.ada_program.specs.Form.{record_path_form, item_form};
ghost use Rattle.ada_program.specs.Typed.{reached_of, words_of, width_of};
ghost use Rattle.ada_meaning.specs.Event.{Quiet};
ghost use Rattle.ada_meaning.specs.Frame as frame;
ghost use Rattle.ada_meaning.specs.Step as step;
ghost use Rattle.ada_meaning.specs.Named.{named, look};
ghost use Rattle.ada_interpreter.specs.Process.{frame_of, state_of, passed, replaced, pushed, Turns, IsTurn};

use crate::frame::Frame;
use crate::loaded::Loaded;
use crate::masters::Owned;
use crate::process::Process;
use crate::treatment::Treatment;
use crate::turn::{QUIET, Turn};
use crate::values::record_in;
use ada_meaning::{Birth, Event, Exception, Halt, Id, Value, Why};
use ada_program::program::{ComponentNo, Item, RecordPath};
use ada_program::{Program, TypeNo, VariableNo};
use std::alloc::AllocError;

impl<'a> Process<'a> {
    /// The newest operand gives access to the object in which a record lies that is copied (4.3.1). Null raises
    /// Constraint_Error.
    pub(crate) fn copy(
        &mut self,
        program: &Program,
        first: ComponentNo,
        record_type: TypeNo,
    ) -> Result<Turn, AllocError>
        ensures { let s = passed (state_of self.old) in
            let v = step.newest named s in
            let count = width_of program.now.types.items record_type.0 in
            Turns (step.copies_next named v first.0 count (look s.heap v) (step.popped s))
            (state_of self.old) result (state_of self.new) }
    {
        match self.newest() {
            Value::Null => {
                self.pass();
                self.raise(Exception::ConstraintError);
                Ok(QUIET)
            }
            Value::Scalar(_)
            | Value::Part {
                object: _,
                place: _,
            } => { Ok(Turn::Halts(Halt::Stuck)) }
            Value::Names(object) => self.copy_from(object, first, program.width(record_type)),
        }
    }

    /// The components of an object from one on are copied, as many as `count`: to follow one that is gone is erroneous.
    fn copy_from(
        &mut self,
        object: Id,
        first: ComponentNo,
        count: usize,
    ) -> Result<Turn, AllocError>
        ensures { let s = passed (state_of self.old) in
            let v = Value.Names object in
            Turns (step.copies_next named v first.0 count (look s.heap v) (step.popped s))
            (state_of self.old) result (state_of self.new) }
    {
        let Some(cell) = self.objects.existing(object) else {
            return Ok(Turn::Halts(Halt::Erroneous(Why::FollowsGone)));
        };
        match record_in(cell.values.as_slice(), first.0, count) {
            None => Ok(Turn::Halts(Halt::Stuck)),
            Some(values) => {
                self.frames.shorten();
                self.activations.pop();
                self.activations.push_all(values)?;
                Ok(Turn::Moves(Event::Followed { object }))
            }
        }
    }

    /// An assignment to a record without controlled parts (5.2): the object in which it lies is found before the items are
    /// evaluated.
    pub(crate) fn assign_components(
        &mut self,
        target: &'a RecordPath,
        items: &'a [Item],
        rest: Frame<'a>,
    ) -> Result<Turn, AllocError>
        ensures { let s = replaced (frame_of rest.entry) (state_of self.old) in
            let form = record_path_form target.now in
            let forms = map item_form items.now in
            Turns
            (step.record_holder_next named form (λ place. frame.TargetsRecord place.component form.record_type forms) s)
            (state_of self.old) result (state_of self.new) }
    {
        let place = self.place_in(target)?;
        self.find(
            target.object.root,
            target.object.selectors.as_slice(),
            Frame::TargetsRecord {
                first: ComponentNo(place.component),
                record_type: target.record,
                items,
            },
            rest,
        )
    }

    /// The newest operand gives access to the object in which a record lies that is assigned to (5.2). Null raises
    /// Constraint_Error.
    pub(crate) fn target_record(
        &mut self,
        program: &Program,
        first: ComponentNo,
        record_type: TypeNo,
        items: &'a [Item],
    ) -> Result<Turn, AllocError>
        ensures { let s = passed (state_of self.old) in
            let v = step.newest named s in
            let count = width_of program.now.types.items record_type.0 in
            let forms = map item_form items.now in
            Turns (step.record_target_next named v first.0 count forms (look s.heap v) (step.popped s))
            (state_of self.old) result (state_of self.new) }
    {
        match self.newest() {
            Value::Null => {
                self.pass();
                self.raise(Exception::ConstraintError);
                Ok(QUIET)
            }
            Value::Scalar(_)
            | Value::Part {
                object: _,
                place: _,
            } => { Ok(Turn::Halts(Halt::Stuck)) }
            Value::Names(object) => {
                self.target_record_in(object, first, program.width(record_type), items)
            }
        }
    }

    /// The object is there in which the record lies, and the items are evaluated next.
    fn target_record_in(
        &mut self,
        object: Id,
        first: ComponentNo,
        count: usize,
        items: &'a [Item],
    ) -> Result<Turn, AllocError>
        ensures { let s = passed (state_of self.old) in
            let v = Value.Names object in
            let forms = map item_form items.now in
            Turns (step.record_target_next named v first.0 count forms (look s.heap v) (step.popped s))
            (state_of self.old) result (state_of self.new) }
    {
        match self.objects.existing(object) {
            None => Ok(Turn::Halts(Halt::Erroneous(Why::FollowsGone))),
            Some(_) => {
                self.pop();
                self.replace_by_two(
                    Frame::Fills(items),
                    Frame::StoresRecord {
                        object: Value::Names(object),
                        first,
                        count,
                    },
                )?;
                Ok(Turn::Moves(Event::Followed { object }))
            }
        }
    }

    /// The newest operands go to the components of an object, as many as `count` from one on (5.2): to store in one that
    /// is gone is erroneous.
    pub(crate) fn store_record(&mut self, object: Value, first: ComponentNo, count: usize) -> Turn
        ensures { let s = passed (state_of self.old) in
            IsTurn (step.store_record_next named object first.0 count (look s.heap object) s)
            (state_of self.old) result (state_of self.new) }
    {
        match object {
            Value::Names(object) => self.store_record_in(object, first, count),
            _ => Turn::Halts(Halt::Stuck),
        }
    }

    /// The newest operands go to the components of the object of a name.
    fn store_record_in(&mut self, object: Id, first: ComponentNo, count: usize) -> Turn
        ensures { let s = passed (state_of self.old) in
            let v = Value.Names object in
            IsTurn (step.store_record_next named v first.0 count (look s.heap v) s)
            (state_of self.old) result (state_of self.new) }
    {
        let Some(cell) = self.objects.existing(object) else {
            return Turn::Halts(Halt::Erroneous(Why::FollowsGone));
        };
        match record_in(cell.values.as_slice(), first.0, count) {
            None => Turn::Halts(Halt::Stuck),
            Some(_) => {
                self.pass();
                self.objects
                    .store_from(object, first, self.activations.newest_ones(count));
                self.activations.shorten_by(count);
                Turn::Moves(Event::Followed { object })
            }
        }
    }

    /// A record object is created as a copy, and the newest operands are its components (3.3.1).
    pub(crate) fn declare_record(
        &mut self,
        loaded: &Loaded<'a>,
        variable: VariableNo,
        object: TypeNo,
    ) -> Result<Turn, AllocError>
        ensures { let s = passed (state_of self.old) in
            let types = loaded.now.program.now.types.items in
            let count = words_of types object.0 in
            let values = step.newest_ones named count s in
            Turns
            (step.moves Quiet (step.made named types variable.0 object.0 Birth.Copy values (step.without_newest named count s)))
            (state_of self.old) result (state_of self.new) }
    {
        self.pass();
        let values = self.activations.take(loaded.program.words(object))?;
        self.make(loaded, variable, object, Birth::Copy, values)?;
        Ok(QUIET)
    }

    /// A record object is created, with what its components hold at first (3.3.1).
    pub(crate) fn make_initial(
        &mut self,
        loaded: &Loaded<'a>,
        variable: VariableNo,
        object: TypeNo,
    ) -> Result<(), AllocError>
        ensures { let types = loaded.now.program.now.types.items in
            let values = step.initial_values named (reached_of types object.0) in
            OnOk result
            (state_of self.new ≡ step.made named types variable.0 object.0 Birth.Creation values (state_of self.old)) }
    {
        let components = match loaded.program.components(object) {
            Some(components) => components,
            None => &[],
        };
        let values = self.objects.initial_values(components)?;
        self.make(loaded, variable, object, Birth::Creation, values)
    }

    /// A record object is created, whose components hold these values (3.3.1): its variable holds its name, and the
    /// innermost master owns it. Its controlled parts are initialized next, or adjusted, where it is a copy (7.6).
    fn make(
        &mut self,
        loaded: &Loaded<'a>,
        variable: VariableNo,
        object: TypeNo,
        by: Birth,
        values: Vec<Value>,
    ) -> Result<(), AllocError>
        ensures { let types = loaded.now.program.now.types.items in OnOk result
            (state_of self.new ≡ step.made named types variable.0 object.0 by values.items (state_of self.old)) }
    {
        let item = self.masters.height();
        let parts = loaded.new_parts(object)?;
        let name = self.objects.create_declared(object, item, values, parts)?;
        self.put(variable, Value::Names(name));
        self.masters.own(Owned::Record(object))?;
        self.begin_treatment(loaded, name, object, Treatment::Begins(by))
    }
}

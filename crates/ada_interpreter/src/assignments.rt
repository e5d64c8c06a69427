//! Assignments to records that have controlled parts (5.2, 7.6): the target is finalized, the components are copied, and the
//! target is adjusted.

ghost use Rattle.std.specs.Prelude.{◌≡◌, map, OnOk};
ghost use Rattle.ada_program.specs.Form.{record_path_form, item_form};
ghost use Rattle.ada_meaning.specs.Step as step;
ghost use Rattle.ada_meaning.specs.Named.{named, same};
ghost use Rattle.ada_interpreter.specs.Process.{frame_of, state_of, passed, replaced, Turns};

use crate::frame::Frame;
use crate::loaded::Loaded;
use crate::process::Process;
use crate::tables::has_parts;
use crate::treatment::Treatment;
use crate::turn::{QUIET, Turn};
use ada_meaning::{Birth, Cause, Halt, Id, Place, Value};
use ada_program::program::{ComponentNo, Item, RecordPath};
use ada_program::{Program, TypeNo};
use std::alloc::AllocError;

impl<'a> Process<'a> {
    /// An assignment to a record (5.2).
    pub(crate) fn assign_record(
        &mut self,
        program: &Program,
        target: &'a RecordPath,
        items: &'a [Item],
        rest: Frame<'a>,
    ) -> Result<Turn, AllocError>
        ensures { let s = replaced (frame_of rest.entry) (state_of self.old) in
            let form = record_path_form target.now in
            let parts = step.has_parts program.now.types.items form.record_type in
            Turns (step.record_assign_next named parts form (map item_form items.now) s)
            (state_of self.old) result (state_of self.new) }
    {
        if has_parts(program.types.as_slice(), target.record) {
            self.assign_copy(target, items, rest)
        } else {
            self.assign_components(target, items, rest)
        }
    }

    /// A record that has controlled parts gets its value from one other record: the target is found first, and then the
    /// source.
    fn assign_copy(
        &mut self,
        target: &'a RecordPath,
        items: &'a [Item],
        rest: Frame<'a>,
    ) -> Result<Turn, AllocError>
        ensures { let s = replaced (frame_of rest.entry) (state_of self.old) in
            Turns (step.copy_next named (record_path_form target.now) (map item_form items.now) s)
            (state_of self.old) result (state_of self.new) }
    {
        match items {
            [Item::Record(source)] => {
                self.replace_by_four(
                    Frame::Refers(target),
                    Frame::Refers(source),
                    Frame::Assigns(target.record),
                    rest,
                )?;
                Ok(QUIET)
            }
            _ => Ok(Turn::Halts(Halt::Stuck)),
        }
    }

    /// The two newest operands refer to records: the newest one is assigned to the other. Nothing is done where both are one.
    pub(crate) fn assign_parts(
        &mut self,
        loaded: &Loaded<'a>,
        record_type: TypeNo,
    ) -> Result<Turn, AllocError>
        ensures { let s = passed (state_of self.old) in
            let types = loaded.now.program.now.types.items in
            let target = step.newest named (step.popped s) in
            let source = step.newest named s in
            Turns
            (step.assigns_next named types record_type.0 target source (same target source) (step.popped (step.popped s)))
            (state_of self.old) result (state_of self.new) }
    {
        let target = self.second();
        let source = self.newest();
        match (target, source) {
            (
                Value::Part { object, place },
                Value::Part {
                    object: other,
                    place: from,
                },
            ) => {
                self.pass();
                self.pop();
                self.pop();
                if object.0 != other.0 || place.part != from.part {
                    self.assign_to(loaded, record_type, object, place, other, from)?;
                }
                Ok(QUIET)
            }
            _ => Ok(Turn::Halts(Halt::Stuck)),
        }
    }

    /// A record that lies in an object at a place is assigned to, from another one: it is finalized, its components are copied,
    /// and it is adjusted, under a number that no other assignment has.
    fn assign_to(
        &mut self,
        loaded: &Loaded<'a>,
        record_type: TypeNo,
        target: Id,
        to: Place,
        source: Id,
        from: Place,
    ) -> Result<(), AllocError>
        ensures { let types = loaded.now.program.now.types.items in
            let v = Value.Part target to in
            let w = Value.Part source from in
            OnOk result
            (state_of self.new ≡ step.assigning named types record_type.0 v w (state_of self.old)) }
    {
        let number = self.next;
        let Some(next) = number.checked_add(1) else {
            return Err(AllocError);
        };
        let adjusts = Treatment::Begins(Birth::Adjustment { number });
        self.begin_record_treatment(loaded, target, record_type, to.part, adjusts)?;
        self.push(Frame::StoresRecord {
            object: Value::Names(target),
            first: ComponentNo(to.component),
            count: loaded.program.width(record_type),
        })?;
        self.push(Frame::Copies {
            first: ComponentNo(from.component),
            record_type,
        })?;
        let finalizes = Treatment::Ends(Cause::Assigning { number });
        self.begin_record_treatment(loaded, target, record_type, to.part, finalizes)?;
        self.keep(Value::Names(source))?;
        self.next = next;
        Ok(())
    }
}

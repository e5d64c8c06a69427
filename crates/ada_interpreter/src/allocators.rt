//! Allocators: their items are evaluated, or what the components hold at first is taken; then a pool is asked, and the
//! new object exists or Storage_Error is raised.

ghost use Rattle.std.specs.Prelude.{◌≡◌, map, OnOk};
ghost use Rattle.ada_program.specs.Form.{item_form, allocates_default};
ghost use Rattle.ada_program.specs.Typed.{words_of};
ghost use Rattle.ada_meaning.specs.Step as step;
ghost use Rattle.ada_meaning.specs.State.{counted, home_of};
ghost use Rattle.ada_meaning.specs.Named.{named};
ghost use Rattle.ada_interpreter.specs.Masters.{destination_of};
ghost use Rattle.ada_interpreter.specs.Process.{frame_of, state_of, passed, replaced, Turns, IsTurnOf};

use crate::frame::Frame;
use crate::loaded::Loaded;
use crate::objects::{Cell, Home};
use crate::process::Process;
use crate::treatment::Treatment;
use crate::turn::{Allocation, QUIET, Turn};
use crate::values::initial_value;
use ada_meaning::{Birth, Exception, Value};
use ada_program::program::{ComponentKind, ComponentNo, Item};
use ada_program::{Program, TypeNo};
use std::alloc::AllocError;

impl<'a> Process<'a> {
    /// The items of an aggregate that are left, in the order of the components (4.3.1).
    pub(crate) fn fill(&mut self, items: &'a [Item]) -> Result<Turn, AllocError>
        ensures { let s = state_of self.old in
            Turns (step.items_next named (map item_form items.now) (passed s))
            s result (state_of self.new) }
    {
        match items.split_first() {
            None => {
                self.pass();
                Ok(QUIET)
            }
            Some((first, rest)) => self.item(first, Frame::Fills(rest)),
        }
    }

    /// An item is evaluated: the object of a record that is copied is found first.
    fn item(&mut self, item: &'a Item, rest: Frame<'a>) -> Result<Turn, AllocError>
        ensures { let s = state_of self.old in
            Turns (step.item_next named (item_form item.now) (replaced (frame_of rest.entry) s))
            s result (state_of self.new) }
    {
        match item {
            Item::Null => {
                self.replace(rest)?;
                self.keep(Value::Null)?;
                Ok(QUIET)
            }
            Item::Path(path) => self.read_then(path.root, path.selectors.as_slice(), rest),
            Item::Value(expression) => {
                self.replace_by_two(Frame::Computes(expression), rest)?;
                Ok(QUIET)
            }
            Item::Record(path) => {
                let place = self.place_in(path)?;
                self.find(
                    path.object.root,
                    path.object.selectors.as_slice(),
                    Frame::Copies {
                        first: ComponentNo(place.component),
                        record_type: path.record,
                    },
                    rest,
                )
            }
        }
    }

    /// An allocator without items (4.8): what the components of its object hold at first is kept, in their order (3.3.1),
    /// before the object is asked for.
    pub(crate) fn initialize(
        &mut self,
        program: &Program,
        access: TypeNo,
    ) -> Result<Turn, AllocError>
        ensures { let s = state_of self.old in let types = program.now.types.items in
            Turns (step.right_next named types (allocates_default access.0) (passed s))
            s result (state_of self.new) }
    {
        self.replace(Frame::Creates {
            access,
            count: program.words(access),
        })?;
        if let Some(components) = program.components(access) {
            self.keep_initial_values(components)?;
        }
        Ok(QUIET)
    }

    /// What components hold at first is kept, in their order (3.3.1).
    fn keep_initial_values(&mut self, components: &[ComponentKind]) -> Result<(), AllocError>
        ensures { let s = state_of self.old in
            let values = map (step.initial_value named) components.now in
            OnOk result (state_of self.new ≡ step.set_operands (step.in_front values (step.operands s)) s) }
    {
        for component in components {
            self.keep(initial_value(*component))?;
        }
        Ok(())
    }

    /// The pool of an access type is asked for the object of an allocator, whose items are evaluated (4.8, 13.11). Where
    /// the type has no open collection, or that has no pool, Storage_Error is raised.
    pub(crate) fn ask(&mut self, program: &Program, access: TypeNo, count: usize) -> Turn
        ensures { let s = state_of self.old in
            let types = program.now.types.items in
            IsTurnOf types
            (step.new_next named types access.0 count (words_of types access.0) (home_of access.0 s.masters) (passed s))
            s result (state_of self.new) }
    {
        self.pass();
        match self.masters.home(access) {
            None => {
                self.raise(Exception::StorageError);
                QUIET
            }
            Some(home) => Turn::Asks(Allocation {
                access,
                count,
                home,
                words: program.words(access),
                object: self.objects.next_name(),
            }),
        }
    }

    /// The answer to a request: the new object exists, or Storage_Error is raised (4.8, 11.1).
    pub(crate) fn answer(
        &mut self,
        loaded: &Loaded<'a>,
        allocation: &Allocation,
        granted: bool,
    ) -> Result<(), AllocError>
        ensures { let a = allocation.now in
            let home = destination_of a.home in
            let types = loaded.now.program.now.types.items in
            OnOk result
            (state_of self.new ≡ step.answered named types a.access.0 a.count a.words home (state_of self.old) granted) }
    {
        if granted {
            self.allocate(loaded, allocation)
        } else {
            self.raise(Exception::StorageError);
            Ok(())
        }
    }

    /// The new object exists (4.8), and the value that names it is the newest operand. Its controlled parts are initialized
    /// next (7.6).
    fn allocate(&mut self, loaded: &Loaded<'a>, allocation: &Allocation) -> Result<(), AllocError>
        ensures { let a = allocation.now in
            let home = destination_of a.home in
            let types = loaded.now.program.now.types.items in
            OnOk result
            (state_of self.new ≡ step.granted named types a.access.0 a.count a.words home (state_of self.old)) }
    {
        let number = counted(self.allocated);
        let parts = loaded.new_parts(allocation.access)?;
        let values = self.activations.take(allocation.count)?;
        let object = self.objects.create(Cell {
            access: allocation.access,
            number,
            home: Home {
                item: allocation.home.item,
                pool: Some(allocation.home.pool),
                subpool: None,
            },
            values,
            parts,
        })?;
        self.allocated = number;
        self.activations.push(Value::Names(object))?;
        self.begin_treatment(
            loaded,
            object,
            allocation.access,
            Treatment::Begins(Birth::Creation),
        )
    }
}

/// The next trace number; past 64 bits it stays.
pub(crate) fn counted(n: u64) -> u64
    ensures { result ≡ counted n }
{
    if n == u64::MAX { n } else { n + 1 }
}

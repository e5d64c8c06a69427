//! What is left of the treatment of an object.

ghost use Rattle.std.specs.Prelude.{◌≡◌, ℕ, ◌<◌, ◌==◌, [], ◌∷◌, ◌++◌, length, IfOk, OnOk, OnErr};
ghost use Rattle.ada_parts.specs.Task.{performs, opened, next, taken, performed, IsOpen};

use crate::put::{put_component, take_away};
use crate::shapes::Shapes;
use std::alloc::{AllocError, Global};
use std::marker::Model;

/// Whether the components of a record are treated before it or behind it (7.6, 7.6.1).
#[derive(Clone, Copy)]
pub enum Direction {
    /// An initialization or an adjustment: the components come first.
    PartsFirst,
    /// A finalization: the record itself comes first.
    WholeFirst,
}

/// A component that has controlled parts: its type, and the number of the first of them.
#[derive(Clone, Copy)]
pub struct Component {
    pub of: usize,
    pub first: usize,
}

/// What comes next in a treatment.
#[derive(Clone, Copy)]
pub enum Next {
    /// Nothing is left.
    Done,
    /// One of the components that are open is picked, and treated next.
    Pick { count: usize },
    /// The operation of a part is called.
    Perform { of: usize, part: usize },
}

/// A step that is left: the call of an operation, or the treatment of a component and of the others beside it.
#[derive(Clone, Copy)]
pub(crate) enum Step {
    Call { of: usize, part: usize },
    Treat { others: usize },
}

/// What is left of the treatment of an object.
#[derive(Drop)]
pub struct Tasks {
    /// The steps, the next one last.
    steps: Vec<Step>,
    /// The components that these treat; the first component of the next step is the last.
    components: Vec<Component>,
}

impl Model for Tasks {
    ghost use Rattle.std.specs.Prelude.{◌≡◌, List, length};
    ghost use Rattle.std.specs.List.{sum_by};
    ghost use Rattle.ada_parts.specs.Task.{Task};
    ghost use Rattle.ada_parts.specs.View.{left_in, size_of};

    ghost Value = { List Task };

    ghost view = { λ t. left_in t.steps.items t.components.items };

    ghost invariant = { λ t. sum_by size_of t.steps.items ≡ length t.components.items };
}

impl Tasks {
    /// Nothing is left. Takes no memory.
    pub fn new(alloc: Global) -> Tasks
        ensures { result ≡ [] }
    {
        Tasks {
            steps: Vec::new(alloc),
            components: Vec::new(alloc),
        }
    }

    /// All that is to be done for a record of a type, whose first part has this number: nothing, and then it takes no memory,
    /// where the record has no controlled parts.
    ///
    /// # Errors
    /// Where there is no memory for what is left, and where the numbers of the parts are no machine words.
    pub fn start(
        alloc: Global,
        shapes: &Shapes,
        direction: Direction,
        of: usize,
        first: usize,
    ) -> Result<Tasks, AllocError>
        ensures { IfOk result (λ tasks. tasks ≡ opened shapes.now direction of first) }
    {
        let mut tasks = Tasks::new(alloc);
        if shapes.is_controlled(of) || shapes.components(of).len() > 0 {
            tasks.put(shapes, direction, Component { of, first })?;
        }
        Ok(tasks)
    }

    /// Puts all that is to be done for a component, before what is left.
    fn put(
        &mut self,
        shapes: &Shapes,
        direction: Direction,
        component: Component,
    ) -> Result<(), AllocError>
        ensures { OnOk result
            (self.new ≡ opened shapes.now direction component.of component.first ++ self.old) }
    {
        if !shapes.fits(component) {
            return Err(AllocError);
        }
        self.components
            .reserve(shapes.components(component.of).len())?;
        self.steps.reserve(2)?;
        put_component(
            &mut self.steps,
            &mut self.components,
            shapes,
            direction,
            component,
        );
        Ok(())
    }

    /// Is nothing left?
    pub fn is_empty(&self) -> bool
        ensures { result ≡ (length self.now == 0) }
    {
        self.steps.is_empty()
    }

    /// What comes next.
    pub fn next(&self) -> Next
        ensures next { result ≡ next self.now }
        ensures some { (count : ℕ) → result ≡ Next.Pick count → 0 < count }
    {
        match self.steps.last() {
            None => Next::Done,
            Some(Step::Call { of, part }) => Next::Perform {
                of: *of,
                part: *part,
            },
            Some(Step::Treat { others }) => Next::Pick { count: *others + 1 },
        }
    }

    /// Picks one of the components that are open, by its number among them. Where none has this number, nothing changes.
    ///
    /// # Errors
    /// Where what is left cannot grow, and where the numbers of the parts are no machine words; then it stays as it was.
    pub fn take(
        &mut self,
        shapes: &Shapes,
        direction: Direction,
        i: usize,
    ) -> Result<(), AllocError>
        ensures ok { OnOk result (self.new ≡ taken shapes.now direction self.old i) }
        ensures err { OnErr result (self.new ≡ self.old) }
    {
        match self.next() {
            Next::Pick { count } => {
                if i < count {
                    self.take_open(shapes, direction, i)
                } else {
                    Ok(())
                }
            }
            Next::Done | Next::Perform { of: _, part: _ } => Ok(()),
        }
    }

    /// Picks a component that is open.
    fn take_open(
        &mut self,
        shapes: &Shapes,
        direction: Direction,
        i: usize,
    ) -> Result<(), AllocError>
        requires is_open { IsOpen self.old i }
        ensures ok { OnOk result (self.new ≡ taken shapes.now direction self.old i) }
        ensures err { OnErr result (self.new ≡ self.old) }
    {
        let component = self.components[self.components.len() - 1 - i];
        if !shapes.fits(component) {
            return Err(AllocError);
        }
        self.components
            .reserve(shapes.components(component.of).len())?;
        self.steps.reserve(2)?;
        take_away(&mut self.steps, &mut self.components, i);
        put_component(
            &mut self.steps,
            &mut self.components,
            shapes,
            direction,
            component,
        );
        Ok(())
    }

    /// The operation of a part is to be called before all else that is left.
    ///
    /// # Errors
    /// Where what is left cannot grow.
    pub fn perform_first(&mut self, of: usize, part: usize) -> Result<(), AllocError>
        ensures { OnOk result (self.new ≡ performs of part ∷ self.old) }
    {
        self.steps.push(Step::Call { of, part })?;
        Ok(())
    }

    /// The operation that was due has been called.
    pub fn performed(&mut self)
        ensures { self.new ≡ performed self.old }
    {
        if let Some(Step::Call { .. }) = self.steps.last() {
            self.steps.pop();
        }
    }
}

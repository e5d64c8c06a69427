//! Components that are put on what is left, and taken away from it.

ghost use Rattle.std.specs.Prelude.{◌≡◌, ℕ, ◌+◌, ◌^◌, ◌<◌, ◌≤◌, List, ◌++◌, length, reverse, vec_len, vec_capacity};
ghost use Rattle.std.specs.List.{sum_by};
ghost use Rattle.ada_parts.specs.declared.tasks.Component.{Component};
ghost use Rattle.ada_parts.specs.Shape.{parts_of, shape_of};
ghost use Rattle.ada_parts.specs.Part.{in_order, components_of};
ghost use Rattle.ada_parts.specs.Task.{opened, operation_of, treatment_of, without, IsOpen};
ghost use Rattle.ada_parts.specs.View.{size_of, left_in};

use crate::shapes::Shapes;
use crate::tasks::{Component, Direction, Step};

/// Puts all that is to be done for a component; there is room for it.
pub(crate) fn put_component(
    steps: &mut Vec<Step>,
    components: &mut Vec<Component>,
    shapes: &Shapes,
    direction: Direction,
    component: Component,
)
    requires fits { component.first + parts_of shapes.now component.of < 2 ^ 64 }
    requires room { vec_len components.old + length (shape_of shapes.now component.of).components
        ≤ vec_capacity components.old }
    requires step_room { vec_len steps.old + 2 ≤ vec_capacity steps.old }
    ensures put { left_in steps.new.items components.new.items
        ≡ opened shapes.now direction component.of component.first ++ left_in steps.old.items components.old.items }
    ensures sizes { sum_by size_of steps.new.items + length components.old.items
        ≡ sum_by size_of steps.old.items + length components.new.items }
{
    match direction {
        Direction::PartsFirst => {
            put_call(steps, shapes, component);
            put_parts(steps, components, shapes, component);
        }
        Direction::WholeFirst => {
            put_parts(steps, components, shapes, component);
            put_call(steps, shapes, component);
        }
    }
}

/// Puts the call of a record's own operation, if it is controlled.
fn put_call(steps: &mut Vec<Step>, shapes: &Shapes, component: Component)
    requires room { vec_len steps.old < vec_capacity steps.old }
    ensures put { (components : List Component) → left_in steps.new.items components
        ≡ operation_of (shape_of shapes.now component.of) component.of component.first
        ++ left_in steps.old.items components }
    ensures sizes { sum_by size_of steps.new.items ≡ sum_by size_of steps.old.items }
    ensures len { vec_len steps.new ≤ vec_len steps.old + 1 }
    ensures capacity { vec_capacity steps.old ≤ vec_capacity steps.new }
{
    if shapes.is_controlled(component.of) {
        let _ = steps.push(Step::Call {
            of: component.of,
            part: component.first,
        });
    }
}

/// Puts the treatment of a record's components, if it has any.
fn put_parts(
    steps: &mut Vec<Step>,
    components: &mut Vec<Component>,
    shapes: &Shapes,
    component: Component,
)
    requires fits { component.first + parts_of shapes.now component.of < 2 ^ 64 }
    requires room { vec_len components.old + length (shape_of shapes.now component.of).components
        ≤ vec_capacity components.old }
    requires step_room { vec_len steps.old < vec_capacity steps.old }
    ensures put { left_in steps.new.items components.new.items
        ≡ treatment_of (components_of shapes.now component.of component.first)
        ++ left_in steps.old.items components.old.items }
    ensures sizes { sum_by size_of steps.new.items + length components.old.items
        ≡ sum_by size_of steps.old.items + length components.new.items }
    ensures len { vec_len steps.new ≤ vec_len steps.old + 1 }
    ensures capacity { vec_capacity steps.old ≤ vec_capacity steps.new }
{
    let types = shapes.components(component.of);
    if types.len() == 0 {
        return;
    }
    put_all(
        components,
        shapes,
        types,
        component.first + shapes.count(component.of),
    );
    let _ = steps.push(Step::Treat {
        others: types.len() - 1,
    });
}

/// Puts components of these types, of which the first comes next; the numbers of their parts end before this one.
fn put_all(components: &mut Vec<Component>, shapes: &Shapes, types: &[usize], end: usize)
    requires numbers { sum_by (parts_of shapes.now) types.now ≤ end }
    requires room { vec_len components.old + length types.now ≤ vec_capacity components.old }
    ensures { (first : ℕ) → first + sum_by (parts_of shapes.now) types.now ≡ end → components.new.items
        ≡ components.old.items ++ reverse (in_order (parts_of shapes.now) types.now first) }
{
    let mut first = end;
    let mut i = types.len();
    while i > 0 {
        i -= 1;
        first -= shapes.count(types[i]);
        let _ = components.push(Component {
            of: types[i],
            first,
        });
    }
}

/// Takes one of the components that are open away from what is left.
pub(crate) fn take_away(steps: &mut Vec<Step>, components: &mut Vec<Component>, i: usize)
    requires is_open { IsOpen (left_in steps.old.items components.old.items) i }
    requires sizes { sum_by size_of steps.old.items ≡ length components.old.items }
    requires step_room { vec_len steps.old ≤ vec_capacity steps.old }
    ensures taken { left_in steps.new.items components.new.items
        ≡ without (left_in steps.old.items components.old.items) i }
    ensures sizes { sum_by size_of steps.new.items ≡ length components.new.items }
    ensures len { vec_len components.new + 1 ≡ vec_len components.old }
    ensures capacity { vec_capacity components.new ≡ vec_capacity components.old }
    ensures step_len { vec_len steps.new ≤ vec_len steps.old }
    ensures step_capacity { vec_capacity steps.old ≤ vec_capacity steps.new }
{
    components.remove(components.len() - 1 - i);
    if let Some(Step::Treat { others }) = steps.pop()
        && others > 0
    {
        let _ = steps.push(Step::Treat { others: others - 1 });
    }
}

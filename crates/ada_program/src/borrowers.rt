//! Borrowers: variables of an anonymous access type (3.10), which name objects that others own.

ghost use Rattle.std.specs.Prelude.{◌≡◌};
ghost use Rattle.std.specs.List.{list_all};
ghost use Rattle.ada_program.specs.Form.{item_form};
ghost use Rattle.ada_program.specs.Kept as kept;

use crate::lookup::names_variable;
use crate::program::{Item, Path, Right, Variable};

/// Whether the variable of a number is a borrower.
pub fn is_borrower(variables: &[Variable], number: usize) -> bool
    ensures { result ≡ kept.is_borrower variables.now number }
{
    match variables.get(number) {
        None => false,
        Some(variable) => variable.borrows,
    }
}

/// Whether a path is a borrower, and no component.
pub fn names_borrower(variables: &[Variable], path: &Path) -> bool
    ensures { result ≡ kept.names_borrower variables.now path.now }
{
    names_variable(path) && is_borrower(variables, path.root.0)
}

/// Whether what is assigned suits what it goes to, a borrower or not.
#[tactic(auto, using(std::proofs::lemmas::Grind::common_steps, crate::proofs::Viewed::views))]
pub(crate) fn lends_to(variables: &[Variable], borrows: bool, value: &Right) -> bool
    ensures { result ≡ kept.lends_to variables.now borrows value.now }
{
    match value {
        Right::Null | Right::Value(_) => true,
        Right::Path(path) => borrows || !names_borrower(variables, path),
        Right::Allocator { access: _, items } => !borrows && items_own(variables, items),
        Right::Default(_) => !borrows,
    }
}

/// Whether no item is a borrower.
pub(crate) fn items_own(variables: &[Variable], items: &[Item]) -> bool
    ensures { result ≡ list_all (kept.item_owns variables.now) items.now }
{
    items.iter().all(|item| item_owns(variables, item))
}

/// Whether an item is no borrower: a component owns what it names (4.8).
fn item_owns(variables: &[Variable], item: &Item) -> bool
    ensures { result ≡ kept.item_owns variables.now item.now }
{
    match item {
        Item::Null | Item::Value(_) | Item::Record(_) => true,
        Item::Path(path) => !names_borrower(variables, path),
    }
}

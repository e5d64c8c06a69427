//! Marks of procedures or types, by their numbers: those behind the last mark have none.

ghost use Rattle.std.specs.Prelude.{◌≡◌, ◌||◌, ◌==◌, ℕ, OnOk};
ghost use Rattle.ada_quiet.specs.Known.{is_marked};

use std::alloc::AllocError;

/// A number is marked. The marks grow as far as it.
///
/// # Errors
/// `AllocError` where memory was refused.
pub(crate) fn mark(marks: &mut Vec<bool>, number: usize) -> Result<(), AllocError>
    ensures { OnOk result ((n : ℕ) → is_marked marks.new.items n ≡ (is_marked marks.old.items n || number == n)) }
{
    match marks.get_mut(number) {
        Some(marked) => *marked = true,
        None => {
            marks.resize(number, false)?;
            marks.push(true)?;
        }
    }
    Ok(())
}

/// Whether a number is marked.
pub(crate) fn has_mark(marks: &[bool], number: usize) -> bool
    ensures { result ≡ is_marked marks.now number }
{
    match marks.get(number) {
        Some(marked) => *marked,
        None => false,
    }
}

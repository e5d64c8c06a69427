//! Entries by number.

ghost use Rattle.std.specs.Prelude.{◌≡◌, Some, OnOk, OnErr};
ghost use Rattle.ada_pools.specs.Entries.{entries_of, updated};

use std::alloc::AllocError;

/// The entry of a number, if it was ever set.
pub(crate) fn entry<T: Copy>(entries: &[Option<T>], number: usize) -> Option<T>
    ensures { result ≡ entries_of entries.now number }
{
    if number < entries.len() {
        entries[number]
    } else {
        None
    }
}

/// Sets the entry of a number.
///
/// # Errors
/// Where there is no memory for all entries up to it.
pub(crate) fn set_entry<T: Copy + Drop>(
    entries: &mut Vec<Option<T>>,
    number: usize,
    entry: T,
) -> Result<(), AllocError>
    ensures set { OnOk result (entries_of entries.new.items ≡ updated (entries_of entries.old.items) number (Some entry)) }
    ensures err { OnErr result (entries_of entries.new.items ≡ entries_of entries.old.items) }
{
    'missing: while entries.len() < number {
        entries.push(None)?;
    }
    if number < entries.len() {
        entries[number] = Some(entry);
    } else {
        entries.push(Some(entry))?;
    }
    Ok(())
}

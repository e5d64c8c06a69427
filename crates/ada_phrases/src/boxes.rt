//! Trees on the heap: a function that holds one there is cheap to prove, whatever the tree is.

ghost use Rattle.std.specs.Prelude.{◌≡◌, ◌<◌, ◌++◌, [], ◌∷◌, length, IfOk, OnOk};
ghost use Rattle.ada_reader.specs.Step.{Reads};
ghost use Rattle.ada_phrases.specs.Boxes.{Boxes, IsMemory, contents};
ghost use Rattle.ada_phrases.specs.Declarations.{end_at};

use ada_reader::{Reader, Stop};
use ada_text::Delimiter;
use ada_tree::declarations::Declaration;
use ada_tree::statements::Statement;
use std::alloc::Global;

/// A value on the heap.
pub(crate) fn boxed<T: Drop>(alloc: Global, value: T) -> Result<Box<T>, Stop>
    ensures { Boxes value result }
{
    Ok(Box::new(alloc, value)?)
}

/// Adds to a list what a box holds.
pub(crate) fn add<T: Drop>(items: &mut Vec<T>, next: Box<T>) -> Result<(), Stop>
    ensures items { OnOk result (items.new.items ≡ items.old.items ++ next.value ∷ []) }
    ensures memory { IsMemory result }
{
    items.push(Box::into_inner(next))?;
    Ok(())
}

/// What a box holds, if there is one.
pub(crate) fn opened<T: Drop>(found: Option<Box<T>>) -> Option<T>
    ensures { result ≡ contents found }
{
    match found {
        Some(held) => Some(Box::into_inner(held)),
        None => None,
    }
}

/// A declaration on the heap.
pub(crate) fn held_declaration<'t>(
    alloc: Global,
    value: Declaration<'t>,
) -> Result<Box<Declaration<'t>>, Stop>
    ensures { Boxes value.entry result }
{
    boxed(alloc, value)
}

/// A statement on the heap.
pub(crate) fn held_statement<'t>(
    alloc: Global,
    value: Statement<'t>,
) -> Result<Box<Statement<'t>>, Stop>
    ensures { Boxes value.entry result }
{
    boxed(alloc, value)
}

/// `;`, and the statement that it ends, on the heap.
pub(crate) fn ended_statement<'t>(
    alloc: Global,
    reader: &mut Reader<'t>,
    value: Statement<'t>,
) -> Result<Box<Statement<'t>>, Stop>
    ensures shorter { OnOk result (length reader.new.tokens.now < length reader.old.tokens.now) }
    ensures read { Reads (λ _. tt) reader end_at result }
    ensures holds { IfOk result (λ found. found.value ≡ value.entry) }
{
    let found = held_statement(alloc, value)?;
    reader.delimiter(Delimiter::Semicolon)?;
    Ok(found)
}

/// `;`, and the declaration that it ends, on the heap.
pub(crate) fn ended_declaration<'t>(
    alloc: Global,
    reader: &mut Reader<'t>,
    value: Declaration<'t>,
) -> Result<Box<Declaration<'t>>, Stop>
    ensures shorter { OnOk result (length reader.new.tokens.now < length reader.old.tokens.now) }
    ensures read { Reads (λ _. tt) reader end_at result }
    ensures holds { IfOk result (λ found. found.value ≡ value.entry) }
{
    let found = held_declaration(alloc, value)?;
    reader.delimiter(Delimiter::Semicolon)?;
    Ok(found)
}

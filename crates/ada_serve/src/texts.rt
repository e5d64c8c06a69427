//! The lines of an answer. Each is appended to a page, which is then written as a whole.

ghost use Rattle.std.specs.Prelude.{◌≡◌, ◌++◌, map, OnOk, decimal};
ghost use Rattle.std.specs.Option.{option_copied};
ghost use Rattle.std.specs.String.{string_bytes};
ghost use Rattle.ada_meaning.specs.Event.{event_of};
ghost use Rattle.ada_serve.specs.Runner.{event_text};
ghost use Rattle.ada_interpreter.specs.Machine.{program_of};
ghost use Rattle.ada_serve.specs.Texts.{back_text, born_text, finalized_text, image, line_text, name_of, text_at, trace_text};
ghost use Rattle.ada_serve.specs.Texts.{exceptions_of, refusal_text, stopped_text, unhandled_text};
ghost use Rattle.ada_verdict.specs.Shown.{shown};

use ada_interpreter::Machine;
use ada_meaning::{Event, Line};
use ada_pools::PoolChoices;
use ada_program::program::{Exception, TextNo, TypeDefinition};
use ada_program::{Program, RecordNo, TypeNo};
use ada_verdict::Refusal;
use itoa::Buffer;
use std::alloc::AllocError;

/// Appends the line of an event that has one. Only a run that is traced has the lines of a trace.
pub fn put_event(
    page: &mut Vec<u8>,
    program: &Program,
    machine: &Machine<'_, PoolChoices>,
    trace: bool,
    event: Event,
) -> Result<(), AllocError>
    requires { program_of machine.now ≡ program.now }
    ensures { OnOk result (page.new.items ≡ page.old.items ++ event_text program.now trace (event_of event)) }
{
    match event {
        Event::Born { record, number, .. } if trace => put_born(page, machine, record, number),
        Event::Finalized { record, number, .. } if trace => {
            put_finalized(page, machine, record, number)
        }
        Event::Back {
            access,
            number,
            pool: Some(_),
            ..
        } if trace => put_back(page, program, access, number),
        Event::Line(line) => put_line(page, &program.texts, line),
        _ => Ok(()),
    }
}

/// Appends that a controlled value of a record type has come to exist.
fn put_born(
    page: &mut Vec<u8>,
    machine: &Machine<'_, PoolChoices>,
    record: RecordNo,
    number: u64,
) -> Result<(), AllocError>
    ensures { OnOk result (page.new.items
        ≡ page.old.items ++ born_text (program_of machine.now) record.0 number) }
{
    let name = name_of(machine.controlled_type(record));
    put_trace(page, "# born ", name, number)
}

/// Appends that a controlled value of a record type is finalized.
fn put_finalized(
    page: &mut Vec<u8>,
    machine: &Machine<'_, PoolChoices>,
    record: RecordNo,
    number: u64,
) -> Result<(), AllocError>
    ensures { OnOk result (page.new.items
        ≡ page.old.items ++ finalized_text (program_of machine.now) record.0 number) }
{
    let name = name_of(machine.controlled_type(record));
    put_trace(page, "# finalized ", name, number)
}

/// Appends that the storage of an object of an access type goes back.
fn put_back(
    page: &mut Vec<u8>,
    program: &Program,
    access: TypeNo,
    number: u64,
) -> Result<(), AllocError>
    ensures { OnOk result (page.new.items ≡ page.old.items ++ back_text program.now access.0 number) }
{
    put_trace(
        page,
        "# back ",
        name_of(program.types.get(access.0)),
        number,
    )
}

/// Appends a line of a trace.
fn put_trace(page: &mut Vec<u8>, moment: &str, name: &str, number: u64) -> Result<(), AllocError>
    ensures { OnOk result (page.new.items ≡ page.old.items ++ trace_text moment.now name.now number) }
{
    page.extend_from_slice(moment.as_bytes())?;
    page.extend_from_slice(name.as_bytes())?;
    page.extend_from_slice(b" ")?;
    put_number(page, number)?;
    page.extend_from_slice(b"\n")
}

/// The name of a type in upper case: the empty text, if only one record object is known by it, or there is none.
fn name_of<'a>(definition: Option<&'a TypeDefinition>) -> &'a str
    ensures { result.now ≡ name_of (option_copied definition.entry) }
{
    match definition {
        Some(TypeDefinition::Record { name, .. } | TypeDefinition::Access { name, .. }) => name,
        Some(TypeDefinition::Object { .. }) | None => "",
    }
}

/// Appends a line that a program with these string literals writes.
fn put_line(page: &mut Vec<u8>, texts: &[String], line: Line) -> Result<(), AllocError>
    ensures { OnOk result (page.new.items ≡ page.old.items ++ line_text (map string_bytes texts.now) line) }
{
    match line {
        Line::Image(value) => put_image(page, value)?,
        Line::Literal(text) => put_text(page, texts, text)?,
    }
    page.extend_from_slice(b"\n")
}

/// Appends `Integer'Image` of a number.
fn put_image(page: &mut Vec<u8>, value: i32) -> Result<(), AllocError>
    ensures { OnOk result (page.new.items ≡ page.old.items ++ image value) }
{
    if value >= 0 {
        page.extend_from_slice(b" ")?;
    }
    let mut buffer = Buffer::new();
    page.extend_from_slice(buffer.format(value).as_bytes())
}

/// Appends the string literal of this number, or nothing if there is none.
fn put_text(page: &mut Vec<u8>, texts: &[String], number: TextNo) -> Result<(), AllocError>
    ensures { OnOk result (page.new.items ≡ page.old.items ++ text_at (map string_bytes texts.now) number.0) }
{
    match texts.get(number.0) {
        Some(text) => page.extend_from_slice(text.as_bytes()),
        None => Ok(()),
    }
}

/// Appends a number in decimal digits.
fn put_number(page: &mut Vec<u8>, number: u64) -> Result<(), AllocError>
    ensures { OnOk result (page.new.items ≡ page.old.items ++ decimal number) }
{
    let mut buffer = Buffer::new();
    page.extend_from_slice(buffer.format(number).as_bytes())
}

/// Appends the line of a source that is refused.
pub fn put_refusal(page: &mut Vec<u8>, refusal: Refusal) -> Result<(), AllocError>
    ensures { OnOk result (page.new.items ≡ page.old.items ++ refusal_text (shown refusal)) }
{
    page.extend_from_slice(b"refused ")?;
    put_number(page, u64::from(refusal.spot.line))?;
    page.extend_from_slice(b":")?;
    put_number(page, u64::from(refusal.spot.column))?;
    page.extend_from_slice(b" ")?;
    page.extend_from_slice(refusal.name.as_bytes())?;
    page.extend_from_slice(b"\n")
}

/// Appends the last line of a run that an exception ended.
pub fn put_unhandled(
    page: &mut Vec<u8>,
    program: &Program,
    exception: Exception,
) -> Result<(), AllocError>
    ensures { OnOk result (page.new.items ≡ page.old.items ++ unhandled_text (exceptions_of program.now) exception) }
{
    page.extend_from_slice(b"unhandled ")?;
    page.extend_from_slice(exception.name(program).as_bytes())?;
    page.extend_from_slice(b"\n")
}

/// Appends the last line of a run that the limit of statements stopped.
pub fn put_stopped(page: &mut Vec<u8>, limit: u32) -> Result<(), AllocError>
    ensures { OnOk result (page.new.items ≡ page.old.items ++ stopped_text limit) }
{
    page.extend_from_slice(b"stopped after ")?;
    put_number(page, u64::from(limit))?;
    page.extend_from_slice(b"\n")
}

//! Runs with a limit of statements, runs in which one request for storage is refused, and runs with an input.

use ada_serve::exit::code_of;
use ada_serve::serve::{ServeFault, serve};
use ada_serve::settings::Options;
use ada_serve::streams::{MemoryReader, MemoryWriter};
use std::alloc::Global;
use std::test::Fail;

/// A loop that never ends: it counts once, and the statement in it each turn.
const TURNS: &str = "with Ada.Text_IO;
procedure Main is begin loop Ada.Text_IO.Put_Line (\"turn\"); end loop; end Main;";

/// Three statements, of which one stands in another.
const THREE: &str = "with Ada.Text_IO;
procedure Main is begin
if True then null; end if; Ada.Text_IO.Put_Line (\"third\");
end Main;";

/// Two requests for storage, and between them what the first one got is given back.
const REQUESTS: &str = "with Ada.Text_IO; with Ada.Unchecked_Deallocation;
procedure Main is
type Node is record Value : Integer := 0; end record; type Link is access Node;
procedure Free is new Ada.Unchecked_Deallocation (Node, Link);
A : Link := null; B : Link := null;
begin
A := new Node'(Value => 1); Ada.Text_IO.Put_Line (\"first\"); Free (A);
B := new Node'(Value => 2); Ada.Text_IO.Put_Line (\"second\");
end Main;";

/// Two requests for objects without items: what the first one got is kept where the second one is refused.
const DEFAULTS: &str = "with Ada.Text_IO;
procedure Main is
type Part is record Value : Integer := 5; end record;
type Node; type Link is access Node;
type Node is record Left : Part; Right : Part; Next : Link; end record;
A : Link := new Node;
begin
A.Right.Value := 6; A.Next := new Node; A := null;
exception when Storage_Error => Ada.Text_IO.Put_Line (Integer'Image (A.Left.Value * A.Right.Value));
end Main;";

/// A program that takes numbers until there is none left, and writes the double of each.
const DOUBLES: &str = "with Ada.Text_IO; with Run_Input;
procedure Main is
Number : Integer := 0;
begin
loop Run_Input.Get (Number); Ada.Text_IO.Put_Line (Integer'Image (Number + Number)); end loop;
end Main;";

/// A program that takes no number.
const TAKES_NONE: &str = "procedure Main is begin null; end Main;";

/// How many bytes an input may have.
const LONGEST: usize = 1_048_576;

/// How many statements a run may begin where no other limit is given.
const MANY: u32 = 1_000_000;

/// What a run writes, and its exit status.
fn run_of(alloc: Global, source: &str, steps: u32, refuse: u32) -> Result<(String, u8), Fail> {
    let mut reader = MemoryReader::new(source.as_bytes());
    let mut input = MemoryReader::new(b"");
    let mut out = MemoryWriter::new(alloc);
    let mut options = Options::new(alloc, true);
    options.steps = steps;
    options.refuse = refuse;
    let status = serve(alloc, &mut reader, &mut input, &options, &mut out)?;
    let text = String::from_utf8(out.bytes).ok().ok_or("no text")?;
    Ok((text, code_of(status)))
}

#[test]
fn runs_stop_at_the_limit_and_requests_are_refused(rt: HostRuntime) -> Result<(), Fail> {
    let rows = [
        // the loop begins, and the limit stops the run before its first turn
        (TURNS, 1, 0, "stopped after 1\n", 3),
        (TURNS, 2, 0, "turn\nstopped after 2\n", 3),
        (TURNS, 4, 0, "turn\nturn\nturn\nstopped after 4\n", 3),
        // the `if` counts, and so does the statement in it
        (THREE, 1, 0, "stopped after 1\n", 3),
        (THREE, 2, 0, "stopped after 2\n", 3),
        (THREE, 3, 0, "third\nfinished\n", 0),
        // the request of this number raises Storage_Error (13.11)
        (REQUESTS, MANY, 0, "first\nsecond\nfinished\n", 0),
        (REQUESTS, MANY, 1, "unhandled STORAGE_ERROR\n", 2),
        (REQUESTS, MANY, 2, "first\nunhandled STORAGE_ERROR\n", 2),
        (REQUESTS, MANY, 3, "first\nsecond\nfinished\n", 0),
        (DEFAULTS, MANY, 0, "finished\n", 0),
        (DEFAULTS, MANY, 1, "unhandled STORAGE_ERROR\n", 2),
        (DEFAULTS, MANY, 2, " 30\nfinished\n", 0),
    ];
    for (source, steps, refuse, wanted, status) in rows {
        let (found, code) = run_of(rt.alloc(), source, steps, refuse)?;
        assert!(rt;
            found.as_str() == wanted && code == status,
            "at {steps} and {refuse}: {found}"
        );
    }
    Ok(())
}

/// What a run on this input writes, and its exit status or the fault that it reports.
fn run_on(
    alloc: Global,
    source: &str,
    input: &[u8],
) -> Result<(String, Result<u8, ServeFault>), Fail> {
    let mut reader = MemoryReader::new(source.as_bytes());
    let mut input = MemoryReader::new(input);
    let mut out = MemoryWriter::new(alloc);
    let found = serve(
        alloc,
        &mut reader,
        &mut input,
        &Options::new(alloc, true),
        &mut out,
    );
    let text = String::from_utf8(out.bytes).ok().ok_or("no text")?;
    Ok((text, found.map(code_of)))
}

#[test]
fn runs_take_numbers(rt: HostRuntime) -> Result<(), Fail> {
    let rows: [(&str, &[u8], &str, Result<u8, ServeFault>); 9] = [
        // three numbers, and then none is left (A.13)
        (
            DOUBLES,
            b"7 -8\n\t0\r\n",
            " 14\n-16\n 0\nunhandled END_ERROR\n",
            Ok(2),
        ),
        (DOUBLES, b"", "unhandled END_ERROR\n", Ok(2)),
        // the double of the greatest Integer is none (3.5.4)
        (
            DOUBLES,
            b"1 2147483647",
            " 2\nunhandled CONSTRAINT_ERROR\n",
            Ok(2),
        ),
        // what is not taken is read all the same
        (TAKES_NONE, b"7 8", "finished\n", Ok(0)),
        (
            TAKES_NONE,
            b"7x",
            "",
            Err(ServeFault::BadInput { place: 1 }),
        ),
        (
            DOUBLES,
            b"7 -2147483649",
            "",
            Err(ServeFault::BadInput { place: 3 }),
        ),
        (
            DOUBLES,
            b"7 8 +9 x",
            "",
            Err(ServeFault::BadInput { place: 5 }),
        ),
        (DOUBLES, b"\x00", "", Err(ServeFault::BadInput { place: 1 })),
        // a source that is refused has its line, whatever its input is
        ("null", b"7x", "refused 1:1 F10 unexpected-token\n", Ok(1)),
    ];
    for (source, input, wanted, ends) in rows {
        let (found, code) = run_on(rt.alloc(), source, input)?;
        assert!(rt; found.as_str() == wanted && code == ends, "{found}");
    }
    Ok(())
}

#[test]
fn inputs_have_a_greatest_length(rt: HostRuntime) -> Result<(), Fail> {
    let rows = [
        (LONGEST, "finished\n", Ok(0)),
        (LONGEST + 1, "", Err(ServeFault::InputTooLong)),
        (2 * LONGEST, "", Err(ServeFault::InputTooLong)),
    ];
    for (length, wanted, ends) in rows {
        let blanks = vec![in rt.alloc(); b' '; length]?;
        let (found, code) = run_on(rt.alloc(), TAKES_NONE, &blanks)?;
        assert!(rt; found.as_str() == wanted && code == ends, "at {length}");
    }
    Ok(())
}

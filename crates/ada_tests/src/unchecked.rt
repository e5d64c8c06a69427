//! Programs that the rules refuse, run all the same: the machine sees where they would be erroneous (13.11.2).

use ada_interpreter::{Listed, Machine};
use ada_meaning::Halt;
use ada_parser::parse;
use ada_program::Program;
use ada_resolve::resolve;
use ada_text::tokens;
use std::alloc::Global;
use std::collections::VecDeque;
use std::test::Fail;

/// Two variables that name one object, before the statements.
const HEAD: &str = "with Ada.Text_IO; with Ada.Unchecked_Deallocation;
procedure Main is
type Node is record Value : Integer := 0; end record; type Link is access Node;
procedure Free is new Ada.Unchecked_Deallocation (Node, Link);
A : Link := new Node'(Value => 5); B : Link := A;
begin ";

/// How a run has ended, in a word.
fn text_of(alloc: Global, program: &Program, halt: Halt) -> Result<String, Fail> {
    let text = match halt {
        Halt::Finished => String::from_str(alloc, "finished")?,
        Halt::Unhandled(exception) => String::from_str(alloc, exception.name(program))?,
        Halt::Escaped(_) => String::from_str(alloc, "escaped")?,
        Halt::Erroneous(why) => format!(in alloc; "{why}")?,
        Halt::Stuck => String::from_str(alloc, "stuck")?,
        Halt::Memory => String::from_str(alloc, "memory")?,
    };
    Ok(text)
}

/// How the run of the program with these statements ends, whether the rules accept it or not.
fn end_of(alloc: Global, statements: &str, grants: bool) -> Result<String, Fail> {
    let mut source = String::from_str(alloc, HEAD)?;
    source.push_str(statements)?;
    source.push_str(" end Main;")?;
    let found = tokens(alloc, source.as_bytes())?;
    let parsed = parse(alloc, &found)?;
    let program = resolve(alloc, &parsed.unit).ok().ok_or("refused")?;
    let answers = Listed::new(
        VecDeque::from_vec(vec![in alloc; grants]?),
        VecDeque::new(alloc),
    );
    let mut machine = Machine::new(alloc, &program, Vec::new(alloc), answers)?;
    for _ in 0..1_000 {
        if let Err(halt) = machine.step() {
            return text_of(alloc, &program, halt);
        }
    }
    Err("no end".into())
}

#[test]
fn runs_end_where_they_would_be_erroneous(rt: HostRuntime) -> Result<(), Fail> {
    let follows = "Ada.Text_IO.Put_Line (Integer'Image (B.Value));";
    let rows = [
        (follows, true, "finished"),
        (
            "Free (A); Ada.Text_IO.Put_Line (Integer'Image (B.Value));",
            true,
            "E1",
        ),
        ("Free (A); Free (B);", true, "E2"),
        ("Free (A); Free (A);", true, "finished"),
        ("null;", false, "STORAGE_ERROR"),
    ];
    for (statements, grants, wanted) in rows {
        let found = end_of(rt.alloc(), statements, grants)?;
        assert_eq!(rt; found.as_str(), wanted, "at {statements}");
    }
    Ok(())
}

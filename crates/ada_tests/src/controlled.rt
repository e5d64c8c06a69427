//! The order of controlled parts, where other components are picked than the runner picks (7.6, 7.6.1).

use ada_interpreter::{Listed, Machine};
use ada_meaning::Event;
use ada_parser::parse;
use ada_resolve::resolve;
use ada_text::tokens;
use std::alloc::Global;
use std::collections::VecDeque;
use std::test::Fail;

/// What a type is derived from that is controlled.
const PARENT: &str = "new Ada.Finalization.Limited_Controlled with";

/// A record type with two components of another one, each controlled or not; an object is declared, and one is allocated and
/// freed.
fn source(alloc: Global, inner: bool, outer: bool) -> Result<String, Fail> {
    let inner = if inner { PARENT } else { "" };
    let outer = if outer { PARENT } else { "" };
    Ok(format!(in alloc;
        "with Ada.Unchecked_Deallocation; with Ada.Finalization;
procedure Main is
type Inner is {inner} record Value : Integer := 0; end record;
type Outer is {outer} record Left : Inner; Right : Inner; end record; type Link is access Outer;
procedure Free is new Ada.Unchecked_Deallocation (Outer, Link);
X : Outer; P : Link := new Outer;
begin Free (P); end Main;"
    )?)
}

/// The parts that come to have values, and those that are finalized, in order, where these types are controlled and these
/// components are picked.
fn treated(
    alloc: Global,
    inner: bool,
    outer: bool,
    picks: VecDeque<usize>,
) -> Result<String, Fail> {
    let text = source(alloc, inner, outer)?;
    let found = tokens(alloc, text.as_bytes())?;
    let parsed = parse(alloc, &found)?;
    let program = resolve(alloc, &parsed.unit).ok().ok_or("refused")?;
    let answers = Listed::new(VecDeque::new(alloc), picks);
    let mut machine = Machine::new(alloc, &program, Vec::new(alloc), answers)?;
    let mut text = String::new(alloc);
    for _ in 0..1_000 {
        match machine.step() {
            Ok(Event::Born { value, .. }) => {
                let part = value.part;
                let line = format!(in alloc; "+{part}")?;
                text.push_str(line.as_str())?;
            }
            Ok(Event::Finalized { value, .. }) => {
                let part = value.part;
                let line = format!(in alloc; "-{part}")?;
                text.push_str(line.as_str())?;
            }
            Ok(_) => {}
            Err(_) => return Ok(text),
        }
    }
    Err("no end".into())
}

#[test]
fn parts_come_in_order(rt: HostRuntime) -> Result<(), Fail> {
    let alloc = rt.alloc();
    let rows = [
        (false, false, ""),
        (true, false, "+0+1+0+1-1-0-1-0"),
        (false, true, "+0+0-0-0"),
        (true, true, "+1+2+0+1+2+0-0-2-1-0-2-1"),
    ];
    for (inner, outer, wanted) in rows {
        let found = treated(alloc, inner, outer, VecDeque::new(alloc))?;
        assert_eq!(rt; found.as_str(), wanted, "for {inner} and {outer}");
    }
    let picks = VecDeque::from_vec(vec![in alloc; 1]?);
    let found = treated(alloc, true, true, picks)?;
    assert_eq!(rt;
        found.as_str(),
        "+2+1+0+1+2+0-0-2-1-0-2-1",
        "where the last component is picked first"
    );
    Ok(())
}

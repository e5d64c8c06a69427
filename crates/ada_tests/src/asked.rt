//! Runs that are asked for by the words of a command line: those whose pools have other sizes, and those that are traced.

use ada_serve::command_line::options;
use ada_serve::exit::{USAGE, code_of, fault_code};
use ada_serve::serve::serve;
use ada_serve::streams::{MemoryReader, MemoryWriter};
use std::alloc::Global;
use std::test::Fail;

/// Nodes of six words each in the standard pool, as many as it has room for.
const NODES: &str = "with Ada.Text_IO;
procedure Main is
type Node; type Link is access Node;
type Node is record Value : Integer := 0; Next : Link; end record;
Head : Link;
begin
for I in 1 .. 3 loop Head := new Node'(I, Head); end loop;
exception
when Storage_Error => Ada.Text_IO.Put_Line (Integer'Image (Head.Next.Value));
end Main;";

/// Two nodes of six words each in a pool that has room for one.
const ROOM: &str = "with Profile_Pools;
procedure Main is
Room : Profile_Pools.First_Fit_Pool (6);
type Node; type Link is access Node with Storage_Pool => Room;
type Node is record Value : Integer := 0; Next : Link; end record;
A : Link := new Node'(1, null);
B : Link := new Node'(2, null);
begin
null;
end Main;";

/// A source that is refused.
const WRONG: &str = "procedure Main is begin nul; end Main;";

/// Two nodes of which the program frees the newer one, and a record object, which is from no pool. The lines of the program
/// stand among those of the trace.
const TRACED: &str = "with Ada.Text_IO; with Ada.Unchecked_Deallocation;
procedure Main is
type Node; type Link is access Node;
type Node is record Value : Integer := 0; Next : Link; end record;
procedure Free is new Ada.Unchecked_Deallocation (Node, Link);
A : Link := new Node'(1, null);
B : Link := new Node'(2, null);
R : Node;
begin
Ada.Text_IO.Put_Line (\"before\"); Free (B); Ada.Text_IO.Put_Line (\"behind\");
end Main;";

/// Two types in one block: at its end the newer collection goes first, and in a collection the newer object.
const COLLECTIONS: &str = "procedure Main is
begin
declare
type Left is record Value : Integer := 0; end record; type To_Left is access Left;
type Right is record Value : Integer := 0; end record; type To_Right is access Right;
A : To_Left := new Left'(Value => 1);
B : To_Right := new Right'(Value => 2);
C : To_Left := new Left'(Value => 3);
begin
null;
end;
end Main;";

/// Two objects of a controlled type: one is assigned to itself, and gets the value of the other.
const BOXES: &str = "with Ada.Finalization;
procedure Main is
type Box is new Ada.Finalization.Controlled with record Value : Integer := 0; end record;
A : Box; B : Box;
begin A := A; A := B; end Main;";

/// A return leaves two blocks, each with an object of a controlled type.
const LEFT: &str = "with Ada.Finalization;
procedure Main is
type Box is new Ada.Finalization.Controlled with record Value : Integer := 0; end record;
begin
declare A : Box; begin declare B : Box; begin return; end; end;
end Main;";

/// An object is declared as a copy.
const COPIED: &str = "with Ada.Finalization;
procedure Main is
type Box is new Ada.Finalization.Controlled with record Value : Integer := 0; end record;
type Good is new Ada.Finalization.Controlled with null record;
A : Box; B : Box := A; G : Good;
begin null; end Main;";

/// Controlled components of a controlled record: one is assigned to, and one is copied.
const PARTS: &str = "with Ada.Finalization;
procedure Main is
type Box is new Ada.Finalization.Controlled with record V : Integer := 0; end record;
type Pair is new Ada.Finalization.Controlled with record Left : Box; Right : Box; end record;
P : Pair; B : Box;
begin P.Left := B; B := P.Right; end Main;";

/// Records without components begin at one word: they are two records all the same.
const EMPTY: &str = "with Ada.Finalization;
procedure Main is
type Mark is new Ada.Finalization.Controlled with null record;
type Pair is record Left : Mark; Right : Mark; end record;
P : Pair;
begin P.Left := P.Right; P.Left := P.Left; end Main;";

/// One object of a limited type is freed, and another one goes with its collection.
const NODES_OF_ONE: &str = "with Ada.Finalization; with Ada.Unchecked_Deallocation;
procedure Main is
type Node; type Link is access Node;
type Inner is new Ada.Finalization.Limited_Controlled with null record;
type Node is record Value : Inner; end record;
procedure Free is new Ada.Unchecked_Deallocation (Node, Link);
A : Link := new Node; B : Link := new Node;
begin Free (A); end Main;";

/// An assignment whose Adjust allocates a copy of what its component names, or leaves it null where there is no room.
const ADJUSTED: &str = "with Ada.Finalization; with Ada.Text_IO; with Ada.Unchecked_Deallocation;
procedure Main is
type Leaf is record Weight : Integer := 1; end record; type Stem is access Leaf;
type Plant is new Ada.Finalization.Controlled with record Grown : Stem; end record;
procedure Adjust (Object : in out Plant);
procedure Finalize (Object : in out Plant);
procedure Free is new Ada.Unchecked_Deallocation (Leaf, Stem);
procedure Adjust (Object : in out Plant) is
begin Object.Grown := new Leaf'(Weight => Object.Grown.Weight);
exception when others => Ada.Text_IO.Put_Line (\"no leaf\"); Object.Grown := null;
end Adjust;
procedure Finalize (Object : in out Plant) is begin Free (Object.Grown); end Finalize;
A : Plant; B : Plant;
begin A.Grown := new Leaf; B := A; end Main;";

/// What is written for these words, and the exit status; for a fault, what is told of it.
fn asked_for(alloc: Global, source: &str, line: &str, input: &[u8]) -> Result<(String, u8), Fail> {
    let mut words = Vec::new(alloc);
    for word in line.split_whitespace() {
        words.push(word)?;
    }
    let Ok((options, _paths)) = options(alloc, &words) else {
        return Ok((String::new(alloc), USAGE));
    };
    let mut reader = MemoryReader::new(source.as_bytes());
    let mut input = MemoryReader::new(input);
    let mut out = MemoryWriter::new(alloc);
    match serve(alloc, &mut reader, &mut input, &options, &mut out) {
        Ok(status) => {
            let text = String::from_utf8(out.bytes).ok().ok_or("no text")?;
            Ok((text, code_of(status)))
        }
        Err(fault) => Ok((format!(in alloc; "{fault}")?, fault_code(fault))),
    }
}

#[test]
fn pools_have_the_sizes_that_are_given(rt: HostRuntime) -> Result<(), Fail> {
    let rows: [(&str, &str, &[u8], &str, u8); 11] = [
        (NODES, "run --standard 12", b"", " 1\nfinished\n", 0),
        (
            NODES,
            "run --standard 11",
            b"",
            "unhandled CONSTRAINT_ERROR\n",
            2,
        ),
        (ROOM, "run", b"", "unhandled STORAGE_ERROR\n", 2),
        (ROOM, "run ROOM=11", b"", "unhandled STORAGE_ERROR\n", 2),
        (ROOM, "run ROOM=12", b"", "finished\n", 0),
        (
            ROOM,
            "run room=0 Room=12 --standard 0",
            b"",
            "finished\n",
            0,
        ),
        (
            ROOM,
            "run ROOM=12 --refuse 2",
            b"",
            "unhandled STORAGE_ERROR\n",
            2,
        ),
        // a size is for a pool, whatever the input is
        (ROOM, "run ROOM=12 HALL=12", b"x", "F74 no-such-pool", 4),
        (ROOM, "run STANDARD=12", b"", "F74 no-such-pool", 4),
        (NODES, "run ROOM=12", b"", "F74 no-such-pool", 4),
        // but no size is looked at where the source is refused
        (
            WRONG,
            "run ROOM=12",
            b"x",
            "refused 1:25 F20 unknown-name\n",
            1,
        ),
    ];
    for (source, line, input, wanted, status) in rows {
        let (found, code) = asked_for(rt.alloc(), source, line, input)?;
        assert!(rt;
            found.as_str() == wanted && code == status,
            "at {line}: {found}"
        );
    }
    Ok(())
}

#[test]
fn traced_runs_tell_what_goes_back(rt: HostRuntime) -> Result<(), Fail> {
    let rows = [
        (
            TRACED,
            "run --trace",
            "before\n# back LINK 2\nbehind\n# back LINK 1\nfinished\n",
            0,
        ),
        (TRACED, "run", "before\nbehind\nfinished\n", 0),
        // a request that is refused has no number, and what was created before it goes back
        (
            TRACED,
            "run --trace --refuse 2",
            "# back LINK 1\nunhandled STORAGE_ERROR\n",
            2,
        ),
        (
            TRACED,
            "run --trace --refuse 1",
            "unhandled STORAGE_ERROR\n",
            2,
        ),
        // what a stopped run owns does not go back
        (
            TRACED,
            "run --trace --steps 2",
            "before\n# back LINK 2\nstopped after 2\n",
            3,
        ),
        (
            COLLECTIONS,
            "run --trace",
            "# back TO_RIGHT 2\n# back TO_LEFT 3\n# back TO_LEFT 1\nfinished\n",
            0,
        ),
        (COLLECTIONS, "run", "finished\n", 0),
        (WRONG, "run --trace", "refused 1:25 F20 unknown-name\n", 1),
    ];
    for (source, line, wanted, status) in rows {
        let (found, code) = asked_for(rt.alloc(), source, line, b"")?;
        assert!(rt;
            found.as_str() == wanted && code == status,
            "at {line}: {found}"
        );
    }
    Ok(())
}

#[test]
fn traced_runs_tell_of_controlled_values(rt: HostRuntime) -> Result<(), Fail> {
    let rows = [
        (
            BOXES,
            "# born BOX 1\n# born BOX 2\n# finalized BOX 1\n# born BOX 3\n# finalized BOX 2\n# finalized BOX 3\nfinished\n",
        ),
        (
            LEFT,
            "# born BOX 1\n# born BOX 2\n# finalized BOX 2\n# finalized BOX 1\nfinished\n",
        ),
        (
            COPIED,
            "# born BOX 1\n# born BOX 2\n# born GOOD 3\n# finalized GOOD 3\n# finalized BOX 2\n# finalized BOX 1\nfinished\n",
        ),
        (
            PARTS,
            "# born BOX 1\n# born BOX 2\n# born PAIR 3\n# born BOX 4\n# finalized BOX 1\n# born BOX 5\n# finalized BOX 4\n# born BOX 6\n# finalized BOX 6\n# finalized PAIR 3\n# finalized BOX 2\n# finalized BOX 5\nfinished\n",
        ),
        (
            EMPTY,
            "# born MARK 1\n# born MARK 2\n# finalized MARK 1\n# born MARK 3\n# finalized MARK 2\n# finalized MARK 3\nfinished\n",
        ),
        (
            NODES_OF_ONE,
            "# born INNER 1\n# born INNER 2\n# finalized INNER 1\n# back LINK 1\n# finalized INNER 2\n# back LINK 2\nfinished\n",
        ),
    ];
    for (source, wanted) in rows {
        let (found, code) = asked_for(rt.alloc(), source, "run --trace", b"")?;
        assert!(rt; found.as_str() == wanted && code == 0, "{found}");
    }
    Ok(())
}

#[test]
fn traced_runs_tell_what_an_adjust_allocates(rt: HostRuntime) -> Result<(), Fail> {
    let rows = [
        (
            "run --trace",
            "# born PLANT 1\n# born PLANT 2\n# finalized PLANT 2\n# born PLANT 3\n# finalized PLANT 3\n# back STEM 2\n# finalized PLANT 1\n# back STEM 1\nfinished\n",
            0,
        ),
        // the request of the Adjust is refused: it handles that, and the copy has a value all the same
        (
            "run --trace --refuse 2",
            "# born PLANT 1\n# born PLANT 2\n# finalized PLANT 2\nno leaf\n# born PLANT 3\n# finalized PLANT 3\n# finalized PLANT 1\n# back STEM 1\nfinished\n",
            0,
        ),
        // the request before the assignment is refused, and nothing is copied
        (
            "run --trace --refuse 1",
            "# born PLANT 1\n# born PLANT 2\n# finalized PLANT 2\n# finalized PLANT 1\nunhandled STORAGE_ERROR\n",
            2,
        ),
    ];
    for (line, wanted, status) in rows {
        let (found, code) = asked_for(rt.alloc(), ADJUSTED, line, b"")?;
        assert!(rt;
            found.as_str() == wanted && code == status,
            "at {line}: {found}"
        );
    }
    Ok(())
}

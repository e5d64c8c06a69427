//! Sources at a limit and one past it, made from pieces.

use ada_serve::serve::serve;
use ada_serve::settings::Options;
use ada_serve::streams::{MemoryReader, MemoryWriter};
use std::alloc::Global;
use std::test::Fail;

/// A source: a head, pieces that are repeated, a middle, closing pieces as often, and a tail.
///
/// In each piece the sign `#` stands for the piece's number, which counts from 0.
#[derive(Clone, Copy)]
struct Pieces<'a> {
    head: &'a str,
    piece: &'a str,
    times: u32,
    middle: &'a str,
    closing: &'a str,
    tail: &'a str,
    wanted: &'a str,
}

/// A source of blocks inside one another, after one line.
const fn blocks<'a>(times: u32, middle: &'a str, wanted: &'a str) -> Pieces<'a> {
    Pieces {
        head: "procedure Main is begin\n",
        piece: "begin ",
        times,
        middle,
        closing: " end;",
        tail: " end Main;",
        wanted,
    }
}

/// A source of pieces with a number each, on a line each.
const fn lines<'a>(
    head: &'a str,
    piece: &'a str,
    times: u32,
    tail: &'a str,
    wanted: &'a str,
) -> Pieces<'a> {
    Pieces {
        head,
        piece,
        times,
        middle: "",
        closing: "",
        tail,
        wanted,
    }
}

/// A line of 64 bytes.
const COMMENT: &str = "-- sixty-four bytes, with the line feed that ends this comment.\n";

/// Adds a piece, with its number in the place of the sign.
fn push_piece(source: &mut String, piece: &str, number: u32) -> Result<(), Fail> {
    match piece.split_once('#') {
        Some((front, rest)) => {
            source.push_str(front)?;
            source.push_str(format!(in *source.allocator(); "{number}")?.as_str())?;
            source.push_str(rest)?;
        }
        None => source.push_str(piece)?,
    }
    Ok(())
}

/// The text of a source.
fn text_of(alloc: Global, pieces: &Pieces<'_>) -> Result<String, Fail> {
    let mut source = String::from_str(alloc, pieces.head)?;
    for number in 0..pieces.times {
        push_piece(&mut source, pieces.piece, number)?;
    }
    source.push_str(pieces.middle)?;
    for number in 0..pieces.times {
        push_piece(&mut source, pieces.closing, number)?;
    }
    source.push_str(pieces.tail)?;
    Ok(source)
}

/// What is written for a source that is to be run.
fn answer_to(alloc: Global, source: &str) -> Result<String, Fail> {
    let mut reader = MemoryReader::new(source.as_bytes());
    let mut input = MemoryReader::new(b"");
    let mut out = MemoryWriter::new(alloc);
    serve(
        alloc,
        &mut reader,
        &mut input,
        &Options::new(alloc, true),
        &mut out,
    )?;
    Ok(String::from_utf8(out.bytes).ok().ok_or("no text")?)
}

#[test]
fn limits_are_kept(rt: HostRuntime) -> Result<(), Fail> {
    let rows = [
        // a source of 1,048,576 bytes, and one more
        lines("", COMMENT, 16_384, "", "refused 1:1 F12 end-of-source\n"),
        lines(
            "",
            COMMENT,
            16_384,
            " ",
            "refused 1:1 F04 source-too-long\n",
        ),
        // an identifier of 64 letters, and one more
        lines("procedure ", "A", 64, " is begin null; end;", "finished\n"),
        lines(
            "procedure ",
            "A",
            65,
            " is begin null; end;",
            "refused 1:11 F05 identifier-form\n",
        ),
        // 64 levels of nesting, and one more
        blocks(64, "null;", "finished\n"),
        blocks(65, "null;", "refused 2:385 F11 too-deep\n"),
        blocks(64, "P (X);", "refused 2:387 F11 too-deep\n"),
        // a body opens its level at its first word, and a specification at its parenthesis
        blocks(
            63,
            "declare procedure Q; begin null; end;",
            "refused 2:387 F23 not-in-profile\n",
        ),
        blocks(
            63,
            "declare procedure Q is begin null; end; begin null; end;",
            "refused 2:387 F11 too-deep\n",
        ),
        blocks(
            63,
            "declare procedure Q (X : T); begin null; end;",
            "refused 2:399 F11 too-deep\n",
        ),
        blocks(
            63,
            "declare procedure Q (X : T) is begin null; end; begin null; end;",
            "refused 2:387 F11 too-deep\n",
        ),
        blocks(
            63,
            "declare procedure Q is new F (A, B); begin null; end;",
            "refused 2:408 F11 too-deep\n",
        ),
        blocks(
            62,
            "declare procedure Q is begin null; end; begin null; end;",
            "finished\n",
        ),
        blocks(
            62,
            "declare procedure Q (X : T); begin null; end;",
            "refused 2:381 F23 not-in-profile\n",
        ),
        blocks(
            62,
            "declare procedure Q (X : T) is begin null; end; begin null; end;",
            "refused 2:393 F11 too-deep\n",
        ),
        blocks(
            61,
            "declare procedure Q (X : T) is begin null; end; begin null; end;",
            "refused 2:392 F20 unknown-name\n",
        ),
        blocks(
            63,
            "declare overriding procedure Q is begin null; end; begin null; end;",
            "refused 2:387 F11 too-deep\n",
        ),
        blocks(
            63,
            "declare procedure Q is null; begin null; end;",
            "refused 2:387 F11 too-deep\n",
        ),
        blocks(
            63,
            "declare procedure Q (X T); begin null; end;",
            "refused 2:399 F11 too-deep\n",
        ),
        blocks(
            63,
            "declare procedure Q (X : T) begin begin null; end;",
            "refused 2:399 F11 too-deep\n",
        ),
        // 500 names, 4,096 components, 10,000 nodes, and one more of each
        lines(
            "procedure Main is\n",
            "N# : constant := 1;\n",
            500,
            "begin null; end Main;",
            "finished\n",
        ),
        lines(
            "procedure Main is\n",
            "N# : constant := 1;\n",
            501,
            "begin null; end Main;",
            "refused 502:1 F27 limit\n",
        ),
        lines(
            "procedure Main is\ntype R is record\n",
            "C# : Integer := 0;\n",
            4_096,
            "end record; begin null; end Main;",
            "finished\n",
        ),
        lines(
            "procedure Main is\ntype R is record\n",
            "C# : Integer := 0;\n",
            4_097,
            "end record; begin null; end Main;",
            "refused 4099:1 F27 limit\n",
        ),
        lines(
            "procedure Main is begin\n",
            "null;\n",
            10_000,
            "end Main;",
            "finished\n",
        ),
        lines(
            "procedure Main is begin\n",
            "null;\n",
            10_001,
            "end Main;",
            "refused 10002:1 F27 limit\n",
        ),
    ];
    for row in &rows {
        let source = text_of(rt.alloc(), row)?;
        assert_eq!(rt;
            answer_to(rt.alloc(), source.as_str())?.as_str(),
            row.wanted,
            "at {}",
            row.middle
        );
    }
    Ok(())
}

//! The tokens of short texts (2.2 to 2.7), and their first faults.

use ada_text::{Spot, TextFault, tokens};
use std::alloc::Global;
use std::test::Fail;

/// The tokens of a source, one after another, or its fault with the fault's spot.
fn shown(alloc: Global, source: &str) -> Result<String, Fail> {
    let mut text = String::new(alloc);
    match tokens(alloc, source.as_bytes()) {
        Ok(found) => {
            for token in found {
                let Spot { line, column } = token.spot();
                let kind = token.kind;
                let from = token.from;
                let to = token.to;
                let one = format!(in alloc; "{kind:?} {line}:{column} {from}..{to}; ")?;
                text.push_str(one.as_str())?;
            }
        }
        Err(fault) => {
            let spot = spot_of(&fault);
            let line = spot.line;
            let column = spot.column;
            let one = format!(in alloc; "{fault} {line}:{column}")?;
            text.push_str(one.as_str())?;
        }
    }
    Ok(text)
}

/// The spot that a fault names; 0:0 for one of the whole source.
fn spot_of(fault: &TextFault) -> Spot {
    match fault {
        TextFault::ByteNotAllowed(spot)
        | TextFault::OpenString(spot)
        | TextFault::NumberRange(spot)
        | TextFault::IdentifierForm(spot) => *spot,
        TextFault::SourceTooLong | TextFault::NoMemory => Spot { line: 0, column: 0 },
    }
}

#[test]
fn tokens_are_told_apart(rt: HostRuntime) -> Result<(), Fail> {
    let rows = [
        ("", ""),
        (" \t\r\n-- only a comment", ""),
        ("Put_Line", "Identifier(\"PUT_LINE\") 1:1 0..8; "),
        (
            "begin Begins",
            "Word(Begin) 1:1 0..5; Identifier(\"BEGINS\") 1:7 6..12; ",
        ),
        ("bEgIn", "Word(Begin) 1:1 0..5; "),
        ("2_147_483_647", "Number(2147483647) 1:1 0..13; "),
        ("007", "Number(7) 1:1 0..3; "),
        ("\"say \"\"hi\"\"\"", "Text(\"say \\\"hi\\\"\") 1:1 0..12; "),
        ("\"\"", "Text(\"\") 1:1 0..2; "),
        (
            "x<=y",
            "Identifier(\"X\") 1:1 0..1; Delimiter(LessEqual) 1:2 1..3; Identifier(\"Y\") 1:4 3..4; ",
        ),
        (
            "1..2",
            "Number(1) 1:1 0..1; Delimiter(DoubleDot) 1:2 1..3; Number(2) 1:4 3..4; ",
        ),
        (
            "<=>",
            "Delimiter(LessEqual) 1:1 0..2; Delimiter(Greater) 1:3 2..3; ",
        ),
        (
            "a-b",
            "Identifier(\"A\") 1:1 0..1; Delimiter(Minus) 1:2 1..2; Identifier(\"B\") 1:3 2..3; ",
        ),
        (
            "a--b\n'c",
            "Identifier(\"A\") 1:1 0..1; Delimiter(Tick) 2:1 5..6; Identifier(\"C\") 2:2 6..7; ",
        ),
        ("-- \"& é\n;", "Delimiter(Semicolon) 2:1 9..10; "),
        ("   ty&e Ref1", "F01 byte-not-allowed 1:6"),
        ("x\n _y", "F01 byte-not-allowed 2:2"),
        ("a é", "F01 byte-not-allowed 1:3"),
        ("x := \"open", "F02 open-string 1:6"),
        ("\"a\nb\"", "F02 open-string 1:1"),
        ("\"closed\"\"", "F02 open-string 1:1"),
        ("\"tab\t\"", "F02 open-string 1:1"),
        (" 2147483648", "F03 number-range 1:2"),
        ("99999999999_Ada.Finalization", "F03 number-range 1:1"),
        ("2147483648__1", "F03 number-range 1:1"),
        ("12_", "F05 identifier-form 1:1"),
        ("1__2", "F05 identifier-form 1:1"),
        ("7up", "F05 identifier-form 1:1"),
        ("with A_, B", "F05 identifier-form 1:6"),
        ("a__b", "F05 identifier-form 1:1"),
        ("a_ &", "F05 identifier-form 1:1"),
    ];
    for (source, wanted) in rows {
        assert_eq!(rt; shown(rt.alloc(), source)?.as_str(), wanted, "at {source}");
    }
    Ok(())
}

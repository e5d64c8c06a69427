//! The words after the program's name, and the exit statuses.

use ada_serve::command_line::options;
use ada_serve::exit::{code_of, fault_code};
use ada_serve::serve::{ServeFault, Status};
use std::alloc::Global;
use std::test::Fail;

/// What the words ask for: what to do, traced or not, the source, the input, how many statements a run may begin, and which
/// request is refused.
type Asked<'a> = (&'a str, Option<&'a str>, Option<&'a str>, u32, u32);

/// What the words ask for where they are no command.
const USAGE: Asked<'static> = ("usage", None, None, 0, 0);

/// What these words ask for; where they are no command, the usage text is told.
fn asked<'a>(alloc: Global, words: &'a [&'a str]) -> Asked<'a> {
    match options(alloc, words) {
        Ok((found, paths)) => {
            let asked = match (found.run, found.trace) {
                (false, false) => "check",
                (false, true) => "traced check",
                (true, false) => "run",
                (true, true) => "traced run",
            };
            (asked, paths.source, paths.input, found.steps, found.refuse)
        }
        Err(_) => USAGE,
    }
}

#[test]
fn words_ask_for_a_check_or_a_run(rt: HostRuntime) -> Result<(), Fail> {
    let rows = [
        ("run", ("run", None, None, 1_000_000, 0)),
        ("check", ("check", None, None, 1_000_000, 0)),
        (
            "run --source a.adb",
            ("run", Some("a.adb"), None, 1_000_000, 0),
        ),
        (
            "check --source a.adb",
            ("check", Some("a.adb"), None, 1_000_000, 0),
        ),
        ("run --steps 1", ("run", None, None, 1, 0)),
        (
            "run --steps 4294967295 --source a.adb",
            ("run", Some("a.adb"), None, 4_294_967_295, 0),
        ),
        ("run --steps 0", USAGE),
        ("run --steps 4294967296", USAGE),
        ("run --steps ten", USAGE),
        ("run --steps +1", USAGE),
        ("run --steps", USAGE),
        ("check --steps 1", USAGE),
        (
            "run --input a.txt",
            ("run", None, Some("a.txt"), 1_000_000, 0),
        ),
        (
            "run --refuse 2 --input a.txt --source a.adb",
            ("run", Some("a.adb"), Some("a.txt"), 1_000_000, 2),
        ),
        ("run --input", USAGE),
        ("run --input a.txt --input b.txt", USAGE),
        ("check --input a.txt", USAGE),
        ("run --refuse 0", ("run", None, None, 1_000_000, 0)),
        (
            "run --refuse 4294967295 --steps 7",
            ("run", None, None, 7, 4_294_967_295),
        ),
        ("run --refuse 4294967296", USAGE),
        ("run --refuse -1", USAGE),
        ("run --refuse +1", USAGE),
        ("run --refuse", USAGE),
        ("check --refuse 1", USAGE),
        ("run --trace", ("traced run", None, None, 1_000_000, 0)),
        (
            "run --source a.adb --trace P=5 --refuse 2",
            ("traced run", Some("a.adb"), None, 1_000_000, 2),
        ),
        ("run --trace --trace", USAGE),
        ("run --trace=1", USAGE),
        ("run --trace yes", USAGE),
        ("check --trace", USAGE),
        ("run --standard 0", ("run", None, None, 1_000_000, 0)),
        ("run --standard 65536", ("run", None, None, 1_000_000, 0)),
        ("run --standard 65537", USAGE),
        ("run --standard -1", USAGE),
        ("run --standard", USAGE),
        ("check --standard 5", USAGE),
        ("run P=0 --steps 7 Q=65536", ("run", None, None, 7, 0)),
        ("run P=65537", USAGE),
        ("run P=-1", USAGE),
        ("run P=+5", USAGE),
        ("run P=0x5", USAGE),
        ("run P=", USAGE),
        ("run =5", USAGE),
        ("run P=1=2", USAGE),
        ("run P", USAGE),
        ("check P=5", USAGE),
        ("--help", USAGE),
        ("walk", USAGE),
        ("", USAGE),
        ("run --source", USAGE),
        ("run check", USAGE),
    ];
    for (line, wanted) in rows {
        let mut words = Vec::new(rt.alloc());
        for word in line.split_whitespace() {
            words.push(word)?;
        }
        assert!(rt; asked(rt.alloc(), &words) == wanted, "at {line}");
    }
    Ok(())
}

#[test]
fn answers_have_their_exit_statuses(rt: HostRuntime) {
    let rows = [
        (code_of(Status::Accepted), 0),
        (code_of(Status::Finished), 0),
        (code_of(Status::Refused), 1),
        (code_of(Status::Unhandled), 2),
        (code_of(Status::Stopped), 3),
        (code_of(Status::Erroneous), 3),
        (fault_code(ServeFault::BadInput { place: 3 }), 5),
        (fault_code(ServeFault::InputTooLong), 5),
        (fault_code(ServeFault::ReadFailed), 5),
        (fault_code(ServeFault::WriteFailed), 5),
        (fault_code(ServeFault::NoSuchPool), 4),
        (fault_code(ServeFault::NoMemory), 6),
    ];
    for (found, wanted) in rows {
        assert_eq!(rt; found, wanted);
    }
}

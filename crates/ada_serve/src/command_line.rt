//! The command line.

ghost use Rattle.std.specs.Prelude.{◌≡◌, ◌≤◌, false, None, IfOk, IfSome};
ghost use Rattle.std.specs.Char.{is_ascii_digit};
ghost use Rattle.std.specs.List.{All, list_all};
ghost use Rattle.std.specs.Option.{option_map};
ghost use Rattle.ada_serve.specs.Settings.{HasSize, number_of, words_of, size_in, shown_size};

use crate::settings::{MOST_WORDS, Options, Paths};
use ada_pools::PoolSize;
use clap::error::ErrorKind;
use clap::{Arg, ArgAction, ArgMatches, Command, Error};
use std::alloc::{AllocError, AllocFailed, Global};

/// Why the words are no command.
#[derive(Debug, Drop)]
pub enum UsageFault {
    /// The words are wrong, or ask for help; the text says which.
    Usage(Error),
    NoMemory,
}

impl From<AllocError> for UsageFault {
    ghost use Rattle.ada_serve.specs.declared.command_line.UsageFault.TheVariants.{NoMemory};

    ghost from_gives = { λ _ e. e ≡ NoMemory };

    fn from(_error: AllocError) -> UsageFault {
        UsageFault::NoMemory
    }
}

impl<T: Drop> From<AllocFailed<T>> for UsageFault {
    ghost use Rattle.ada_serve.specs.declared.command_line.UsageFault.TheVariants.{NoMemory};

    ghost from_gives = { λ _ e. e ≡ NoMemory };

    fn from(_failed: AllocFailed<T>) -> UsageFault {
        UsageFault::NoMemory
    }
}

/// Reads the words after the program's name.
///
/// # Errors
/// Where the words are no command of this program, or memory ran out.
pub fn options<'a>(alloc: Global, words: &'a [&'a str]) -> Result<(Options, Paths<'a>), UsageFault>
    ensures steps { IfOk result (λ found. 1 ≤ found.0.steps) }
    ensures standard { IfOk result (λ found. found.0.standard ≤ MOST_WORDS) }
    ensures sizes { IfOk result (λ found. All HasSize found.0.sizes.items) }
    // Only a run is traced, and has an input.
    ensures trace { IfOk result (λ found. found.0.run ≡ false → found.0.trace ≡ false) }
    ensures input { IfOk result (λ found. found.0.run ≡ false → found.1.input ≡ None) }
{
    let mut command = command(alloc)?;
    let matches = match command.try_get_matches_from_mut(words) {
        Ok(matches) => matches,
        Err(error) if error.kind() == ErrorKind::OutOfMemory => return Err(UsageFault::NoMemory),
        Err(error) => return Err(UsageFault::Usage(error)),
    };
    let run = matches.subcommand_matches("run");
    let given = match run {
        Some(given) => Some(given),
        None => matches.subcommand_matches("check"),
    };
    let options = options_of(alloc, &mut command, run)?;
    Ok((
        options,
        Paths {
            source: word_of(given, "source"),
            input: word_of(run, "input"),
        },
    ))
}

/// An option whose word is a number from `least` to `most`.
#[derive(Clone, Copy)]
struct NumberOption {
    shown: &'static str,
    least: u32,
    most: u32,
}

/// What is asked for: a run by these words, or a check where there are none.
///
/// # Errors
/// Where a word is wrong, or memory ran out.
fn options_of(
    alloc: Global,
    command: &mut Command<'_>,
    run: Option<&ArgMatches<'_>>,
) -> Result<Options, UsageFault>
    ensures check { IfOk result (λ options. options.run ≡ false → run.entry ≡ None) }
    ensures trace { IfOk result (λ options. options.run ≡ false → options.trace ≡ false) }
    ensures steps { IfOk result (λ options. 1 ≤ options.steps) }
    ensures standard { IfOk result (λ options. options.standard ≤ MOST_WORDS) }
    ensures sizes { IfOk result (λ options. All HasSize options.sizes.items) }
{
    let mut options = Options::new(alloc, run.is_some());
    let Some(given) = run else {
        return Ok(options);
    };
    let limit = NumberOption {
        shown: "--steps <N>",
        least: 1,
        most: u32::MAX,
    };
    let refused = NumberOption {
        shown: "--refuse <K>",
        least: 0,
        most: u32::MAX,
    };
    let size = NumberOption {
        shown: "--standard <WORDS>",
        least: 0,
        most: MOST_WORDS,
    };
    options.steps = number_given(
        alloc,
        command,
        given.get_str("steps"),
        &limit,
        options.steps,
    )?;
    options.refuse = number_given(
        alloc,
        command,
        given.get_str("refuse"),
        &refused,
        options.refuse,
    )?;
    options.standard = number_given(
        alloc,
        command,
        given.get_str("standard"),
        &size,
        options.standard,
    )?;
    options.trace = given.get_flag("trace");
    if let Some(words) = given.get_strs("sizes") {
        add_sizes(alloc, command, words, &mut options.sizes)?;
    }
    Ok(options)
}

/// The number that the word behind an option gives; or the default, where there is no word.
///
/// # Errors
/// Where the word gives no number that the option takes, or memory ran out.
fn number_given(
    alloc: Global,
    command: &mut Command<'_>,
    word: Option<&str>,
    option: &NumberOption,
    default: u32,
) -> Result<u32, UsageFault>
    requires least { option.now.least ≤ default }
    requires most { default ≤ option.now.most }
    ensures least { IfOk result (λ number. option.now.least ≤ number) }
    ensures most { IfOk result (λ number. number ≤ option.now.most) }
{
    let Some(word) = word else {
        return Ok(default);
    };
    match number(word) {
        Some(number) if option.least <= number && number <= option.most => Ok(number),
        _ => Err(UsageFault::Usage(no_number(alloc, command, word, option)?)),
    }
}

/// The word behind an option, if it is given.
fn word_of<'a>(given: Option<&ArgMatches<'a>>, option: &str) -> Option<&'a str>
    ensures { given.entry ≡ None → result ≡ None }
{
    match given {
        Some(matches) => matches.get_str(option),
        None => None,
    }
}

/// Adds the sizes that words give.
///
/// # Errors
/// Where a word gives no size, or memory ran out.
fn add_sizes(
    alloc: Global,
    command: &mut Command<'_>,
    words: &[&str],
    sizes: &mut Vec<PoolSize>,
) -> Result<(), UsageFault>
    requires { All HasSize sizes.old.items }
    ensures { All HasSize sizes.new.items }
{
    for word in words {
        let Some(size) = pool_size(alloc, word)? else {
            let error = no_size(alloc, command, word)?;
            return Err(UsageFault::Usage(error));
        };
        sizes.push(size)?;
    }
    Ok(())
}

/// The size that a word gives for pools of a name: the name, `=`, and the size in words.
///
/// # Errors
/// Where memory ran out.
fn pool_size(alloc: Global, word: &str) -> Result<Option<PoolSize>, AllocError>
    ensures gives { IfOk result (λ found. option_map shown_size found ≡ size_in word.now) }
    ensures size { IfOk result (λ found. IfSome found HasSize) }
{
    let Some((name, digits)) = word.split_once('=') else {
        return Ok(None);
    };
    if name.is_empty() {
        return Ok(None);
    }
    let Some(words) = size_words(digits) else {
        return Ok(None);
    };
    let name = String::from_str(alloc, name)?;
    Ok(Some(PoolSize { name, words }))
}

/// The size in words that a word gives: digits alone, of a number up to 65,536.
fn size_words(word: &str) -> Option<u32>
    ensures gives { result ≡ words_of word.now }
    ensures size { IfSome result (λ words. words ≤ MOST_WORDS) }
{
    let words = number(word)?;
    if words > MOST_WORDS {
        None
    } else {
        Some(words)
    }
}

/// The number that a word gives: digits alone, and at least one.
fn number(word: &str) -> Option<u32>
    ensures { result ≡ number_of word.now }
{
    if !has_digits_alone(word.as_bytes()) {
        return None;
    }
    let Ok(number) = word.parse() else {
        return None;
    };
    Some(number)
}

/// Are these bytes digits 0 to 9?
fn has_digits_alone(word: &[u8]) -> bool
    ensures { result ≡ list_all is_ascii_digit word.now }
{
    word.iter().all(|byte| byte.is_ascii_digit())
}

/// The error that a word gives no number for an option.
fn no_number(
    alloc: Global,
    command: &mut Command<'_>,
    word: &str,
    option: &NumberOption,
) -> Result<Error, AllocError> {
    let NumberOption { shown, least, most } = option;
    let message = format!(in alloc;
        "invalid value '{word}' for '{shown}': not the digits of a number from {least} to {most}"
    )?;
    command.error(ErrorKind::ValueValidation, message.as_str())
}

/// The error that a word gives no size of a pool.
fn no_size(alloc: Global, command: &mut Command<'_>, word: &str) -> Result<Error, AllocError> {
    let message = format!(in alloc;
        "invalid value '{word}' for '[NAME=WORDS]...': not a name, '=' and the digits of a number from 0 to {MOST_WORDS}"
    )?;
    command.error(ErrorKind::ValueValidation, message.as_str())
}

/// `ada_run check [--source FILE]` and
/// `ada_run run [--source FILE] [--input FILE] [--standard WORDS] [--steps N] [--refuse K] [--trace]
/// [NAME=WORDS]...`
fn command<'a>(alloc: Global) -> Result<Command<'a>, AllocError> {
    let check = Command::new(alloc, "check")
        .about("Checks a source")
        .arg(source(alloc))?;
    let run = Command::new(alloc, "run")
        .about("Runs a source that is accepted")
        .arg(source(alloc))?
        .arg(input(alloc))?
        .arg(standard(alloc))?
        .arg(steps(alloc))?
        .arg(refuse(alloc))?
        .arg(trace(alloc))?
        .arg(sizes(alloc))?;
    Command::new(alloc, "ada_run")
        .about("Checks and runs the use of storage in Ada programs")
        .no_binary_name(true)
        .subcommand_required(true)
        .subcommand(check)?
        .subcommand(run)
}

/// `--source FILE`
fn source<'a>(alloc: Global) -> Arg<'a> {
    Arg::new(alloc, "source")
        .long("source")
        .value_name("FILE")
        .help("The source; the standard input where none is named")
        .action(ArgAction::Set)
}

/// `--input FILE`
fn input<'a>(alloc: Global) -> Arg<'a> {
    Arg::new(alloc, "input")
        .long("input")
        .value_name("FILE")
        .help("The numbers that the program takes; none where no file is named")
        .action(ArgAction::Set)
}

/// `--standard WORDS`
fn standard<'a>(alloc: Global) -> Arg<'a> {
    Arg::new(alloc, "standard")
        .long("standard")
        .value_name("WORDS")
        .help("The size of the standard pool in words, 0 to 65536; 65536 where no number is given")
        .action(ArgAction::Set)
}

/// `--steps N`
fn steps<'a>(alloc: Global) -> Arg<'a> {
    Arg::new(alloc, "steps")
        .long("steps")
        .value_name("N")
        .help(
            "How many statements the run may begin, 1 to 4294967295; 1000000 where no number is given",
        )
        .action(ArgAction::Set)
}

/// `--refuse K`
fn refuse<'a>(alloc: Global) -> Arg<'a> {
    Arg::new(alloc, "refuse")
        .long("refuse")
        .value_name("K")
        .help(
            "The request for storage that is refused, 1 to 4294967295; none is where 0 or no number is given",
        )
        .action(ArgAction::Set)
}

/// `--trace`
fn trace<'a>(alloc: Global) -> Arg<'a> {
    Arg::new(alloc, "trace")
        .long("trace")
        .help(
            "Write a line when a controlled value comes to exist or is finalized, and when storage goes back",
        )
        .action(ArgAction::SetTrue)
}

/// `[NAME=WORDS]...`
fn sizes<'a>(alloc: Global) -> Arg<'a> {
    Arg::new(alloc, "sizes")
        .value_name("NAME=WORDS")
        .help(
            "The size in words, 0 to 65536, of each pool of a name in place of the declared one; the last counts",
        )
        .num_args(..)
        .action(ArgAction::Append)
}

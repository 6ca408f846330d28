//! What is told of the word that stands against words that ask for nothing.

use desk_base::{Memory, Text, show_byte};
use desk_options::{TaskOptions, option_name};
use desk_words::Slip;
use std::alloc::Global;

/// Adds the bytes of a text, each as it is shown.
fn append_shown(line: &mut Text, text: &[u8]) -> Result<(), Memory> {
    for byte in text {
        line.append(show_byte(*byte).as_bytes())?;
    }
    Ok(())
}

/// The line of a word, and what is said of it.
fn line_of(alloc: Global, word: &[u8], said: &[u8]) -> Result<Text, Memory> {
    let mut line = Text::from_bytes(alloc, b"migrate: `")?;
    append_shown(&mut line, word)?;
    line.append(b"` ")?;
    line.append(said)?;
    line.append(b"\n")?;
    Ok(line)
}

/// Whether one name is the other but for a slip: a byte more, one less, another byte, or two neighbours exchanged.
fn is_slip(one: &[u8], other: &[u8]) -> bool {
    let pairs = one.iter().zip(other.iter());
    let same = pairs.take_while(|pair| pair.0 == pair.1).count();
    let one = one.get(same..).unwrap_or(&[]);
    let other = other.get(same..).unwrap_or(&[]);
    match (one, other) {
        ([a, b, rest @ ..], [c, d, more @ ..]) if a == d && b == c && rest == more => true,
        ([_, rest @ ..], [_, more @ ..]) if rest == more => true,
        ([_, rest @ ..], _) if rest == other => true,
        (_, [_, more @ ..]) => more == one,
        _ => false,
    }
}

/// What is said of an option that a task doesn't have: the one that it may be a slip of, or all that there are.
fn no_option(alloc: Global, options: &TaskOptions, option: &[u8]) -> Result<Text, Memory> {
    let name = option_name(option);
    let mut said = Text::from_bytes(alloc, b"is no option of `")?;
    said.append(options.task)?;
    said.append(b"`: ")?;
    match options.names.iter().find(|known| is_slip(name, known)) {
        Some(known) => {
            said.append(b"is `--")?;
            said.append(known)?;
            said.append(b"` meant?")?;
        }
        None => {
            said.append(b"it has")?;
            for known in options.names {
                said.append(b" --")?;
                said.append(known)?;
            }
        }
    }
    line_of(alloc, option, said.as_bytes())
}

const HELP: &[u8] =
    b"migrate: migrates a compiled application to other packages, as from javax to jakarta (version 1.0)
         migrate run --rules R --from A --to B --ledger L [--workers N] [--verify]
           migrates the files below A to B by the rules in folder R, and notes each in the file L; prints a line a file
         migrate generate --count N [--workers N] [--sql]
           migrates a made-up application of N classes in memory; prints the totals; with --sql its ledger is an SQL database
         migrate calls --from A --package P
           prints where the classes below A use members of the classes of package P, and of those below it
         migrate compare --rules R --from A --other B
           prints where application B differs from what the rules of folder R make of application A
         migrate invert --rules R
           prints the rule file that takes the renames of folder R back
         as: migrate run --rules rules/jakarta-ee-9 --from app --to new --ledger ledger >report
         README.md and docs/REFERENCE.md of its repository say the rest
";

const NO_VALUE: &[u8] =
    b"has no value; one that begins with `-` is written in one word, as `--name=value`";

const NO_OPTION: &[u8] = b"stands where an option is wanted, as `--rules R`";

const NO_TASK: &[u8] =
    b"is no task: the first word is `run`, `generate`, `calls`, `compare` or `invert`";

const UPWARD: &[u8] =
    b"leads to a folder above: a root holds no part `..`, so write its path without one";

const NO_ROOT: &[u8] = b"is no root: one has 1 to 1,024 bytes";

const NO_WORKERS: &[u8] = b"is no number of workers: 1 to 64, in decimal digits";

const NO_COUNT: &[u8] = b"is no count: 1 to 20,000, in decimal digits";

const NO_PACKAGE: &[u8] =
    b"is no package: one is written with dots, as `javax.servlet`, without `.*` at its end";

const NO_WORDS: &[u8] =
    b"migrate: no words are given: the first is `run`, `generate`, `calls`, `compare` or `invert`\n";

/// Which word stands against words that ask for nothing (status 20), in a line of its own; of options that are missing or given twice
/// it is what `clap` says. The only error is want of memory.
pub fn slip_line(alloc: Global, slip: &Slip) -> Result<Text, Memory> {
    match slip {
        Slip::NoWords => Text::from_bytes(alloc, NO_WORDS),
        Slip::Help => Text::from_bytes(alloc, HELP),
        Slip::NoTask { word } => line_of(alloc, word.as_bytes(), NO_TASK),
        Slip::NoOption { word } => line_of(alloc, word.as_bytes(), NO_OPTION),
        Slip::UnknownOption { options, option } => no_option(alloc, options, option.as_bytes()),
        Slip::NoValue { option } => line_of(alloc, option.as_bytes(), NO_VALUE),
        Slip::Message { said } => Ok(said.clone()?),
        Slip::Upward { value } => line_of(alloc, value.as_bytes(), UPWARD),
        Slip::NoRoot { value } => line_of(alloc, value.as_bytes(), NO_ROOT),
        Slip::NoWorkers { value } => line_of(alloc, value.as_bytes(), NO_WORKERS),
        Slip::NoCount { value } => line_of(alloc, value.as_bytes(), NO_COUNT),
        Slip::NoPackage { value } => line_of(alloc, value.as_bytes(), NO_PACKAGE),
    }
}

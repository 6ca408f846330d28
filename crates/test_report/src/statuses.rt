//! The code of each status, and the line that tells it.

use crate::answering::answer;
use crate::sinks::{answer_line, with_room};
use crate::words::Values;
use desk_base::{Memory, Text};
use desk_ledger::{Digest, Header};
use desk_report::{LimitKind, Status, write_fault};
use desk_rules::{ChainKind, InvertFault, PropFault, RuleFault};
use std::alloc::Global;

/// A status; behind it stand its values.
#[derive(Clone, Copy)]
pub enum Ended {
    Done,
    Refusals,
    Differs,
    Outside(Outside),
    Usage,
    NestedRoots,
    BadRules(Fault),
    Limit(LimitKind),
    Source(Source),
    OtherRun,
    NotInvertible(Uninverted),
}

/// What failed outside; behind it stand its values.
#[derive(Clone, Copy)]
pub enum Outside {
    Memory,
    Folder,
    Ledger,
    Output,
}

/// What stands against the files of the source; behind it stand its values.
#[derive(Clone, Copy)]
pub enum Source {
    PathClash,
    NameClash,
    Stranded,
    Moved,
}

/// Why rules have no inverse; behind it stand its values.
#[derive(Clone, Copy)]
pub enum Uninverted {
    NotRenames,
    Nothing,
    Overlap,
}

/// A fault of rule files; behind it stand its values.
#[derive(Clone, Copy)]
pub enum Fault {
    NoRenames,
    NotUtf8,
    Escape,
    BadKey,
    BadValue,
    MissingText,
    Chain,
}

/// The digest of the bytes of a word, of which there are 32.
fn digest_of(word: &Text) -> Digest {
    let mut digest = [0; 32];
    for (byte, given) in digest.iter_mut().zip(word.as_bytes()) {
        *byte = *given;
    }
    Digest(digest)
}

/// What a ledger says of its run: its roots, and the digest of its rules.
fn header_of(values: &mut Values) -> Header {
    Header {
        from: values.text(),
        to: values.text(),
        rules: digest_of(&values.text()),
    }
}

/// A fault of rule files with its values.
fn fault_of(fault: Fault, values: &mut Values) -> RuleFault {
    match fault {
        Fault::NoRenames => RuleFault::NoRenames,
        Fault::NotUtf8 => RuleFault::Properties {
            file: values.text(),
            fault: PropFault::NotUtf8 {
                at: values.number(),
            },
        },
        Fault::Escape => RuleFault::Properties {
            file: values.text(),
            fault: PropFault::Escape {
                at: values.number(),
            },
        },
        Fault::BadKey => RuleFault::BadKey {
            file: values.text(),
            key: values.text(),
        },
        Fault::BadValue => RuleFault::BadValue {
            file: values.text(),
            key: values.text(),
        },
        Fault::MissingText => RuleFault::MissingText {
            key: values.text(),
            name: values.text(),
        },
        Fault::Chain => RuleFault::Chain {
            kind: ChainKind::RenameThenRename,
            first: values.text(),
            second: values.text(),
        },
    }
}

/// Why rules have no inverse, with its values.
fn invert_fault_of(why: Uninverted, values: &mut Values) -> InvertFault {
    match why {
        Uninverted::NotRenames => InvertFault::NotRenames {
            file: values.text(),
        },
        Uninverted::Nothing => InvertFault::Nothing,
        Uninverted::Overlap => InvertFault::Overlap {
            first: values.text(),
            second: values.text(),
        },
    }
}

/// The status of what failed outside, with its values.
fn outside_status(failed: Outside, values: &mut Values) -> Status {
    match failed {
        Outside::Memory => Status::Memory,
        Outside::Folder => Status::FolderFault {
            done: values.number(),
        },
        Outside::Ledger => Status::LedgerFault {
            done: values.number(),
        },
        Outside::Output => Status::OutputFault,
    }
}

/// The status of what stands against the files of the source, with its values.
fn source_status(unfit: Source, values: &mut Values) -> Status {
    match unfit {
        Source::PathClash => Status::PathClash {
            first: values.text(),
            second: values.text(),
        },
        Source::NameClash => Status::NameClash {
            defined: values.text(),
            other: values.text(),
            image: values.text(),
        },
        Source::Stranded => Status::Stranded {
            path: values.text(),
            name: values.text(),
        },
        Source::Moved => Status::Moved {
            path: values.text(),
            first: digest_of(&values.text()),
            second: digest_of(&values.text()),
        },
    }
}

/// A status with its values.
fn status_of(ended: Ended, values: &mut Values) -> Status {
    match ended {
        Ended::Done => Status::Done,
        Ended::Refusals => Status::Refusals,
        Ended::Differs => Status::Differs {
            path: values.text(),
        },
        Ended::Outside(failed) => outside_status(failed, values),
        Ended::Usage => Status::Usage,
        Ended::NestedRoots => Status::NestedRoots {
            first: values.text(),
            second: values.text(),
        },
        Ended::BadRules(fault) => Status::BadRules(fault_of(fault, values)),
        Ended::Limit(kind) => Status::Limit {
            kind,
            path: values.text(),
        },
        Ended::Source(unfit) => source_status(unfit, values),
        Ended::OtherRun => Status::OtherRun {
            kept: header_of(values),
            wanted: header_of(values),
        },
        Ended::NotInvertible(why) => Status::NotInvertible(invert_fault_of(why, values)),
    }
}

/// The status with the values of these words.
fn boxed_status(alloc: Global, ended: Ended, words: &[Text]) -> Result<Box<Status>, Memory> {
    let mut values = Values::of(alloc, words)?;
    Ok(Box::new(alloc, status_of(ended, &mut values))?)
}

/// Answers the code of a status, and the line that tells it.
pub fn answer_status(
    alloc: Global,
    ended: Ended,
    words: &[Text],
    out: &mut String,
) -> Result<(), Memory> {
    let status = boxed_status(alloc, ended, words)?;
    let mut sink = with_room(alloc, 4096)?;
    let outcome = write_fault(&status, &mut *sink);
    answer(out, &status.code())?;
    answer_line(outcome, &sink, out)
}

//! Lines of files and totals as they are written.

use crate::sinks::{answer_line, with_room};
use crate::words::Values;
use desk_base::{CodeFault, FaultKind, Malformed, Memory, Text};
use desk_report::{Detail, Reason, ReportLine, Summary, write_line, write_summary};
use std::alloc::Global;

/// What an image is made of.
#[derive(Clone, Copy)]
pub enum Made {
    Class,
    Service,
    Manifest,
    Texts,
    Copy,
}

/// Why a file is refused.
#[derive(Clone, Copy)]
pub enum Refusal {
    BadLine,
    Unsettled,
    AttributeLength,
    Twins,
    Overlong,
    PoolFull,
    CodeOpcode,
    CodeShort,
    CodeSwitch,
    CodeOperand,
}

/// What a line tells: its values are the paths, and then the numbers.
#[derive(Clone, Copy)]
pub enum Told {
    Written(Made),
    Kept,
    Refused(Refusal),
}

/// What an image is made of, with its counts.
fn detail_of(made: Made, values: &mut Values) -> Detail {
    match made {
        Made::Class => Detail::Class {
            renamed: values.number(),
            added: values.number(),
            odd: values.number(),
            links: values.number(),
        },
        Made::Service => Detail::Service {
            changed: values.number(),
        },
        Made::Manifest => Detail::Manifest {
            changed: values.number(),
        },
        Made::Texts => Detail::Texts {
            changed: values.number(),
        },
        Made::Copy => Detail::Copy,
    }
}

/// Why a file is refused, with its numbers.
fn reason_of(refusal: Refusal, values: &mut Values) -> Reason {
    match refusal {
        Refusal::BadLine => Reason::BadLine {
            at: values.number(),
        },
        Refusal::Unsettled => Reason::Unsettled { at: values.long() },
        Refusal::AttributeLength => Reason::Malformed(Malformed {
            kind: FaultKind::AttributeLength,
            at: values.number(),
        }),
        Refusal::Twins => Reason::Twins {
            first: values.number(),
            second: values.number(),
        },
        Refusal::Overlong => Reason::Overlong {
            index: values.short(),
            length: values.long(),
        },
        Refusal::PoolFull => Reason::PoolFull {
            count: values.short(),
            needed: values.number(),
        },
        Refusal::CodeOpcode => Reason::Code(CodeFault::Opcode {
            at: values.number(),
        }),
        Refusal::CodeShort => Reason::Code(CodeFault::UnexpectedEnd {
            at: values.number(),
        }),
        Refusal::CodeSwitch => Reason::Code(CodeFault::Switch {
            at: values.number(),
        }),
        Refusal::CodeOperand => Reason::Code(CodeFault::Operand {
            at: values.number(),
        }),
    }
}

/// The line that tells these values.
fn line_of(told: Told, values: &mut Values) -> ReportLine {
    let path = values.text();
    match told {
        Told::Written(made) => ReportLine::Written {
            path,
            target: values.text(),
            detail: detail_of(made, values),
        },
        Told::Kept => ReportLine::Kept {
            path,
            target: values.text(),
        },
        Told::Refused(refusal) => ReportLine::Refused {
            path,
            reason: reason_of(refusal, values),
        },
    }
}

/// The line that tells the values of these words.
fn boxed_line(alloc: Global, told: Told, words: &[Text]) -> Result<Box<ReportLine>, Memory> {
    let mut values = Values::of(alloc, words)?;
    Ok(Box::new(alloc, line_of(told, &mut values))?)
}

/// Answers the line of a file.
pub fn answer_file(
    alloc: Global,
    told: Told,
    words: &[Text],
    out: &mut String,
) -> Result<(), Memory> {
    let line = boxed_line(alloc, told, words)?;
    let mut sink = with_room(alloc, 4096)?;
    let outcome = write_line(&line, &mut *sink);
    answer_line(outcome, &sink, out)
}

/// The totals of these values.
fn totals_of(values: &mut Values) -> Summary {
    Summary {
        files: values.number(),
        written: values.number(),
        kept: values.number(),
        refused: values.number(),
        renamed: values.long(),
        added: values.long(),
    }
}

/// Answers the line of the totals.
pub fn answer_total(alloc: Global, words: &[Text], out: &mut String) -> Result<(), Memory> {
    let totals = totals_of(&mut Values::of(alloc, words)?);
    let mut sink = with_room(alloc, 4096)?;
    let outcome = write_summary(&totals, &mut *sink);
    answer_line(outcome, &sink, out)
}

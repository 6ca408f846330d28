//! What is told of two applications.

ghost use Rattle.std.specs.Prelude.{◌≡◌, IfOk};
ghost use Rattle.desk_comparison.specs.Halts.{IsEnd};
ghost use Rattle.desk_comparison.specs.Told.{verdict_status, verdict_text, word_of};

use desk_base::{Memory, Text};
use desk_compare::{Verdict, What};
use desk_report::{Status, append_shown};
use itoa::Buffer;
use std::alloc::Global;

/// The word of a difference.
fn word_of(what: What) -> &'static [u8]
    ensures { result.now ≡ word_of what }
{
    match what {
        What::Missing => b"missing",
        What::Extra => b"extra",
        What::Bytes => b"bytes",
        What::Malformed => b"malformed",
        What::Tree => b"tree",
    }
}

/// The line of a verdict on so many files.
pub(crate) fn verdict_text(alloc: Global, files: usize, verdict: &Verdict) -> Result<Text, Memory>
    ensures { IfOk result (λ text. text ≡ verdict_text files verdict.now) }
{
    let mut text = Text::empty(alloc);
    match verdict {
        Verdict::Same => {
            text.append(b"same files=")?;
            text.append(Buffer::new().format(files as u64).as_bytes())?;
        }
        Verdict::Differs { path, what } => {
            text.append(b"differs ")?;
            append_shown(&mut text, path.as_bytes())?;
            text.append(b" ")?;
            text.append(word_of(*what))?;
        }
    }
    text.append(b"\n")?;
    Ok(text)
}

/// The status of a verdict.
pub(crate) fn verdict_status(verdict: Verdict) -> Status
    ensures status { result ≡ verdict_status verdict }
    ensures end { IsEnd result }
{
    match verdict {
        Verdict::Same => Status::Done,
        Verdict::Differs { path, .. } => Status::Differs { path },
    }
}

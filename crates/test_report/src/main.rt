//! Cases of texts and the cursor, of names in class files, of targets that clash, and of the report: its lines, statuses and
//! sinks. Each line of the standard input is a command, behind which stands what it answers.
//!
//! ```text
//! method-descriptor (F)La/B;        the parts of a descriptor, a class name as {package|simple}
//!   (F)L{a|B};
//! ```
#![tactic(auto)]

mod answering;
mod commands;
mod cursors;
mod lines;
mod names;
mod sinks;
mod statuses;
mod texts;
mod words;

use answering::other_words;
use commands::{COMMANDS, Command};
use desk_base::{Memory, Text};
use std::io;
use test_cases::{Answers, answer_all};
use words::meant;

/// What answers the commands. It keeps nothing from one to the next.
#[derive(Drop)]
struct Cases<'r> {
    rt: &'r HostRuntime,
}

/// Answers a command.
fn answer_command(
    rt: &HostRuntime,
    command: Command,
    words: &[Text],
    out: &mut String,
) -> Result<(), Memory> {
    let alloc = rt.alloc();
    match command {
        Command::Texts(command) => texts::answer_command(alloc, command, words, out),
        Command::Name(command) => match words {
            [text] => names::answer_command(command, text.as_bytes(), out),
            _ => other_words(out),
        },
        Command::File(told) => lines::answer_file(alloc, told, words, out),
        Command::Total => lines::answer_total(alloc, words, out),
        Command::Status(ended) => statuses::answer_status(alloc, ended, words, out),
        Command::Sink(room) => {
            sinks::answer_sink(&mut *sinks::with_room(alloc, room)?, words, out)
        }
        Command::Standard => sinks::answer_standard(rt, words, out),
    }
}

impl Answers for Cases<'_> {
    fn begin(&mut self) -> Result<(), Memory> {
        Ok(())
    }

    fn answer(&mut self, words: &[Text], out: &mut String) -> Result<(), Memory> {
        if let [command, words @ ..] = words
            && let Some(command) = meant(COMMANDS, command)
        {
            return answer_command(self.rt, command, words, out);
        }
        other_words(out)
    }
}

fn main(rt: HostRuntime) -> io::Result<()> {
    answer_all(&rt, &mut Cases { rt: &rt })
}

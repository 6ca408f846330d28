//! Words that are no options of a task, looked for before `clap` reads them.

use crate::joining::is_flag;
use desk_base::Text;

/// A task with the names of its options, without their dashes.
#[derive(Clone, Copy, Debug)]
pub struct TaskOptions {
    /// The first word.
    pub task: &'static [u8],
    /// The options that may stand behind it.
    pub names: &'static [&'static [u8]],
}

/// The options of `run`.
pub const RUN: TaskOptions = TaskOptions {
    task: b"run",
    names: &[b"rules", b"from", b"to", b"ledger", b"workers", b"verify"],
};

/// The options of `generate`.
pub const GENERATE: TaskOptions = TaskOptions {
    task: b"generate",
    names: &[b"count", b"workers", b"sql"],
};

/// The options of `calls`.
pub const CALLS: TaskOptions = TaskOptions {
    task: b"calls",
    names: &[b"from", b"package"],
};

/// The options of `compare`.
pub const COMPARE: TaskOptions = TaskOptions {
    task: b"compare",
    names: &[b"rules", b"from", b"other"],
};

/// The options of `invert`.
pub const INVERT: TaskOptions = TaskOptions {
    task: b"invert",
    names: &[b"rules"],
};

/// A word that is no option of a task, and no value of one.
#[derive(Clone, Copy, Debug)]
pub enum LooseWord<'w> {
    /// It asks what the words of the program are.
    Help,
    /// It stands where an option is wanted, and begins without dashes.
    NoOption(&'w [u8]),
    /// It is an option that the task doesn't have.
    UnknownOption(&'w [u8]),
    /// It is an option that wants a value, behind which none stands.
    NoValue(&'w [u8]),
}

/// Whether a word asks what the words of the program are.
pub fn asks_for_help(word: &[u8]) -> bool {
    word == b"--help".as_slice() || word == b"-h".as_slice() || word == b"--version".as_slice()
}

/// The name of an option: what stands behind its dashes, before a `=`.
pub fn option_name(option: &[u8]) -> &[u8] {
    let name = option.strip_prefix(b"--").unwrap_or(option);
    name.split(|byte| *byte == b'=').next().unwrap_or(name)
}

/// Whether a word is an option by itself: one that holds its value, `--name=value`, or one that has none.
fn stands_alone(word: &[u8]) -> bool {
    match word {
        [b'-', b'-', name @ ..] => name.contains(&b'=') || is_flag(name),
        _ => false,
    }
}

impl TaskOptions {
    /// What is wrong with a word where an option is wanted; nothing of an option of this task.
    fn against<'w>(&self, word: &'w [u8]) -> Option<LooseWord<'w>> {
        if asks_for_help(word) {
            Some(LooseWord::Help)
        } else if !word.starts_with(b"--") {
            Some(LooseWord::NoOption(word))
        } else if !self.names.contains(&option_name(word)) {
            Some(LooseWord::UnknownOption(word))
        } else {
            None
        }
    }

    /// The first of the words behind the task that is no option of it, and no value of one: where an option is wanted, a word that
    /// doesn't begin with `--`, or an option that the task doesn't have; where a value is wanted, one that begins with `-`, or none.
    pub fn first_loose<'w>(&self, words: &'w [Text]) -> Option<LooseWord<'w>> {
        let mut awaiting = None;
        for word in words {
            let word = word.as_bytes();
            match awaiting {
                Some(_) if !word.starts_with(b"-") => awaiting = None,
                Some(option) => return Some(LooseWord::NoValue(option)),
                None => {
                    if let Some(loose) = self.against(word) {
                        return Some(loose);
                    }
                    if !stands_alone(word) {
                        awaiting = Some(word);
                    }
                }
            }
        }
        awaiting.map(LooseWord::NoValue)
    }
}

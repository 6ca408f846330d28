//! Which word stands against words that ask for nothing.

use crate::numbers::{count_of, workers_of};
use crate::packages::is_package;
use crate::roots::{is_value, leads_upward};
use desk_base::{Memory, Text};
use desk_options::{
    CALLS, COMPARE, CallsValues, GENERATE, GenerateValues, INVERT, LooseWord, RUN, RunValues,
    TaskOptions, asks_for_help, calls_values, compare_values, generate_values, invert_values,
    message_of_calls, message_of_compare, message_of_generate, message_of_invert, message_of_run,
    run_values,
};
use std::alloc::Global;

/// What stands against words that ask for nothing.
#[derive(Debug, Drop)]
pub enum Slip {
    /// There are no words.
    NoWords,
    /// They ask what the words of the program are.
    Help,
    /// The first word is no task.
    NoTask { word: Text },
    /// A word stands where an option is wanted, and begins without dashes.
    NoOption { word: Text },
    /// The task doesn't have this option.
    UnknownOption { options: TaskOptions, option: Text },
    /// An option has no value.
    NoValue { option: Text },
    /// What `clap` says against the options.
    Message { said: Text },
    /// The value of a root leads to a folder above.
    Upward { value: Text },
    /// The value of a root is none.
    NoRoot { value: Text },
    /// A value is no number of workers.
    NoWorkers { value: Text },
    /// A value is no count of classes.
    NoCount { value: Text },
    /// A value is no package.
    NoPackage { value: Text },
}

/// A word of its own.
fn word(alloc: Global, word: &[u8]) -> Result<Text, Memory> {
    Text::from_bytes(alloc, word)
}

/// What is said of a word that is no option of a task, and no value of one.
fn slip_of_loose(
    alloc: Global,
    options: TaskOptions,
    loose: LooseWord<'_>,
) -> Result<Slip, Memory> {
    match loose {
        LooseWord::Help => Ok(Slip::Help),
        LooseWord::NoOption(found) => Ok(Slip::NoOption {
            word: word(alloc, found)?,
        }),
        LooseWord::UnknownOption(found) => Ok(Slip::UnknownOption {
            options,
            option: word(alloc, found)?,
        }),
        LooseWord::NoValue(found) => Ok(Slip::NoValue {
            option: word(alloc, found)?,
        }),
    }
}

/// What `clap` says, if anything.
fn slip_of_message(said: Option<Text>) -> Option<Slip> {
    said.map(|said| Slip::Message { said })
}

/// What stands against the value of a root.
fn slip_of_root(root: &Text) -> Result<Option<Slip>, Memory> {
    if leads_upward(root.as_bytes()) {
        return Ok(Some(Slip::Upward {
            value: root.clone()?,
        }));
    }
    if !is_value(root.as_bytes()) {
        return Ok(Some(Slip::NoRoot {
            value: root.clone()?,
        }));
    }
    Ok(None)
}

/// What stands against the first of these values that is no root.
fn slip_of_roots(roots: &[&Text]) -> Result<Option<Slip>, Memory> {
    for root in roots {
        if let Some(slip) = slip_of_root(root)? {
            return Ok(Some(slip));
        }
    }
    Ok(None)
}

/// What stands against a number of workers.
fn slip_of_workers(workers: &Option<Text>) -> Result<Option<Slip>, Memory> {
    match workers {
        Some(value) if workers_of(workers).is_none() => Ok(Some(Slip::NoWorkers {
            value: value.clone()?,
        })),
        _ => Ok(None),
    }
}

/// What stands against the values of `run`: against its roots, else against the number of workers.
fn slip_of_run(values: &RunValues) -> Result<Option<Slip>, Memory> {
    let roots = [&values.rules, &values.from, &values.to, &values.ledger];
    match slip_of_roots(&roots)? {
        Some(slip) => Ok(Some(slip)),
        None => slip_of_workers(&values.workers),
    }
}

/// What stands against the values of `generate`: against the count, else against the number of workers.
fn slip_of_generate(values: &GenerateValues) -> Result<Option<Slip>, Memory> {
    match count_of(&values.count) {
        Some(_) => slip_of_workers(&values.workers),
        None => Ok(Some(Slip::NoCount {
            value: values.count.clone()?,
        })),
    }
}

/// What stands against the values of `calls`: against the root, else against the package.
fn slip_of_calls(values: &CallsValues) -> Result<Option<Slip>, Memory> {
    match slip_of_root(&values.from)? {
        Some(slip) => Ok(Some(slip)),
        None if is_package(values.package.as_bytes()) => Ok(None),
        None => Ok(Some(Slip::NoPackage {
            value: values.package.clone()?,
        })),
    }
}

/// The first of the words behind a task that is no option of it, and no value of one.
fn loose_slip(alloc: Global, options: TaskOptions, words: &[Text]) -> Result<Option<Slip>, Memory> {
    match options.first_loose(words) {
        Some(loose) => Ok(Some(slip_of_loose(alloc, options, loose)?)),
        None => Ok(None),
    }
}

/// What stands against words behind `run`.
fn slip_behind_run(alloc: Global, words: &[Text]) -> Result<Option<Slip>, Memory> {
    if let Some(slip) = loose_slip(alloc, RUN, words)? {
        return Ok(Some(slip));
    }
    match run_values(alloc, words)? {
        Some(values) => slip_of_run(&values),
        None => Ok(slip_of_message(message_of_run(alloc, words)?)),
    }
}

/// What stands against words behind `generate`.
fn slip_behind_generate(alloc: Global, words: &[Text]) -> Result<Option<Slip>, Memory> {
    if let Some(slip) = loose_slip(alloc, GENERATE, words)? {
        return Ok(Some(slip));
    }
    match generate_values(alloc, words)? {
        Some(values) => slip_of_generate(&values),
        None => Ok(slip_of_message(message_of_generate(alloc, words)?)),
    }
}

/// What stands against words behind `calls`.
fn slip_behind_calls(alloc: Global, words: &[Text]) -> Result<Option<Slip>, Memory> {
    if let Some(slip) = loose_slip(alloc, CALLS, words)? {
        return Ok(Some(slip));
    }
    match calls_values(alloc, words)? {
        Some(values) => slip_of_calls(&values),
        None => Ok(slip_of_message(message_of_calls(alloc, words)?)),
    }
}

/// What stands against words behind `compare`.
fn slip_behind_compare(alloc: Global, words: &[Text]) -> Result<Option<Slip>, Memory> {
    if let Some(slip) = loose_slip(alloc, COMPARE, words)? {
        return Ok(Some(slip));
    }
    match compare_values(alloc, words)? {
        Some(values) => slip_of_roots(&[&values.rules, &values.from, &values.other]),
        None => Ok(slip_of_message(message_of_compare(alloc, words)?)),
    }
}

/// What stands against words behind `invert`.
fn slip_behind_invert(alloc: Global, words: &[Text]) -> Result<Option<Slip>, Memory> {
    if let Some(slip) = loose_slip(alloc, INVERT, words)? {
        return Ok(Some(slip));
    }
    match invert_values(alloc, words)? {
        Some(values) => slip_of_root(&values.rules),
        None => Ok(slip_of_message(message_of_invert(alloc, words)?)),
    }
}

/// What stands against the words behind a task, by its name.
fn slip_behind(alloc: Global, task: &[u8], words: &[Text]) -> Result<Option<Slip>, Memory> {
    if task == RUN.task {
        slip_behind_run(alloc, words)
    } else if task == GENERATE.task {
        slip_behind_generate(alloc, words)
    } else if task == CALLS.task {
        slip_behind_calls(alloc, words)
    } else if task == COMPARE.task {
        slip_behind_compare(alloc, words)
    } else if task == INVERT.task {
        slip_behind_invert(alloc, words)
    } else if asks_for_help(task) || task == b"help".as_slice() {
        Ok(Some(Slip::Help))
    } else {
        Ok(Some(Slip::NoTask {
            word: word(alloc, task)?,
        }))
    }
}

/// What stands against words that mean no task: a word, or the value of an option; where an option is given twice or is missing, what
/// `clap` says. None where it can't be told. The only error is want of memory.
pub fn find_slip(alloc: Global, words: &[Text]) -> Result<Option<Slip>, Memory> {
    match words {
        [first, behind @ ..] => slip_behind(alloc, first.as_bytes(), behind),
        [] => Ok(Some(Slip::NoWords)),
    }
}

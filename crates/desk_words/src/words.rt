//! The task that words mean.

ghost use Rattle.std.specs.Prelude.{◌≡◌, Some, None, Err, IfOk};
ghost use Rattle.std.specs.Option.{option_and_then};
ghost use Rattle.desk_options.specs.Values.{run_values, generate_values, calls_values, compare_values, invert_values};
ghost use Rattle.desk_words.specs.Words.{run_task, generate_task, calls_task, compare_task, invert_task, task_of};

use crate::numbers::{count_of, workers_of};
use crate::packages::package_of;
use crate::roots::Root;
use desk_base::{Memory, Text, TextList};
use desk_options::{
    CallsValues, CompareValues, GenerateValues, InvertValues, RunValues, calls_values,
    compare_values, generate_values, invert_values, run_values,
};
use std::alloc::Global;

/// What words ask for.
#[derive(Debug, Drop)]
pub enum Task {
    /// A run by rules, from a source to a target, with a ledger.
    Run {
        rules: Root,
        from: Root,
        to: Root,
        ledger: Root,
        workers: u32,
        /// Whether the run looks at the targets of the files that it would keep.
        verify: bool,
    },
    /// A run over a generated application of so many classes.
    Generate {
        count: u32,
        workers: u32,
        /// Whether the run keeps its rows in the ledger that the program hands in, in place of one of its own.
        sql: bool,
    },
    /// Where the classes of an application use members of a package's classes.
    Calls {
        from: Root,
        /// The segments of the package.
        package: TextList,
    },
    /// Whether another application is what rules make of an application.
    Compare {
        rules: Root,
        from: Root,
        other: Root,
    },
    /// The inverse of the rules in a folder.
    Invert {
        rules: Root,
    },
}

/// Why words were not read.
#[derive(Clone, Copy, Debug, PartialEq, Eq)]
pub enum WordsFault {
    /// The words mean no task.
    Usage,
    /// Memory ran out.
    Memory,
}

impl From<Memory> for WordsFault {
    ghost use Rattle.std.specs.Prelude.{◌≡◌};
    ghost use Rattle.desk_words.specs.declared.words.WordsFault.TheVariants as fault;

    ghost from_gives = { λ _ it. it ≡ fault.Memory };

    fn from(_: Memory) -> WordsFault {
        WordsFault::Memory
    }
}

/// The task of the values that `run` is given, if they have one.
fn run_task(alloc: Global, values: &RunValues) -> Result<Option<Task>, Memory>
    ensures { IfOk result (λ task. task ≡ run_task values.now) }
{
    let rules = Root::read(alloc, values.rules.as_bytes())?;
    let from = Root::read(alloc, values.from.as_bytes())?;
    let to = Root::read(alloc, values.to.as_bytes())?;
    let ledger = Root::read(alloc, values.ledger.as_bytes())?;
    let workers = workers_of(&values.workers);
    match (rules, from, to, ledger, workers) {
        (Some(rules), Some(from), Some(to), Some(ledger), Some(workers)) => Ok(Some(Task::Run {
            rules,
            from,
            to,
            ledger,
            workers,
            verify: values.verify,
        })),
        _ => Ok(None),
    }
}

/// The task of the values that `generate` is given, if they have one.
fn generate_task(values: &GenerateValues) -> Option<Task>
    ensures { result ≡ generate_task values.now }
{
    match (count_of(&values.count), workers_of(&values.workers)) {
        (Some(count), Some(workers)) => Some(Task::Generate {
            count,
            workers,
            sql: values.sql,
        }),
        _ => None,
    }
}

/// The task of the values that `calls` is given, if they have one.
fn calls_task(alloc: Global, values: &CallsValues) -> Result<Option<Task>, Memory>
    ensures { IfOk result (λ task. task ≡ calls_task values.now) }
{
    let from = Root::read(alloc, values.from.as_bytes())?;
    let package = package_of(alloc, &values.package)?;
    match (from, package) {
        (Some(from), Some(package)) => Ok(Some(Task::Calls { from, package })),
        _ => Ok(None),
    }
}

/// The task of the values that `compare` is given, if they have one.
fn compare_task(alloc: Global, values: &CompareValues) -> Result<Option<Task>, Memory>
    ensures { IfOk result (λ task. task ≡ compare_task values.now) }
{
    let rules = Root::read(alloc, values.rules.as_bytes())?;
    let from = Root::read(alloc, values.from.as_bytes())?;
    let other = Root::read(alloc, values.other.as_bytes())?;
    match (rules, from, other) {
        (Some(rules), Some(from), Some(other)) => Ok(Some(Task::Compare { rules, from, other })),
        _ => Ok(None),
    }
}

/// The task of the value that `invert` is given, if it has one.
fn invert_task(alloc: Global, values: &InvertValues) -> Result<Option<Task>, Memory>
    ensures { IfOk result (λ task. task ≡ invert_task values.now) }
{
    match Root::read(alloc, values.rules.as_bytes())? {
        Some(rules) => Ok(Some(Task::Invert { rules })),
        None => Ok(None),
    }
}

/// The task of words behind `run`.
fn run_behind(alloc: Global, behind: &[Text]) -> Result<Option<Task>, Memory>
    ensures { IfOk result (λ task. task ≡ option_and_then run_task (run_values behind.now)) }
{
    match run_values(alloc, behind)? {
        Some(values) => run_task(alloc, &values),
        None => Ok(None),
    }
}

/// The task of words behind `generate`.
fn generate_behind(alloc: Global, behind: &[Text]) -> Result<Option<Task>, Memory>
    ensures { IfOk result (λ task. task ≡ option_and_then generate_task (generate_values behind.now)) }
{
    match generate_values(alloc, behind)? {
        Some(values) => Ok(generate_task(&values)),
        None => Ok(None),
    }
}

/// The task of words behind `calls`.
fn calls_behind(alloc: Global, behind: &[Text]) -> Result<Option<Task>, Memory>
    ensures { IfOk result (λ task. task ≡ option_and_then calls_task (calls_values behind.now)) }
{
    match calls_values(alloc, behind)? {
        Some(values) => calls_task(alloc, &values),
        None => Ok(None),
    }
}

/// The task of words behind `compare`.
fn compare_behind(alloc: Global, behind: &[Text]) -> Result<Option<Task>, Memory>
    ensures { IfOk result (λ task. task ≡ option_and_then compare_task (compare_values behind.now)) }
{
    match compare_values(alloc, behind)? {
        Some(values) => compare_task(alloc, &values),
        None => Ok(None),
    }
}

/// The task of words behind `invert`.
fn invert_behind(alloc: Global, behind: &[Text]) -> Result<Option<Task>, Memory>
    ensures { IfOk result (λ task. task ≡ option_and_then invert_task (invert_values behind.now)) }
{
    match invert_values(alloc, behind)? {
        Some(values) => invert_task(alloc, &values),
        None => Ok(None),
    }
}

/// The task of words, if they have one.
fn task_of(alloc: Global, words: &[Text]) -> Result<Option<Task>, Memory>
    ensures { IfOk result (λ task. task ≡ task_of words.now) }
{
    match words {
        [first, behind @ ..] => {
            if first.as_bytes() == b"run".as_slice() {
                run_behind(alloc, behind)
            } else if first.as_bytes() == b"generate".as_slice() {
                generate_behind(alloc, behind)
            } else if first.as_bytes() == b"calls".as_slice() {
                calls_behind(alloc, behind)
            } else if first.as_bytes() == b"compare".as_slice() {
                compare_behind(alloc, behind)
            } else if first.as_bytes() == b"invert".as_slice() {
                invert_behind(alloc, behind)
            } else {
                Ok(None)
            }
        }
        [] => Ok(None),
    }
}

/// Reads words: `run`, and behind it the options `--rules R`, `--from A`, `--to B`, `--ledger L` and, if
/// they are wanted, `--workers N` and `--verify`, in any order; or `generate`, and behind it `--count N` and, if
/// they are wanted, `--workers N` and `--sql`; or `calls`, and behind it `--from A` and `--package P`; or `compare`, and
/// behind it `--rules R`, `--from A` and `--other B`; or `invert`, and behind it `--rules R`. An option with a value is two
/// words, `--name value`, whose second doesn't begin with `-`, or one word, `--name=value`; `--verify` and `--sql` have no
/// value. Each is given at most once.
///
/// A root isn't empty, has at most 1,024 bytes and no part `..`. The number of workers is 1 to 64, and 1
/// where it isn't given; the count is 1 to 20,000. Numbers are decimal digits without a sign or a leading
/// zero. A package is written with dots, as in a rule file.
///
/// Any other words, and words of which one isn't UTF-8, are the fault `Usage`; `Memory` may come at any
/// words.
pub fn read_words(alloc: Global, words: &[Text]) -> Result<Task, WordsFault>
    ensures task { IfOk result (λ task. task_of words.now ≡ Some task) }
    ensures usage { result ≡ Err WordsFault.Usage → task_of words.now ≡ None }
{
    match task_of(alloc, words)? {
        Some(task) => Ok(task),
        None => Err(WordsFault::Usage),
    }
}

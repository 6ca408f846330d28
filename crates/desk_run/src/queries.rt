//! Answers queries: what words ask that changes neither folders nor ledger.

ghost use Rattle.std.specs.Prelude.{◌≡◌, ◌≤◌, Ok, IfOk, IfErr, IfSome, if◌then◌else◌};
ghost use Rattle.desk_comparison.specs.Answers.{comparison};
ghost use Rattle.desk_comparison.specs.Halts.{IsEnd};
ghost use Rattle.desk_report.specs.Written.{WritesFront};
ghost use Rattle.desk_run.specs.Queries.{HaltsQuery, LeavesAnswer, WritesText, answer_of, calls_told, halt_of_inverse, inverse_told};
ghost use Rattle.desk_words.specs.Roots.{IsSoundQuery};
ghost use Rattle.desk_words.specs.declared.roots.Query.TheVariants as query;

use crate::stops::status_of_halt;
use crate::threading::Threading;
use desk_base::{Text, TextList};
use desk_calls::find_calls;
use desk_comparison::{Comparison, WORKERS, compare_applications};
use desk_folders::Folders;
use desk_intake::{Halt, read_rule_set};
use desk_invert::{InvertError, invert};
use desk_report::{Sink, Status};
use desk_words::Query;
use desk_workers::Gate;
use std::alloc::Global;
use std::thread::Threads;

/// What a query is answered with.
#[derive(Debug, Drop)]
pub struct Reply {
    /// What is written.
    pub text: Text,
    /// The status behind it: `Done`, `Refusals` or `Differs`.
    pub status: Status,
}

/// The status behind the call sites of classes: `Refusals` where a class was refused.
fn calls_status(refused: bool) -> Status
    ensures status { result ≡ (if refused then Status.Refusals else Status.Done) }
    ensures end { IsEnd result }
{
    if refused {
        Status::Refusals
    } else {
        Status::Done
    }
}

/// Where the classes below a root use members of a package.
fn reply_calls<R: Threads + Sync, F: Folders, G: Gate + Sync>(
    threading: &Threading<'_, R, G>,
    alloc: Global,
    folders: &mut F,
    from: &Text,
    package: &TextList,
) -> Result<Reply, Halt>
    requires { IsSoundQuery (query.Calls from.now «package».now) }
    ensures told { F.told folders.new ≡ F.told folders.old }
    ensures ok { IfOk result (λ reply. IfSome (F.told folders.old) (λ m. calls_told from.now «package».now m ≡ Ok (reply.text, reply.status))) }
    ensures ends { IfOk result (λ reply. IsEnd reply.status) }
    ensures err { IfErr result (HaltsQuery (query.Calls from.now «package».now) (F.told folders.old) (F.faults folders.old) (F.faults folders.new)) }
    ensures counts { F.faults folders.old ≤ F.faults folders.new }
{
    let calls = find_calls(threading.rt, alloc, folders, threading.gate, from, package)?;
    Ok(Reply {
        text: calls.text,
        status: calls_status(calls.refused),
    })
}

/// How a rule set without an inverse is told.
fn halt_of_inverse(error: InvertError) -> Halt
    ensures { result ≡ halt_of_inverse error }
{
    match error {
        InvertError::Fault(fault) => Halt::Answer(Status::NotInvertible(fault)),
        InvertError::Memory => Halt::Memory,
    }
}

/// The rule file of the inverse of the rules in a folder.
fn reply_inverse<F: Folders>(alloc: Global, folders: &mut F, rules: &Text) -> Result<Reply, Halt>
    requires { IsSoundQuery (query.Invert rules.now) }
    ensures told { F.told folders.new ≡ F.told folders.old }
    ensures ok { IfOk result (λ reply. IfSome (F.told folders.old) (λ m. inverse_told rules.now m ≡ Ok (reply.text, reply.status))) }
    ensures ends { IfOk result (λ reply. IsEnd reply.status) }
    ensures err { IfErr result (HaltsQuery (query.Invert rules.now) (F.told folders.old) (F.faults folders.old) (F.faults folders.new)) }
    ensures counts { F.faults folders.old ≤ F.faults folders.new }
{
    let rules = read_rule_set(alloc, folders, rules)?;
    match invert(alloc, &rules) {
        Ok(text) => Ok(Reply {
            text,
            status: Status::Done,
        }),
        Err(error) => Err(halt_of_inverse(error)),
    }
}

/// Whether the application below one root is what the rules in a folder make of the application below another.
fn reply_compare<R: Threads + Sync, F: Folders, G: Gate + Sync>(
    threading: &Threading<'_, R, G>,
    alloc: Global,
    folders: &mut F,
    rules: &Text,
    from: &Text,
    other: &Text,
) -> Result<Reply, Halt>
    requires { IsSoundQuery (query.Compare rules.now from.now other.now) }
    ensures told { F.told folders.new ≡ F.told folders.old }
    ensures ok { IfOk result (λ reply. IfSome (F.told folders.old) (λ m. comparison rules.now from.now other.now m ≡ Ok (reply.text, reply.status))) }
    ensures ends { IfOk result (λ reply. IsEnd reply.status) }
    ensures err { IfErr result (HaltsQuery (query.Compare rules.now from.now other.now) (F.told folders.old) (F.faults folders.old) (F.faults folders.new)) }
    ensures counts { F.faults folders.old ≤ F.faults folders.new }
{
    let workers = threading.workers(WORKERS);
    let Comparison { text, status } = compare_applications(
        &workers, alloc, folders, rules, from, other,
    )?;
    Ok(Reply { text, status })
}

/// The answer of a query, or why there is none.
fn reply_of<R: Threads + Sync, F: Folders, G: Gate + Sync>(
    threading: &Threading<'_, R, G>,
    alloc: Global,
    folders: &mut F,
    asked: &Query,
) -> Result<Reply, Halt>
    requires { IsSoundQuery asked.now }
    ensures told { F.told folders.new ≡ F.told folders.old }
    ensures ok { IfOk result (λ reply. IfSome (F.told folders.old) (λ m. answer_of asked.now m ≡ Ok (reply.text, reply.status))) }
    ensures ends { IfOk result (λ reply. IsEnd reply.status) }
    ensures err { IfErr result (HaltsQuery asked.now (F.told folders.old) (F.faults folders.old) (F.faults folders.new)) }
    ensures counts { F.faults folders.old ≤ F.faults folders.new }
{
    match asked {
        Query::Calls { from, package } => reply_calls(threading, alloc, folders, from, package),
        Query::Invert { rules } => reply_inverse(alloc, folders, rules),
        Query::Compare { rules, from, other } => {
            reply_compare(threading, alloc, folders, rules, from, other)
        }
    }
}

/// Writes the text of a reply: the status is the one behind it, or `OutputFault`.
fn tell_reply<O: Sink>(out: &mut O, reply: Reply) -> Status
    requires { IsEnd reply.status }
    ensures told { WritesText reply.text reply.status (O.told out.old) (O.told out.new) (O.faults out.old) (O.faults out.new) result }
    ensures counts { O.faults out.old ≤ O.faults out.new }
{
    match out.write(reply.text.as_bytes()) {
        Ok(()) => reply.status,
        Err(_) => Status::OutputFault,
    }
}

/// Answers a query, without the line of a fault. Its text is written once all is read, so that before a fault of the folders and
/// before want of memory nothing is.
pub(crate) fn run_query<R: Threads + Sync, F: Folders, O: Sink, G: Gate + Sync>(
    threading: &Threading<'_, R, G>,
    alloc: Global,
    asked: &Query,
    folders: &mut F,
    out: &mut O,
) -> Status
    requires { IsSoundQuery asked.now }
    ensures told { F.told folders.new ≡ F.told folders.old }
    ensures answer { LeavesAnswer asked.now (F.told folders.old) (O.told out.old) (O.told out.new) (F.faults folders.old) (F.faults folders.new) (O.faults out.old) (O.faults out.new) result }
    ensures counts_f { F.faults folders.old ≤ F.faults folders.new }
    ensures counts_o { O.faults out.old ≤ O.faults out.new }
{
    match reply_of(threading, alloc, folders, asked) {
        Ok(reply) => tell_reply(out, reply),
        Err(halt) => status_of_halt(halt),
    }
}

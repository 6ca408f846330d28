//! Roots: the folders and the ledger that words name.

ghost use Rattle.std.specs.Prelude.{◌≡◌, Some, Ok, Err, IfOk, IfErr, OnOk, option_map, filter, not, ◌++◌, ◌∷◌, []};
ghost use Rattle.std.specs.List.{list_any};
ghost use Rattle.desk_base.specs.Names.{written as joined};
ghost use Rattle.desk_words.specs.Words.{is_value, parts, is_upward, is_dropped, named_parts, root_of, written, lies_in, overlap, first_nested};
ghost use Rattle.desk_words.specs.Roots.{IsSound, RefusedBy, generate_order, nested_fault, order_apart, order_of_words};
ghost use Rattle.desk_words.specs.declared.roots.Order.TheVariants as order;
ghost use Rattle.desk_words.specs.declared.roots.Query.TheVariants as query;

use crate::words::{Task, WordsFault, read_words};
use desk_base::{Memory, Text, TextList};
use std::alloc::Global;

/// A folder or file that a word names: the segments between its `/`, without empty ones and `.`.
#[derive(Debug, Drop)]
pub struct Root {
    /// Whether the word begins with `/`.
    pub absolute: bool,
    /// The segments in their order; none for `.` and `/`.
    pub segments: TextList,
}

/// Whether a value may name a root.
pub(crate) fn is_value(value: &[u8]) -> bool
    ensures { result ≡ is_value value.now }
{
    match value {
        [] => false,
        _ => value.len() <= 1024,
    }
}

/// Whether a part of a value leads nowhere.
fn is_dropped(part: &[u8]) -> bool
    ensures { result ≡ is_dropped part.now }
{
    part.is_empty() || part == b".".as_slice()
}

/// Whether a value leads to a folder above.
pub(crate) fn leads_upward(value: &[u8]) -> bool
    ensures { result ≡ list_any is_upward (parts value.now) }
{
    value
        .split(|byte| *byte == b'/')
        .any(|part| part == b"..".as_slice())
}

/// Adds a part unless it leads nowhere.
fn push_named(alloc: Global, list: &mut TextList, part: &[u8]) -> Result<(), Memory>
    ensures { OnOk result (list.new ≡ list.old ++ filter (λ part. not (is_dropped part)) (part.now ∷ [])) }
{
    if is_dropped(part) {
        Ok(())
    } else {
        list.push(Text::from_bytes(alloc, part)?)
    }
}

/// The parts of a value that are no empty text and no `.`.
fn named_parts(alloc: Global, value: &[u8]) -> Result<TextList, Memory>
    ensures { IfOk result (λ list. list ≡ named_parts value.now) }
{
    let mut list = TextList::empty(alloc);
    for part in value.split(|byte| *byte == b'/') {
        push_named(alloc, &mut list, part)?;
    }
    Ok(list)
}

impl Root {
    /// The root that a value names; none where it isn't a value, or has a part `..`.
    pub(crate) fn read(alloc: Global, value: &[u8]) -> Result<Option<Root>, Memory>
        ensures { IfOk result (λ root. root ≡ root_of value.now) }
    {
        if !is_value(value) || leads_upward(value) {
            return Ok(None);
        }
        let segments = named_parts(alloc, value)?;
        Ok(Some(Root {
            absolute: value.starts_with(b"/"),
            segments,
        }))
    }

    /// The root as it is written: its segments joined by `/`, after `/` if it is absolute; `.` if it is
    /// relative and has none. The only error is want of memory.
    pub fn written(&self, alloc: Global) -> Result<Text, Memory>
        ensures { IfOk result (λ text. text ≡ written self.now) }
    {
        let segments = self.segments.as_slice();
        if self.absolute {
            joined_behind(Text::from_bytes(alloc, b"/")?, segments)
        } else if segments.is_empty() {
            Text::from_bytes(alloc, b".")
        } else {
            joined_behind(Text::empty(alloc), segments)
        }
    }

    /// Whether this root lies in another, or is it.
    fn lies_in(&self, other: &Root) -> bool
        ensures { result ≡ lies_in self.now other.now }
    {
        self.absolute == other.absolute
            && self
                .segments
                .as_slice()
                .starts_with(other.segments.as_slice())
    }

    /// Whether one of two roots lies in the other.
    fn overlaps(&self, other: &Root) -> bool
        ensures { result ≡ overlap self.now other.now }
    {
        self.lies_in(other) || other.lies_in(self)
    }
}

/// A text with segments behind it, joined by `/`.
fn joined_behind(text: Text, segments: &[Text]) -> Result<Text, Memory>
    ensures { IfOk result (λ joined_text. joined_text ≡ text ++ joined 47 segments.now) }
{
    let mut text = text;
    for (i, segment) in segments.iter().enumerate() {
        if i > 0 {
            text.push(b'/')?;
        }
        text.append(segment.as_bytes())?;
    }
    Ok(text)
}

/// The roots of a run as they are written, and how it looks at what it finds there.
///
/// A root is `.`, `/`, or its segments joined by `/`.
#[derive(Debug, Drop)]
pub struct Roots {
    /// The rule folder.
    pub rules: Text,
    /// The root of the source.
    pub from: Text,
    /// The root of the target.
    pub to: Text,
    /// The file of the ledger.
    pub ledger: Text,
    /// Whether the run looks at the targets of the files that it would keep.
    pub verify: bool,
}

/// What words ask for.
#[derive(Debug, Drop)]
pub enum Order {
    /// A run over these roots, by so many workers.
    Run { roots: Roots, workers: u32 },
    /// A run over a generated application of so many classes, by so many workers.
    Generate { count: u32, workers: u32 },
    /// The same, whose rows go into the ledger that is handed in.
    GenerateSql { count: u32, workers: u32 },
    /// A question, which is answered without a change of folders and ledger.
    Query(Query),
}

/// What words ask that is answered without a change of folders and ledger. A root is as it is written.
#[derive(Debug, Drop)]
pub enum Query {
    /// Where the classes below this root use members of the classes of this package, or of one below it.
    Calls {
        from: Text,
        package: TextList,
    },
    /// Whether the application below `other` is what the rules in this folder make of the application below `from`.
    Compare {
        rules: Text,
        from: Text,
        other: Text,
    },
    /// The inverse of the rules in this folder.
    Invert {
        rules: Text,
    },
}

/// Why words ask for nothing that can be done.
#[derive(Debug, Drop)]
pub enum RootsFault {
    /// The words mean no task.
    Usage,
    /// Of these roots, as they are written, one lies in the other where it may not.
    Nested { first: Text, second: Text },
    /// Memory ran out.
    Memory,
}

impl From<Memory> for RootsFault {
    ghost use Rattle.std.specs.Prelude.{◌≡◌};
    ghost use Rattle.desk_words.specs.declared.roots.RootsFault.TheVariants as fault;

    ghost from_gives = { λ _ it. it ≡ fault.Memory };

    fn from(_: Memory) -> RootsFault {
        RootsFault::Memory
    }
}

/// The fault of two roots of which one lies in the other, or want of memory.
fn nested(alloc: Global, first: &Root, second: &Root) -> Result<RootsFault, Memory>
    ensures { IfOk result (λ fault. fault ≡ RootsFault.Nested (written first.now) (written second.now)) }
{
    let first = first.written(alloc)?;
    let second = second.written(alloc)?;
    Ok(RootsFault::Nested { first, second })
}

/// The roots of a run as words give them, and whether the run looks at the targets of kept files.
#[derive(Debug, Drop)]
struct RunRoots {
    rules: Root,
    from: Root,
    to: Root,
    ledger: Root,
    verify: bool,
}

/// The first nested pair of a run's roots, as a fault.
fn first_nested(alloc: Global, roots: &RunRoots) -> Result<Option<RootsFault>, Memory>
    ensures { IfOk result (λ fault. fault ≡ option_map nested_fault (first_nested roots.now.rules roots.now.from roots.now.to roots.now.ledger)) }
{
    let RunRoots {
        rules,
        from,
        to,
        ledger,
        ..
    } = roots;
    if from.overlaps(to) {
        Ok(Some(nested(alloc, from, to)?))
    } else if rules.overlaps(to) {
        Ok(Some(nested(alloc, rules, to)?))
    } else if ledger.lies_in(from) {
        Ok(Some(nested(alloc, ledger, from)?))
    } else if ledger.lies_in(to) {
        Ok(Some(nested(alloc, ledger, to)?))
    } else if ledger.lies_in(rules) {
        Ok(Some(nested(alloc, ledger, rules)?))
    } else {
        Ok(None)
    }
}

/// The roots of a run as they are written.
fn written_roots(alloc: Global, roots: &RunRoots) -> Result<Roots, Memory>
    ensures { IfOk result (λ given. given ≡ record {
      rules = written roots.now.rules;
      from = written roots.now.from;
      to = written roots.now.to;
      ledger = written roots.now.ledger;
      verify = roots.now.verify;
    }) }
{
    let rules = roots.rules.written(alloc)?;
    let from = roots.from.written(alloc)?;
    let to = roots.to.written(alloc)?;
    let ledger = roots.ledger.written(alloc)?;
    Ok(Roots {
        rules,
        from,
        to,
        ledger,
        verify: roots.verify,
    })
}

/// A run over the roots as they are written, or the fault of the first pair of them that is nested, or want
/// of memory.
fn order_apart(alloc: Global, roots: &RunRoots, workers: u32) -> Result<Order, RootsFault>
    ensures ok { IfOk result (λ order. order_apart roots.now.rules roots.now.from roots.now.to roots.now.ledger workers roots.now.verify
        (first_nested roots.now.rules roots.now.from roots.now.to roots.now.ledger) ≡ Ok order) }
    ensures err { IfErr result (RefusedBy (order_apart roots.now.rules roots.now.from roots.now.to roots.now.ledger workers roots.now.verify
        (first_nested roots.now.rules roots.now.from roots.now.to roots.now.ledger))) }
{
    match first_nested(alloc, roots)? {
        Some(fault) => Err(fault),
        None => {
            let roots = written_roots(alloc, roots)?;
            Ok(Order::Run { roots, workers })
        }
    }
}

/// A run over a generated application, with a ledger of its own or, by `sql`, with the one that is handed in.
fn generate_order(count: u32, workers: u32, sql: bool) -> Order
    ensures { result ≡ generate_order count workers sql }
{
    if sql {
        Order::GenerateSql { count, workers }
    } else {
        Order::Generate { count, workers }
    }
}

/// What is asked of the classes below a root.
fn calls_query(alloc: Global, from: &Root, package: TextList) -> Result<Order, Memory>
    ensures { IfOk result (λ given. given ≡ order.Query (query.Calls (written from.now) «package»)) }
{
    let from = from.written(alloc)?;
    Ok(Order::Query(Query::Calls { from, package }))
}

/// What is asked of two applications.
fn compare_query(alloc: Global, rules: &Root, from: &Root, other: &Root) -> Result<Order, Memory>
    ensures { IfOk result (λ given. given ≡ order.Query (query.Compare (written rules.now) (written from.now) (written other.now))) }
{
    let rules = rules.written(alloc)?;
    let from = from.written(alloc)?;
    let other = other.written(alloc)?;
    Ok(Order::Query(Query::Compare { rules, from, other }))
}

/// What is asked of the rules in a folder.
fn invert_query(alloc: Global, rules: &Root) -> Result<Order, Memory>
    ensures { IfOk result (λ given. given ≡ order.Query (query.Invert (written rules.now))) }
{
    let rules = rules.written(alloc)?;
    Ok(Order::Query(Query::Invert { rules }))
}

/// What words ask for, or why they ask for nothing.
fn order_of(alloc: Global, words: &[Text]) -> Result<Order, RootsFault>
    ensures ok { IfOk result (λ order. order_of_words words.now ≡ Ok order) }
    ensures err { IfErr result (RefusedBy (order_of_words words.now)) }
{
    match read_words(alloc, words) {
        Ok(
            Task::Run {
                rules,
                from,
                to,
                ledger,
                workers,
                verify,
            },
        ) => {
            let roots = RunRoots {
                rules,
                from,
                to,
                ledger,
                verify,
            };
            order_apart(alloc, &roots, workers)
        }
        Ok(
            Task::Generate {
                count,
                workers,
                sql,
            },
        ) => Ok(generate_order(count, workers, sql)),
        Ok(Task::Calls { from, package }) => Ok(calls_query(alloc, &from, package)?),
        Ok(Task::Compare { rules, from, other }) => Ok(compare_query(
            alloc, &rules, &from, &other,
        )?),
        Ok(Task::Invert { rules }) => Ok(invert_query(alloc, &rules)?),
        Err(WordsFault::Usage) => Err(RootsFault::Usage),
        Err(WordsFault::Memory) => Err(RootsFault::Memory),
    }
}

/// What words ask for: a run over roots, as they are written, a run over a generated application, or a query. The
/// roots are such that paths stand below them, and of a run source and target have no path in common; the workers are 1 to 64.
/// In a query roots may lie in each other.
/// The errors: `Usage` of words without a task; `Nested` with the first two roots of which one lies
/// in the other; `Memory`, which may come at any words.
pub fn read_order(alloc: Global, words: &[Text]) -> Result<Order, RootsFault>
    ensures ok { IfOk result (λ order. order_of_words words.now ≡ Ok order) }
    ensures sound { IfOk result IsSound }
    ensures err { IfErr result (RefusedBy (order_of_words words.now)) }
{
    order_of(alloc, words)
}

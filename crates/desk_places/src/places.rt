//! Places, and which of them lies in another.

ghost use Rattle.std.specs.Prelude.{◌≡◌};
ghost use Rattle.std.specs.List.{list_any};
ghost use Rattle.desk_places.specs.Places.{first_nested, first_obstacle, first_unknown, is_told, lies_in, overlap, same_node, told_lies_in, told_overlap};

use desk_base::{Text, TextList};
use std::io;

/// What is there on a disk, by its device and its inode.
#[derive(Clone, Copy, Debug, PartialEq, Eq, PartialOrd, Ord)]
pub struct Node {
    /// The device of the file system (`st_dev`).
    pub device: u64,
    /// The number of the file on that device (`st_ino`).
    pub inode: u64,
}

/// Where a root is: the nearest folder or file that is there, those above it up to the top, and the segments behind it
/// that aren't there.
#[derive(Debug, Drop)]
pub struct Place {
    /// The nearest folder or file on the way to the root that is there; the root itself where it is there.
    pub nearest: Node,
    /// The folders above the nearest, up to the top.
    pub above: Vec<Node>,
    /// The segments behind the nearest; none where the root is there.
    pub rest: TextList,
}

/// Whether two nodes are one.
fn is_same(first: Node, second: Node) -> bool
    ensures { result ≡ same_node first second }
{
    first.device == second.device && first.inode == second.inode
}

/// Whether a node is one of some.
fn is_among(node: Node, nodes: &[Node]) -> bool
    ensures { result ≡ list_any (same_node node) nodes.now }
{
    nodes.iter().any(|other| is_same(node, *other))
}

impl Place {
    /// Whether this place lies in another, or is it. Below a place that is there lies what has its node on the way to
    /// the top; below one that isn't, what begins at the same node with the same segments.
    pub fn lies_in(&self, other: &Place) -> bool
        ensures { result ≡ lies_in self.now other.now }
    {
        let rest = other.rest.as_slice();
        if rest.is_empty() && is_among(other.nearest, self.above.as_slice()) {
            return true;
        }
        is_same(self.nearest, other.nearest) && self.rest.as_slice().starts_with(rest)
    }

    /// Whether one of two places lies in the other.
    fn overlaps(&self, other: &Place) -> bool
        ensures { result ≡ overlap self.now other.now }
    {
        self.lies_in(other) || other.lies_in(self)
    }
}

/// The places of the four roots of a run. In place of one that the system doesn't tell stands its error.
#[derive(Debug, Drop)]
pub struct Places {
    /// Where the rule folder is.
    pub rules: io::Result<Place>,
    /// Where the source is.
    pub from: io::Result<Place>,
    /// Where the target is, or will be made.
    pub to: io::Result<Place>,
    /// Where the file of the ledger is, or will be made.
    pub ledger: io::Result<Place>,
}

/// Two roots of which one lies in the other where it may not.
#[derive(Clone, Copy, Debug, PartialEq, Eq)]
pub enum Pair {
    /// The source and the target.
    FromTo,
    /// The rule folder and the target.
    RulesTo,
    /// The ledger, in the source.
    LedgerFrom,
    /// The ledger, in the target.
    LedgerTo,
    /// The ledger, in the rule folder.
    LedgerRules,
}

/// A root of a run.
#[derive(Clone, Copy, Debug, PartialEq, Eq)]
pub enum RootName {
    /// The rule folder.
    Rules,
    /// The source.
    From,
    /// The target.
    To,
    /// The ledger.
    Ledger,
}

/// What stands against a run, by the places of its roots.
#[derive(Clone, Copy, Debug, PartialEq, Eq)]
pub enum Obstacle {
    /// One of two roots lies in the other where it may not.
    Nested(Pair),
    /// The place of a root isn't told, so that it may lie in another.
    Unknown(RootName),
}

/// Whether a place lies in another; not where one of the two isn't told.
fn told_lies_in(inner: &io::Result<Place>, outer: &io::Result<Place>) -> bool
    ensures { result ≡ told_lies_in inner.now outer.now }
{
    match (inner, outer) {
        (Ok(inner), Ok(outer)) => inner.lies_in(outer),
        _ => false,
    }
}

/// Whether one of two places lies in the other; not where one of the two isn't told.
fn told_overlap(first: &io::Result<Place>, second: &io::Result<Place>) -> bool
    ensures { result ≡ told_overlap first.now second.now }
{
    match (first, second) {
        (Ok(first), Ok(second)) => first.overlaps(second),
        _ => false,
    }
}

/// The first pair of roots of which one lies in the other: source and target, rules and target, and the ledger in the
/// source, in the target and in the rules. Pairs of which both places are told are compared.
pub fn first_nested(places: &Places) -> Option<Pair>
    ensures { result ≡ first_nested places.now }
{
    if told_overlap(&places.from, &places.to) {
        Some(Pair::FromTo)
    } else if told_overlap(&places.rules, &places.to) {
        Some(Pair::RulesTo)
    } else if told_lies_in(&places.ledger, &places.from) {
        Some(Pair::LedgerFrom)
    } else if told_lies_in(&places.ledger, &places.to) {
        Some(Pair::LedgerTo)
    } else if told_lies_in(&places.ledger, &places.rules) {
        Some(Pair::LedgerRules)
    } else {
        None
    }
}

/// Whether a place is told.
fn is_told(place: &io::Result<Place>) -> bool
    ensures { result ≡ is_told place.now }
{
    place.is_ok()
}

/// The first root whose place isn't told: rules, source, target, ledger.
fn first_unknown(places: &Places) -> Option<RootName>
    ensures { result ≡ first_unknown places.now }
{
    if !is_told(&places.rules) {
        Some(RootName::Rules)
    } else if !is_told(&places.from) {
        Some(RootName::From)
    } else if !is_told(&places.to) {
        Some(RootName::To)
    } else if !is_told(&places.ledger) {
        Some(RootName::Ledger)
    } else {
        None
    }
}

/// What stands against a run over roots at these places: the first pair that is nested, else the first root whose place isn't
/// told. None where all places are told, and no root lies where it may not.
pub fn first_obstacle(places: &Places) -> Option<Obstacle>
    ensures { result ≡ first_obstacle places.now }
{
    match (first_nested(places), first_unknown(places)) {
        (Some(pair), _) => Some(Obstacle::Nested(pair)),
        (None, Some(root)) => Some(Obstacle::Unknown(root)),
        (None, None) => None,
    }
}

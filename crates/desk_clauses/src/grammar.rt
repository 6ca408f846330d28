//! The grammar of clauses.

ghost use Rattle.std.specs.Prelude.{◌≡◌};
ghost use Rattle.desk_clauses.specs.Grammar.{parts, is_clause, is_in_grammar, first_path};
ghost use Rattle.desk_clauses.specs.Cuts.{IsMark, has_key_of};
ghost use Rattle.desk_clauses.specs.Places.{place_behind};

use crate::quotes::{is_closed, mark_place, split_first_part};
use desk_lines::trim_blanks;

/// A part of a clause, with the place of its equals sign, or its length where it has none.
#[derive(Clone, Copy)]
pub struct Part<'p> {
    /// Its bytes.
    pub text: &'p [u8],
    /// How many of them stand before its first `=` outside quotes; all where it has none.
    pub mark: usize,
    pub ghost marked: { IsMark text.now mark },
}

impl<'p> Part<'p> {
    ghost use Rattle.desk_clauses.specs.Grammar.{is_parameter};

    /// The part of these bytes.
    pub fn of(text: &'p [u8]) -> Part<'p>
        ensures { result.text.now ≡ text.now }
    {
        Part {
            text,
            mark: mark_place(text, b'='),
        }
    }

    /// Whether it is a parameter: a `=` stands in it outside quotes.
    pub fn is_parameter(&self) -> bool
        ensures { result ≡ is_parameter self.now.text.now }
    {
        self.mark < self.text.len()
    }
}

/// Where a reader of a clause stands, by the parts before it.
#[derive(Clone, Copy)]
pub enum ClausePlace {
    /// At the first part.
    Start,
    /// Behind a path.
    BehindPath,
    /// Behind a parameter.
    BehindParameter,
}

impl ClausePlace {
    /// Where the reader stands behind one more part; none exactly where no clause of the grammar has that part here.
    pub fn behind(self, part: &Part<'_>) -> Option<ClausePlace>
        ensures { result ≡ place_behind self part.now.text.now }
    {
        if part.is_parameter() {
            return match self {
                ClausePlace::Start => None,
                ClausePlace::BehindPath => Some(ClausePlace::BehindParameter),
                ClausePlace::BehindParameter => Some(ClausePlace::BehindParameter),
            };
        }
        match self {
            ClausePlace::BehindParameter => None,
            ClausePlace::Start | ClausePlace::BehindPath => {
                if trim_blanks(part.text).is_empty() {
                    None
                } else {
                    Some(ClausePlace::BehindPath)
                }
            }
        }
    }
}

/// Whether the key of a parameter is that of a directive of this name: a `:` ends it.
pub fn has_directive_key(key: &[u8], name: &[u8]) -> bool
    ensures { result ≡ has_key_of name.now key.now }
{
    key.ends_with(b":") && trim_blanks(&key[..key.len() - 1]) == name
}

/// Whether paths, none of them empty, stand first in a clause, and behind a parameter only parameters.
fn is_clause(clause: &[u8]) -> bool
    ensures { result ≡ is_clause (parts clause.now) }
{
    let mut rest = Some(clause);
    let mut place = ClausePlace::Start;
    while let Some(text) = rest {
        let (part, more) = split_first_part(text, b';');
        match place.behind(&Part::of(part)) {
            None => return false,
            Some(next) => place = next,
        }
        rest = more;
    }
    true
}

/// Whether a value is in the grammar: each quote is closed, each clause begins with a path, and in each clause paths, none of
/// them empty, stand before parameters.
pub fn is_in_grammar(value: &[u8]) -> bool
    ensures { result ≡ is_in_grammar value.now }
{
    if !is_closed(value) {
        return false;
    }
    let mut rest = Some(value);
    while let Some(text) = rest {
        let (clause, more) = split_first_part(text, b',');
        if !is_clause(clause) {
            return false;
        }
        rest = more;
    }
    true
}

/// The first path of the first clause of a value in the grammar, without blanks around it.
pub fn first_path(value: &[u8]) -> &[u8]
    ensures { result.now ≡ first_path value.now }
{
    let clause = &value[..mark_place(value, b',')];
    trim_blanks(&clause[..mark_place(clause, b';')])
}

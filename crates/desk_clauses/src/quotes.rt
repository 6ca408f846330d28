//! Texts with quotes: what stands outside them.

ghost use Rattle.std.specs.Prelude.{◌≡◌, ◌≤◌, length, take, drop};
ghost use Rattle.std.specs.Option.{option_copied};
ghost use Rattle.desk_clauses.specs.Quotes.{next, is_outside, is_closed, before_mark, from_mark};
ghost use Rattle.desk_clauses.specs.declared.quotes.Quoting.TheVariants.{Outside as AtStart};
ghost use Rattle.desk_clauses.specs.Grammar.{is_quoted};
ghost use Rattle.desk_clauses.specs.Cuts.{IsFirstPart, IsFirstItem};

use memchr::memchr;

/// Where a reader of a header's value stands, by the quotes before it (OSGi Core, `quoted-string`).
#[derive(Clone, Copy)]
pub enum Quoting {
    /// Outside quotes.
    Outside,
    /// Inside a quote.
    Quoted,
    /// Inside a quote, behind a backslash.
    Escaped,
}

impl Quoting {
    /// Where the reader stands behind one more byte.
    fn behind(self, byte: u8) -> Quoting
        ensures { result ≡ next self byte }
    {
        match self {
            Quoting::Outside => {
                if byte == b'"' {
                    Quoting::Quoted
                } else {
                    Quoting::Outside
                }
            }
            Quoting::Quoted => match byte {
                b'"' => Quoting::Outside,
                b'\\' => Quoting::Escaped,
                _ => Quoting::Quoted,
            },
            Quoting::Escaped => Quoting::Quoted,
        }
    }

    /// Whether that is outside quotes.
    fn is_outside(self) -> bool
        ensures { result ≡ is_outside self }
    {
        match self {
            Quoting::Outside => true,
            Quoting::Quoted => false,
            Quoting::Escaped => false,
        }
    }
}

/// Whether each quote of a text is closed.
pub fn is_closed(text: &[u8]) -> bool
    ensures { result ≡ is_closed AtStart text.now }
{
    let mut quoting = Quoting::Outside;
    for byte in text {
        quoting = quoting.behind(*byte);
    }
    quoting.is_outside()
}

/// How many bytes of a text stand before its first mark outside quotes; all where there is none.
pub fn mark_place(text: &[u8], mark: u8) -> usize
    ensures before { take result text.now ≡ before_mark mark AtStart text.now }
    ensures from { drop result text.now ≡ from_mark mark AtStart text.now }
    ensures inside { result ≤ length text.now }
{
    let mut quoting = Quoting::Outside;
    for (i, byte) in text.iter().enumerate() {
        if quoting.is_outside() && *byte == mark {
            return i;
        }
        quoting = quoting.behind(*byte);
    }
    text.len()
}

/// The first part of a text that is cut at marks outside quotes, and what follows that part's mark; none where it is the last.
pub fn split_first_part(text: &[u8], mark: u8) -> (&[u8], Option<&[u8]>)
    ensures { IsFirstPart mark text.now result.0.now (option_copied result.1) }
{
    let place = mark_place(text, mark);
    if place < text.len() {
        (&text[..place], Some(&text[place + 1..]))
    } else {
        (text, None)
    }
}

/// The first item of a list, and what follows its comma; none where it is the last.
pub fn split_first_item(list: &[u8]) -> (&[u8], Option<&[u8]>)
    ensures { IsFirstItem list.now result.0.now (option_copied result.1) }
{
    match memchr(b',', list) {
        None => (list, None),
        Some(at) => (&list[..at], Some(&list[at + 1..])),
    }
}

/// Whether a text stands between two quotes.
pub fn is_quoted(text: &[u8]) -> bool
    ensures { result ≡ is_quoted text.now }
{
    text.starts_with(b"\"") && text[1..].ends_with(b"\"")
}

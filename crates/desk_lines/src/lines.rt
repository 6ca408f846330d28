//! Lines, which end with LF, CR LF or CR.

ghost use Rattle.std.specs.Prelude.{◌≡◌, ◌+◌, ◌<◌, ◌≤◌, ◌∷◌, ◌++◌, [], IsNone, IfSome, IsTrue, length};
ghost use Rattle.desk_lines.specs.Lines.{line, lines, end_bytes, is_one_line};
ghost use Rattle.desk_lines.specs.FirstEnd.{IsFirstEnd};

use memchr::memchr2;

/// How a line ends.
#[derive(Clone, Copy, Debug, PartialEq, Eq)]
pub enum LineEnd {
    /// With the text; such a line is the last.
    EndOfText,
    /// With the byte LF.
    Lf,
    /// With the byte CR, behind which no LF stands.
    Cr,
    /// With the bytes CR and LF.
    CrLf,
}

/// A line of a text, with the bytes that end it.
#[derive(Clone, Copy, Debug, PartialEq, Eq)]
pub struct Line<'a> {
    /// The bytes before its end. None of them is CR or LF.
    pub content: &'a [u8],
    /// Which bytes end it.
    pub end: LineEnd,
}

impl LineEnd {
    /// The bytes that stand at the end of such a line; none at the end of the text.
    pub fn as_bytes(self) -> &'static [u8]
        ensures { result.now ≡ end_bytes self }
    {
        match self {
            LineEnd::EndOfText => b"",
            LineEnd::Lf => b"\n",
            LineEnd::Cr => b"\r",
            LineEnd::CrLf => b"\r\n",
        }
    }

    /// How many bytes the end takes.
    pub fn len(self) -> usize
        ensures { result ≡ length (end_bytes self) }
    {
        self.as_bytes().len()
    }
}

/// Where the first line of a text ends, as how many bytes stand before its end, and how it ends.
fn first_end(text: &[u8]) -> (usize, LineEnd)
    requires { 0 < length text.now }
    ensures { IsFirstEnd text.now result.0 result.1 }
{
    match memchr2(b'\n', b'\r', text) {
        None => (text.len(), LineEnd::EndOfText),
        Some(at) => {
            if text[at] != b'\r' {
                (at, LineEnd::Lf)
            } else if at + 1 < text.len() && text[at + 1] == b'\n' {
                (at, LineEnd::CrLf)
            } else {
                (at, LineEnd::Cr)
            }
        }
    }
}

/// The first line of a text, and what follows it; none where the text is empty. It takes no memory, and looks at the bytes of
/// the line and one byte more, so going over all lines of a text takes one pass over its bytes.
pub fn split_first_line(text: &[u8]) -> Option<(Line<'_>, &[u8])>
    ensures none { IsNone result → text.now ≡ [] }
    ensures line { IfSome result (λ found. lines text.now ≡ line found.0.content.now found.0.end ∷ lines found.1.now) }
    ensures whole { IfSome result (λ found. text.now ≡ found.0.content.now ++ (end_bytes found.0.end ++ found.1.now)) }
    ensures one_line { IfSome result (λ found. IsTrue (is_one_line found.0.content.now)) }
    ensures shorter { IfSome result (λ found. length found.1.now < length text.now) }
{
    if text.is_empty() {
        return None;
    }
    let (at, end) = first_end(text);
    let (content, _) = text.split_at(at);
    let (_, more) = text.split_at(at + end.len());
    Some((Line { content, end }, more))
}

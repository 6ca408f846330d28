//! Provider names within lines.

ghost use Rattle.std.specs.Prelude.{◌≡◌, ◌≤◌, length};
ghost use Rattle.desk_lines.specs.Cuts.{until};
ghost use Rattle.desk_metainf.specs.Services.{is_hash};
ghost use Rattle.desk_metainf.specs.Reading.{IsProviderAt};

use desk_lines::{count_leading_blanks, trim_trailing_blanks};
use memchr::memchr;

/// Where a provider name stands in the content of its line: from one place up to another.
#[derive(Clone, Copy)]
pub struct Provider {
    /// The offset of its first byte, from the start of the line.
    pub from: usize,
    /// The offset behind its last byte; `from` where there is no name.
    pub to: usize,
}

/// How many bytes stand before the first `#`.
fn code_length(content: &[u8]) -> usize
    ensures length_is { result ≡ length (until is_hash content.now) }
    ensures inside { result ≤ length content.now }
{
    match memchr(b'#', content) {
        None => content.len(),
        Some(at) => at,
    }
}

/// Where the provider name of a line's content stands; an empty place where there is none.
pub fn provider_in(content: &[u8]) -> Provider
    ensures { IsProviderAt content.now result.from result.to }
{
    let code = &content[..code_length(content)];
    let from = count_leading_blanks(code);
    let name = trim_trailing_blanks(&code[from..]);
    Provider {
        from,
        to: from + name.len(),
    }
}

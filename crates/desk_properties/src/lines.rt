//! Natural lines, and the logical lines that go over several of them.

ghost use Rattle.std.specs.Prelude.{◌≡◌, ◌||◌, ◌≤◌, length, drop};
ghost use Rattle.desk_properties.specs.Lines.{is_white_byte, is_end_byte, is_comment_byte};
ghost use Rattle.desk_properties.specs.Reading.{end_size, begins_break, is_passed, natural_line_from, IsUnindented, IsNextLine, IsResumed};

/// How many bytes the line end at an offset takes: 2 of CR LF, 1 of LF or CR, 0 where none stands there.
fn end_size(file: &[u8], at: usize) -> usize
    requires { at ≤ length file.now }
    ensures { result ≡ end_size (drop at file.now) }
{
    if at >= file.len() {
        0
    } else if file[at] == b'\n' {
        1
    } else if file[at] != b'\r' {
        0
    } else if at + 1 < file.len() && file[at + 1] == b'\n' {
        2
    } else {
        1
    }
}

/// Whether a byte is a space, a tab or a form feed.
pub fn is_white(byte: u8) -> bool
    ensures { result ≡ is_white_byte byte }
{
    matches!(byte, b' ' | b'\t' | 0x0C)
}

/// The offset of the first byte from an offset on that is no white space.
pub fn skip_white(file: &[u8], from: usize) -> usize
    requires { from ≤ length file.now }
    ensures { IsUnindented file.now from result }
{
    let mut at = from;
    while at < file.len() && is_white(file[at]) {
        at += 1;
    }
    at
}

/// Whether a byte is LF or CR.
pub fn is_line_end(byte: u8) -> bool
    ensures { result ≡ is_end_byte byte }
{
    byte == b'\n' || byte == b'\r'
}

/// Whether a byte ends a natural line, or leads a comment.
fn is_passed_byte(byte: u8) -> bool
    ensures { result ≡ (is_end_byte byte || is_comment_byte byte) }
{
    matches!(byte, b'\n' | b'\r' | b'#' | b'!')
}

/// Whether what is left of a natural line, behind the white space at its front, is blank or a comment.
pub fn is_passed(file: &[u8], at: usize) -> bool
    requires { at ≤ length file.now }
    ensures { result ≡ is_passed (natural_line_from file.now at) }
{
    if at < file.len() {
        is_passed_byte(file[at])
    } else {
        true
    }
}

/// The offset behind the natural line that goes on at an offset, and behind its end.
pub fn next_line(file: &[u8], from: usize) -> usize
    requires { from ≤ length file.now }
    ensures { IsNextLine file.now from result }
{
    let mut at = from;
    while at < file.len() {
        let size = end_size(file, at);
        if size > 0 {
            return at + size;
        }
        at += 1;
    }
    at
}

/// Whether a backslash stands at an offset, and behind it a line end or nothing.
fn begins_break(file: &[u8], at: usize) -> bool
    requires { at ≤ length file.now }
    ensures { result ≡ begins_break (drop at file.now) }
{
    if at >= file.len() || file[at] != b'\\' {
        false
    } else {
        at + 1 >= file.len() || is_line_end(file[at + 1])
    }
}

/// Where a logical line goes on: behind the backslash, line end and white space at an offset, as often as they stand
/// there.
pub fn resume(file: &[u8], from: usize) -> usize
    requires { from ≤ length file.now }
    ensures { IsResumed file.now from result }
{
    let mut at = from;
    while begins_break(file, at) {
        let size = end_size(file, at + 1);
        at = skip_white(file, at + 1 + size);
    }
    at
}

//! Headers, with the lines that hold them.

ghost use Rattle.std.specs.Prelude.{◌≡◌, ◌++◌, IfOk};
ghost use Rattle.std.specs.Option.{option_copied};
ghost use Rattle.desk_rules.specs.Images.{IsImage};
ghost use Rattle.desk_lines.specs.Lines.{lines};
ghost use Rattle.desk_sections.specs.Sections.{unfolded};
ghost use Rattle.desk_manifest.specs.Reading.{IsHeaderImage};
ghost use Rattle.desk_manifest.specs.Headers.{value_image};

use crate::kinds::{HeaderKind, header_kind};
use crate::values::rename_value;
use desk_base::{Memory, Text};
use desk_lines::LineEnd;
use desk_rules::RuleSet;
use desk_sections::{HeaderLine, append_folded, append_unfolded};
use std::alloc::Global;

/// A header: its first line, cut, and the continuation lines behind it.
#[derive(Clone, Copy)]
pub(crate) struct ManifestHeader<'a> {
    /// The line that names the header.
    pub(crate) first: HeaderLine<'a>,
    /// The continuation lines with their line ends, as they stand in the file; empty where there are none.
    pub(crate) further: &'a [u8],
    /// Whether it stands in the main section.
    pub(crate) in_main: bool,
}

/// The value of a header that has continuation lines. The only error is want of memory.
pub(crate) fn unfolded_value(alloc: Global, header: ManifestHeader<'_>) -> Result<Text, Memory>
    ensures { IfOk result (λ value. value ≡ header.entry.first.value.now ++ unfolded (lines header.entry.further.now)) }
{
    let mut value = Text::from_bytes(alloc, header.first.value)?;
    append_unfolded(&mut value, header.further)?;
    Ok(value)
}

/// The image of the value of a header of a kind; none exactly where it is the value itself. The only error is want of memory.
fn rename_unfolded(
    alloc: Global,
    rules: &RuleSet,
    version: Option<&[u8]>,
    kind: HeaderKind,
    header: ManifestHeader<'_>,
) -> Result<Option<Text>, Memory>
    ensures { IfOk result (IsImage (header.entry.first.value.now ++ unfolded (lines header.entry.further.now))
        (value_image rules.now (option_copied version.entry) kind (header.entry.first.value.now ++ unfolded (lines header.entry.further.now)))) }
{
    if header.further.is_empty() {
        return rename_value(alloc, rules, version, kind, header.first.value);
    }
    match kind {
        HeaderKind::Other => Ok(None),
        _ => {
            let value = unfolded_value(alloc, header)?;
            rename_value(alloc, rules, version, kind, value.as_bytes())
        }
    }
}

/// What becomes of a header where its value has another image: its name, a colon, a space and that image, folded; between the
/// lines stands `between`, and the last keeps its end. None exactly where the value stays. The only error is want of memory.
pub(crate) fn rename_header(
    alloc: Global,
    rules: &RuleSet,
    version: Option<&[u8]>,
    header: ManifestHeader<'_>,
    between: LineEnd,
    last: LineEnd,
) -> Result<Option<Text>, Memory>
    ensures { IfOk result (IsHeaderImage rules.now (option_copied version.entry) header.entry.in_main header.entry.first.name.now
        (header.entry.first.value.now ++ unfolded (lines header.entry.further.now)) between last) }
{
    let kind = header_kind(header.in_main, header.first.name);
    match rename_unfolded(alloc, rules, version, kind, header)? {
        None => Ok(None),
        Some(value) => {
            let mut line = Text::from_bytes(alloc, header.first.name)?;
            line.append(b": ")?;
            line.append(value.as_bytes())?;
            let mut image = Text::empty(alloc);
            append_folded(
                &mut image,
                between.as_bytes(),
                last.as_bytes(),
                line.as_bytes(),
            )?;
            Ok(Some(image))
        }
    }
}

//! Manifests.

ghost use Rattle.std.specs.Prelude.{◌≡◌, ◌≤◌, ◌++◌, Ok, IfOk, IfErr, length, drop};
ghost use Rattle.std.specs.Option.{option_copied};
ghost use Rattle.desk_base.specs.Limits.{file_size};
ghost use Rattle.desk_lines.specs.Lines.{lines};
ghost use Rattle.desk_listings.specs.Images.{identity_version};
ghost use Rattle.desk_lines.specs.Cuts.{onward};
ghost use Rattle.desk_sections.specs.Sections.{is_colon, grouped, unfolded};
ghost use Rattle.desk_manifest.specs.Reading.{begins_identity};
ghost use Rattle.desk_manifest.specs.Manifests.{manifest, bundle_version, fold_end, ManifestStays};
ghost use Rattle.desk_manifest.specs.Faults.{IsManifestFault};

use crate::ManifestFault;
use crate::headers::{ManifestHeader, rename_header, unfolded_value};
use crate::kinds::is_named;
use desk_base::{Changed, Memory};
use desk_clauses::Edits;
use desk_lines::{LineEnd, split_first_line};
use desk_listings::identity_version;
use desk_rules::RuleSet;
use desk_sections::{cut_header_line, is_continuation, is_header_line, skip_continuations};
use std::alloc::Global;

/// The end of a text's first line, or CR LF where it has none.
fn fold_end(text: &[u8]) -> LineEnd
    ensures { result ≡ fold_end (lines text.now) }
{
    match split_first_line(text) {
        None => LineEnd::CrLf,
        Some((line, _)) => match line.end {
            LineEnd::EndOfText => LineEnd::CrLf,
            end => end,
        },
    }
}

/// Whether a line begins a Bundle-SymbolicName.
fn begins_identity(content: &[u8]) -> bool
    ensures { result ≡ begins_identity content.now }
{
    !is_continuation(content) && is_named(cut_header_line(content).name, b"Bundle-SymbolicName")
}

/// The new version of a bundle whose Bundle-SymbolicName begins with this line, before this text. The only error is want of
/// memory.
fn version_of_identity<'r>(
    alloc: Global,
    rules: &'r RuleSet,
    content: &[u8],
    more: &[u8],
) -> Result<Option<&'r [u8]>, Memory>
    ensures { IfOk result (λ version. option_copied version ≡
        identity_version rules.now (drop 2 (onward is_colon content.now) ++ unfolded (grouped (lines more.now)).further)) }
{
    let behind = skip_continuations(more, LineEnd::EndOfText);
    let header = ManifestHeader {
        first: cut_header_line(content),
        further: &more[..more.len() - behind.rest.len()],
        in_main: true,
    };
    let value = unfolded_value(alloc, header)?;
    Ok(identity_version(rules, value.as_bytes()))
}

/// The new version of the bundle that a manifest describes: that of the first Bundle-SymbolicName of its main section. The only
/// error is want of memory.
fn bundle_version<'r>(
    alloc: Global,
    rules: &'r RuleSet,
    text: &[u8],
) -> Result<Option<&'r [u8]>, Memory>
    ensures { IfOk result (λ version. option_copied version ≡ bundle_version rules.now (grouped (lines text.now)).items) }
{
    let mut rest = text;
    while let Some((line, more)) = split_first_line(rest) {
        if line.content.is_empty() {
            return Ok(None);
        }
        if begins_identity(line.content) {
            return version_of_identity(alloc, rules, line.content, more);
        }
        rest = more;
    }
    Ok(None)
}

/// The image of a manifest of at most 67,108,864 bytes, and how many of its headers changed. Lines end with CR LF, LF or CR, and
/// the last may have no end; a line that begins with a space continues the header before it, and an empty line ends a section.
/// `BadLine` comes exactly where a line that isn't empty doesn't begin a header (a name, a colon, and a space or the line's end)
/// and doesn't continue one of its section, with the offset of the first byte of the first such line. A header whose value has
/// another image is written as its name, `: ` and that image, in lines of at most 72 bytes, cut between characters, with the line
/// end of the file's first line, or CR LF where it has none, between them; all other bytes stay. The only other error is want of
/// memory. The image is its own image, without a changed header.
pub fn migrate_manifest(
    alloc: Global,
    rules: &RuleSet,
    text: &[u8],
) -> Result<Changed, ManifestFault>
    requires { length text.now ≤ file_size }
    ensures image { IfOk result (λ new. manifest rules.now text.now ≡ Ok new) }
    ensures refused { IfErr result (IsManifestFault rules.now text.now) }
    ensures again { IfOk result (λ new. ManifestStays rules.now new.bytes) }
{
    rules.recall_settled();
    let version = bundle_version(alloc, rules, text)?;
    let between = fold_end(text);
    let mut edits = Edits::new(alloc);
    let mut changed: u32 = 0;
    let mut main = true;
    let mut rest = text;
    while let Some((line, more)) = split_first_line(rest) {
        let from = text.len() - rest.len();
        if line.content.is_empty() {
            main = false;
            rest = more;
        } else if is_header_line(line.content) {
            let behind = skip_continuations(more, line.end);
            let to = text.len() - behind.rest.len();
            let header = ManifestHeader {
                first: cut_header_line(line.content),
                further: &more[..more.len() - behind.rest.len()],
                in_main: main,
            };
            if let Some(new) = rename_header(alloc, rules, version, header, between, behind.end)? {
                edits.exchange(text, from, to, new.as_bytes())?;
                changed += 1;
            }
            rest = behind.rest;
        } else {
            return Err(ManifestFault::BadLine { at: from as u32 });
        }
    }
    let bytes = edits.into_text(text)?;
    Ok(Changed { bytes, changed })
}

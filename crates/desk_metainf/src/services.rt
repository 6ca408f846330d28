//! Service files (ServiceLoader).

ghost use Rattle.std.specs.Prelude.{◌≡◌, ◌≤◌, ◌++◌, Ok, IfOk, IfErr, length};
ghost use Rattle.desk_base.specs.Limits.{file_size};
ghost use Rattle.desk_rules.specs.Images.{dotted};
ghost use Rattle.desk_rules.specs.RuleSets.{IsRuleSet};
ghost use Rattle.desk_lines.specs.Lines.{end_bytes};
ghost use Rattle.desk_metainf.specs.Services.{service, ServiceStays};
ghost use Rattle.desk_metainf.specs.Reading.{exchanged, is_exchanged};
ghost use Rattle.desk_metainf.specs.Faults.{IsServiceFault};

use crate::ServiceFault;
use crate::providers::{Provider, provider_in};
use desk_base::{Changed, Memory, Text};
use desk_lines::{Line, has_blank, split_first_line};
use desk_rename::rename_dotted;
use desk_rules::RuleSet;
use std::alloc::Global;

/// Appends a line's content with its provider name exchanged, and answers whether the name changed. The
/// only error is want of memory; a part may have been appended then.
fn append_content(
    alloc: Global,
    rules: &RuleSet,
    out: &mut Text,
    content: &[u8],
    provider: Provider,
) -> Result<bool, Memory>
    requires in_order { provider.from ≤ provider.to }
    requires inside { provider.to ≤ length content.now }
    ensures bytes { IfOk result (λ _.
        out.new ≡ out.old ++ exchanged (dotted rules.now.renames) provider.from provider.to content.now) }
    ensures changed { IfOk result (λ changed.
        changed ≡ is_exchanged (dotted rules.now.renames) provider.from provider.to content.now) }
    ensures settled { IsRuleSet rules.now }
{
    match rename_dotted(alloc, rules, &content[provider.from..provider.to])? {
        None => {
            out.append(content)?;
            Ok(false)
        }
        Some(image) => {
            out.append(&content[..provider.from])?;
            out.append(image.as_bytes())?;
            out.append(&content[provider.to..])?;
            Ok(true)
        }
    }
}

/// Appends a line with its provider name exchanged, and answers whether the name changed. The only
/// error is want of memory; a part may have been appended then.
fn append_line(
    alloc: Global,
    rules: &RuleSet,
    out: &mut Text,
    line: Line<'_>,
    provider: Provider,
) -> Result<bool, Memory>
    requires in_order { provider.from ≤ provider.to }
    requires inside { provider.to ≤ length line.content.now }
    ensures bytes { IfOk result (λ _.
        out.new ≡ out.old ++ (exchanged (dotted rules.now.renames) provider.from provider.to line.entry.content.now ++ end_bytes line.entry.end)) }
    ensures changed { IfOk result (λ changed.
        changed ≡ is_exchanged (dotted rules.now.renames) provider.from provider.to line.entry.content.now) }
    ensures settled { IsRuleSet rules.now }
{
    let changed = append_content(alloc, rules, out, line.content, provider)?;
    out.append(line.end.as_bytes())?;
    Ok(changed)
}

/// The image of a service file of at most 67,108,864 bytes, and how many of its provider names
/// changed. Lines end with LF, CR LF or CR, and the last may have no end. What stands in a line
/// before the first `#`, without the spaces and tabs around it, is the provider name where it isn't
/// empty; it is exchanged as a dotted name, and all other bytes stay. `BadLine` comes exactly where
/// a provider name holds a space or a tab, with the offset of the first byte of the first such line.
/// The only other error is want of memory. The image is its own image, without a changed name.
pub fn migrate_service(alloc: Global, rules: &RuleSet, text: &[u8]) -> Result<Changed, ServiceFault>
    requires { length text.now ≤ file_size }
    ensures image { IfOk result (λ new. service rules.now text.now ≡ Ok new) }
    ensures refused { IfErr result (IsServiceFault rules.now text.now) }
    ensures again { IfOk result (λ new. ServiceStays rules.now new.bytes) }
{
    let mut bytes = Text::empty(alloc);
    let mut changed: u32 = 0;
    let mut rest = text;
    while let Some((line, more)) = split_first_line(rest) {
        let provider = provider_in(line.content);
        if has_blank(&line.content[provider.from..provider.to]) {
            return Err(ServiceFault::BadLine {
                at: (text.len() - rest.len()) as u32,
            });
        }
        if append_line(alloc, rules, &mut bytes, line, provider)? {
            changed += 1;
        }
        rest = more;
    }
    Ok(Changed { bytes, changed })
}

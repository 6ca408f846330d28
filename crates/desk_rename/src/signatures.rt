//! Images of signatures (JVMS 4.7.9.1).

ghost use Rattle.std.specs.Prelude.{◌≡◌, IfOk};
ghost use Rattle.desk_names.specs.SignatureScan.{wanted_signature};
ghost use Rattle.desk_rules.specs.Images.{IsImage};
ghost use Rattle.desk_rules.specs.RuleSets.{IsRuleSet};
ghost use Rattle.desk_rename.specs.Images.{sig};
ghost use Rattle.desk_rename.specs.Drafts.{IsReadSignature};

use crate::drafts::Draft;
use desk_base::{Memory, Text};
use desk_names::{SigParts, Which, read_signature};
use desk_rules::RuleSet;
use std::alloc::Global;

/// The image of a text of these parts.
fn rename_signature_parts(
    alloc: Global,
    rules: &RuleSet,
    which: Which,
    text: &[u8],
    parts: SigParts<'_>,
) -> Result<Option<Text>, Memory>
    requires { IsReadSignature (wanted_signature which) text.now parts }
    ensures { IfOk result (IsImage text.now (sig rules.now.renames (wanted_signature which) text.now)) }
{
    let mut draft = Draft::new(alloc);
    for part in parts {
        draft.take(rules, text, part)?;
    }
    draft.finish(text)
}

/// The image of a signature of a kind: that of its tree with each package specifier exchanged. None
/// exactly where the image is the text itself, which it is for any text that is no signature of the
/// kind, and for one whose type arguments nest more than 64 deep. No memory is taken where nothing
/// changes. The only error is want of memory.
pub fn rename_signature(
    alloc: Global,
    rules: &RuleSet,
    which: Which,
    text: &[u8],
) -> Result<Option<Text>, Memory>
    ensures image { IfOk result (IsImage text.now (sig rules.now.renames (wanted_signature which) text.now)) }
    ensures settled { IsRuleSet rules.now }
{
    rules.recall_settled();
    match read_signature(text, which) {
        None => Ok(None),
        Some(parts) => rename_signature_parts(alloc, rules, which, text, parts),
    }
}

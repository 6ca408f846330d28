//! How files are treated.

ghost use Rattle.std.specs.Prelude.{◌≡◌};
ghost use Rattle.desk_file.specs.Images.{target as target_of};
ghost use Rattle.desk_patterns.specs.PatternTexts.{texts_for};
ghost use Rattle.desk_file.specs.Treatments.{is_whole, selected_treatment, texts_treatment, treatment_by, treatment_of, unselected_treatment};

use desk_base::Text;
use desk_paths::{Kind, place};
use desk_rules::RuleSet;

/// How a file is treated, by its path, its target and the rules.
#[derive(Clone, Copy, Debug, PartialEq, Eq)]
pub enum Treatment {
    /// A selected class: it becomes the new class.
    Class,
    /// A class that isn't selected: it is copied, and its names count among those of the application.
    UnselectedClass,
    /// A selected service file: its provider names are exchanged.
    Service,
    /// A selected manifest: its headers are exchanged.
    Manifest,
    /// Another selected file, where a text rule file fits its path or its target: its texts are exchanged.
    Texts,
    /// Any other file: it is copied.
    Copy,
}

impl Treatment {
    ghost use Rattle.std.specs.Prelude.{not};
    ghost use Rattle.desk_file.specs.Treatments.{is_class, is_copy, is_selected_class};

    /// Whether the file is a class, selected or not.
    pub fn is_class(self) -> bool
        ensures { result ≡ is_class self }
    {
        matches!(self, Treatment::Class | Treatment::UnselectedClass)
    }

    /// Whether the file is a selected class.
    pub fn is_selected_class(self) -> bool
        ensures { result ≡ is_selected_class self }
    {
        matches!(self, Treatment::Class)
    }

    /// Whether the file is read whole. Any other file is copied in parts.
    pub fn is_whole(self) -> bool
        ensures { result ≡ not (is_copy self) }
    {
        !matches!(self, Treatment::Copy)
    }
}

/// How a selected file is treated that is no class, service file or manifest.
fn texts_treatment(rules: &RuleSet, path: &Text, target: &Text) -> Treatment
    ensures { result ≡ texts_treatment (texts_for rules.now.texts path.now target.now) }
{
    match rules.texts_for(path.as_bytes(), target.as_bytes()) {
        Some(_) => Treatment::Texts,
        None => Treatment::Copy,
    }
}

/// How a selected file of a kind is treated.
fn selected_treatment(rules: &RuleSet, kind: Kind, path: &Text, target: &Text) -> Treatment
    ensures { result ≡ selected_treatment kind (texts_for rules.now.texts path.now target.now) }
{
    match kind {
        Kind::Class => Treatment::Class,
        Kind::Service => Treatment::Service,
        Kind::Manifest => Treatment::Manifest,
        Kind::Other => texts_treatment(rules, path, target),
    }
}

/// How a file of a kind is treated that isn't selected.
fn unselected_treatment(kind: Kind) -> Treatment
    ensures { result ≡ unselected_treatment kind }
{
    match kind {
        Kind::Class => Treatment::UnselectedClass,
        Kind::Service | Kind::Manifest | Kind::Other => Treatment::Copy,
    }
}

/// How a file of a kind is treated, which is selected or not. It takes no memory.
pub(crate) fn treatment_by(
    rules: &RuleSet,
    selected: bool,
    kind: Kind,
    path: &Text,
    target: &Text,
) -> Treatment
    ensures { result ≡ treatment_by selected kind (texts_for rules.now.texts path.now target.now) }
{
    if selected {
        selected_treatment(rules, kind, path, target)
    } else {
        unselected_treatment(kind)
    }
}

/// How a file is treated, by its path and its target: the image of a file is the one that its treatment says. It takes no
/// memory.
pub fn treatment_of(rules: &RuleSet, path: &Text, target: &Text) -> Treatment
    requires { target.now ≡ target_of rules.now path.now }
    ensures { result ≡ treatment_of rules.now path.now }
{
    let bytes = path.as_bytes();
    treatment_by(
        rules,
        rules.selected(bytes),
        place(bytes).kind,
        path,
        target,
    )
}

/// Whether a file is read whole: its kind is Class, or it is selected and its kind is Service or Manifest, or it is selected
/// and a text rule file fits its path or its target. Any other file is copied, whatever its bytes. It takes no memory.
#[tactic(auto, using(crate::proofs::Treating::whole_treated))]
pub fn is_whole(rules: &RuleSet, path: &Text, target: &Text) -> bool
    requires { target.now ≡ target_of rules.now path.now }
    ensures { result ≡ is_whole rules.now path.now }
{
    treatment_of(rules, path, target).is_whole()
}

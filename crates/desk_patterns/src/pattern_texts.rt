//! The text rules of a path, and of a path and its target.

ghost use Rattle.std.specs.Prelude.{◌≡◌, ◌∷◌, ◌++◌, ◌==◌, [], length, OnOk, OnErr};
ghost use Rattle.std.specs.Option.{option_copied};
ghost use Rattle.desk_patterns.specs.PatternTexts.{texts_of, texts_for};
ghost use Rattle.desk_patterns.specs.SeenTexts.{texts_seen, both_seen, ArePlaces};

use crate::patterns::fits;
use crate::text_rules::TextRules;
use desk_base::Text;
use std::alloc::Global;
use std::marker::Model;

/// A pattern, and which of some files has the text rules of the paths that it fits.
#[derive(Debug, Drop)]
pub struct PatternPlace {
    /// The pattern of paths, with its wildcards.
    pub pattern: Text,
    /// The place of the file with its text rules among those that were read, counted from 0.
    pub file: usize,
}

/// Patterns in their order, each with text rules. The rules of a file that several patterns name are held once. Contracts
/// see the list of the patterns, each with its rules.
#[derive(Drop)]
pub struct PatternTexts {
    files: Vec<TextRules>,
    patterns: Vec<PatternPlace>,
    none: TextRules,
}

impl Model for PatternTexts {
    ghost use Rattle.std.specs.Prelude.{◌≡◌, List, []};
    ghost use Rattle.std.specs.Coded.{coded_list, coded×, coded_ℕ};
    ghost use Rattle.desk_patterns.specs.PatternTexts.{PatternText as Entry};
    ghost use Rattle.desk_patterns.specs.SeenTexts.{texts_seen, IsPatternTexts};

    ghost Value = { List Entry };

    ghost coded = { coded_list (coded× (coded_list coded_ℕ) (coded_list (coded× (coded_list coded_ℕ) (coded_list coded_ℕ)))) };

    ghost view = { λ t. texts_seen t.files.items t.patterns.items };

    ghost invariant = { λ t. IsPatternTexts t.files.items t.patterns.items t.none };
}

/// The text rules of a file: those of its path, and those of its target. Where one of the two has none, these are no rules.
#[derive(Clone, Copy)]
pub struct PathTexts<'r> {
    /// The rules of the path.
    pub here: &'r TextRules,
    /// The rules of the target.
    pub there: &'r TextRules,
}

/// The rules of the first pattern that fits a path.
fn rules_of<'r>(
    files: &'r [TextRules],
    patterns: &[PatternPlace],
    path: &[u8],
) -> Option<&'r TextRules>
    requires { ArePlaces files.now patterns.now }
    ensures { option_copied result ≡ texts_of (texts_seen files.now patterns.now) path.now }
{
    for entry in patterns {
        if fits(entry.pattern.as_bytes(), path) {
            return Some(&files[entry.file]);
        }
    }
    None
}

impl PatternTexts {
    /// These patterns in their order, each with the rules of its file. Each names a place of the files. It takes no memory.
    pub fn new(alloc: Global, files: Vec<TextRules>, patterns: Vec<PatternPlace>) -> PatternTexts
        requires { ArePlaces files.items patterns.items }
        ensures { result ≡ texts_seen files.items patterns.items }
    {
        PatternTexts {
            files,
            patterns,
            none: TextRules::none(alloc),
        }
    }

    /// Whether there is no pattern. It takes no memory.
    pub fn is_empty(&self) -> bool
        ensures { result ≡ (length self.now == 0) }
    {
        self.patterns.is_empty()
    }

    /// The rules of the first pattern that fits a path; none exactly where none fits. It takes no memory.
    pub fn find(&self, path: &[u8]) -> Option<&TextRules>
        ensures { option_copied result ≡ texts_of self.now path.now }
    {
        rules_of(&self.files, &self.patterns, path)
    }

    /// The rules of a path and of its target; none exactly where no pattern fits either. It takes no memory, and goes through
    /// the patterns once where the target is the path.
    pub fn find_both(&self, path: &[u8], target: &[u8]) -> Option<PathTexts<'_>>
        ensures { both_seen result ≡ texts_for self.now path.now target.now }
    {
        let here = self.find(path);
        let there = if target == path {
            here
        } else {
            self.find(target)
        };
        match here {
            Some(here) => match there {
                Some(there) => Some(PathTexts { here, there }),
                None => Some(PathTexts {
                    here,
                    there: &self.none,
                }),
            },
            None => match there {
                Some(there) => Some(PathTexts {
                    here: &self.none,
                    there,
                }),
                None => None,
            },
        }
    }
}

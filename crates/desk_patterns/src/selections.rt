//! Selections of paths.

ghost use Rattle.std.specs.Prelude.{◌≡◌, ◌∷◌, ◌++◌, ◌&&◌, ◌==◌, [], not, length, OnOk, OnErr};
ghost use Rattle.std.specs.List.{list_any};
ghost use Rattle.desk_patterns.specs.Selections.{selects, is_exclude};
ghost use Rattle.desk_patterns.specs.Patterns.{fits};

use crate::patterns::fits;
use desk_base::{Memory, Text};
use std::alloc::Global;
use std::marker::Model;

/// What a pattern says of the paths that it fits.
#[derive(Clone, Copy, Debug, PartialEq, Eq)]
pub enum Mark {
    /// The paths that fit are selected, unless another pattern excludes them.
    Include,
    /// The paths that fit aren't selected, whatever other patterns say.
    Exclude,
}

/// A pattern of a selection.
#[derive(Debug, Drop)]
struct Choice {
    pattern: Text,
    excludes: bool,
}

/// Patterns that include or exclude paths. Contracts see the list of the patterns, each with whether it excludes.
#[derive(Debug, Drop)]
pub struct Selection {
    choices: Vec<Choice>,
}

impl Model for Selection {
    ghost use Rattle.std.specs.Prelude.{List};
    ghost use Rattle.desk_patterns.specs.SeenChoices.{choices_seen};
    ghost use Rattle.std.specs.Coded.{coded_list, coded×, coded_ℕ, coded_bool};
    ghost use Rattle.desk_patterns.specs.Selections.{Choice as Chosen};

    ghost Value = { List Chosen };

    ghost coded = { coded_list (coded× (coded_list coded_ℕ) coded_bool) };

    ghost view = { λ s. choices_seen s.choices.items };
}

/// Whether a pattern includes.
fn has_include(choices: &[Choice]) -> bool
    ensures { result ≡ list_any (λ choice. not choice.excludes) choices.now }
{
    choices.iter().any(|choice| !choice.excludes)
}

/// Whether a pattern that includes fits a path.
fn is_included(choices: &[Choice], path: &[u8]) -> bool
    ensures { result ≡ list_any (λ choice. not choice.excludes && fits choice.pattern path.now) choices.now }
{
    choices.iter().any(|choice| !choice.excludes && fits(choice.pattern.as_bytes(), path))
}

/// Whether a pattern that excludes fits a path.
fn is_excluded(choices: &[Choice], path: &[u8]) -> bool
    ensures { result ≡ list_any (λ choice. choice.excludes && fits choice.pattern path.now) choices.now }
{
    choices.iter().any(|choice| choice.excludes && fits(choice.pattern.as_bytes(), path))
}

impl Selection {
    /// The selection without patterns, which takes every path. It takes no memory.
    pub fn new(alloc: Global) -> Selection
        ensures { result ≡ [] }
    {
        Selection {
            choices: Vec::new(alloc),
        }
    }

    /// Adds a pattern that includes or excludes the paths that it fits. After want of memory, the only error, the selection
    /// is as it was.
    pub fn push(&mut self, pattern: Text, mark: Mark) -> Result<(), Memory>
        ensures ok { OnOk result (self.new ≡ self.old ++ (pattern, is_exclude mark) ∷ []) }
        ensures err { OnErr result (self.new ≡ self.old) }
    {
        let excludes = mark == Mark::Exclude;
        self.choices.push(Choice { pattern, excludes })?;
        Ok(())
    }

    /// Whether it has no pattern. It takes no memory.
    pub fn is_empty(&self) -> bool
        ensures { result ≡ (length self.now == 0) }
    {
        self.choices.is_empty()
    }

    /// Whether a path is selected: where no pattern includes or one that includes fits it, and none that excludes fits it.
    /// It takes no memory.
    pub fn selects(&self, path: &[u8]) -> bool
        ensures { result ≡ selects self.now path.now }
    {
        let choices = self.choices.as_slice();
        if is_excluded(choices, path) {
            false
        } else if has_include(choices) {
            is_included(choices, path)
        } else {
            true
        }
    }
}

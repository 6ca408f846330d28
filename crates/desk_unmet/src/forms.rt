//! The texts by which rules are looked for, and which rules are met.
//!
//! The texts stand in byte order. Of two of which one begins with the other, the shorter stands first, and all that stand between them
//! begin with it too. So those with which some bytes begin are found by one search: the last text that doesn't stand behind the bytes,
//! or the longest that this one begins with, and so on.

use desk_base::{Memory, Text};
use std::alloc::Global;

/// A text by which a rule is looked for.
#[derive(Debug, Drop)]
struct Form {
    text: Text,
    /// The place of its rule.
    rule: usize,
    /// The place of the longest other form that its text begins with.
    shorter: Option<usize>,
    /// Whether it was found.
    is_found: bool,
}

/// Whether a rule is met, and the place of the front of its texts.
#[derive(Debug, Drop)]
struct Meeting {
    front: usize,
    is_met: bool,
}

/// The texts by which rules are looked for.
#[derive(Debug, Drop)]
pub(crate) struct Forms {
    forms: Vec<Form>,
    rules: Vec<Meeting>,
    /// How many rules of each front aren't met.
    unmet: Vec<usize>,
    longest: usize,
}

/// The place of the longest form with which a text begins: the form at a place, or the longest that this one begins with, and so on.
fn longest_in(forms: &[Form], from: Option<usize>, text: &[u8]) -> Option<usize> {
    let mut next = from;
    for _ in 0..forms.len() {
        let form = forms.get(next?)?;
        if text.starts_with(form.text.as_bytes()) {
            return next;
        }
        next = form.shorter;
    }
    None
}

impl Forms {
    /// No texts, and no rules. It takes no memory.
    pub(crate) fn new(alloc: Global) -> Forms {
        Forms {
            forms: Vec::new(alloc),
            rules: Vec::new(alloc),
            unmet: Vec::new(alloc),
            longest: 0,
        }
    }

    /// The number of bytes of the longest text.
    pub(crate) fn longest(&self) -> usize {
        self.longest
    }

    /// Adds a front, of which no rule is there yet.
    pub(crate) fn add_front(&mut self) -> Result<(), Memory> {
        self.unmet.push(0)?;
        Ok(())
    }

    /// Adds a rule whose texts have the front at this place.
    pub(crate) fn add_rule(&mut self, front: usize) -> Result<(), Memory> {
        self.rules.push(Meeting {
            front,
            is_met: false,
        })?;
        if let Some(unmet) = self.unmet.get_mut(front) {
            *unmet = unmet.saturating_add(1);
        }
        Ok(())
    }

    /// Adds a text of the rule that was added last.
    pub(crate) fn add_text(&mut self, text: Text) -> Result<(), Memory> {
        self.longest = self.longest.max(text.as_bytes().len());
        self.forms.push(Form {
            text,
            rule: self.rules.len().saturating_sub(1),
            shorter: None,
            is_found: false,
        })?;
        Ok(())
    }

    /// The place of the longest other form that the one at a place begins with. Those in front of it have theirs.
    fn shorter_of(&self, place: usize) -> Option<usize> {
        let form = self.forms.get(place)?;
        longest_in(&self.forms, place.checked_sub(1), form.text.as_bytes())
    }

    /// Puts the texts in order. It is called when all are added, and before one is looked for.
    pub(crate) fn settle(&mut self) -> Result<(), Memory> {
        self.forms
            .sort_by(|first, second| first.text.cmp(&second.text))?;
        for place in 1..self.forms.len() {
            let shorter = self.shorter_of(place);
            if let Some(form) = self.forms.get_mut(place) {
                form.shorter = shorter;
            }
        }
        Ok(())
    }

    /// Whether a rule of the front at this place isn't met.
    pub(crate) fn is_wanted(&self, front: usize) -> bool {
        self.unmet.get(front).is_some_and(|unmet| *unmet > 0)
    }

    /// Whether the rule at this place is met.
    pub(crate) fn is_met(&self, rule: usize) -> bool {
        self.rules.get(rule).is_some_and(|rule| rule.is_met)
    }

    /// Whether no rule is left that isn't met.
    pub(crate) fn are_met(&self) -> bool {
        self.unmet.iter().all(|unmet| *unmet == 0)
    }

    /// Notes that the rule at this place is met.
    fn meet(&mut self, rule: usize) {
        let Some(rule) = self.rules.get_mut(rule) else {
            return;
        };
        if !rule.is_met {
            rule.is_met = true;
            if let Some(unmet) = self.unmet.get_mut(rule.front) {
                *unmet = unmet.saturating_sub(1);
            }
        }
    }

    /// Finds the form at this place. Answers its rule, and the longest form that it begins with; nothing where it was found before, and
    /// so all that it begins with.
    fn find_form(&mut self, place: Option<usize>) -> Option<(usize, Option<usize>)> {
        let form = self.forms.get_mut(place?)?;
        if form.is_found {
            return None;
        }
        form.is_found = true;
        Some((form.rule, form.shorter))
    }

    /// Finds the texts with which some bytes begin: their rules are met.
    pub(crate) fn find(&mut self, bytes: &[u8]) {
        let behind = self
            .forms
            .partition_point(|form| form.text.as_bytes() <= bytes);
        let mut next = longest_in(&self.forms, behind.checked_sub(1), bytes);
        for _ in 0..self.forms.len() {
            let Some((rule, shorter)) = self.find_form(next) else {
                return;
            };
            self.meet(rule);
            next = shorter;
        }
    }
}

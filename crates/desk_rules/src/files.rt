//! The files of a rule folder.

ghost use Rattle.std.specs.Prelude.{◌≡◌, ◌≤◌, ◌↔◌, None, Some, IsTrue, MatchOption, length, OnOk, OnErr, IfSome};
ghost use Rattle.std.specs.FinMap as map;
ghost use Rattle.desk_base.specs.Limits.{rule_size};

use desk_base::{Memory, Text};
use std::alloc::Global;
use std::collections::BTreeMap;
use std::marker::Model;

/// The files of a rule folder. Contracts see the finite map from a file's name to its bytes.
#[derive(Debug, Drop)]
pub struct RuleFiles {
    files: BTreeMap<Text, Text>,
}

impl Model for RuleFiles {
    ghost use Rattle.std.specs.Coded.{coded_list, coded_ℕ};
    ghost use Rattle.std.specs.FinMap as map;
    ghost use Rattle.desk_rules.specs.Files.{Files};

    ghost Value = { Files };

    ghost coded = { map.code (coded_list coded_ℕ) (coded_list coded_ℕ) };

    ghost use Rattle.std.specs.Prelude.{◌≤◌, length};
    ghost use Rattle.std.specs.List.{All};
    ghost use Rattle.std.specs.BTreeMap.{values};
    ghost use Rattle.desk_base.specs.Limits.{rule_size};

    ghost view = { λ f. map.from_entries f.files.entries };

    ghost invariant = { λ f. All (λ content. length content ≤ rule_size) (values f.files) };
}

impl RuleFiles {
    /// A rule folder of no files. It takes no memory.
    pub fn new(alloc: Global) -> RuleFiles
        ensures { result ≡ map.empty }
    {
        RuleFiles {
            files: BTreeMap::new(alloc),
        }
    }

    /// Adds a file of a new name, with at most 1,048,576 bytes. After want of memory, the only error,
    /// the files are as they were.
    pub fn add(&mut self, name: Text, content: Text) -> Result<(), Memory>
        requires absent { map.get self.old name ≡ None }
        requires small { length content ≤ rule_size }
        ensures ok { OnOk result (self.new ≡ map.insert self.old name content) }
        ensures err { OnErr result (self.new ≡ self.old) }
    {
        self.files.insert(name, content)?;
        Ok(())
    }

    /// The bytes of the file with a name; none exactly where there is no such file.
    pub fn content(&self, name: &Text) -> Option<&[u8]>
        ensures answer { MatchOption result
            (map.get self.now name.now ≡ None)
            (λ content. map.get self.now name.now ≡ Some content.now) }
        ensures small { IfSome result (λ content. length content.now ≤ rule_size) }
    {
        match self.files.get(name) {
            None => None,
            Some(content) => Some(content.as_bytes()),
        }
    }
}

//! Answers to a question about the texts of a pool, by index and role.

ghost use Rattle.std.specs.Prelude.{◌≡◌, ℕ, None, IfOk};
ghost use Rattle.desk_base.specs.declared.kinds.Role.{Role as RoleOf};
ghost use Rattle.desk_class.specs.Answers.{Keeps, answer_at, place_of};

use desk_base::{Memory, Role};
use std::alloc::Global;
use std::marker::Model;

/// How many roles there are.
const ROLES: usize = 10;

/// Answers to one question about the texts of a pool, each for the text at an index in a role, so that a text is looked at once in
/// a role however often it is used. Contracts see the answers.
#[derive(Drop)]
pub struct TextAnswers {
    answers: Vec<Option<bool>>,
}

impl Model for TextAnswers {
    ghost use Rattle.std.specs.Prelude.{Bool, List, Option};

    ghost Value = { List (Option Bool) };

    ghost view = { λ t. t.answers.items };
}

/// Where the answer for an index in a role stands.
fn place_of(index: u16, role: Role) -> usize
    ensures { result ≡ place_of index role }
{
    let place = match role {
        Role::Class => 0,
        Role::Package => 1,
        Role::Module => 2,
        Role::Descriptor => 3,
        Role::ClassSig => 4,
        Role::MethodSig => 5,
        Role::FieldSig => 6,
        Role::Str => 7,
        Role::Plain => 8,
        Role::AttrName => 9,
    };
    index as usize * ROLES + place
}

impl TextAnswers {
    /// No answer is known, for so many indices from 0 on. The only error is want of memory.
    pub fn none(alloc: Global, count: u16) -> Result<TextAnswers, Memory>
        ensures { IfOk result (λ answers. (i : ℕ) (r : RoleOf) → answer_at answers i r ≡ None) }
    {
        let answers = vec![in alloc; None; count as usize * ROLES]?;
        Ok(TextAnswers { answers })
    }

    /// The answer for the text at an index in a role, where it is known.
    pub fn get(&self, index: u16, role: Role) -> Option<bool>
        ensures { result ≡ answer_at self.now index role }
    {
        match self.answers.get(place_of(index, role)) {
            Some(answer) => *answer,
            None => None,
        }
    }

    /// Keeps the answer for the text at an index in a role; none at an index that isn't below the count.
    #[tactic(auto, using(crate::proofs::Answering::kept))]
    pub fn keep(&mut self, index: u16, role: Role, answer: bool)
        ensures { Keeps self.old index role answer self.new }
    {
        let place = place_of(index, role);
        if place < self.answers.len() {
            self.answers[place] = Some(answer);
        }
    }
}

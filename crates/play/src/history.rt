// What was so, in the order in which it happened: it only grows.
ghost use Rattle.std.specs.Prelude.{◌≡◌, [], ◌∷◌, ◌++◌, is_ok, if◌then◌else◌};

use crate::types::{Change, History, Received, ScriptError, Settled};
use std::alloc::Global;

// Three that note, and none for all lists: each is one push, and says that the other two lists stay.
impl History {
    /// Nothing has happened yet.
    pub fn new(heap: Global) -> History
        ensures changes { result.changes.items ≡ [] }
        ensures answers { result.answers.items ≡ [] }
        ensures writes { result.writes.items ≡ [] }
    {
        History {
            changes: Vec::new(heap),
            answers: Vec::new(heap),
            writes: Vec::new(heap),
        }
    }

    /// The origin has something else.
    pub fn note_change(&mut self, change: Change) -> Result<(), ScriptError>
        ensures changes { self.new.changes.items ≡ (if is_ok result then self.old.changes.items ++ change ∷ [] else self.old.changes.items) }
        ensures answers { self.new.answers ≡ self.old.answers }
        ensures writes { self.new.writes ≡ self.old.writes }
    {
        self.changes.push(change)?;
        Ok(())
    }

    /// The cache received an answer to a read.
    pub fn note_answer(&mut self, answer: Received) -> Result<(), ScriptError>
        ensures changes { self.new.changes ≡ self.old.changes }
        ensures answers { self.new.answers.items ≡ (if is_ok result then self.old.answers.items ++ answer ∷ [] else self.old.answers.items) }
        ensures writes { self.new.writes ≡ self.old.writes }
    {
        self.answers.push(answer)?;
        Ok(())
    }

    /// A write was settled.
    pub fn note_write(&mut self, write: Settled) -> Result<(), ScriptError>
        ensures changes { self.new.changes ≡ self.old.changes }
        ensures answers { self.new.answers ≡ self.old.answers }
        ensures writes { self.new.writes.items ≡ (if is_ok result then self.old.writes.items ++ write ∷ [] else self.old.writes.items) }
    {
        self.writes.push(write)?;
        Ok(())
    }
}

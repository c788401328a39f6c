// The names of a play, by number.
ghost use Rattle.std.specs.Prelude.{◌≡◌, ◌≤◌, [], length, position, take};
ghost use Rattle.play.specs.Tables.{is_named, name_of, word_number, number_of_name, InternedWord, Interned};

use crate::types::{MOST_NAMES, NAME_BYTES, Names, ScriptError};
use indexmap::IndexSet;
use std::alloc::Global;

/// How many names are compared with one that is looked for, before it is hashed.
const FEW: usize = 64;

impl Names {
    /// No names yet.
    pub fn new(heap: Global) -> Names
        ensures { result.items.keys ≡ [] }
    {
        Names {
            items: IndexSet::new(heap),
        }
    }

    /// The name with a number: the empty one for no number, and past the last.
    // No `Option`: the empty name is a name, and is printed like any other.
    pub fn name(&self, number: Option<usize>) -> &[u8]
        ensures name { result.now ≡ name_of self.now.items.keys number }
        ensures short { length result.now ≤ 255 }
    {
        number
            .and_then(|number| self.items.get_index(number))
            .map_or(&[], |name| name.as_slice())
    }

    /// The number of a name, if it is there.
    // The first ones are compared: to hash a long name takes longer than to find it among few.
    fn word_number(&self, name: &[u8]) -> Option<usize>
        ensures { result ≡ word_number self.now.items.keys name.now }
    {
        match among_first(self.items.as_slice(), name) {
            Some(number) => Some(number),
            None => self.items.get_index_of(name),
        }
    }

    /// The same, and no number for the empty name, which is always there.
    pub fn number(&self, name: &[u8]) -> Option<Option<usize>>
        ensures { result ≡ number_of_name self.now.items.keys name.now }
    {
        if name.is_empty() {
            Some(None)
        } else {
            self.word_number(name).map(Some)
        }
    }

    /// The number of a name, which it is given if it has none.
    pub(crate) fn intern_word(&mut self, name: &[u8]) -> Result<usize, ScriptError>
        ensures { InternedWord self.old.items.keys self.new.items.keys name.now result }
    {
        if name.len() > NAME_BYTES {
            return Err(ScriptError::LongName);
        }
        if let Some(number) = self.word_number(name) {
            return Ok(number);
        }
        if self.items.len() >= MOST_NAMES {
            return Err(ScriptError::ManyNames);
        }
        let heap = *self.items.allocator();
        let owned = name.to_vec(heap).map_err(|_| ScriptError::NoMemory)?;
        let (number, _) = self.items.insert_full(owned)?;
        Ok(number)
    }

    /// The same, and no number for the empty name.
    pub fn intern(&mut self, name: &[u8]) -> Result<Option<usize>, ScriptError>
        ensures { Interned self.old.items.keys self.new.items.keys name.now result }
    {
        if name.is_empty() {
            return Ok(None);
        }
        Ok(Some(self.intern_word(name)?))
    }
}

/// The number of a name, if it is among the first few.
fn among_first(items: &[Vec<u8>], name: &[u8]) -> Option<usize>
    ensures { result ≡ position (is_named name.now) (take 64 items.now) }
{
    items
        .iter()
        .take(FEW)
        .position(|item| item.as_slice() == name)
}

// What connections ask for, by value.
ghost use Rattle.std.specs.Prelude.{◌≡◌, true};
ghost use Rattle.std.specs.Option.{option_map};
ghost use Rattle.array_store.specs.Places.{key_of, response_of};
ghost use Rattle.array_store.specs.Shorts.{short_of, is_short};
ghost use Rattle.store.specs.Slots.{is_asked};

use crate::types::{Entry, Short, Stored};
use store::types::CacheKey;

impl Entry {
    pub fn new(key: CacheKey<'_>, tag: Option<Short>) -> Entry
        requires path { is_short key.path.now ≡ true }
        requires language { is_short key.language.now ≡ true }
        ensures { key_of result ≡ record { path = key.entry.path.now; language = key.entry.language.now; tag = option_map short_of tag } }
    {
        Entry {
            path: Short::new(key.path),
            language: Short::new(key.language),
            tag,
        }
    }

    /// The path and language, lent.
    pub fn as_key(&self) -> CacheKey<'_>
        ensures path { result.path.now ≡ short_of self.now.path }
        ensures language { result.language.now ≡ short_of self.now.language }
    {
        CacheKey {
            path: self.path.as_slice(),
            language: self.language.as_slice(),
        }
    }

    /// Does it ask with the validator of this response, for its path and language?
    pub fn asks_for(&self, stored: &Stored) -> bool
        ensures { result ≡ is_asked (key_of self.now) (response_of stored.now) }
    {
        self.tag
            .as_ref()
            .is_some_and(|tag| stored.is_tagged(self.as_key(), tag.as_slice()))
    }
}

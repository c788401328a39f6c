// The sinks: memory that grows, and lent memory.
ghost use Rattle.std.specs.Prelude.{◌≡◌, [], take, MatchResult};
ghost use Rattle.frames.specs.Took.{grown, grown_nothing, grown_onward, filled, filled_nothing, filled_onward};

use crate::faults::NoRoom;
use crate::memory::{Growing, Lent};
use crate::sink::Sink;
use std::alloc::{AllocError, Global};

impl Growing {
    pub fn new(heap: Global) -> Growing
        ensures bytes { result.bytes.items ≡ [] }
        ensures written { result.written ≡ Ok tt }
    {
        Growing {
            bytes: Vec::new(heap),
            written: Ok(()),
        }
    }

    /// The bytes that were put, all of them.
    pub fn taken(&self) -> Result<&[u8], AllocError>
        ensures { MatchResult result (λ bytes. (self.now.written ≡ Ok tt) × (bytes.now ≡ self.now.bytes.items)) (λ error. self.now.written ≡ Err error) }
    {
        self.written?;
        Ok(self.bytes.as_slice())
    }

    /// Forgets the bytes, and keeps their memory for those to come.
    pub fn clear(&mut self)
        ensures bytes { self.new.bytes.items ≡ [] }
        ensures written { self.new.written ≡ self.old.written }
    {
        self.bytes.clear();
    }
}

impl Sink for Growing {
    ghost took = { grown };

    ghost nothing = { grown_nothing };

    ghost onward = { grown_onward };

    fn put(&mut self, part: &[u8]) {
        if let Err(error) = self.bytes.extend_from_slice(part) {
            self.written = Err(error);
        }
    }
}

impl Lent<'_> {
    /// The bytes that were put, all of them.
    pub fn taken(&self) -> Result<&[u8], NoRoom>
        ensures { MatchResult result (λ bytes. (self.now.written ≡ Ok tt) × (bytes.now ≡ take self.now.len self.now.memory.now)) (λ error. self.now.written ≡ Err error) }
    {
        self.written?;
        Ok(&self.memory[..self.len.min(self.memory.len())])
    }
}

impl Sink for Lent<'_> {
    ghost took = { filled };

    ghost nothing = { filled_nothing };

    ghost onward = { filled_onward };

    fn put(&mut self, part: &[u8]) {
        match self.len.checked_add(part.len()) {
            Some(end) if end <= self.memory.len() => {
                self.memory[self.len..end].copy_from_slice(part);
                self.len = end;
            }
            _ => self.written = Err(NoRoom),
        }
    }
}

// The bytes that were read and not yet taken.
ghost use Rattle.std.specs.Prelude.{◌≡◌, ℕ, ◌+◌, ◌<◌, ◌≤◌, List, [], length, drop, take, vec_items, vec_len, IfOk, OnErr};
ghost use Rattle.frames.specs.Views.{largest};

use frames::kinds::LARGEST_FRAME;
use std::alloc::{AllocError, Global};
use std::io;
use std::io::Read;
use std::marker::Model;

/// What is left of a frame, and a piece of the input behind it that is no shorter than the largest frame.
const BUFFER: usize = 2 * LARGEST_FRAME;

/// The bytes that were read and not yet taken, at the front of memory that is taken once.
#[derive(Drop)]
pub struct Pending {
    // Memory and a length, since `read` wants bytes that are there already.
    memory: Vec<u8>,
    len: usize,
}

impl Model for Pending {
    ghost Value = { List ℕ };

    ghost view = { λ p. take p.len (vec_items p.memory) };

    ghost invariant = { λ p. (p.len ≤ vec_len p.memory) × (largest < vec_len p.memory) };
}

impl Pending {
    /// Nothing was read yet.
    pub fn new(heap: Global) -> Result<Pending, AllocError>
        ensures { IfOk result (λ pending. pending ≡ []) }
    {
        Ok(Pending {
            memory: vec![in heap; 0u8; BUFFER]?,
            len: 0,
        })
    }

    /// All of the bytes.
    pub fn bytes(&self) -> &[u8]
        ensures { result.now ≡ self.now }
    {
        &self.memory[..self.len]
    }

    /// Reads some bytes behind those that are there, and says how many: none only at the end of the input.
    pub fn read<R: Read>(&mut self, input: &mut R) -> io::Result<usize>
        requires { length self.old < largest }
        ensures len { IfOk result (λ n. length self.new ≡ length self.old + n) }
        ensures front { take (length self.old) self.new ≡ self.old }
        ensures err { OnErr result (self.new ≡ self.old) }
    {
        let len = input.read(&mut self.memory[self.len..])?;
        self.len += len;
        Ok(len)
    }

    /// Takes the first `count` bytes away, and moves the others to the front.
    pub fn take(&mut self, count: usize)
        requires { count ≤ length self.old }
        ensures { self.new ≡ drop count self.old }
    {
        self.memory.copy_within(count..self.len, 0);
        self.len -= count;
    }
}

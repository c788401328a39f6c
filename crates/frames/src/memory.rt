// The memory that sinks write to.
use crate::faults::NoRoom;
use std::alloc::AllocError;

/// Memory that grows, until there is none left.
#[derive(Drop)]
pub struct Growing {
    pub bytes: Vec<u8>,
    /// Whether all that was put is in the bytes, kept until it is asked for: who writes frames has no error to give.
    pub written: Result<(), AllocError>,
}

/// Lent memory, filled from its front.
#[derive(Drop)]
pub struct Lent<'a> {
    // A slice and a length, since lent memory is no `Vec`: nothing here is taken from the heap.
    pub memory: &'a mut [u8],
    pub len: usize,
    /// Whether all that was put is in the memory, kept until it is asked for.
    pub written: Result<(), NoRoom>,
}

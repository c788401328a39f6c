// What the proxy holds from one event to the next.
use std::marker::Model;

/// A proxy that has no connection to its origin.
#[derive(Drop)]
pub struct Proxy<'a> {
    /// How often the clock went on.
    pub tick: u64,
    /// For each number of a client whether that client is closed: lent memory, since a proxy takes none from the heap.
    pub marks: &'a mut [u8],
}

impl<'a> Model for Proxy<'a> {
    ghost use Rattle.proxy.specs.Steps.{State};

    ghost Value = { State };

    ghost view = { λ p. record { tick = p.tick; marks = p.marks.now } };
}

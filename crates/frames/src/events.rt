// Events, as their frames tell them.

/// What happened, with the bytes that came of it.
#[derive(Clone, Copy, Debug, PartialEq, Eq, Drop)]
pub enum Event<'a> {
    /// The client of this number sent these bytes.
    Client(u16, &'a [u8]),
    /// The origin sent these bytes on this connection.
    Origin(u8, &'a [u8]),
    /// This connection to the origin broke.
    Broken(u8),
    /// The clock went on by one.
    Tick,
    /// The client of this number ended.
    Ended(u16),
}

// The kinds of frames, each told by a frame's first byte, and how much a frame holds.
ghost use Rattle.std.specs.Prelude.{◌≡◌, Ok};
ghost use Rattle.frames.specs.Events.{event_kind};

use crate::faults::Fault;

/// The kinds of frames that come in.
#[derive(Clone, Copy, Debug, PartialEq, Eq, Drop)]
pub enum EventKind {
    /// Bytes that a client sent.
    ClientBytes = 1,
    /// Bytes that the origin sent on a connection.
    OriginBytes = 2,
    /// A connection to the origin broke.
    OriginBroken = 3,
    /// The clock goes on by one.
    Tick = 4,
    /// A client ended.
    ClientEnded = 5,
}

impl TryFrom<u8> for EventKind {
    type Error = Fault;

    ghost try_from_gives = { λ kind r. r ≡ event_kind kind };

    fn try_from(kind: u8) -> Result<EventKind, Fault> {
        match kind {
            1 => Ok(EventKind::ClientBytes),
            2 => Ok(EventKind::OriginBytes),
            3 => Ok(EventKind::OriginBroken),
            4 => Ok(EventKind::Tick),
            5 => Ok(EventKind::ClientEnded),
            _ => Err(Fault::UnknownKind),
        }
    }
}

impl From<EventKind> for u8 {
    ghost from_gives = { λ kind byte. event_kind byte ≡ Ok kind };

    fn from(kind: EventKind) -> u8 {
        kind as u8
    }
}

/// The kinds of frames that go out.
#[derive(Clone, Copy, Debug, PartialEq, Eq, Drop)]
pub enum FrameKind {
    /// Bytes for a client.
    ToClient = 16,
    /// Bytes for the origin, on a connection.
    ToOrigin = 17,
    /// A client is to be closed.
    CloseClient = 18,
    /// A connection to the origin is to be opened.
    OpenConnection = 19,
    /// A connection to the origin is to be closed.
    CloseConnection = 20,
    /// So many last bytes of the event were not taken.
    NotTaken = 21,
}

/// Connections to the origin are numbered from 0 to 7.
pub const CONNECTIONS: u8 = 8;

/// The most bytes that one frame carries: its length has two bytes.
pub const MOST_BYTES: usize = 65_535;

/// The most bytes that one frame has: a client's bytes, with their head.
pub const LARGEST_FRAME: usize = 65_540;

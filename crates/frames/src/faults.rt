// Why a frame is refused, and why one is not written.
ghost use Rattle.std.specs.Prelude.{Some, codes};
ghost use Rattle.frames.specs.Faults.{fault_text, unwritten_text};

use std::error::Error;
use std::fmt;

/// Why bytes are no event's, whatever follows them.
#[derive(Clone, Copy, Debug, PartialEq, Eq, Drop)]
pub enum Fault {
    /// The first byte is no kind of event.
    UnknownKind,
    /// The frame names a connection that there is not.
    UnknownConnection,
}

impl fmt::Display for Fault {
    ghost output = { λ fault. Some (fault_text fault) };

    fn fmt<W: fmt::Write>(&self, f: &mut fmt::Formatter<W>) -> fmt::Result {
        match self {
            Fault::UnknownKind => f.write_str("no kind of event"),
            Fault::UnknownConnection => f.write_str("no connection"),
        }
    }
}

impl Error for Fault {}

/// Why bytes are not written as a frame.
#[derive(Clone, Copy, Debug, PartialEq, Eq, Drop)]
pub enum Unwritten {
    /// There are more bytes than one frame carries.
    TooLong,
}

impl fmt::Display for Unwritten {
    ghost output = { λ unwritten. Some (unwritten_text unwritten) };

    fn fmt<W: fmt::Write>(&self, f: &mut fmt::Formatter<W>) -> fmt::Result {
        f.write_str("more bytes than one frame carries")
    }
}

impl Error for Unwritten {}

/// Lent memory has no room for more bytes.
#[derive(Clone, Copy, Debug, PartialEq, Eq, Drop)]
pub struct NoRoom;

impl fmt::Display for NoRoom {
    ghost output = { λ _. Some (codes "no room") };

    fn fmt<W: fmt::Write>(&self, f: &mut fmt::Formatter<W>) -> fmt::Result {
        f.write_str("no room")
    }
}

impl Error for NoRoom {}

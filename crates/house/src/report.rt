// What is told on standard error.
use frames::faults::Fault;
use proxy::steps::Halt;
use std::alloc::AllocError;
use std::{fmt, io};

/// How far the input was taken, and why no further.
#[derive(Clone, Copy, Debug, PartialEq, Eq, Drop)]
pub struct End {
    /// How many bytes of the input were taken.
    pub at: u64,
    /// Why the bytes behind them were not.
    pub halt: Halt,
}

impl fmt::Display for End {
    fn fmt<W: fmt::Write>(&self, f: &mut fmt::Formatter<W>) -> fmt::Result {
        let at = self.at;
        match self.halt {
            Halt::More => write!(f, "byte {at} of the input is not there"),
            Halt::Refused(fault) => {
                let number = u8::from(fault);
                let place = at.wrapping_add(deciding(fault));
                write!(
                    f,
                    "refused ({number}): byte {place} of the input is {fault}"
                )
            }
            Halt::ClockExhausted => {
                write!(f, "byte {at} of the input is a tick that can't be counted")
            }
        }
    }
}

/// Which byte of its frame decides it: the first, or the connection behind it.
fn deciding(fault: Fault) -> u64 {
    match fault {
        Fault::UnknownKind => 0,
        Fault::UnknownConnection => 1,
    }
}

/// What went wrong around the proxy.
#[derive(Debug, Drop)]
pub enum Trouble {
    /// Memory could not be taken.
    Memory,
    /// Standard input could not be read.
    Reading(io::Error),
    /// Standard output could not be written.
    Writing(io::Error),
}

impl From<AllocError> for Trouble {
    fn from(_error: AllocError) -> Trouble {
        Trouble::Memory
    }
}

impl fmt::Display for Trouble {
    fn fmt<W: fmt::Write>(&self, f: &mut fmt::Formatter<W>) -> fmt::Result {
        match self {
            Trouble::Memory => f.write_str("taking memory: there is too little"),
            Trouble::Reading(error) => write!(f, "reading standard input: {error}"),
            Trouble::Writing(error) => write!(f, "writing standard output: {error}"),
        }
    }
}

// What is said of errors.
use play::types::ScriptError;
use std::alloc::AllocError;
use std::{fmt, io};

/// Why a script can't be played to its end, or that it ends badly.
#[derive(Debug, Drop)]
pub(crate) enum Trouble {
    /// a line of the script is wrong
    Script { line: usize, error: ScriptError },
    /// an answer was not as promised
    Broken,
    /// no memory is left
    Memory,
    /// the input can't be read, or the output not written
    Stream(io::Error),
}

impl From<AllocError> for Trouble {
    fn from(_error: AllocError) -> Trouble {
        Trouble::Memory
    }
}

impl From<io::Error> for Trouble {
    fn from(error: io::Error) -> Trouble {
        Trouble::Stream(error)
    }
}

impl fmt::Display for Trouble {
    fn fmt<W: fmt::Write>(&self, f: &mut fmt::Formatter<W>) -> fmt::Result {
        match self {
            Trouble::Script { line, error } => write!(f, "line {line}: {error}"),
            Trouble::Broken => write!(f, "an answer was not as promised"),
            Trouble::Memory => write!(f, "no memory is left"),
            Trouble::Stream(error) => write!(f, "{error}"),
        }
    }
}

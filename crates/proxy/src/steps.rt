// What became of the bytes that were given to the proxy.
ghost use Rattle.std.specs.Prelude.{◌≡◌};
ghost use Rattle.proxy.specs.declared.steps.Halt.TheVariants as halt;

use frames::faults::Fault;

/// Why the proxy takes no more of some bytes.
#[derive(Clone, Copy, Debug, PartialEq, Eq, Drop)]
pub enum Halt {
    /// No whole event is there: it goes on once there are more bytes.
    More,
    /// What is there is no event: nothing more is read.
    Refused(Fault),
    /// The clock can't be counted further: nothing more is read.
    ClockExhausted,
}

impl From<Fault> for Halt {
    ghost from_gives = { λ fault h. h ≡ halt.Refused fault };

    fn from(fault: Fault) -> Halt {
        Halt::Refused(fault)
    }
}

/// What became of the bytes for as many events as are there.
#[derive(Clone, Copy, Debug, PartialEq, Eq, Drop)]
pub struct Taken {
    /// How many bytes the events had that were taken.
    pub len: usize,
    /// Why the others were not.
    pub halt: Halt,
}

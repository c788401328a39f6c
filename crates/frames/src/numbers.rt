// The numbers by which refusals are told.
ghost use Rattle.std.specs.Prelude.{◌≡◌};
ghost use Rattle.frames.specs.Faults.{refusal_number};

use crate::faults::Fault;

/// The refusal's number: a frame that is no event's.
impl From<Fault> for u8 {
    ghost from_gives = { λ fault number. number ≡ refusal_number fault };

    fn from(fault: Fault) -> u8 {
        match fault {
            Fault::UnknownKind | Fault::UnknownConnection => 1,
        }
    }
}

// All the events that are there, one after the other.
ghost use Rattle.std.specs.Prelude.{◌≡◌, ◌-◌, ◌≤◌, length};
ghost use Rattle.frames.specs.Frames.{out_bytes};
ghost use Rattle.proxy.specs.Batches.{take_all};
ghost use Rattle.proxy.specs.Runs.{TakesEvents};
ghost use Rattle.proxy.specs.Steps.{HaltWithin};

use crate::state::Proxy;
use crate::steps::Taken;
use frames::sink::Sink;

impl Proxy<'_> {
    /// Takes every whole event from the front of the bytes, and writes the frames that they bring.
    pub fn take_all<S: Sink>(&mut self, bytes: &[u8], out: &mut S) -> Taken
        ensures state { self.new ≡ (take_all bytes.now self.old).turn.after }
        ensures wrote { S.Sink.took out.old (out_bytes (take_all bytes.now self.old).turn.frames) out.new }
        ensures value { result ≡ (take_all bytes.now self.old).taken }
        ensures within { result.len ≤ length bytes.now }
        ensures events { TakesEvents bytes.now self.old }
        ensures rest { HaltWithin result.halt (length bytes.now - result.len) }
    {
        // The place is the answer, so it is counted: a slice that shrinks would have to be measured at the end.
        let mut at = 0;
        loop {
            match self.step(&bytes[at..], out) {
                Ok(len) => at += len,
                Err(halt) => return Taken { len: at, halt },
            }
        }
    }
}

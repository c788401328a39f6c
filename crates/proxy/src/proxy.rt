// The proxy's step: an event's bytes in, frames out.
ghost use Rattle.std.specs.Prelude.{◌≡◌, [], length};
ghost use Rattle.frames.specs.Events.{Ticked};
ghost use Rattle.frames.specs.Frames.{ToClient, frame_bytes, out_bytes};
ghost use Rattle.frames.specs.Views.{seen};
ghost use Rattle.proxy.specs.Responses.{unavailable};
ghost use Rattle.proxy.specs.Steps.{start, is_open, refusal, refuse, from_client, counted, handled, step_of, StepWithin};

use crate::marks::{Mark, clear_marks, is_open, set_mark};
use crate::refusal::service_unavailable;
use crate::state::Proxy;
use crate::steps::Halt;
use frames::events::Event;
use frames::reader::read_event;
use frames::sink::Sink;
use frames::writer::{close_client, to_client};

/// The last tick that is counted.
pub const LAST_TICK: u64 = u64::MAX;

// What is left and what is written are two clauses each time: the one is of the proxy, the other of the sink.
impl<'a> Proxy<'a> {
    /// A proxy at tick 0 that has closed no client, with places for as many clients as there are bytes.
    pub fn new(marks: &'a mut [u8]) -> Proxy<'a>
        ensures { result ≡ start (length marks.old) }
    {
        clear_marks(marks);
        Proxy { tick: 0, marks }
    }

    /// Takes one event from the front of the bytes, writes the frames that it brings, and says how many bytes it has.
    pub fn step<S: Sink>(&mut self, bytes: &[u8], out: &mut S) -> Result<usize, Halt>
        ensures state { self.new ≡ (step_of bytes.now self.old).turn.after }
        ensures wrote { S.Sink.took out.old (out_bytes (step_of bytes.now self.old).turn.frames) out.new }
        ensures value { result ≡ (step_of bytes.now self.old).step }
        ensures within { StepWithin result (length bytes.now) }
    {
        let (event, len) = read_event(bytes)?.ok_or(Halt::More)?;
        self.handle(event, out)?;
        Ok(len)
    }

    fn may_answer(&self, client: u16) -> bool
        ensures { result ≡ is_open self.now.marks client }
    {
        is_open(self.marks, client)
    }

    fn refuse<S: Sink>(&mut self, client: u16, out: &mut S)
        ensures state { self.new ≡ (refuse client self.old).after }
        ensures wrote { S.Sink.took out.old (out_bytes (refuse client self.old).frames) out.new }
    {
        set_mark(self.marks, client, Mark::Closed as u8);
        put_refusal(client, out);
    }

    fn client_sent<S: Sink>(&mut self, client: u16, bytes: &[u8], out: &mut S)
        ensures state { self.new ≡ (from_client client bytes.now self.old).after }
        ensures wrote { S.Sink.took out.old (out_bytes (from_client client bytes.now self.old).frames) out.new }
    {
        if !bytes.is_empty() && self.may_answer(client) {
            self.refuse(client, out);
        }
    }

    fn tick_on(&mut self) -> Result<(), Halt>
        ensures value { result ≡ counted Ticked self.old }
        ensures state { self.new ≡ (handled Ticked self.old).after }
        ensures quiet { (handled Ticked self.old).frames ≡ [] }
    {
        if self.tick >= LAST_TICK {
            return Err(Halt::ClockExhausted);
        }
        self.tick += 1;
        Ok(())
    }

    /// Takes an event; at a tick that can't be counted nothing changes.
    fn handle<S: Sink>(&mut self, event: Event<'_>, out: &mut S) -> Result<(), Halt>
        ensures value { result ≡ counted (seen event.entry) self.old }
        ensures state { self.new ≡ (handled (seen event.entry) self.old).after }
        ensures wrote { S.Sink.took out.old (out_bytes (handled (seen event.entry) self.old).frames) out.new }
    {
        match event {
            Event::Client(client, bytes) => self.client_sent(client, bytes, out),
            Event::Origin(_, _) | Event::Broken(_) => {}
            Event::Tick => self.tick_on()?,
            Event::Ended(client) => set_mark(self.marks, client, Mark::Open as u8),
        }
        Ok(())
    }
}

/// There is no connection to the origin, so the client is told so and closed.
fn put_refusal<S: Sink>(client: u16, out: &mut S)
    ensures { S.Sink.took out.old (out_bytes (refusal client)) out.new }
{
    put_response(client, out);
    close_client(client, out);
}

fn put_response<S: Sink>(client: u16, out: &mut S)
    ensures { S.Sink.took out.old (frame_bytes (ToClient client unavailable)) out.new }
{
    // The response is short enough for one frame.
    let _ = to_client(client, service_unavailable(), out);
}

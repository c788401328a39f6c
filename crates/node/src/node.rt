// The calls of a cache by value. None asks anything of its caller: a connection is any number, since a `Connection` would.
ghost use Rattle.std.specs.Prelude.{◌≡◌, ◌≤◌, is_ok, slice_index_or};
ghost use Rattle.array_store.specs.Shorts.{is_known, is_fitting};
ghost use Rattle.cache.specs.Answers.{reply_of, received, lost};
ghost use Rattle.cache.specs.Rules.{ask_of, can_tick, ticked, requested};
ghost use Rattle.node.specs.Worlds.{state_in, begun, held_at, stored_before, Ticked, Asked, Answered, Lost, NodeKeeps};
ghost use Rattle.store.specs.Slots.{Empty, row_of, body_of};

use crate::types::Node;
use array_store::types::{ArrayStore, PLACES};
use cache::types::{Answer, Cache, ClockExhausted, Looked, Outcome, Request, RequestError};
use store::types::{Connection, Row};

impl Node {
    /// At tick 0, with nothing stored and nothing under way.
    pub fn new() -> Node
        ensures state { state_in result ≡ begun }
        ensures promise { NodeKeeps }
    {
        Node {
            cache: Cache::new(ArrayStore::new()),
        }
    }

    /// A second passes, if it can be counted.
    pub fn pass_tick(&mut self) -> Result<(), ClockExhausted>
        ensures state { state_in self.new ≡ ticked (state_in self.old) }
        ensures gives { is_ok result ≡ can_tick (state_in self.old) }
        ensures world { Ticked (state_in self.old) (state_in self.new) }
    {
        self.cache.pass_tick()
    }

    /// A client's request: served from the store, forwarded, or refused.
    pub fn request(&mut self, request: Request<'_>) -> Result<Looked, RequestError>
        ensures state { state_in self.new ≡ (requested is_known (ask_of request.entry) (state_in self.old)).state }
        ensures gives { result ≡ (requested is_known (ask_of request.entry) (state_in self.old)).gives }
        ensures world { Asked (ask_of request.entry) (state_in self.old) (state_in self.new) }
    {
        self.cache.request(request)
    }

    /// The answer to what is under way on a connection.
    pub fn receive(&mut self, c: usize, answer: Answer<'_>) -> Outcome
        ensures state { state_in self.new ≡ (received is_fitting c (reply_of answer.entry) (state_in self.old)).state }
        ensures gives { result ≡ (received is_fitting c (reply_of answer.entry) (state_in self.old)).gives }
        ensures world { Answered c (reply_of answer.entry) (state_in self.old) (state_in self.new) }
    {
        self.cache.receive(c, answer)
    }

    /// A connection is lost, or closed for a fault in what came on it.
    pub fn lose(&mut self, c: usize) -> Outcome
        ensures state { state_in self.new ≡ (lost c (state_in self.old)).state }
        ensures gives { result ≡ (lost c (state_in self.old)).gives }
        ensures world { Lost c (state_in self.old) (state_in self.new) }
    {
        self.cache.lose(c)
    }

    /// The body of what is stored at a place; empty where nothing is.
    pub fn body(&self, place: usize) -> &[u8]
        ensures { result.now ≡ body_of (slice_index_or (state_in self.now).slots place Empty) }
    {
        self.cache.body(place)
    }

    /// The numbers of what is stored at a place.
    pub fn row(&self, place: usize) -> Option<Row>
        ensures { result ≡ row_of (slice_index_or (state_in self.now).slots place Empty) }
    {
        self.cache.row(place)
    }

    /// How many places hold a response.
    pub fn stored(&self) -> usize
        ensures count { result ≡ stored_before 64 (state_in self.now).slots }
        ensures at_most { result ≤ 64 }
    {
        (0..PLACES)
            .filter(|place| self.row(*place).is_some())
            .count()
    }

    /// The body that is held for a connection; empty where nothing is.
    pub fn held(&self, c: usize) -> &[u8]
        ensures { result.now ≡ held_at c (state_in self.now) }
    {
        Connection::new(c).map_or(&[], |c| self.cache.held(c))
    }

    /// How often the clock went on.
    pub fn tick(&self) -> u64
        ensures { result ≡ (state_in self.now).tick }
    {
        self.cache.tick
    }
}

// A cache from its start, its clock, and what it shows.
ghost use Rattle.std.specs.Prelude.{◌≡◌, is_ok};
ghost use Rattle.cache.specs.Rules.{state_of, started, can_tick, ticked, released};
ghost use Rattle.store.specs.Slots.{row_of, body_of, slot_at, held_at};

use crate::types::{Cache, ClockExhausted};
use store::store::Store;
use store::types::{CONNECTIONS, Connection, Row};

impl<S: Store> Cache<S> {
    /// At tick 0, with every connection idle, over what is in the store. Exchanges are numbered from 1.
    pub fn new(store: S) -> Cache<S>
        ensures state { state_of S.view result ≡ started (S.view store).slots (S.view store).keys (S.view store).held }
        ensures store { result.store ≡ store }
    {
        Cache {
            tick: 0,
            next: 1,
            links: [None; CONNECTIONS],
            store,
        }
    }

    /// A second passes, if it can be counted.
    pub fn pass_tick(&mut self) -> Result<(), ClockExhausted>
        ensures state { state_of S.view self.new ≡ ticked (state_of S.view self.old) }
        ensures store { self.new.store ≡ self.old.store }
        ensures gives { is_ok result ≡ can_tick (state_of S.view self.old) }
    {
        self.tick = self.tick.checked_add(1).ok_or(ClockExhausted)?;
        Ok(())
    }

    /// Nothing is held any more for a connection whose answer was delivered; what is under way keeps what it holds.
    // Any number: a `Connection` would ask more of callers.
    pub fn release(&mut self, c: usize)
        ensures { state_of S.view self.new ≡ released c (state_of S.view self.old) }
    {
        if let Some(connection) = Connection::new(c)
            && self.links[c].is_none()
        {
            self.store.release(connection);
        }
    }

    /// The body of what is stored at a place.
    pub fn body(&self, place: usize) -> &[u8]
        ensures { result.now ≡ body_of (slot_at place (S.view self.now.store)) }
    {
        self.store.body(place)
    }

    /// The body that is held for a connection.
    pub fn held(&self, c: Connection) -> &[u8]
        ensures { result.now ≡ held_at c (S.view self.now.store) }
    {
        self.store.held(c)
    }

    /// The numbers of what is stored at a place.
    pub fn row(&self, place: usize) -> Option<Row>
        ensures { result ≡ row_of (slot_at place (S.view self.now.store)) }
    {
        self.store.row(place)
    }
}

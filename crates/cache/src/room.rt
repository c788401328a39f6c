// The place that a new answer takes.
ghost use Rattle.std.specs.Prelude.{◌≡◌, ◌<◌, length};
ghost use Rattle.std.specs.List.{position};
ghost use Rattle.cache.specs.Answers.{pins, is_pinned, may_go, is_spent, last_use, older, oldest_to, room_for};
ghost use Rattle.cache.specs.Decisions.{KeepsOthers, SparesPinned};
ghost use Rattle.cache.specs.Rules.{state_of};
ghost use Rattle.store.specs.Slots.{slot_at};

use crate::rows::may_serve;
use crate::types::Cache;
use store::store::Store;
use store::types::{CONNECTIONS, Connection};

impl<S: Store> Cache<S> {
    /// The place of an older answer to what a connection asks for, or the lowest that is free, or the best to give up.
    // `choose` does it: `keeps` and `spares` are proved of what it gives.
    pub fn room_for(&self, c: Connection) -> Option<usize>
        ensures value { result ≡ room_for c.number (state_of S.view self.now) }
        ensures keeps { KeepsOthers c.number (state_of S.view self.now) result }
        ensures spares { SparesPinned c.number (state_of S.view self.now) result }
    {
        self.choose(c)
    }

    #[tactic(auto, unfolding(crate::specs::Answers::room_for))]
    fn choose(&self, c: Connection) -> Option<usize>
        ensures { result ≡ room_for c.number (state_of S.view self.now) }
    {
        self.store
            .find_of(c)
            .or_else(|| self.store.find_free())
            .or_else(|| self.find_spent())
            .or_else(|| self.find_oldest())
    }

    /// The lowest place of what may no longer be served.
    fn find_spent(&self) -> Option<usize>
        ensures { result ≡ position (is_spent (state_of S.view self.now)) (S.view self.now.store).slots }
    {
        (0..self.store.places()).find(|place| self.is_spent(*place))
    }

    /// The place of what was used longest ago, the lowest among equals.
    #[tactic(auto, unfolding(crate::specs::Answers::oldest_to))]
    fn find_oldest(&self) -> Option<usize>
        ensures { result ≡ oldest_to (length (S.view self.now.store).slots) (state_of S.view self.now) }
    {
        // Not `min_by_key`: the fold is the definition that the choice is proved by, turn by turn.
        (0..self.store.places()).fold(None, |best, place| self.older(best, place))
    }

    /// May what is stored at a place no longer be served, and be given up?
    fn is_spent(&self, place: usize) -> bool
        ensures { result ≡ is_spent (state_of S.view self.now) (slot_at place (S.view self.now.store)) }
    {
        self.store
            .row(place)
            .is_some_and(|row| !may_serve(row, self.tick) && !self.is_pinned(place))
    }

    /// The better of two places to give up.
    fn older(&self, best: Option<usize>, place: usize) -> Option<usize>
        ensures { result ≡ older (state_of S.view self.now) best place }
    {
        if !self.may_go(place) {
            return best;
        }
        match best {
            Some(other) if self.last_use(place) >= self.last_use(other) => best,
            _ => Some(place),
        }
    }

    fn may_go(&self, place: usize) -> bool
        ensures { result ≡ may_go (state_of S.view self.now) (slot_at place (S.view self.now.store)) }
    {
        self.store.row(place).is_some() && !self.is_pinned(place)
    }

    // 0 for a free place, which `older` never asks about.
    fn last_use(&self, place: usize) -> u64
        ensures { result ≡ last_use (slot_at place (S.view self.now.store)) }
    {
        self.store.row(place).map_or(0, |row| row.used_at)
    }

    /// Does an exchange under way ask with the validator of what is stored at a place?
    #[tactic(auto, unfolding(crate::specs::Answers::is_pinned))]
    fn is_pinned(&self, place: usize) -> bool
        ensures { result ≡ is_pinned (state_of S.view self.now) (slot_at place (S.view self.now.store)) }
    {
        (0..CONNECTIONS).any(
            |number|
                requires { number < 8 }
            { self.pins(Connection { number }, place) },
        )
    }

    /// Does the exchange on this connection?
    fn pins(&self, c: Connection, place: usize) -> bool
        ensures { result ≡ pins (state_of S.view self.now) c.number (slot_at place (S.view self.now.store)) }
    {
        self.is_reading(c) && self.store.is_asked(c, place)
    }
}

// What is under way on the connections to the origin.
ghost use Rattle.std.specs.Prelude.{◌≡◌, ◌≤◌, slice_index_or, None, if◌then◌else◌, MatchOption};
ghost use Rattle.std.specs.List.{position, position_or_len};
ghost use Rattle.std.specs.Option.{option_map};
ghost use Rattle.cache.specs.Answers.{is_reading, outdated, busy_on};
ghost use Rattle.cache.specs.Rules.{is_idle};

use crate::types::{Cache, Exchange, Pending};
use store::types::Connection;

impl<S> Cache<S> {
    /// The lowest connection that is idle.
    pub fn idle_connection(&self) -> Option<Connection>
        ensures { MatchOption result (8 ≤ position_or_len is_idle self.now.links) (λ c. c.number ≡ position_or_len is_idle self.now.links) }
    {
        Connection::new(first_idle(&self.links)?)
    }

    /// What is under way on the connection of this number.
    pub(crate) fn under_way(&self, number: usize) -> Option<Pending>
        ensures { option_map (λ p. (p.connection.number, p.exchange)) result ≡ busy_on number self.now.links }
    {
        let connection = Connection::new(number)?;
        let exchange = self.links[connection.number]?;
        Some(Pending {
            connection,
            exchange,
        })
    }

    /// Is a read under way on a connection?
    pub fn is_reading(&self, c: Connection) -> bool
        ensures { result ≡ is_reading (slice_index_or self.now.links c.number None) }
    {
        self.links[c.number].is_some_and(|exchange| !exchange.write)
    }
}

impl Exchange {
    /// Invalidated, if its path is written.
    pub fn marked_if(self, path_is_written: bool) -> Exchange
        ensures { result ≡ (if path_is_written then outdated self else self) }
    {
        Exchange {
            invalidated: self.invalidated || path_is_written,
            ..self
        }
    }
}

/// The lowest number of what is idle.
fn first_idle(links: &[Option<Exchange>]) -> Option<usize>
    ensures { result ≡ position is_idle links.now }
{
    links.iter().position(|link| link.is_none())
}

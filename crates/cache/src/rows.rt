// What the numbers of a stored response say.
ghost use Rattle.std.specs.Prelude.{◌≡◌};
ghost use Rattle.cache.specs.Rules.{may_serve};

use store::types::Row;

/// May it be shown at this tick?
pub fn may_serve(row: Row, tick: u64) -> bool
    ensures { result ≡ may_serve tick row }
{
    !row.no_cache && row.lifetime > 0 && tick <= row.requested_at.saturating_add(row.lifetime)
}

// The judge: every answer is held to what the origin had, by the history of the run and nothing else.
ghost use Rattle.std.specs.Prelude.{◌≡◌, reverse};
ghost use Rattle.std.specs.List.{list_any, find};
ghost use Rattle.play.specs.Judge.{leaves, seen_change, latest_on, lasts_past, ago_of, is_fresh, lifetime_on, is_undone, is_withdrawing, is_shared, never_so, kept_judged, owner_judged};

use crate::types::{
    Breach, Change, Given, History, Judged, Latest, Moment, Received, Settled, Version,
};

impl History {
    /// Judges an answer from the store.
    pub fn judge_kept(&self, given: Given, now: Moment) -> Judged
        ensures { result ≡ kept_judged self.now given now }
    {
        let Some(version) = given.version else {
            return Judged::never_so(0);
        };
        let latest = latest_moment(&self.changes, version);
        let ago = latest.ago(now.tick);
        let lifetime = said_lifetime(&self.answers, version, now.tick);
        let verdict = if latest == Latest::Never {
            Err(Breach::NeverSo)
        } else if lifetime == 0 || ago > lifetime {
            Err(Breach::TooOld)
        } else if any_undone(&self.writes, given.path, now.event, latest) {
            Err(Breach::BeforeWrite)
        } else if any_shared(&self.answers, version) {
            Ok(())
        } else {
            Err(Breach::NotShared)
        };
        Judged {
            verdict,
            ago,
            lifetime,
        }
    }

    /// Judges, at a tick, an answer of the origin's to what was forwarded at the event `since`.
    // No `Moment`: `since` is when the request was forwarded, and `tick` is now.
    pub fn judge_owner(&self, given: Given, since: u64, lifetime: u64, tick: u64) -> Judged
        ensures { result ≡ owner_judged self.now given since lifetime tick }
    {
        let Some(version) = given.version else {
            return Judged::never_so(lifetime);
        };
        let latest = latest_moment(&self.changes, version);
        let verdict = if latest == Latest::Never {
            Err(Breach::NeverSo)
        } else if !latest.lasts_past(since) {
            Err(Breach::NotSince)
        } else if any_undone(&self.writes, given.path, since, latest) {
            Err(Breach::BeforeWrite)
        } else {
            Ok(())
        };
        Judged {
            verdict,
            ago: latest.ago(tick),
            lifetime,
        }
    }
}

impl Judged {
    /// Of what was never the origin's.
    fn never_so(lifetime: u64) -> Judged
        ensures { result ≡ never_so lifetime }
    {
        Judged {
            verdict: Err(Breach::NeverSo),
            ago: 0,
            lifetime,
        }
    }
}

/// The latest moment at which the origin had a version.
pub fn latest_moment(changes: &[Change], version: Version) -> Latest
    ensures { result ≡ latest_on version changes.now }
{
    changes.iter().fold(
        Latest::Never,
        |latest, change| latest.seen(*change, version),
    )
}

impl Latest {
    /// With one more change of what the origin has.
    fn seen(self, change: Change, version: Version) -> Latest
        ensures { result ≡ seen_change version self change }
    {
        if change.version.resource != version.resource {
            self
        } else if change.version.text == version.text {
            Latest::Still
        } else {
            self.left(change.since)
        }
    }

    /// It was so until another version came.
    fn left(self, since: Moment) -> Latest
        ensures { result ≡ leaves self since }
    {
        match self {
            Latest::Still => Latest::Until(since),
            Latest::Never | Latest::Until(_) => self,
        }
    }

    /// Was it so after this event?
    pub fn lasts_past(self, event: u64) -> bool
        ensures { result ≡ lasts_past self event }
    {
        match self {
            Latest::Never => false,
            Latest::Until(end) => event < end.event,
            Latest::Still => true,
        }
    }

    /// How many ticks ago it was last so.
    // 0 for `Never`, which is a breach whatever its age.
    pub fn ago(self, now: u64) -> u64
        ensures { result ≡ ago_of self now }
    {
        match self {
            Latest::Until(end) => now.saturating_sub(end.tick),
            Latest::Never | Latest::Still => 0,
        }
    }
}

/// The lifetime in the last answer that lets a version be shown at this tick; 0 if none does.
// No `Option`: a lifetime of 0 lets nothing be shown either.
pub fn said_lifetime(answers: &[Received], version: Version, tick: u64) -> u64
    ensures { result ≡ lifetime_on version tick answers.now }
{
    last_fresh(answers, version, tick).map_or(0, |answer| answer.lifetime)
}

/// The last answer that lets a version be shown at this tick.
fn last_fresh(answers: &[Received], version: Version, tick: u64) -> Option<Received>
    ensures { result ≡ find (is_fresh version tick) (reverse answers.now) }
{
    answers
        .iter()
        .rev()
        .copied()
        .find(|answer| answer.is_fresh(version, tick))
}

impl Received {
    /// Does it let a version be shown at this tick?
    fn is_fresh(self, version: Version, tick: u64) -> bool
        ensures { result ≡ is_fresh version tick self }
    {
        self.version == version
            && !self.private
            && !self.no_cache
            && self.storable
            && tick.saturating_sub(self.forwarded) <= self.lifetime
    }

    /// Is it a private word about what an answer brought, received later than that?
    fn is_withdrawing(self, answer: Received) -> bool
        ensures { result ≡ is_withdrawing answer self }
    {
        self.private
            && self.version.resource == answer.version.resource
            && answer.event < self.event
            && (!self.full || self.tagged && self.version.text == answer.version.text)
    }

    /// Did it bring a version for all, with no private word about it since?
    fn is_shared(self, answers: &[Received], version: Version) -> bool
        ensures { result ≡ is_shared answers.now version self }
    {
        self.full
            && !self.private
            && self.storable
            && self.version == version
            && !self.is_withdrawn(answers)
    }

    fn is_withdrawn(self, answers: &[Received]) -> bool
        ensures { result ≡ list_any (is_withdrawing self) answers.now }
    {
        answers.iter().any(|other| other.is_withdrawing(self))
    }
}

/// Did an answer bring a version for all, with no private word about it since?
pub fn any_shared(answers: &[Received], version: Version) -> bool
    ensures { result ≡ list_any (is_shared answers.now version) answers.now }
{
    answers
        .iter()
        .any(|answer| answer.is_shared(answers, version))
}

impl Settled {
    fn is_undone(self, path: usize, before: u64, latest: Latest) -> bool
        ensures { result ≡ is_undone path before latest self }
    {
        self.path == path && self.event < before && !latest.lasts_past(self.done)
    }
}

/// Was a write to the path settled before an event, and done after the latest moment?
pub fn any_undone(writes: &[Settled], path: usize, before: u64, latest: Latest) -> bool
    ensures { result ≡ list_any (is_undone path before latest) writes.now }
{
    writes
        .iter()
        .any(|write| write.is_undone(path, before, latest))
}

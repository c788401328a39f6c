// Reading an event from the front of the bytes that came.
ghost use Rattle.std.specs.Prelude.{◌≡◌, ℕ, ◌+◌, ◌<◌, ◌≤◌, ◌∷◌, length, take, drop, slice_index, MatchOption, MatchResult};
ghost use Rattle.frames.specs.Events.{connections, number_at, client_of, origin_of, broken_of, ended_of, event_of};
ghost use Rattle.frames.specs.Views.{seen_read, viewed, Within};

use crate::events::Event;
use crate::faults::Fault;
use crate::kinds::{CONNECTIONS, EventKind};

/// The bytes before those that a client sent: the kind, the client and the length.
const CLIENT_HEAD: usize = 5;
/// The bytes before those that the origin sent: the kind, the connection and the length.
const ORIGIN_HEAD: usize = 4;
/// The kind and the connection.
const BROKEN_LEN: usize = 2;
/// The kind alone.
const TICK_LEN: usize = 1;
/// The kind and the client.
const ENDED_LEN: usize = 3;

// `within` stands on each reader: a std `Option` or `Result`, which holds what was read, carries no fact of its own.
/// Reads one event from the front of `bytes`, and says how many of them it takes; none, where more are wanted.
#[tactic(auto, unfolding(crate::specs::Events::event_of))]
pub fn read_event(bytes: &[u8]) -> Result<Option<(Event<'_>, usize)>, Fault>
    ensures value { viewed result ≡ event_of bytes.now }
    ensures within { Within result (length bytes.now) }
{
    let Some((kind, rest)) = bytes.split_first() else {
        return Ok(None);
    };
    match EventKind::try_from(*kind)? {
        EventKind::ClientBytes => Ok(read_client(rest)),
        EventKind::OriginBytes => read_origin(rest),
        EventKind::OriginBroken => read_broken(rest),
        EventKind::Tick => Ok(Some((Event::Tick, TICK_LEN))),
        EventKind::ClientEnded => Ok(read_ended(rest)),
    }
}

fn read_client(bytes: &[u8]) -> Option<(Event<'_>, usize)>
    ensures value { (kind : ℕ) → seen_read result ≡ client_of (kind ∷ bytes.now) }
    ensures within { Within (Ok result) (length bytes.now + 1) }
{
    let (client, rest) = read_number(bytes)?;
    let body = read_counted(rest)?;
    Some((Event::Client(client, body), CLIENT_HEAD + body.len()))
}

fn read_origin(bytes: &[u8]) -> Result<Option<(Event<'_>, usize)>, Fault>
    ensures value { (kind : ℕ) → viewed result ≡ origin_of (kind ∷ bytes.now) }
    ensures within { Within result (length bytes.now + 1) }
{
    let Some((connection, rest)) = read_connection(bytes)? else {
        return Ok(None);
    };
    let Some(body) = read_counted(rest) else {
        return Ok(None);
    };
    Ok(Some((Event::Origin(connection, body), ORIGIN_HEAD + body.len())))
}

fn read_broken(bytes: &[u8]) -> Result<Option<(Event<'_>, usize)>, Fault>
    ensures value { (kind : ℕ) → viewed result ≡ broken_of (kind ∷ bytes.now) }
    ensures within { Within result (length bytes.now + 1) }
{
    let Some((connection, _)) = read_connection(bytes)? else {
        return Ok(None);
    };
    Ok(Some((Event::Broken(connection), BROKEN_LEN)))
}

fn read_ended(bytes: &[u8]) -> Option<(Event<'_>, usize)>
    ensures value { (kind : ℕ) → seen_read result ≡ ended_of (kind ∷ bytes.now) }
    ensures within { Within (Ok result) (length bytes.now + 1) }
{
    let (client, _) = read_number(bytes)?;
    Some((Event::Ended(client), ENDED_LEN))
}

/// A connection that there is, and what stands behind its number.
fn read_connection(bytes: &[u8]) -> Result<Option<(u8, &[u8])>, Fault>
    ensures { MatchResult result
        (λ read. MatchOption read (length bytes.now < 1) (λ p. (0 < length bytes.now) × (p.0 ≡ slice_index bytes.now 0) × (p.0 < connections) × (p.1.now ≡ drop 1 bytes.now)))
        (λ fault. (0 < length bytes.now) × (connections ≤ slice_index bytes.now 0) × (fault ≡ Fault.UnknownConnection)) }
{
    match bytes.split_first() {
        None => Ok(None),
        Some((connection, _)) if *connection >= CONNECTIONS => Err(Fault::UnknownConnection),
        Some((connection, rest)) => Ok(Some((*connection, rest))),
    }
}

/// As many bytes as the number at the front says, once they are all there.
fn read_counted(bytes: &[u8]) -> Option<&[u8]>
    ensures { MatchOption result ((length bytes.now < 2 + number_at bytes.now 0) × (length bytes.now < 65537))
        (λ body. (2 + number_at bytes.now 0 ≤ length bytes.now) × (body.now ≡ take (number_at bytes.now 0) (drop 2 bytes.now))) }
{
    let (len, rest) = read_number(bytes)?;
    rest.get(..usize::from(len))
}

/// The number in the two bytes at the front, high byte first, and what stands behind it.
fn read_number(bytes: &[u8]) -> Option<(u16, &[u8])>
    ensures { MatchOption result (length bytes.now < 2)
        (λ p. (2 ≤ length bytes.now) × (p.0 ≡ number_at bytes.now 0) × (p.1.now ≡ drop 2 bytes.now)) }
{
    let (number, rest) = bytes.split_first_chunk()?;
    Some((u16::from_be_bytes(*number), rest))
}

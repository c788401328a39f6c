// Writing the frames that go out.
ghost use Rattle.std.specs.Prelude.{◌≡◌, true, false, [], ◌∷◌, ◌++◌, length, MatchResult};
ghost use Rattle.frames.specs.Events.{high, low};
ghost use Rattle.frames.specs.Frames.{ToClient, ToOrigin, CloseClient, Open, Close, NotTaken, frame_bytes, short, written, answer};

use crate::faults::Unwritten;
use crate::kinds::{FrameKind, MOST_BYTES};
use crate::sink::Sink;

/// Bytes for a client.
pub fn to_client<S: Sink>(client: u16, bytes: &[u8], out: &mut S) -> Result<(), Unwritten>
    ensures value { result ≡ answer bytes.now }
    ensures wrote { S.Sink.took out.old (written bytes.now (ToClient client bytes.now)) out.new }
{
    let [high, low] = client.to_be_bytes();
    let [many, few] = counted(bytes)?;
    put_both(
        &[FrameKind::ToClient as u8, high, low, many, few],
        bytes,
        out,
    );
    Ok(())
}

/// Bytes for the origin, on a connection.
pub fn to_origin<S: Sink>(connection: u8, bytes: &[u8], out: &mut S) -> Result<(), Unwritten>
    ensures value { result ≡ answer bytes.now }
    ensures wrote { S.Sink.took out.old (written bytes.now (ToOrigin connection bytes.now)) out.new }
{
    let [many, few] = counted(bytes)?;
    put_both(
        &[FrameKind::ToOrigin as u8, connection, many, few],
        bytes,
        out,
    );
    Ok(())
}

/// A client is to be closed.
pub fn close_client<S: Sink>(client: u16, out: &mut S)
    ensures { S.Sink.took out.old (frame_bytes (CloseClient client)) out.new }
{
    let [high, low] = client.to_be_bytes();
    out.put(&[FrameKind::CloseClient as u8, high, low]);
}

// Opened or closed: each is one line, so a function over the kind would be no plainer.
/// A connection to the origin is to be opened.
pub fn open_connection<S: Sink>(connection: u8, out: &mut S)
    ensures { S.Sink.took out.old (frame_bytes (Open connection)) out.new }
{
    out.put(&[FrameKind::OpenConnection as u8, connection]);
}

/// A connection to the origin is to be closed.
pub fn close_connection<S: Sink>(connection: u8, out: &mut S)
    ensures { S.Sink.took out.old (frame_bytes (Close connection)) out.new }
{
    out.put(&[FrameKind::CloseConnection as u8, connection]);
}

/// So many last bytes of the client's event were not taken.
pub fn not_taken<S: Sink>(client: u16, count: u16, out: &mut S)
    ensures { S.Sink.took out.old (frame_bytes (NotTaken client count)) out.new }
{
    let [high, low] = client.to_be_bytes();
    let [many, few] = count.to_be_bytes();
    out.put(&[FrameKind::NotTaken as u8, high, low, many, few]);
}

/// How many bytes these are, as two bytes, where they are few enough for one frame.
fn counted(bytes: &[u8]) -> Result<[u8; 2], Unwritten>
    ensures { MatchResult result (λ size. (short bytes.now ≡ true) × (size ≡ high (length bytes.now) ∷ low (length bytes.now) ∷ [])) (λ error. (short bytes.now ≡ false) × (error ≡ Unwritten.TooLong)) }
{
    if bytes.len() > MOST_BYTES {
        return Err(Unwritten::TooLong);
    }
    Ok((bytes.len() as u16).to_be_bytes())
}

/// A frame's head, and the bytes behind it.
fn put_both<S: Sink>(head: &[u8], bytes: &[u8], out: &mut S)
    ensures { S.Sink.took out.old (head.now ++ bytes.now) out.new }
{
    out.put(head);
    out.put(bytes);
}

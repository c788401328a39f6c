// Which clients are closed: a byte for each client's number.
ghost use Rattle.std.specs.Prelude.{◌≡◌, length, replicate, slice_set};
ghost use Rattle.proxy.specs.Steps.{is_open};

/// How many numbers of clients there are.
pub const CLIENTS: usize = 65_536;

/// What is known of a client, and the byte that says it. Any other byte that was lent says the same as `Closed`.
#[derive(Clone, Copy, Debug, PartialEq, Eq, Drop)]
pub enum Mark {
    /// The client is not there, or was not closed.
    Open = 0,
    /// The proxy closed the client, and its end has not come yet.
    Closed = 1,
}

/// Whether the client may be answered: there is a place for it, and it is not closed.
pub fn is_open(marks: &[u8], client: u16) -> bool
    ensures { result ≡ is_open marks.now client }
{
    matches!(marks.get(usize::from(client)), Some(mark) if *mark == Mark::Open as u8)
}

/// Marks the client, if there is a place for it.
pub fn set_mark(marks: &mut [u8], client: u16, mark: u8)
    ensures { marks.new ≡ slice_set marks.old client mark }
{
    let place = usize::from(client);
    // By index: after `get_mut` the check knows no other element.
    if place < marks.len() {
        marks[place] = mark;
    }
}

/// No client is closed.
pub fn clear_marks(marks: &mut [u8])
    ensures { marks.new ≡ replicate (length marks.old) 0 }
{
    marks.fill(Mark::Open as u8);
}

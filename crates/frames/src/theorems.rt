// What holds of all frames: each function's contract is a theorem.
ghost use Rattle.frames.specs.Laws.{ReadsBack, OneEncoding, Settles, PiecesAlike, RefusedWhere, FramesBack, OneReading};

/// An event has one encoding, and reads back as itself.
pub fn events_read_back()
    ensures back { ReadsBack }
    ensures once { OneEncoding }
{}

/// Reading in pieces is reading the whole: a verdict stays whatever follows, and so do the events of any cutting.
pub fn pieces_alike()
    ensures settles { Settles }
    ensures alike { PiecesAlike }
{}

/// Bytes are refused at the first byte that is no kind, or no connection, and nowhere else.
pub fn refused_where()
    ensures { RefusedWhere }
{}

/// What goes out has one reading.
pub fn frames_read_back()
    ensures back { FramesBack }
    ensures once { OneReading }
{}

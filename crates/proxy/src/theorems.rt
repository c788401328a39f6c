// What holds of whole runs: each function's contract is a theorem.
ghost use Rattle.proxy.specs.Batches.{PiecesAlike};
ghost use Rattle.proxy.specs.Runs.{AnsweredOnce, Unasked, OnlyClients};

/// From one of its ends to the next a client that sends is answered once with 503 and closed, and no other client is.
pub fn answered_once()
    ensures once { AnsweredOnce }
    ensures unasked { Unasked }
{}

/// Nothing is put on a connection.
pub fn only_clients()
    ensures { OnlyClients }
{}

/// In whatever pieces the input comes, the same is written.
pub fn pieces_alike()
    ensures { PiecesAlike }
{}

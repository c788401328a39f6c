// Where bytes are written to.
ghost use Rattle.std.specs.Prelude.{ℕ, List, [], ◌++◌};

/// A sink takes what is written part by part, and keeps or hands on all of it in its order.
pub trait Sink {
    // from the first to the last of these, just these bytes were taken
    ghost took: { Self → List ℕ → Self → Type 0 };

    ghost nothing: { (s : Self) → took s [] s };

    ghost onward: { (s t u : Self) (a b : List ℕ) → took s a t → took t b u → took s (a ++ b) u };

    fn put(&mut self, part: &[u8])
        ensures { took self.old part.now self.new };
}

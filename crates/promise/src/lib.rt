// The proof of the promise: the function whose contract carries it.
#![tactic(auto)]

ghost use Rattle.model.specs.Promise.{Promised};

/// The promise holds of every run, in every setting.
pub fn promise_holds()
    ensures { Promised }
{}

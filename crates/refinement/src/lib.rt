// The rules of a cache make the steps of the model: functions whose contracts carry what is promised of whole runs.
#![tactic(auto)]

ghost use Rattle.refinement.specs.Example.{Exampled};
ghost use Rattle.refinement.specs.Runs.{CacheKeeps, CacheHasOnePlace};

/// Any calls of a cache, with an honest origin that does what it likes: all that it gives its clients is as promised.
pub fn cache_keeps_promise()
    ensures { CacheKeeps }
{}

/// Whatever happens, there is one place for a path and language.
pub fn cache_has_one_place()
    ensures { CacheHasOnePlace }
{}

/// There is an honest run with a miss, a hit, a write and a late answer, so that the promise of such runs is of something.
pub fn honest_run_exists()
    ensures { Exampled }
{}

// The world model: functions whose contracts carry what is shown of its definitions by example.
#![tactic(auto)]

ghost use Rattle.std.specs.Prelude.{length, ◌≡◌};
ghost use Rattle.model.specs.Cases.{rows, WorkedCases, PlayedIsWorld, Overtaken};

/// Every row of the table of worked cases holds; how many there are.
pub fn worked_cases() -> u8
    ensures all { WorkedCases }
    ensures count { result ≡ length rows }
{
    32
}

/// The worked cases are of the worlds that the promise speaks of.
pub fn cases_are_runs()
    ensures { PlayedIsWorld }
{}

/// There is a run in which a read from the origin shows an older state than a write that was acknowledged before.
pub fn read_is_overtaken()
    ensures { Overtaken }
{}

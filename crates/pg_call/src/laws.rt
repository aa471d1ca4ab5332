//! Laws about what arguments call for. Each is the contract of a function that does nothing.

ghost use Rattle.pg_call.specs.Call.{OneCall};
ghost use Rattle.pg_call.specs.laws.WorkedCalls.{WorkedCalls};

/// Arguments that `clap` takes are one call, wherever in memory the names of the views are.
pub fn one_call()
    ensures { OneCall }
{}

/// What small command lines call for, with `--view` and without it.
pub fn worked_calls()
    ensures { WorkedCalls }
{}

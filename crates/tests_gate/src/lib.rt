//! Sinks that fail or go slowly, the runs of the program over them and over sources that fail, and
//! the calls of the gate by themselves. Everything is in tests: code outside of them would be
//! proved twice.
#![tactic(auto)]

#[cfg(test)]
mod call_tests;
#[cfg(test)]
mod failing_sink;
#[cfg(test)]
mod one_byte;
#[cfg(test)]
mod runs;
#[cfg(test)]
mod sink_tests;
#[cfg(test)]
mod source_tests;

#[cfg(test)]
use failing_sink::FailingSink;
#[cfg(test)]
use one_byte::OneByte;

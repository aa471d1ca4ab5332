//! Tests of `pg_dyn` and `pg_cert` by their public calls that aren't rows: a crate with tests of
//! its own would be proved twice.
#![tactic(auto)]

#[cfg(test)]
mod tests;

//! Tests of `pg_notes` by its public call: a crate with tests of its own would be proved twice.
#![tactic(auto)]

#[cfg(test)]
mod tests;

//! Tests of the dependence test: accesses, pairs and conflicts.
#![tactic(auto)]

#[cfg(test)]
mod deptest_verdict_rows;
#[cfg(test)]
mod deptest_witness_rows;
#[cfg(test)]
mod pairtest_access_rows;
#[cfg(test)]
mod pairtest_cover_rows;
#[cfg(test)]
mod pairtest_rows;

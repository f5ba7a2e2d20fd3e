//! Tests of the whole road: kernels and what they write, calls and what they answer, their listings, the verdicts on parallel loops, found by
//! hand, and which of two faults is told.
#![tactic(auto)]

#[cfg(test)]
mod calls;
#[cfg(test)]
mod doacross;
#[cfg(test)]
mod first_faults;
#[cfg(test)]
mod kernels;
#[cfg(test)]
mod outcome;
#[cfg(test)]
mod runtime_calls;
#[cfg(test)]
mod schedules;
#[cfg(test)]
mod verdicts;

//! Tests of the ground that all crates stand on: numbers, trees and chunks.
#![tactic(auto)]

#[cfg(test)]
mod affine_rows;
#[cfg(test)]
mod ktree_rows;
#[cfg(test)]
mod reduce_rows;
#[cfg(test)]
mod schedule_rows;

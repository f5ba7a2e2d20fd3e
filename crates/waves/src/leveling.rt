//! The level of each iteration, in one pass.

ghost use Rattle.std.specs.Prelude.{◌≡◌, ◌<◌, ◌≤◌, ◌^◌, ◌-ℤ◌, ℕ, pos, true, false, Some, List, map, length, slice_get, get_or, max, ◌∷◌, [], MatchOption, IfOk, IfErr};
ghost use Rattle.std.specs.List.{list_all};
ghost use Rattle.semantics.specs.Loops.Nest.{Vector};
ghost use Rattle.semantics.specs.Loops.Order.{Distance, is_ahead, as_number, before_by, sinks_of, one_above, level};
ghost use Rattle.nest_space.specs.Rises.{EachRises};
ghost use Rattle.nest_space.specs.Sinks.{Fits};
ghost use Rattle.nest_space.specs.Space.{vectors};
ghost use Rattle.waves.specs.Wanted.{AreWaves};
ghost use Rattle.waves.specs.Table.{AreLevels};

use crate::sinks::Sinks;
use crate::sorting::{Waves, at, numbers_by_level};
use ktree::Refusal;
use nest_space::Space;
use std::alloc::{AllocError, Global};

/// One more than the level of the iteration that lies so far before, if it is one and this is above what there is.
fn raised_level(space: &Space, distance: &[i64], values: &[u64], levels: &[u32], above: u32) -> u32
    requires few { length levels.now < 2 ^ 32 }
    requires rise { EachRises space.now }
    requires ahead { is_ahead distance.now ≡ true }
    requires loops { length values.now ≡ length space.now }
    requires at { slice_get (vectors space.now) (length levels.now) ≡ Some values.now }
    requires levels { (j : ℕ) → j < length levels.now → get_or levels.now j 0 ≤ j }
    requires fit { (j : ℕ) (w : Vector) → j < length levels.now
        → slice_get (vectors space.now) j ≡ Some w → Fits w }
    ensures above { (ds : List Distance) → AreLevels (vectors space.now) ds levels.now
        → result ≡ max above (one_above (map (level (vectors space.now) ds)
        (sinks_of (vectors space.now) (distance.now ∷ []) values.now))) }
    ensures small { (ds : List Distance) → AreLevels (vectors space.now) ds levels.now
        → above ≤ length levels.now → result ≤ length levels.now }
{
    match space.number_before(values, distance) {
        None => above,
        Some(number) => above.max(at(levels, number) + 1),
    }
}

/// One more than the greatest level of the sinks of an iteration that lie in the space; 0 without one. The levels of the
/// iterations before it are known.
fn level_above(space: &Space, distances: &[Vec<i64>], values: &[u64], levels: &[u32]) -> u32
    requires few { length levels.now < 2 ^ 32 }
    requires rise { EachRises space.now }
    requires ahead { list_all is_ahead (map (λ d. d.items) distances.now) ≡ true }
    requires loops { length values.now ≡ length space.now }
    requires at { slice_get (vectors space.now) (length levels.now) ≡ Some values.now }
    requires levels { AreLevels (vectors space.now) (map (λ d. d.items) distances.now) levels.now }
    ensures level { result
        ≡ level (vectors space.now) (map (λ d. d.items) distances.now) values.now }
    ensures small { result ≤ length levels.now }
{
    let mut above = 0;
    for distance in distances {
        above = raised_level(space, distance, values, levels, above);
    }
    above
}

/// Each of these values is a number of `uint64_t`.
fn fit(values: &[u64])
    ensures { Fits values.now }
{}

/// Puts down the first iteration, if there is one.
fn begin(space: &Space, values: &mut [u64])
    requires { length values.old ≡ length space.now }
    ensures { 0 < length (vectors space.now) → slice_get (vectors space.now) 0 ≡ Some values.new }
{
    if space.count() > 0 {
        space.vector(0, values);
    }
}

/// The level of each iteration, in the order of the space.
///
/// # Errors
///
/// Where memory runs out.
fn levels_by(
    alloc: Global,
    space: &Space,
    distances: &[Vec<i64>],
    values: &mut [u64],
) -> Result<Vec<u32>, AllocError>
    requires rise { EachRises space.now }
    requires ahead { list_all is_ahead (map (λ d. d.items) distances.now) ≡ true }
    requires values { length values.old ≡ length space.now }
    ensures count { IfOk result (λ ls. length ls.items ≡ length (vectors space.now)) }
    ensures few { IfOk result (λ ls. length ls.items < 2 ^ 32) }
    ensures levels { IfOk result (λ ls.
        AreLevels (vectors space.now) (map (λ d. d.items) distances.now) ls.items) }
{
    space.confirm_few();
    let count = space.count() as u32;
    let mut levels = Vec::with_capacity(alloc, count as usize)?;
    begin(space, values);
    for _number in 0..count {
        fit(values);
        let level = level_above(space, distances, values, &levels);
        levels.push(level)?;
        space.advance(values);
    }
    Ok(levels)
}

/// The iterations level by level: an iteration has the level 0 where none of its sinks lies in the space, else one more than
/// the greatest level of those that do. Iterations of one level depend on none of each other.
///
/// # Errors
///
/// Where memory runs out.
pub fn levels(alloc: Global, space: &Space, sinks: &Sinks) -> Result<Waves, Refusal>
    requires rise { EachRises space.now }
    ensures ok { IfOk result (λ ws. AreWaves (vectors space.now) sinks.now.distances ws) }
    ensures err { IfErr result (λ refusal. refusal ≡ Refusal.OutOfMemory) }
{
    let mut values = Vec::from_elem(alloc, 0u64, space.depth())?;
    let levels = levels_by(alloc, space, &sinks.distances, &mut values)?;
    let waves = numbers_by_level(alloc, &levels)?;
    Ok(waves)
}

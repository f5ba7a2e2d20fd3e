//! Pairs of accesses.

ghost use Rattle.std.specs.Prelude.{◌≡◌, ◌≢◌, ◌↔◌, ◌+◌, ◌<◌, IsTrue, IfOk, IfErr, IfSome, MatchOption, All, drop, length, slice_get};
ghost use Rattle.pairtest.specs.declared.access.Mode.TheVariants.{Writes};
ghost use Rattle.pairtest.specs.DirectionVectors.{AllWithin};
ghost use Rattle.deptest_verdict.specs.Sinks.{distances_of};
ghost use Rattle.deptest_verdict.specs.Pairs.{IsPair, IsShown, AreShown, IsFirstBehind, IsFirstPair, IsLargeBehind, AreNamed, StandsAt, AreWrites};
ghost use Rattle.deptest_verdict.specs.Refused.{IsTooLarge};

use ktree::{Place, VarId};
use pairtest::{Access, Mode, Nest, PastLimit};
use pairtest_cover::are_ordered;
use std::alloc::{AllocError, Global};

/// The accesses of a body in the order of the text, and the numbers of those that write.
#[derive(Drop)]
pub struct Accesses {
    pub all: Vec<Access>,
    pub writes: Vec<usize>,
}

/// Accesses with the numbers of those that write.
///
/// # Errors
///
/// Fails only for want of memory.
pub fn with_writes(alloc: Global, all: Vec<Access>) -> Result<Accesses, AllocError>
    ensures ok { IfOk result (λ found. (found.all ≡ all) × AreWrites all.items found.writes.items) }
{
    let mut writes = Vec::new(alloc);
    for (number, access) in all.iter().enumerate() {
        if access.mode != Mode::Writes {
            continue;
        }
        writes.push(number)?;
    }
    Ok(Accesses { all, writes })
}

/// Two accesses of one array, by their numbers in the order of the text, and where they stand.
#[derive(Clone, Copy, Debug, PartialEq, Eq)]
pub struct Pair {
    pub array: VarId,
    pub first: usize,
    pub second: usize,
    pub first_place: Place,
    pub second_place: Place,
}

/// Why no answer is given: the access at this place is not counted, or the equations of a pair whose first access stands there
/// pass the limit of 2^62.
#[derive(Clone, Copy, Debug, PartialEq, Eq)]
pub struct TooLarge {
    pub place: Place,
}

/// How many accesses stand before one, and where it stands.
#[derive(Clone, Copy)]
struct Behind {
    number: usize,
    place: Place,
}

/// Whether two accesses are of one array, one of them writes, and both are counted.
fn is_pair(x: &Access, y: &Access) -> bool
    ensures { IsTrue result ↔ IsPair x.now y.now }
{
    x.is_counted
        && y.is_counted
        && x.array == y.array
        && (x.mode == Mode::Writes || y.mode == Mode::Writes)
}

/// Whether two accesses are independent or ordered by a sink, if they are such a pair.
fn is_shown(x: &Access, y: &Access, nest: &Nest, sinks: &[Vec<i64>]) -> Result<bool, PastLimit>
    ensures ok { IfOk result (λ shown. IsTrue shown
        ↔ IsShown nest.now (distances_of sinks.now) x.now y.now) }
    ensures pair { IfErr result (λ _. IsPair x.now y.now) }
    ensures large { IfErr result (λ _. AllWithin nest.now x.now y.now → ⊥) }
{
    if is_pair(x, y) {
        are_ordered(x, y, nest, sinks)
    } else {
        Ok(true)
    }
}

/// The first of some accesses whose pair with another is not shown.
fn first_behind(
    x: &Access,
    others: &[Access],
    nest: &Nest,
    sinks: &[Vec<i64>],
) -> Result<Option<Behind>, PastLimit>
    ensures ok { IfOk result (λ found. MatchOption found
        (All (IsShown nest.now (distances_of sinks.now) x.now) others.now)
        (λ y. IsFirstBehind nest.now (distances_of sinks.now) x.now others.now y.number)) }
    ensures there { IfOk result (λ found. IfSome found
        (λ y. StandsAt others.now y.number y.place)) }
    ensures err { IfErr result
        (λ _. IsLargeBehind nest.now (distances_of sinks.now) x.now others.now) }
{
    for (j, y) in others.iter().enumerate() {
        let shown = is_shown(x, y, nest, sinks)?;
        if !shown {
            return Ok(Some(Behind {
                number: j,
                place: y.place,
            }));
        }
    }
    Ok(None)
}

/// The same from an access that reads on, which has a pair with one that writes alone.
fn first_write_behind(
    x: &Access,
    from: usize,
    accesses: &Accesses,
    nest: &Nest,
    sinks: &[Vec<i64>],
) -> Result<Option<Behind>, PastLimit>
    requires reads { x.now.mode ≢ Writes }
    requires writes { AreWrites accesses.now.all.items accesses.now.writes.items }
    ensures ok { IfOk result (λ found. MatchOption found
        (All (IsShown nest.now (distances_of sinks.now) x.now) (drop from accesses.now.all.items))
        (λ y. IsFirstBehind nest.now (distances_of sinks.now) x.now
        (drop from accesses.now.all.items) y.number)) }
    ensures there { IfOk result (λ found. IfSome found
        (λ y. StandsAt (drop from accesses.now.all.items) y.number y.place)) }
    ensures err { IfErr result
        (λ _. IsLargeBehind nest.now (distances_of sinks.now) x.now
        (drop from accesses.now.all.items)) }
{
    for number in accesses.writes.iter() {
        if *number < from {
            continue;
        }
        let y = &accesses.all[*number];
        let shown = is_shown(x, y, nest, sinks)?;
        if !shown {
            return Ok(Some(Behind {
                number: *number - from,
                place: y.place,
            }));
        }
    }
    Ok(None)
}

/// The first access from one on whose pair with it is not shown.
fn first_from(
    x: &Access,
    from: usize,
    accesses: &Accesses,
    nest: &Nest,
    sinks: &[Vec<i64>],
) -> Result<Option<Behind>, PastLimit>
    requires within { from < length accesses.now.all.items }
    requires writes { AreWrites accesses.now.all.items accesses.now.writes.items }
    ensures ok { IfOk result (λ found. MatchOption found
        (All (IsShown nest.now (distances_of sinks.now) x.now) (drop from accesses.now.all.items))
        (λ y. IsFirstBehind nest.now (distances_of sinks.now) x.now
        (drop from accesses.now.all.items) y.number)) }
    ensures there { IfOk result (λ found. IfSome found
        (λ y. StandsAt (drop from accesses.now.all.items) y.number y.place)) }
    ensures err { IfErr result
        (λ _. IsLargeBehind nest.now (distances_of sinks.now) x.now
        (drop from accesses.now.all.items)) }
{
    if x.mode == Mode::Writes {
        first_behind(x, &accesses.all.as_slice()[from..], nest, sinks)
    } else {
        first_write_behind(x, from, accesses, nest, sinks)
    }
}

/// The first pair that is neither independent nor ordered by one of the nest's sinks, in the order of its first access and then of
/// its second: each access is paired with itself and with those behind it. Each sink is the distance by which it lies before the
/// iteration that names it; a loop that is no doacross nest has none.
///
/// # Errors
///
/// Where an access before is not counted, or an equation of a pair before has a number above 2^62 in absolute value.
pub fn first_pair(
    accesses: &Accesses,
    nest: &Nest,
    sinks: &[Vec<i64>],
) -> Result<Option<Pair>, TooLarge>
    requires { AreWrites accesses.now.all.items accesses.now.writes.items }
    ensures ok { IfOk result (λ found. MatchOption found
        (AreShown nest.now (distances_of sinks.now) accesses.now.all.items)
        (λ pair. IsFirstPair nest.now (distances_of sinks.now) accesses.now.all.items pair.first
        pair.second)) }
    ensures named { IfOk result (λ found. IfSome found (AreNamed accesses.now.all.items)) }
    ensures err { IfErr result (λ large. IsTooLarge nest.now (distances_of sinks.now)
        accesses.now.all.items large.place) }
{
    let all = accesses.all.as_slice();
    for (i, x) in all.iter().enumerate() {
        if !x.is_counted {
            return Err(TooLarge { place: x.place });
        }
        let found = match first_from(x, i, accesses, nest, sinks) {
            Ok(found) => found,
            Err(_large) => return Err(TooLarge { place: x.place }),
        };
        if let Some(y) = found {
            return Ok(Some(Pair {
                array: x.array,
                first: i,
                second: i + y.number,
                first_place: x.place,
                second_place: y.place,
            }));
        }
    }
    Ok(None)
}

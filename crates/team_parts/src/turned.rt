//! What a turn of a loop is that is run in parts.

ghost use Rattle.std.specs.Prelude.{◌≡◌, ◌<◌, ◌≤◌, false};
ghost use Rattle.law_lanes.specs.Reading.{is_written};

use lane_body::Laned;
use lower_machine::Register;
use lower_op::Op;

/// A turn with a loop of straight instructions in it: instructions, the turns of the inner loop, whose variable has a first number in the first of
/// these, and from turn to turn more by another one, modulo 2^64, and behind them another number; and instructions behind (C11 6.8.5).
#[derive(Clone, Copy)]
pub struct Nest<'c> {
    /// The outer loop's variable.
    pub variable: Register,
    pub front: &'c [Op],
    /// The inner loop's variable.
    pub inner: Register,
    pub ops: &'c [Op],
    /// The inner loop's variable is below this number, and so are the registers of its instructions where these are run in lanes.
    pub limit: u64,
    pub first: u64,
    pub by: u64,
    pub count: u64,
    pub next: u64,
    pub back: &'c [Op],
    pub ghost few: { count ≤ 16384 },
    pub ghost left: { is_written ops.now inner.at ≡ false },
    pub ghost there: { inner.at < limit },
}

/// A turn: straight instructions, or such with a loop in them.
#[derive(Clone, Copy)]
pub enum Turned<'c> {
    /// The turns are run in lanes, where they may be.
    Straight(Laned<'c>),
    /// In each of them the inner turns are, where they may be.
    Around(Nest<'c>),
    /// The turns are, and the inner turns one after another: each for all turns.
    Abreast(Nest<'c>),
}

/// The most turns of which registers and rows are made once.
const BLOCK: u64 = 1 << 14;

/// The most turns that are run abreast at once: as many as a row has numbers.
const ABREAST: u64 = 256;

impl<'c> Turned<'c> {
    ghost use Rattle.team_parts.specs.Turned.{most_of};

    /// The most turns that are run at once.
    pub(crate) fn most(self) -> u64
        ensures { result ≡ most_of self.entry }
    {
        match self {
            Turned::Straight(_) => BLOCK,
            Turned::Around(_) => BLOCK,
            Turned::Abreast(_) => ABREAST,
        }
    }
}

//! What the parts of a prefix sum's turns have in common.

ghost use Rattle.std.specs.Prelude.{◌≡◌, ◌+◌, ◌*◌, ◌<◌, ◌≤◌, ◌^◌, false, length, take};
ghost use Rattle.std.specs.List.{list_any};
ghost use Rattle.ktree.specs.declared.expression.BinaryOp.TheVariants as B;
ghost use Rattle.law_lanes.specs.Reading.{saves};
ghost use Rattle.lower_runner.specs.Turning.{ConstantsStand, LeavesConstants};

use lane_body::Scanned;
use lower_block::Compiled;
use team_parts::Window;

/// What the parts of a prefix sum's turns have in common: the code that the loop is of; its body, of which nothing that makes the operand writes a cell;
/// the variable's number in the first turn, what it grows by from turn to turn, modulo 2^64, and how many turns there are; the registers before all turns,
/// with the code's constants; the cells that each turn has to itself, and those in front of all of these and behind them (C11 6.8.5; OpenMP 5.2, 5.6).
#[derive(Clone, Copy)]
pub struct Prefixes<'c, 'k> {
    pub compiled: &'c Compiled,
    pub scanned: Scanned<'c>,
    pub first: u64,
    pub by: u64,
    pub count: u64,
    pub registers: &'c [u64],
    pub window: Window,
    pub before: &'k [u64],
    pub behind: &'k [u64],
    pub ghost sums: { scanned.operator ≡ B.Plus },
    pub ghost quiet: { list_any saves (take scanned.front scanned.laned.ops.now) ≡ false },
    pub ghost leaves: { LeavesConstants compiled.now scanned.ops.now scanned.laned.variable.at },
    pub ghost apart: { LeavesConstants compiled.now scanned.ops.now scanned.target.at },
    pub ghost stand: { ConstantsStand compiled.now registers.now },
    pub ghost wide: { scanned.laned.limit ≤ length registers.now },
    pub ghost few: { count ≤ 2 ^ 24 },
    pub ghost room: { window.width * count < 2 ^ 62 },
}

impl<'c, 'k> Prefixes<'c, 'k> {
    /// How many cells so many turns have to themselves.
    pub fn cells_of(self, turns: u64) -> u64
        requires { turns ≤ self.count }
        ensures { result ≡ self.entry.window.width * turns }
    {
        self.window.width * turns
    }
}

//! What the parts of a loop's turns have in common.

ghost use Rattle.std.specs.Prelude.{◌≡◌, ◌+◌, ◌*◌, ◌<◌, ◌≤◌, ◌^◌, length};
ghost use Rattle.lower_runner.specs.Turning.{ConstantsStand};
ghost use Rattle.team_parts.specs.Turned.{LeaveConstants, limit_of};

use crate::turned::Turned;
use crate::window::Window;
use lower_block::Compiled;

/// What the parts of a loop's turns have in common: the code that the loop is of; what a turn is, which is run in lanes where that may be; the
/// variable's number in the first turn, what it grows by from turn to turn, modulo 2^64, and how many turns there are; the registers before all
/// turns, with the code's constants; the cells that each turn has to itself, and those in front of all of these and behind them (C11 6.8.5; OpenMP
/// 5.2, 11.5).
#[derive(Clone, Copy)]
pub struct Shared<'c, 'k> {
    pub compiled: &'c Compiled,
    pub turned: Turned<'c>,
    pub first: u64,
    pub by: u64,
    pub count: u64,
    pub registers: &'c [u64],
    pub window: Window,
    pub before: &'k [u64],
    pub behind: &'k [u64],
    pub ghost leaves: { LeaveConstants compiled.now turned },
    pub ghost stand: { ConstantsStand compiled.now registers.now },
    pub ghost wide: { limit_of turned ≤ length registers.now },
    pub ghost few: { count ≤ 2 ^ 24 },
    pub ghost room: { window.width * count < 2 ^ 62 },
}

impl<'c, 'k> Shared<'c, 'k> {
    /// How many cells so many turns have to themselves.
    pub fn cells_of(self, turns: u64) -> u64
        requires { turns ≤ self.count }
        ensures { result ≡ self.entry.window.width * turns }
    {
        self.window.width * turns
    }
}

//! Turns of a prefix sum whose operands stand side by side, straight from these cells into their own.

ghost use Rattle.std.specs.Prelude.{◌≡◌, ◌+◌, ◌*◌, ◌<◌, ◌≤◌, ℕ, List, length, slice_index, None, IfSome};
ghost use Rattle.team_scans.specs.Operands.{cells_of_part, operand_of};
ghost use Rattle.team_scans.specs.Placed.{AreCellsDone};

use crate::adding::loaded_places;
use crate::prefixes::Prefixes;
use crate::scanning::surroundings_of;
use lower_lanes::{prefixes_by, saving_of};
use team_parts::lent_row;

// The operands of so many turns from one on, where each turn's instructions up to its operand do no more than load one, and these stand side by side, all in
// front of the cells of all turns or behind them.
fn operand_cells<'k>(prefixes: Prefixes<'_, 'k>, from: u64, count: u64) -> Option<&'k [u64]>
    requires within { from + count ≤ prefixes.count }
    ensures long { IfSome result (λ row. length row.now ≡ count) }
    ensures row { IfSome result (λ row. (own : List ℕ) (k : ℕ)
        → length own ≡ prefixes.entry.window.width * count → k < count → slice_index row.now k
        ≡ operand_of prefixes.entry (cells_of_part prefixes.entry from count own) (from + k)) }
{
    let places = loaded_places(prefixes, from)?;
    if places.step != 1 {
        return None;
    }
    let surroundings = surroundings_of(prefixes, from, count)?;
    let row = lent_row(&surroundings, places.start, count)?;
    Some(row)
}

/// Leaves in the own cells of so many turns from one on what these leave there, and tells what the register holds behind them, where they load operands that
/// stand side by side, save the register, and do no more; else it changes nothing.
pub(crate) fn scan_straight(
    prefixes: Prefixes<'_, '_>,
    start: u64,
    from: u64,
    count: u64,
    own: &mut [u64],
) -> Option<u64>
    requires within { from + count ≤ prefixes.count }
    requires own { length own.old ≡ prefixes.window.width * count }
    ensures done { IfSome result (AreCellsDone prefixes.entry start from count own.old own.new) }
    ensures left { result ≡ None → own.new ≡ own.old }
{
    if prefixes.window.width != 1 {
        return None;
    }
    let scanned = prefixes.scanned;
    let (_, back) = scanned.laned.ops.split_at(scanned.front);
    let _saving = saving_of(back, scanned.target)?;
    let row = operand_cells(prefixes, from, count)?;
    let next = prefixes_by(
        scanned.operator,
        scanned.exclusive,
        start,
        row,
        count as usize,
        own,
    );
    Some(next)
}

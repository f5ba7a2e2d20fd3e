//! The turns of a loop, shared by the threads of a team.

ghost use Rattle.std.specs.Prelude.{◌≡◌, ◌+◌, ◌*◌, ◌<◌, ◌≤◌, length, IfOk};
ghost use Rattle.std.specs.Thread.{IsSync};
ghost use Rattle.team_parts.specs.Placed.{IsPartDone};

use ktree::Workers;
use schedule::static_init;
use std::alloc::{AllocError, Global};
use std::thread::{Threads, join_mut};
use team_parts::{Shared, Tools, run_part};
use team_worker::{Gate, Taken};

/// How many workers a team has at most whose threads are started one after another.
const SMALL: u64 = 8;

/// What the workers of a team have in common.
#[derive(Drop)]
pub(crate) struct Team<'t, 'k, R: Threads + Sync, G: Gate + Sync> {
    pub(crate) rt: &'t R,
    pub(crate) alloc: Global,
    pub(crate) gate: &'t G,
    pub(crate) workers: Workers,
    pub(crate) shared: Shared<'t, 'k>,
}

// The first turn of a worker under plain static (OpenMP 5.2, 11.5.3).
fn first_turn(shared: &Shared<'_, '_>, workers: Workers, worker: u64) -> u64
    requires { worker < workers }
{
    match static_init(shared.count, workers, worker, None).chunk(0) {
        Some(chunk) => chunk.first,
        None => shared.count,
    }
}

// How many of so many turns from one on are those before a worker's, at least one and not all.
fn turns_before(
    shared: &Shared<'_, '_>,
    workers: Workers,
    worker: u64,
    from: u64,
    count: u64,
) -> u64
    requires worker { worker < workers }
    requires some { 2 ≤ count }
    ensures some { 0 < result }
    ensures within { result < count }
{
    let before = first_turn(shared, workers, worker).saturating_sub(from);
    before.max(1).min(count - 1)
}

// Runs a worker's turns. The registers are as these leave them.
fn run_share<R: Threads + Sync, G: Gate + Sync>(
    team: &Team<'_, '_, R, G>,
    worker: u64,
    from: u64,
    count: u64,
    own: &mut [u64],
) -> Result<Vec<u64>, AllocError>
    requires worker { worker < team.now.workers }
    requires within { from + count ≤ team.now.shared.count }
    requires own { length own.old ≡ team.now.shared.window.width * count }
    ensures { IfOk result (λ rs. IsPartDone team.now.shared from count own.old own.new rs.items) }
{
    let workers = team.workers.get();
    team.gate.entered(Taken {
        worker,
        workers,
        chunk: worker,
        chunks: workers,
    });
    let mut tools = Tools::new(team.alloc)?;
    run_part(team.shared, from, count, own, &mut tools)?;
    Ok(tools.into_registers())
}

// The same in a thread of its own, while this one waits. A thread that starts others and then runs turns itself keeps for long the processor on which one of
// these was put: systems put a new thread beside the one that starts it, where the other processors have just been busy.
fn run_apart<R: Threads + Sync, G: Gate + Sync>(
    team: &Team<'_, '_, R, G>,
    worker: u64,
    from: u64,
    count: u64,
    own: &mut [u64],
) -> Result<Vec<u64>, AllocError>
    requires worker { worker < team.now.workers }
    requires within { from + count ≤ team.now.shared.count }
    requires own { length own.old ≡ team.now.shared.window.width * count }
    ensures { IfOk result (λ rs. IsPartDone team.now.shared from count own.old own.new rs.items) }
{
    let _most = team.workers.get();
    let (done, _) = join_mut(
        team.rt,
        &mut || -> Result<Vec<u64>, AllocError>
            requires sync { IsSync R.row × IsSync G.row }
            requires worker { worker < team.now.workers }
            requires within { from + count ≤ team.now.shared.count }
            requires own { length own.now ≡ team.now.shared.window.width * count }
            ensures { IfOk result (λ rs. IsPartDone team.entry.now.shared from count
                own.entry.now own.exit.now rs.items) }
        { run_share(team, worker, from, count, own) },
        &mut || {},
    );
    done
}

/// Of how many workers the next thread runs the shares, of some and not of all. The threads of a small team are all started by the one that calls, since two that
/// start threads at once were seen to be given one processor for both; those of a large team start half of what is left to them each.
pub(crate) fn shares_of_next(number: u64) -> u64
    requires { 2 ≤ number }
    ensures some { 0 < result }
    ensures others { result < number }
{
    if number > SMALL { number / 2 } else { 1 }
}

/// Runs so many turns from one on over their own cells, by so many workers from one on, each its share under plain static in a thread of its own.
/// The registers are as the last of them leaves them (OpenMP 5.2, 11.5.3).
///
/// # Errors
///
/// Where memory is refused: some of the cells may be written then.
pub(crate) fn run_shares<R: Threads + Sync, G: Gate + Sync>(
    team: &Team<'_, '_, R, G>,
    worker: u64,
    number: u64,
    from: u64,
    count: u64,
    own: &mut [u64],
) -> Result<Vec<u64>, AllocError>
    requires some { 0 < number }
    requires workers { worker + number ≤ team.now.workers }
    requires within { from + count ≤ team.now.shared.count }
    requires own { length own.old ≡ team.now.shared.window.width * count }
    ensures { IfOk result (λ rs. IsPartDone team.now.shared from count own.old own.new rs.items) }
{
    if number < 2 || count < 2 {
        return run_share(team, worker, from, count, own);
    }
    let _most = team.workers.get();
    let shares = shares_of_next(number);
    let (second, others) = (worker + shares, number - shares);
    let some = turns_before(&team.shared, team.workers, second, from, count);
    let (next, rest) = (from + some, count - some);
    let (front, back) = own.split_at_mut(team.shared.cells_of(some) as usize);
    let (done, end) = join_mut(
        team.rt,
        &mut || -> Result<Vec<u64>, AllocError>
            requires sync { IsSync R.row × IsSync G.row }
            requires some { 0 < shares }
            requires workers { worker + shares ≤ team.now.workers }
            requires within { from + some ≤ team.now.shared.count }
            requires own { length front.now ≡ team.now.shared.window.width * some }
            ensures { IfOk result (λ rs. IsPartDone team.entry.now.shared from some
                front.entry.now front.exit.now rs.items) }
        { run_shares(team, worker, shares, from, some, front) },
        &mut || -> Result<Vec<u64>, AllocError>
            requires sync { IsSync R.row × IsSync G.row }
            requires some { 0 < others }
            requires workers { second + others ≤ team.now.workers }
            requires within { next + rest ≤ team.now.shared.count }
            requires own { length back.now ≡ team.now.shared.window.width * rest }
            ensures { IfOk result (λ rs. IsPartDone team.entry.now.shared next rest
                back.entry.now back.exit.now rs.items) }
        {
            if others < 2 {
                return run_apart(team, second, next, rest, back);
            }
            run_shares(team, second, others, next, rest, back)
        },
    );
    done?;
    let registers = end?;
    Ok(registers)
}

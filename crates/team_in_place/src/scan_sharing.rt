//! The turns of a prefix sum, shared by the threads of a team.

ghost use Rattle.std.specs.Prelude.{◌≡◌, ◌+◌, ◌-◌, ◌*◌, ◌<◌, ◌≤◌, ℕ, length, slice_index, IfOk, OnOk};
ghost use Rattle.std.specs.Thread.{IsSync};
ghost use Rattle.team_scans.specs.Placed.{IsPartDone, IsSum};
ghost use Rattle.team_in_place.specs.Scanning.{AreSharesDone, AreSums, share_first, share_turns, start_of};

use crate::sharing::shares_of_next;
use ktree::Workers;
use lane_part::register_value;
use std::alloc::{AllocError, Global};
use std::thread::{Threads, join_mut};
use team_parts::Tools;
use team_scans::{Prefixes, add_part, scan_part};
use team_worker::{Gate, Taken};

/// What the workers of a team have in common: so many turns are run in front of all shares, and each worker has turns behind them.
#[derive(Drop)]
pub(crate) struct ScanTeam<'t, 'k, R: Threads + Sync, G: Gate + Sync> {
    pub(crate) rt: &'t R,
    pub(crate) alloc: Global,
    pub(crate) gate: &'t G,
    pub(crate) workers: Workers,
    pub(crate) prefixes: Prefixes<'t, 'k>,
    pub(crate) head: u64,
    pub(crate) ghost enough: { head + workers ≤ prefixes.count },
}

// The first turn of a worker's share, all of them being as long or one turn longer; behind the last worker the number of turns.
fn first_of<R: Threads + Sync, G: Gate + Sync>(team: &ScanTeam<'_, '_, R, G>, worker: u64) -> u64
    requires { worker ≤ team.now.workers }
    ensures is { result
        ≡ share_first team.now.head team.now.prefixes.count team.now.workers worker }
    ensures within { result ≤ team.now.prefixes.count }
{
    let workers = team.workers.get();
    team.head + (team.prefixes.count - team.head) * worker / workers
}

// How many turns so many workers from one on have.
fn turns_of<R: Threads + Sync, G: Gate + Sync>(
    team: &ScanTeam<'_, '_, R, G>,
    worker: u64,
    number: u64,
) -> u64
    requires { worker + number ≤ team.now.workers }
    ensures is { result
        ≡ share_turns team.now.head team.now.prefixes.count team.now.workers worker number }
    ensures within { share_first team.now.head team.now.prefixes.count team.now.workers worker
        + result ≤ team.now.prefixes.count }
{
    first_of(team, worker + number) - first_of(team, worker)
}

// How many cells these have to themselves.
fn cells_of<R: Threads + Sync, G: Gate + Sync>(
    team: &ScanTeam<'_, '_, R, G>,
    worker: u64,
    number: u64,
) -> u64
    requires { worker + number ≤ team.now.workers }
    ensures { result ≡ team.now.prefixes.window.width
        * share_turns team.now.head team.now.prefixes.count team.now.workers worker number }
{
    let turns = turns_of(team, worker, number);
    team.prefixes.cells_of(turns)
}

// What a worker's turns add to the register.
fn add_share<R: Threads + Sync, G: Gate + Sync>(
    team: &ScanTeam<'_, '_, R, G>,
    worker: u64,
    own: &mut [u64],
) -> Result<u64, AllocError>
    requires worker { worker < team.now.workers }
    requires own { length own.old ≡ team.now.prefixes.window.width
        * share_turns team.now.head team.now.prefixes.count team.now.workers worker 1 }
    ensures sum { IfOk result (IsSum team.now.prefixes
        (share_first team.now.head team.now.prefixes.count team.now.workers worker)
        (share_turns team.now.head team.now.prefixes.count team.now.workers worker 1) own.old) }
    ensures kept { own.new ≡ own.old }
{
    let from = first_of(team, worker);
    let count = turns_of(team, worker, 1);
    let mut tools = Tools::new(team.alloc)?;
    let sum = add_part(team.prefixes, from, count, own, &mut tools)?;
    Ok(sum)
}

// The same, as the one of some sums; nothing of the last worker's, behind whose turns none begin.
fn add_one<R: Threads + Sync, G: Gate + Sync>(
    team: &ScanTeam<'_, '_, R, G>,
    worker: u64,
    own: &mut [u64],
    sums: &mut [u64],
) -> Result<(), AllocError>
    requires worker { worker < team.now.workers }
    requires own { length own.old ≡ team.now.prefixes.window.width
        * share_turns team.now.head team.now.prefixes.count team.now.workers worker 1 }
    requires one { length sums.old ≡ 1 }
    ensures sums { OnOk result (AreSums team.now.prefixes team.now.head team.now.workers worker 1
        own.old sums.new) }
    ensures kept { own.new ≡ own.old }
{
    if worker + 1 == team.workers.get() {
        return Ok(());
    }
    sums[0] = add_share(team, worker, own)?;
    Ok(())
}

// What the turns of each of so many workers from one on add to the register, each worker's in a thread of its own. Their cells stay as they are.
fn add_shares<R: Threads + Sync, G: Gate + Sync>(
    team: &ScanTeam<'_, '_, R, G>,
    worker: u64,
    number: u64,
    own: &mut [u64],
    sums: &mut [u64],
) -> Result<(), AllocError>
    requires some { 0 < number }
    requires workers { worker + number ≤ team.now.workers }
    requires own { length own.old ≡ team.now.prefixes.window.width
        * share_turns team.now.head team.now.prefixes.count team.now.workers worker number }
    requires one { length sums.old ≡ number }
    ensures sums { OnOk result (AreSums team.now.prefixes team.now.head team.now.workers worker
        number own.old sums.new) }
    ensures kept { own.new ≡ own.old }
{
    if number < 2 {
        return add_one(team, worker, own, sums);
    }
    let _most = team.workers.get();
    let shares = shares_of_next(number);
    let (second, others) = (worker + shares, number - shares);
    let (front, back) = own.split_at_mut(cells_of(team, worker, shares) as usize);
    let (some, rest) = sums.split_at_mut(shares as usize);
    let (done, end) = join_mut(
        team.rt,
        &mut || -> Result<(), AllocError>
            requires sync { IsSync R.row × IsSync G.row }
            requires some { 0 < shares }
            requires workers { worker + shares ≤ team.now.workers }
            requires own { length front.now ≡ team.now.prefixes.window.width
                * share_turns team.now.head team.now.prefixes.count team.now.workers worker shares }
            requires one { length some.now ≡ shares }
            ensures sums { OnOk result (AreSums team.entry.now.prefixes team.entry.now.head
                team.entry.now.workers worker shares front.entry.now some.exit.now) }
            ensures kept { front.exit.now ≡ front.entry.now }
        { add_shares(team, worker, shares, front, some) },
        &mut || -> Result<(), AllocError>
            requires sync { IsSync R.row × IsSync G.row }
            requires some { 0 < others }
            requires workers { second + others ≤ team.now.workers }
            requires own { length back.now ≡ team.now.prefixes.window.width
                * share_turns team.now.head team.now.prefixes.count team.now.workers second others }
            requires one { length rest.now ≡ others }
            ensures sums { OnOk result (AreSums team.entry.now.prefixes team.entry.now.head
                team.entry.now.workers second others back.entry.now rest.exit.now) }
            ensures kept { back.exit.now ≡ back.entry.now }
        { add_shares(team, second, others, back, rest) },
    );
    done?;
    end?;
    Ok(())
}

// In the place of what each worker's turns add to the register, what it holds as they begin, where it first holds a number.
fn begin_shares(first: u64, sums: &mut [u64])
    ensures { (k : ℕ) → k < length sums.old
        → slice_index sums.new k ≡ start_of first sums.old k }
{
    let mut start = first;
    let mut at = 0;
    while at < sums.len() {
        let next = start.wrapping_add(sums[at]);
        sums[at] = start;
        start = next;
        at += 1;
    }
}

// Runs a worker's turns, where the register holds the one of some numbers as they begin. The registers are as these turns leave them.
fn scan_one<R: Threads + Sync, G: Gate + Sync>(
    team: &ScanTeam<'_, '_, R, G>,
    worker: u64,
    own: &mut [u64],
    starts: &[u64],
) -> Result<Vec<u64>, AllocError>
    requires worker { worker < team.now.workers }
    requires own { length own.old ≡ team.now.prefixes.window.width
        * share_turns team.now.head team.now.prefixes.count team.now.workers worker 1 }
    requires one { length starts.now ≡ 1 }
    ensures { IfOk result (λ rs. AreSharesDone team.now.prefixes team.now.head team.now.workers
        worker 1 starts.now own.old own.new rs.items) }
{
    let workers = team.workers.get();
    team.gate.entered(Taken {
        worker,
        workers,
        chunk: worker,
        chunks: workers,
    });
    let from = first_of(team, worker);
    let count = turns_of(team, worker, 1);
    let mut tools = Tools::new(team.alloc)?;
    scan_part(team.prefixes, starts[0], from, count, own, &mut tools)?;
    Ok(tools.into_registers())
}

// The same in a thread of its own, while this one waits.
fn scan_apart<R: Threads + Sync, G: Gate + Sync>(
    team: &ScanTeam<'_, '_, R, G>,
    worker: u64,
    own: &mut [u64],
    starts: &[u64],
) -> Result<Vec<u64>, AllocError>
    requires worker { worker < team.now.workers }
    requires own { length own.old ≡ team.now.prefixes.window.width
        * share_turns team.now.head team.now.prefixes.count team.now.workers worker 1 }
    requires one { length starts.now ≡ 1 }
    ensures { IfOk result (λ rs. AreSharesDone team.now.prefixes team.now.head team.now.workers
        worker 1 starts.now own.old own.new rs.items) }
{
    let _most = team.workers.get();
    let (done, _) = join_mut(
        team.rt,
        &mut || -> Result<Vec<u64>, AllocError>
            requires sync { IsSync R.row × IsSync G.row }
            requires worker { worker < team.now.workers }
            requires own { length own.now ≡ team.now.prefixes.window.width
                * share_turns team.now.head team.now.prefixes.count team.now.workers worker 1 }
            requires one { length starts.now ≡ 1 }
            ensures { IfOk result (λ rs. AreSharesDone team.entry.now.prefixes
                team.entry.now.head team.entry.now.workers worker 1 starts.entry.now
                own.entry.now own.exit.now rs.items) }
        { scan_one(team, worker, own, starts) },
        &mut || {},
    );
    done
}

// Runs the turns of so many workers from one on, each worker's in a thread of its own, where the register holds these numbers as they begin. The
// registers are as the last of them leaves them.
fn scan_shares<R: Threads + Sync, G: Gate + Sync>(
    team: &ScanTeam<'_, '_, R, G>,
    worker: u64,
    number: u64,
    own: &mut [u64],
    starts: &[u64],
) -> Result<Vec<u64>, AllocError>
    requires some { 0 < number }
    requires workers { worker + number ≤ team.now.workers }
    requires own { length own.old ≡ team.now.prefixes.window.width
        * share_turns team.now.head team.now.prefixes.count team.now.workers worker number }
    requires one { length starts.now ≡ number }
    ensures { IfOk result (λ rs. AreSharesDone team.now.prefixes team.now.head team.now.workers
        worker number starts.now own.old own.new rs.items) }
{
    if number < 2 {
        return scan_one(team, worker, own, starts);
    }
    let _most = team.workers.get();
    let shares = shares_of_next(number);
    let (second, others) = (worker + shares, number - shares);
    let (front, back) = own.split_at_mut(cells_of(team, worker, shares) as usize);
    let (some, rest) = starts.split_at(shares as usize);
    let (done, end) = join_mut(
        team.rt,
        &mut || -> Result<Vec<u64>, AllocError>
            requires sync { IsSync R.row × IsSync G.row }
            requires some { 0 < shares }
            requires workers { worker + shares ≤ team.now.workers }
            requires own { length front.now ≡ team.now.prefixes.window.width
                * share_turns team.now.head team.now.prefixes.count team.now.workers worker shares }
            requires one { length some.now ≡ shares }
            ensures { IfOk result (λ rs. AreSharesDone team.entry.now.prefixes
                team.entry.now.head team.entry.now.workers worker shares some.entry.now
                front.entry.now front.exit.now rs.items) }
        { scan_shares(team, worker, shares, front, some) },
        &mut || -> Result<Vec<u64>, AllocError>
            requires sync { IsSync R.row × IsSync G.row }
            requires some { 0 < others }
            requires workers { second + others ≤ team.now.workers }
            requires own { length back.now ≡ team.now.prefixes.window.width
                * share_turns team.now.head team.now.prefixes.count team.now.workers second others }
            requires one { length rest.now ≡ others }
            ensures { IfOk result (λ rs. AreSharesDone team.entry.now.prefixes
                team.entry.now.head team.entry.now.workers second others rest.entry.now
                back.entry.now back.exit.now rs.items) }
        {
            if others < 2 {
                return scan_apart(team, second, back, rest);
            }
            scan_shares(team, second, others, back, rest)
        },
    );
    done?;
    let registers = end?;
    Ok(registers)
}

// What the turns of each worker add to the register.
fn sums_of<R: Threads + Sync, G: Gate + Sync>(
    team: &ScanTeam<'_, '_, R, G>,
    own: &mut [u64],
) -> Result<Vec<u64>, AllocError>
    requires own { length own.old
        ≡ team.now.prefixes.window.width * (team.now.prefixes.count - team.now.head) }
    ensures many { IfOk result (λ sums. length sums.items ≡ team.now.workers) }
    ensures sums { IfOk result (λ sums. AreSums team.now.prefixes team.now.head
        team.now.workers 0 team.now.workers own.old sums.items) }
    ensures kept { own.new ≡ own.old }
{
    let workers = team.workers.get();
    let mut sums = Vec::from_elem(team.alloc, 0, workers as usize)?;
    add_shares(team, 0, workers, own, &mut sums)?;
    Ok(sums)
}

// Runs the turns of all workers, where the register holds a number before them, and each worker's add what is told to it. The registers are as the last of
// them leaves them.
fn scan_behind<R: Threads + Sync, G: Gate + Sync>(
    team: &ScanTeam<'_, '_, R, G>,
    first: u64,
    own: &mut [u64],
    sums: &mut [u64],
) -> Result<Vec<u64>, AllocError>
    requires own { length own.old
        ≡ team.now.prefixes.window.width * (team.now.prefixes.count - team.now.head) }
    requires many { length sums.old ≡ team.now.workers }
    requires sums { AreSums team.now.prefixes team.now.head team.now.workers 0 team.now.workers
        own.old sums.old }
    ensures { IfOk result (λ rs. IsPartDone team.now.prefixes first team.now.head
        (team.now.prefixes.count - team.now.head) own.old own.new rs.items) }
{
    let workers = team.workers.get();
    begin_shares(first, sums);
    let registers = scan_shares(team, 0, workers, own, sums)?;
    Ok(registers)
}

// Runs the turns in front of all shares, where the register holds a number before them. The registers are as these turns leave them.
fn scan_head<R: Threads + Sync, G: Gate + Sync>(
    team: &ScanTeam<'_, '_, R, G>,
    first: u64,
    own: &mut [u64],
) -> Result<Vec<u64>, AllocError>
    requires own { length own.old ≡ team.now.prefixes.window.width * team.now.head }
    ensures { IfOk result (λ rs. IsPartDone team.now.prefixes first 0 team.now.head
        own.old own.new rs.items) }
{
    let _most = team.workers.get();
    let mut tools = Tools::new(team.alloc)?;
    scan_part(team.prefixes, first, 0, team.head, own, &mut tools)?;
    Ok(tools.into_registers())
}

// The same, while other threads find what the turns of each worker add to the register.
fn scan_ahead<R: Threads + Sync, G: Gate + Sync>(
    team: &ScanTeam<'_, '_, R, G>,
    first: u64,
    front: &mut [u64],
    rest: &mut [u64],
) -> Result<(Vec<u64>, Vec<u64>), AllocError>
    requires front { length front.old ≡ team.now.prefixes.window.width * team.now.head }
    requires rest { length rest.old
        ≡ team.now.prefixes.window.width * (team.now.prefixes.count - team.now.head) }
    ensures head { IfOk result (λ r. IsPartDone team.now.prefixes first 0 team.now.head
        front.old front.new r.0.items) }
    ensures many { IfOk result (λ r. length r.1.items ≡ team.now.workers) }
    ensures sums { IfOk result (λ r. AreSums team.now.prefixes team.now.head team.now.workers 0
        team.now.workers rest.old r.1.items) }
    ensures kept { rest.new ≡ rest.old }
{
    let _most = team.workers.get();
    let (head, sums) = join_mut(
        team.rt,
        &mut || -> Result<Vec<u64>, AllocError>
            requires sync { IsSync R.row × IsSync G.row }
            requires own { length front.now ≡ team.now.prefixes.window.width * team.now.head }
            ensures { IfOk result (λ rs. IsPartDone team.entry.now.prefixes first 0
                team.entry.now.head front.entry.now front.exit.now rs.items) }
        { scan_head(team, first, front) },
        &mut || -> Result<Vec<u64>, AllocError>
            requires sync { IsSync R.row × IsSync G.row }
            requires own { length rest.now ≡ team.now.prefixes.window.width
                * (team.now.prefixes.count - team.now.head) }
            ensures many { IfOk result (λ sums. length sums.items ≡ team.entry.now.workers) }
            ensures sums { IfOk result (λ sums. AreSums team.entry.now.prefixes
                team.entry.now.head team.entry.now.workers 0 team.entry.now.workers
                rest.entry.now sums.items) }
            ensures kept { rest.exit.now ≡ rest.entry.now }
        { sums_of(team, rest) },
    );
    let registers = head?;
    let sums = sums?;
    Ok((registers, sums))
}

// All turns, of which some are in front of all shares.
fn scan_both<R: Threads + Sync, G: Gate + Sync>(
    team: &ScanTeam<'_, '_, R, G>,
    first: u64,
    own: &mut [u64],
) -> Result<Vec<u64>, AllocError>
    requires some { 0 < team.now.head }
    requires own { length own.old
        ≡ team.now.prefixes.window.width * team.now.prefixes.count }
    ensures { IfOk result (λ rs. IsPartDone team.now.prefixes first 0 team.now.prefixes.count
        own.old own.new rs.items) }
{
    let _most = team.workers.get();
    let (front, rest) = own.split_at_mut(team.prefixes.cells_of(team.head) as usize);
    let (registers, mut sums) = scan_ahead(team, first, front, rest)?;
    let carried = register_value(&registers, team.prefixes.scanned.target.at);
    let end = scan_behind(team, carried, rest, &mut sums)?;
    Ok(end)
}

/// Runs all turns over their own cells, where the register holds a number before them, by so many workers: those in front of all shares, while other threads
/// find what each share adds to the register, and then each share in a thread of its own, of which the turns begin with what those before it leave there. The
/// registers are as the last of them leaves them (C11 6.8.5; OpenMP 5.2, 11.5.3).
///
/// # Errors
///
/// Where memory is refused: some of the cells may be written then.
pub(crate) fn scan_all<R: Threads + Sync, G: Gate + Sync>(
    team: &ScanTeam<'_, '_, R, G>,
    first: u64,
    own: &mut [u64],
) -> Result<Vec<u64>, AllocError>
    requires own { length own.old
        ≡ team.now.prefixes.window.width * team.now.prefixes.count }
    ensures { IfOk result (λ rs. IsPartDone team.now.prefixes first 0 team.now.prefixes.count
        own.old own.new rs.items) }
{
    if team.head != 0 {
        return scan_both(team, first, own);
    }
    let mut sums = sums_of(team, own)?;
    scan_behind(team, first, own, &mut sums)
}

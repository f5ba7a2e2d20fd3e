//! Drawings by seats that are asked in turn, and by threads.

ghost use Rattle.std.specs.Prelude.{◌≡◌, ◌≤◌, ◌^◌, All};

use draw::{DrawSeat, Drawing};
use std::alloc::{AllocError, Global};
use std::sync::atomic::{AtomicU64, Ordering};
use std::thread;
use std::thread::Threads;

/// A seat that is asked, by its number, and the ticket that it draws.
type Row = (usize, Option<u64>);

/// Whether seats that are asked in turn draw these tickets.
fn draw_these(drawing: &Drawing, seats: &mut [DrawSeat], rows: &[Row]) -> bool
    requires { All (λ s. s.of ≡ drawing.now) seats.old }
    ensures { All (λ s. s.of ≡ drawing.now) seats.new }
{
    'asks: for (number, ticket) in rows {
        if *number >= seats.len() {
            return false;
        }
        let seat = &mut seats[*number];
        if drawing.next(seat) != *ticket {
            return false;
        }
    }
    true
}

/// Whether a drawing to which so many seats come back is whole; none where its seats do not draw these tickets.
fn is_whole(alloc: Global, tickets: u64, count: u64, rows: &[Row], back: usize) -> Option<bool>
    requires tickets { tickets ≤ 2 ^ 24 }
    requires count { (1 ≤ count) × (count ≤ 65) }
{
    let Ok((drawing, mut seats)) = Drawing::new(alloc, tickets, count) else {
        return None;
    };
    if seats.len() as u64 != count || !draw_these(&drawing, &mut seats, rows) {
        return None;
    }
    seats.truncate(back);
    Some(drawing.close(seats).whole())
}

#[test]
fn draws_each_once(rt: HostRuntime) {
    const ROWS: &[Row] = &[
        (0, Some(0)),
        (0, Some(1)),
        (1, Some(2)),
        (1, None),
        (1, None),
    ];
    const NONE: &[Row] = &[(0, None), (1, None), (2, None)];
    assert!(rt; is_whole(rt.alloc(), 3, 2, ROWS, 2) == Some(true));
    assert!(rt; is_whole(rt.alloc(), 0, 3, NONE, 3) == Some(true));
}

#[test]
fn the_end_is_met_once(rt: HostRuntime) {
    let mut rows = [(0, None); 1002];
    rows[0] = (0, Some(0));
    assert!(rt; is_whole(rt.alloc(), 1, 1, &rows, 1) == Some(true));
}

#[test]
fn a_missing_seat_or_no_end_is_not_whole(rt: HostRuntime) {
    let heap = rt.alloc();
    assert!(rt; is_whole(heap, 0, 2, &[(0, None)], 1) == Some(false));
    assert!(rt; is_whole(heap, 1, 2, &[(0, Some(0))], 2) == Some(false));
}

const TICKETS: u64 = 10_000;

const THREADS: u64 = 3;

/// Draws until the end, once all threads are there.
fn draw_all(
    alloc: Global,
    drawing: &Drawing,
    mut seat: DrawSeat,
    there: &AtomicU64,
) -> Result<Vec<u64>, AllocError>
    requires { seat.of ≡ drawing.now }
{
    there.fetch_add(1, Ordering::SeqCst);
    for _ in 0..10_000_000u64 {
        if there.load(Ordering::SeqCst) >= THREADS {
            break;
        }
        thread::yield_now();
    }
    let mut tickets = Vec::new(alloc);
    'draws: for _ in 0..TICKETS {
        let Some(ticket) = drawing.next(&mut seat) else {
            break;
        };
        tickets.push(ticket)?;
    }
    Ok(tickets)
}

/// What the threads draw, each with one of these seats.
fn draw_together<R: Threads + Sync>(
    rt: &R,
    alloc: Global,
    drawing: &Drawing,
    seats: Vec<DrawSeat>,
) -> Result<Vec<Result<Vec<u64>, AllocError>>, AllocError>
    requires { All (λ s. s.of ≡ drawing.now) seats.items }
{
    let there = AtomicU64::new(0);
    let there = &there;
    thread::map_vec(
        rt,
        seats,
        &|seat: DrawSeat| -> Result<Vec<u64>, AllocError>
            requires { seat.of ≡ drawing.now }
        { draw_all(alloc, drawing, seat, there) },
    )
}

/// All tickets that threads have drawn, in order.
fn sorted_tickets(
    alloc: Global,
    drawn: Vec<Result<Vec<u64>, AllocError>>,
) -> Result<Vec<u64>, AllocError> {
    let mut all = Vec::new(alloc);
    for tickets in drawn {
        all.append(&mut tickets?)?;
    }
    all.sort_unstable();
    Ok(all)
}

/// The tickets that three threads draw, in order.
fn drawn_by_three<R: Threads + Sync>(rt: &R, alloc: Global) -> Result<Vec<u64>, AllocError> {
    let (drawing, seats) = Drawing::new(alloc, TICKETS, THREADS)?;
    let drawn = draw_together(rt, alloc, &drawing, seats)?;
    sorted_tickets(alloc, drawn)
}

/// Whether these are all tickets.
fn are_all(tickets: Result<Vec<u64>, AllocError>) -> bool {
    match tickets {
        Ok(tickets) => tickets.iter().copied().eq(0..TICKETS),
        Err(_error) => false,
    }
}

#[test]
fn three_threads_draw_each_once(rt: HostRuntime) {
    assert!(rt; are_all(drawn_by_three(&rt, rt.alloc())));
}

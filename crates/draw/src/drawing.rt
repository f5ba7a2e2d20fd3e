//! The drawing and its seats.
ghost use Rattle.std.specs.Prelude.{◌≡◌, ◌^◌, ◌<◌, ◌≤◌, ◌↔◌, true, false, vec_len, All, IfOk, IfSome, IsTrue, None};
ghost use Rattle.draw.specs.Tickets.{fresh, after_draw, IsDraw, SomeEnded, Together};

use crate::rule::{Deal, Dealing, Draw, Enter, Gather, Size, View};
use atomic_table::{Seat, Table};
use std::alloc::{AllocError, Global};
use std::marker::Model;

/// The numbers below a count, of which each is drawn once, as the chunk numbers of a loop whose
/// schedule hands out chunks on request (OpenMP 5.2, 11.5.3). Threads share it, and each draws with a
/// seat of its own. Contracts see it as its count and the number of its seats.
#[must_use]
#[derive(Drop)]
pub struct Drawing {
    table: Table<(), View, Size, Dealing, Global>,
    size: Size,
}

impl Model for Drawing {
    ghost use Rattle.std.specs.Prelude.{◌≡◌};
    ghost use Rattle.draw.specs.Tickets.{DrawingName};

    ghost Value = { DrawingName };

    ghost view = { λ d. record {
      table = d.table.shared.table_id;
      count = d.size.count;
      seats = d.size.seats;
    } };

    ghost invariant = { λ d. (d.table.shared.key ≡ d.size)
        × (d.table.shared.table_id.words ≡ 1) × (d.table.shared.table_id.slots ≡ 0) };
}

/// The right of one thread to draw. Contracts see the tickets that it drew, in order, and whether it
/// met the end.
#[must_use]
#[derive(Drop)]
pub struct DrawSeat {
    pub(crate) seat: Seat<(), View>,
    pub(crate) ended: bool,
}

impl Model for DrawSeat {
    ghost use Rattle.std.specs.Prelude.{◌≡◌, [], if◌then◌else◌};
    ghost use Rattle.draw.specs.Tickets.{SeatState};

    ghost Value = { SeatState };

    ghost view = { λ s. record {
      of = record {
        table = s.seat.table_id;
        count = s.seat.me.0.size.count;
        seats = s.seat.me.0.size.seats;
      };
      tickets = s.seat.me.0.tickets;
      ended = s.ended;
    } };

    ghost invariant = { λ s. (s.seat.me.1 ≡ []) × (s.seat.me.0.parts ≡ 1)
        × (s.seat.me.0.ends ≡ (if s.ended then 1 else 0)) };
}

/// What came of a drawing. Contracts see whether it is whole.
#[must_use]
#[derive(Clone, Copy, Debug, PartialEq, Eq)]
pub struct Drawn {
    whole: bool,
}

impl Model for Drawn {
    ghost use Rattle.std.specs.Prelude.{Bool};

    ghost Value = { Bool };

    ghost view = { λ d. d.whole };

    ghost inverse = { λ b. record { whole = b } };
}

impl Drawing {
    /// A drawing of the numbers below `count`, and as many seats as are asked for.
    ///
    /// # Errors
    ///
    /// Fails only where memory runs out.
    pub fn new(
        alloc: Global,
        count: u64,
        seats: u64,
    ) -> Result<(Drawing, Vec<DrawSeat>), AllocError>
        requires count { count ≤ 2 ^ 24 }
        requires seats { (1 ≤ seats) × (seats ≤ 65) }
        ensures drawing { IfOk result (λ r. (r.0.count ≡ count) × (r.0.seats ≡ seats)) }
        ensures seats { IfOk result (λ r. (vec_len r.1 ≡ seats)
            × All (λ s. s ≡ fresh r.0) r.1.items) }
    {
        let size = Size { count, seats };
        let (table, mut first) = Table::of_words(alloc, &[0], &size)?;
        let mut made = Vec::new(alloc);
        for _ in 0..seats {
            let seat = table.shared.split_seat::<Deal>(&mut first);
            made.push(DrawSeat { seat, ended: false })?;
        }
        Ok((Drawing { table, size }, made))
    }

    /// How many tickets there are.
    pub fn count(&self) -> u64
        ensures { result ≡ self.now.count }
    {
        self.size.count
    }

    /// How many seats there are.
    pub fn seats(&self) -> u64
        ensures { result ≡ self.now.seats }
    {
        self.size.seats
    }

    /// Draws the next ticket, by one atomic step, and with no memory. It is `None` once all tickets
    /// are drawn; a seat that was told so answers `None` from then on without a step.
    pub fn next(&self, seat: &mut DrawSeat) -> Option<u64>
        requires { seat.old.of ≡ self.now }
        ensures ticket { IfSome result
            (λ t. (t < self.now.count) × All (λ earlier. earlier < t) seat.old.tickets) }
        ensures seat { seat.new ≡ after_draw seat.old result }

        // the event machine's step, which a seat that met the end takes no more
        ensures draw { seat.old.ended ≡ false
            → IsDraw self.now.count seat.old.tickets result seat.new.tickets }
        ensures over { seat.old.ended ≡ true → result ≡ None }
    {
        if seat.ended {
            return None;
        }
        let found = self.table.shared.fetch_add::<Draw>(&mut seat.seat, 0, 1);
        if found < self.size.count {
            Some(found)
        } else {
            seat.ended = true;
            None
        }
    }

    /// Ends the drawing, with the seats that came back.
    pub fn close(self, seats: Vec<DrawSeat>) -> Drawn
        requires { All (λ s. s.of ≡ self) seats.items }
        ensures whole { IsTrue result ↔ (vec_len seats ≡ self.seats) × SomeEnded seats.items }
        ensures together { vec_len seats ≡ self.seats → Together self.count seats.items }
    {
        let Drawing { table, size } = self;
        let all_back = seats.len() as u64 == size.seats;
        let (_, mut joined) = table.shared.load_new_seat::<Enter>(0);
        let mut met_end = false;
        for back in seats {
            let DrawSeat { seat, ended } = back;
            met_end = met_end || ended;
            table.shared.join_seat::<Gather>(&mut joined, seat);
        }
        let closed = table.close_with(joined);
        closed.free();
        Drawn {
            whole: all_back && met_end,
        }
    }
}

impl Drawn {
    /// Whether all seats came back and one of them met the end, so that all tickets were drawn.
    pub fn whole(&self) -> bool
        ensures { result ≡ self.now }
    {
        self.whole
    }
}

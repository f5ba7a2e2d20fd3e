//! Seats that rest until who needs them takes them.
ghost use Rattle.std.specs.Prelude.{◌≡◌, IfSome};

use crate::drawing::DrawSeat;
use crate::rule::View;
use atomic_table::Perch;
use std::marker::Model;

/// A seat that rests until a thread takes it, where many threads see it. Contracts see it as they see the seat.
#[must_use]
#[derive(Drop)]
pub struct RestingSeat {
    perch: Perch<(), View>,
    ended: bool,
}

impl Model for RestingSeat {
    ghost use Rattle.std.specs.Prelude.{◌≡◌, if◌then◌else◌};
    ghost use Rattle.draw.specs.Tickets.{SeatState};

    ghost Value = { SeatState };

    ghost view = { λ r. record {
      of = record {
        table = r.perch.table_id;
        count = r.perch.view.size.count;
        seats = r.perch.view.size.seats;
      };
      tickets = r.perch.view.tickets;
      ended = r.ended;
    } };

    ghost invariant = { λ r. (r.perch.view.parts ≡ 1)
        × (r.perch.view.ends ≡ (if r.ended then 1 else 0)) };
}

impl RestingSeat {
    /// The seat, which nobody has taken yet.
    pub fn new(seat: DrawSeat) -> RestingSeat
        ensures { result ≡ seat }
    {
        let DrawSeat { seat, ended } = seat;
        let perch = Perch::new(&seat, 0);
        let _rests = perch.give(seat, 0, 2);
        RestingSeat { perch, ended }
    }

    /// The seat, if nobody has taken it before.
    pub fn take(&self) -> Option<DrawSeat>
        ensures { IfSome result (λ seat. seat ≡ self.now) }
    {
        let (_, seat) = self.perch.take(0);
        let seat = seat?;
        Some(DrawSeat {
            seat,
            ended: self.ended,
        })
    }
}

//! A seat, with which one thread draws.
ghost use Rattle.std.specs.Prelude.{◌≡◌, length};

use crate::holding::Holding;
use atomic_table::Seat;
use std::marker::Model;

/// The right to draw from one deal. Contracts see which deal it is, and the numbers that the seat drew,
/// in the order in which it drew them.
#[derive(Drop)]
pub struct DealSeat {
    pub(crate) seat: Seat<(), Holding>,
    pub(crate) count: u64,
}

impl Model for DealSeat {
    ghost use Rattle.std.specs.Prelude.{◌≡◌, [], length};
    ghost use Rattle.job_tickets.specs.Seats.{SeatState};

    ghost Value = { SeatState };

    ghost view = { λ s. record { deal = s.seat.table_id; drawn = s.seat.me.0.drawn } };

    ghost invariant = { λ s.
        (s.seat.me.0.share ≡ 1) × (s.seat.me.1 ≡ []) × (s.count ≡ length s.seat.me.0.drawn) };
}

impl DealSeat {
    /// How many numbers the seat drew. Takes no memory.
    pub fn drawn(&self) -> u64
        ensures { result ≡ length self.now.drawn }
    {
        self.count
    }
}

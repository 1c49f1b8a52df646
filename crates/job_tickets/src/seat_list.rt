//! The seats of a deal, as a list.
ghost use Rattle.std.specs.Prelude.{◌≡◌, ◌∷◌, ◌++◌, [], OnOk, OnErr};
ghost use Rattle.std.specs.Borrow.{sem};
ghost use Rattle.job_tickets.specs.Lending.{lends_seats};
ghost use Rattle.job_tickets.specs.Seats.{TakesLast};

use crate::seat::DealSeat;
use plain_data::OutOfMemory;
use std::alloc::Global;
use std::marker::Model;

/// Seats, which contracts see as a list. It keeps its allocator.
#[derive(Drop)]
pub struct DealSeatList {
    items: Vec<DealSeat>,
}

impl Model for DealSeatList {
    ghost use Rattle.std.specs.Prelude.{List};
    ghost use Rattle.job_tickets.specs.Seats.{SeatState};

    ghost Value = { List SeatState };

    ghost view = { λ l. l.items.items };
}

impl DealSeatList {
    /// The list without seats. Takes no memory.
    pub fn new(alloc: Global) -> DealSeatList
        ensures { result ≡ [] }
    {
        DealSeatList {
            items: Vec::new(alloc),
        }
    }

    /// Its seats. Takes no memory.
    pub fn as_slice(&self) -> &[DealSeat]
        ensures { result.now ≡ self.now }
    {
        self.items.as_slice()
    }

    /// Its seats, for threads that draw with them. Takes no memory.
    pub fn as_mut_slice(&mut self) -> &mut [DealSeat]
        ensures* writes_back { sem 𝓛 (lends_seats self.entry result) }
        ensures value { result.now ≡ self.old }
    {
        self.items.as_mut_slice()
    }

    /// Puts a seat at the end. A refusal leaves the list as it was, and the seat is given up.
    pub fn push(&mut self, seat: DealSeat) -> Result<(), OutOfMemory>
        ensures ok { OnOk result (self.new ≡ self.old ++ seat ∷ []) }
        ensures err { OnErr result (self.new ≡ self.old) }
    {
        self.items.push(seat)?;
        Ok(())
    }

    /// Takes the last seat out, if there is one. Takes no memory.
    pub fn pop(&mut self) -> Option<DealSeat>
        ensures { TakesLast self.old self.new result }
    {
        self.items.pop()
    }
}

//! A deal, from which seats draw.
ghost use Rattle.std.specs.Prelude.{◌≡◌, ℕ, ◌+◌, ◌-◌, ◌<◌, ◌≤◌, ◌^◌, ◌++◌, [], length, map, replicate, sum_by, All, IfOk};
ghost use Rattle.job_tickets.specs.Dealt.{times};
ghost use Rattle.job_tickets.specs.Seats.{fresh_seat, IsFresh, AreOf, DrewEach, after_draw};
ghost use Rattle.job_tickets.specs.Shares.{StandsFor};

use crate::holding::Holding;
use crate::rule::{Draw, OneShare, Tickets, Together};
use crate::seat::DealSeat;
use crate::seat_list::DealSeatList;
use atomic_table::{Seat, Table};
use plain_data::OutOfMemory;
use std::alloc::Global;
use std::marker::Model;

/// Numbers to be drawn: 0, 1, 2 and so on.
#[derive(Drop)]
pub struct Deal {
    table: Table<(), Holding, u32, Tickets, Global>,
}

impl Model for Deal {
    ghost use Rattle.std.specs.Prelude.{◌≤◌};
    ghost use Rattle.job_tickets.specs.Seats.{DealState};
    ghost use Rattle.job_tickets.specs.Shares.{HasOneWord};

    ghost Value = { DealState };

    ghost view = { λ d. record { deal = d.table.shared.table_id; seats = d.table.shared.key } };

    ghost invariant = { λ d. HasOneWord d.table.shared.table_id × (1 ≤ d.table.shared.key) };
}

impl Deal {
    /// A deal for 1 to 64 seats, and the seats. It is refused only for want of memory.
    pub fn new(alloc: Global, seats: u32) -> Result<(Deal, DealSeatList), OutOfMemory>
        requires some { 1 ≤ seats }
        requires few { seats ≤ 64 }
        ensures { IfOk result (λ made. IsFresh seats made.0 made.1) }
    {
        let (table, all) = Table::of_words(alloc, &[0], &seats)?;
        let deal = Deal { table };
        let list = deal.seats_of(alloc, all, seats)?;
        Ok((deal, list))
    }

    // So many seats, made of one that stands for all of them and drew nothing.
    fn seats_of(
        &self,
        alloc: Global,
        mut rest: Seat<(), Holding>,
        count: u32,
    ) -> Result<DealSeatList, OutOfMemory>
        requires some { 1 ≤ count }
        requires rest { StandsFor self.now.deal count [] rest }
        ensures { IfOk result (λ seats. seats ≡ replicate count (fresh_seat self.now.deal)) }
    {
        let mut seats = DealSeatList::new(alloc);
        for _ in 1..count {
            seats.push(self.seat_from(&mut rest))?;
        }
        seats.push(DealSeat {
            seat: rest,
            count: 0,
        })?;
        Ok(seats)
    }

    // A seat that is cut off one which drew nothing and stands for two at least.
    fn seat_from(&self, rest: &mut Seat<(), Holding>) -> DealSeat
        requires rest { StandsFor self.now.deal rest.old.me.0.share [] rest.old }
        requires two { 2 ≤ rest.old.me.0.share }
        ensures rest { StandsFor self.now.deal (rest.old.me.0.share - 1) [] rest.new }
        ensures seat { result ≡ fresh_seat self.now.deal }
    {
        DealSeat {
            seat: self.table.shared.split_seat::<OneShare>(rest),
            count: 0,
        }
    }

    /// Draws the next number, with a seat of this deal that drew fewer than 2^32 numbers. It is greater
    /// than each that the seat drew before, and at least how many these are. Takes no memory, and never
    /// waits.
    #[tactic(auto, using(crate::proofs::RuleLemmas::draws))]
    pub fn draw(&self, seat: &mut DealSeat) -> u64
        requires of_deal { seat.old.deal ≡ self.now.deal }
        requires room { length seat.old.drawn < 2 ^ 32 }
        ensures seat { seat.new ≡ after_draw seat.old result }
        ensures greater { All (λ number. number < result) seat.old.drawn }
        ensures at_least { length seat.old.drawn ≤ result }
        ensures below { result < 2 ^ 38 }
    {
        seat.count += 1;
        self.table.shared.fetch_add::<Draw>(&mut seat.seat, 0, 1)
    }

    // Takes a seat in to another.
    fn take_in(&self, all: &mut Seat<(), Holding>, other: DealSeat)
        requires all { StandsFor self.now.deal all.old.me.0.share all.old.me.0.drawn all.old }
        requires other { other.deal ≡ self.now.deal }
        ensures { StandsFor self.now.deal (all.old.me.0.share + 1)
            (all.old.me.0.drawn ++ other.drawn) all.new }
    {
        let DealSeat { seat, count: _ } = other;
        self.table.shared.join_seat::<Together>(all, seat);
    }

    // The seats as one.
    fn all_as_one(&self, mut seats: DealSeatList) -> Seat<(), Holding>
        requires some { 0 < length seats }
        requires of_deal { All (λ seat. seat.deal ≡ self.now.deal) seats }
        ensures whole { StandsFor self.now.deal (length seats) result.me.0.drawn result }
        ensures drawn { (number : ℕ) → times number result.me.0.drawn
            ≡ sum_by (times number) (map (λ seat. seat.drawn) seats) }
    {
        let Some(
            DealSeat {
                seat: mut all,
                count: _,
            },
        ) = seats.pop()
        else {
            unreachable!()
        };
        while let Some(seat) = seats.pop() {
            self.take_in(&mut all, seat);
        }
        all
    }

    /// How many numbers were drawn, once all of the deal's seats are back: the seats drew the numbers
    /// below that, each once. Takes no memory.
    pub fn close(self, seats: DealSeatList) -> u64
        requires { AreOf self seats }
        ensures { DrewEach result seats }
    {
        let all = self.all_as_one(seats);
        let Deal { table } = self;
        let closed = table.close_with(all);
        let count = closed.word(0);
        closed.free();
        count
    }
}

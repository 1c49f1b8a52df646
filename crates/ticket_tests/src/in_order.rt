//! Seats that draw one after the other, in one thread.
ghost use Rattle.std.specs.Prelude.{◌≡◌, IfOk};
ghost use Rattle.job_tickets.specs.Seats.{AreOf};

use crate::words::said;
use job_tickets::{Deal, DealSeat, DealSeatList};
use plain_data::OutOfMemory;
use std::alloc::Global;

/// The numbers that seats draw, where each draws as often as its number says, and how many were drawn.
/// From 1 to 64 seats are asked for.
pub fn one_after_the_other(alloc: Global, draws: &[u64]) -> Result<String, OutOfMemory> {
    if draws.is_empty() || draws.len() > 64 {
        return said(alloc, "not from 1 to 64 seats");
    }
    let mut words = String::new(alloc);
    let (deal, mut seats) = Deal::new(alloc, draws.len() as u32)?;
    let back = draw_in_order(alloc, &deal, &mut seats, draws, &mut words)?;
    drop(seats);
    let count = deal.close(back);
    Ok(format!(in alloc; "{words}{count} drawn")?)
}

// Takes each seat out of the list, draws with it, and puts it into the list that comes back.
fn draw_in_order(
    alloc: Global,
    deal: &Deal,
    seats: &mut DealSeatList,
    draws: &[u64],
    words: &mut String,
) -> Result<DealSeatList, OutOfMemory>
    requires { AreOf deal.now seats.old }
    ensures { IfOk result (λ back. AreOf deal.now back) }
{
    let mut back = DealSeatList::new(alloc);
    while let Some(mut seat) = seats.pop() {
        let place = back.as_slice().len();
        let times = if place < draws.len() { draws[place] } else { 0 };
        draw_some(deal, &mut seat, times, words)?;
        back.push(seat)?;
    }
    Ok(back)
}

// Draws so many numbers with a seat, and writes each.
fn draw_some(
    deal: &Deal,
    seat: &mut DealSeat,
    times: u64,
    words: &mut String,
) -> Result<(), OutOfMemory>
    requires { seat.old.deal ≡ deal.now.deal }
    ensures { seat.new.deal ≡ deal.now.deal }
{
    for _ in 0..times {
        if seat.drawn() < 1 << 32 {
            let number = deal.draw(seat);
            write!(words, "{number} ")?;
        }
    }
    Ok(())
}

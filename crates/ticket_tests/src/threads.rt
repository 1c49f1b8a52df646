//! Threads that draw the numbers of jobs from one deal.
ghost use Rattle.std.specs.Prelude.{◌≡◌, ◌<◌, ◌≤◌, ◌^◌, length, vec_len, IfOk};
ghost use Rattle.job_tickets.specs.Seats.{fresh_seat, IsFresh};
ghost use Rattle.ticket_tests.specs.Shared.{WentPast, AllWentPast, AreSharedOut};

use crate::words::said;
use job_tickets::{Deal, DealSeat, DealSeatList};
use plain_data::OutOfMemory;
use std::alloc::Global;
use std::sync::atomic::AtomicU64;
use std::sync::atomic::Ordering::SeqCst;
use std::thread;
use std::thread::Threads;

/// Whether threads drew each job's number once, and how many numbers they drew. From 1 to 64 seats and
/// fewer than 2^32 jobs are asked for.
pub fn drawn_by_threads<R: Threads + Sync>(
    rt: &R,
    alloc: Global,
    seats: u64,
    jobs: u64,
) -> Result<String, OutOfMemory> {
    if seats < 1 || seats > 64 || jobs >= 1 << 32 {
        return said(alloc, "not from 1 to 64 seats, or too many jobs");
    }
    let marks = marks_for(alloc, jobs)?;
    let count = shared_out(rt, alloc, seats as u32, marks.as_slice())?;
    let mut once: u64 = 0;
    for mark in marks.as_slice() {
        if mark.load(SeqCst) == 1 {
            once = once.wrapping_add(1);
        }
    }
    Ok(format!(in alloc; "{once} jobs once, {count} drawn")?)
}

// A mark for each of so many jobs.
fn marks_for(alloc: Global, jobs: u64) -> Result<Vec<AtomicU64>, OutOfMemory>
    ensures { IfOk result (λ marks. vec_len marks ≡ jobs) }
{
    let mut marks = Vec::new(alloc);
    for _ in 0..jobs {
        marks.push(AtomicU64::new(0))?;
    }
    Ok(marks)
}

// Threads share out jobs, of which each has a mark that counts how often it is done, and answer how many
// numbers they drew. It is refused only for want of memory.
fn shared_out<R: Threads + Sync>(
    rt: &R,
    alloc: Global,
    seats: u32,
    marks: &[AtomicU64],
) -> Result<u64, OutOfMemory>
    requires some { 1 ≤ seats }
    requires few { seats ≤ 64 }
    requires jobs { length marks.now < 2 ^ 32 }
    ensures { IfOk result (λ count. AreSharedOut seats (length marks.now) count) }
{
    let (deal, mut list) = Deal::new(alloc, seats)?;
    work_with_list(rt, &deal, &mut list, marks);
    Ok(deal.close(list))
}

// Each seat of the list works.
fn work_with_list<R: Threads + Sync>(
    rt: &R,
    deal: &Deal,
    list: &mut DealSeatList,
    marks: &[AtomicU64],
)
    requires fresh { IsFresh deal.now.seats deal.now list.old }
    requires jobs { length marks.now < 2 ^ 32 }
    ensures { AllWentPast deal.now (length marks.now) list.new }
{
    work_in_threads(rt, deal, list.as_mut_slice(), marks);
}

// Each seat works, in a thread of its own where there is one.
fn work_in_threads<R: Threads + Sync>(
    rt: &R,
    deal: &Deal,
    seats: &mut [DealSeat],
    marks: &[AtomicU64],
)
    requires fresh { IsFresh deal.now.seats deal.now seats.old }
    requires jobs { length marks.now < 2 ^ 32 }
    ensures { AllWentPast deal.now (length marks.now) seats.new }
{
    thread::for_each_mut(
        rt,
        seats,
        64,
        &|_: usize, seat: &mut DealSeat|
            requires { (seat.old ≡ fresh_seat deal.now.deal) × (length marks.now < 2 ^ 32) }
            ensures { WentPast deal.entry.now.deal (length marks.entry.now) seat.new }
        { work(deal, seat, marks) },
    );
}

// Draws, and does the job of each number, until a number is past the last job.
#[tactic(auto, using(crate::proofs::Past::went_past))]
fn work(deal: &Deal, seat: &mut DealSeat, marks: &[AtomicU64])
    requires fresh { seat.old ≡ fresh_seat deal.now.deal }
    requires jobs { length marks.now < 2 ^ 32 }
    ensures { WentPast deal.now.deal (length marks.now) seat.new }
{
    loop {
        let number = deal.draw(seat);
        if number >= marks.len() as u64 {
            return;
        }
        marks[number as usize].fetch_add(1, SeqCst);
    }
}

//! Numbers that threads draw from one deal, in place of fixed shares of the work: 0, 1, 2 and so on,
//! each by one seat, once.
//!
//! [`Deal::new`] gives a deal and its seats. Each thread draws with a seat of its own, by one atomic
//! step, until a number is past its last job. Contracts see in each seat the list of the numbers that it
//! drew. Once all seats are back, [`Deal::close`] tells how many were drawn: the seats' lists have each
//! number below that, once, and no other number. A deal and a seat may be dropped at any time.
//!
//! `specs/Dealt.antt` says what is promised, and `specs/Rule.antt` what holds between any two steps.
#![tactic(auto)]

mod deal;
mod holding;
mod laws;
mod rule;
mod seat;
mod seat_list;

pub use deal::Deal;
pub use laws::jobs_are_drawn_once;
pub use seat::DealSeat;
pub use seat_list::DealSeatList;

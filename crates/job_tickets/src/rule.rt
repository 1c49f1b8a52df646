//! The rule of a deal's word, and the kinds of step on it. Nothing here runs.
ghost use Rattle.job_tickets.specs.Rule.{KeepsTickets, opening_holding, HasDrawn, without_one, one_share, both_holdings, spent};

use crate::holding::Holding;
use atomic_table::{Join, Play, Split, TableRule};

/// Each number is drawn once. The key is the number of seats.
pub struct Tickets;

impl TableRule<(), Holding, u32> for Tickets {
    ghost holds = { KeepsTickets };

    ghost first = { opening_holding };
}

/// A number is drawn.
pub struct Draw;

impl Play<(), Holding> for Draw {
    ghost then = { HasDrawn };
}

/// A seat with one share is cut off.
pub struct OneShare;

impl Split<Holding> for OneShare {
    ghost left = { without_one };

    ghost right = { one_share };
}

/// Two seats are put together.
pub struct Together;

impl Join<Holding> for Together {
    ghost both = { both_holdings };

    ghost spent = { spent };
}

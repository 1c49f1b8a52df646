//! The statements in a file of SQL, as its bytes come: where each begins and ends.
//!
//! Between statements white space and comments are passed over, and a line `DELIMITER ;` or
//! `DELIMITER $$` sets what ends a statement. A statement ends at the first `;` outside quotes and
//! comments, or at the first line that has nothing but the dollars that were set.
#![tactic(auto)]

mod laws;
mod mark;
mod opening;
mod place;
mod runs;
mod scan;
mod splitter;
mod within;

pub use laws::{a_given_piece_is_the_first, files_are_divided_so, none_is_lost, too_long_stays_so};
pub use splitter::{Piece, SplitFault, Splitter};

//! What an honest MySQL server is: which answers it may give, and what they leave on its links and in its
//! history. Nothing here runs: these are the definitions that promises of dumps and loads are stated
//! over, and laws of them.
#![tactic(auto)]

mod laws;

pub use laws::{
    a_commit_is_whole, a_frozen_link_sees_nothing_new, a_grant_can_stand_first,
    a_guarded_link_sees_one_catalogue, a_new_link_holds_nothing, a_plain_snapshot_may_show_more,
    a_snapshot_beside_shows_the_holders, a_sole_link_sees_its_own,
    a_statement_beside_sees_the_holders, an_insert_alone_is_committed,
    an_insert_waits_for_its_commit, integers_are_read, rows_before_an_err_are_of_an_answer,
    the_position_may_move_after_the_lock,
};

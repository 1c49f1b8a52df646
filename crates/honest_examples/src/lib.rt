//! Worked examples of an honest server: states that its relations allow, and others that they refuse.
//! Nothing here runs: the contracts are the examples.
#![tactic(auto)]

mod answered;
mod catalogue;
mod databases;
mod effects;
mod events;
mod exchanges;
mod json_columns;
mod links;
mod logins;
mod progress;
mod routines;
mod sends;
mod sites;
mod statuses;
mod triggers;
mod views;
mod wide_keys;

pub use answered::{
    a_table_is_told_with_its_engine, a_text_is_shown, all_rows_come,
    columns_are_asked_for_in_order, columns_are_told_with_their_types, each_schema_is_told,
    keys_are_skipped, no_position_is_shown, no_triggers_are_told,
    rows_come_in_the_order_of_the_key, rows_inside_the_bounds_come, the_key_is_told,
    the_last_position_is_shown, the_sign_of_plain_integers_is_told,
};
pub use catalogue::{
    a_counter_rises, a_number_at_the_counter_raises_it, a_number_is_under_its_counter,
    rows_and_counters_keep_the_catalogue,
};
pub use databases::{
    a_key_is_an_integer, a_position_has_a_file, no_two_rows_have_one_key,
    the_history_makes_the_database,
};
pub use effects::{
    a_commit_waits_for_the_read_lock, a_rollback_drops_the_transaction,
    a_schema_is_used_where_it_is_there, a_select_shows_the_snapshot,
    a_snapshot_shows_what_was_seen, a_table_is_made_in_the_current_schema,
    an_empty_transaction_ends_under_the_read_lock, an_err_breaks_off_an_answer,
    an_insert_is_committed_at_once, the_backup_lock_stops_a_create,
};
pub use events::{
    an_event_is_dropped, an_event_is_made_in_a_time_zone, an_event_is_shown_with_its_time_zone,
    events_are_listed, only_an_event_has_a_time_zone, the_text_of_utc_is_of_two_statements,
};
pub use exchanges::{
    a_command_is_answered_by_one_message, a_commit_is_answered_by_an_ok, a_login_is_taken,
    a_query_is_answered_by_its_rows, a_quit_isnt_answered, an_ok_ends_a_result_set,
    an_unknown_command_is_answered_by_an_err,
};
pub use json_columns::{
    a_json_cell_is_spelled_as_it_is_printed, json_texts_are_as_they_are_printed,
    no_other_cell_is_spelled_as_json,
};
pub use links::{
    a_failure_loses_nothing_by_halves, a_link_has_seen_its_own, a_link_holds_its_own,
    a_snapshot_shows_a_front, bytes_are_received, the_answer_waits,
    wide_keys_are_told_until_they_arent,
};
pub use logins::{a_login_is_turned_away, another_plugin_is_asked_for_once};
pub use progress::the_progress_is_kept;
pub use routines::{
    a_routine_is_shown_with_its_settings, routines_are_listed, settings_are_of_the_next_object,
};
pub use sends::{
    a_commit_makes_nothing, a_failed_link_sends_nothing, a_message_is_sent, a_message_is_whole,
    a_snapshot_shows_what_the_holder_has_seen, a_transaction_is_committed_alone,
    nothing_is_committed_beside_a_holder,
};
pub use sites::{
    a_grant_comes_first, a_greeting_is_of_its_server, a_new_link_has_seen_the_history,
    a_new_link_is_greeted, connecting_leaves_the_history, grants_are_prefixes_of_one_list,
    links_put_different_keys, the_history_is_told_once_all_are_back, two_links_side_by_side,
};
pub use statuses::{
    a_newer_server_has_the_new_status, a_newer_server_may_keep_the_old_status,
    an_older_server_has_the_old_status,
};
pub use triggers::{a_trigger_is_made_on_its_table, a_trigger_is_told, a_trigger_may_put_more};
pub use views::{a_view_is_shown_with_its_settings, what_a_view_needs_is_told};
pub use wide_keys::{
    a_wide_key_is_named_in_its_order, a_wide_key_may_stand_twice, bounds_are_compared_as_lists,
    rows_come_in_the_order_of_the_wide_key, wide_keys_are_skipped,
};

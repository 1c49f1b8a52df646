//! Laws of the statements that texts are read as: at most one each, and the text of a command or a
//! query as that command or query, or as the later one of the same text, which has the same form and at
//! an honest server the same effect or answer. Nothing here runs: the contracts are the laws, over the
//! data of `statement_forms` and `honest_server`.
#![tactic(auto)]

mod laws;

pub use laws::{
    a_command_is_read, a_command_is_read_as_nothing_else, a_query_is_read,
    a_query_is_read_as_nothing_else, a_statement_is_read, a_text_is_read_as_one_statement,
    the_effect_is_kept, the_form_is_kept, the_reply_is_kept,
};

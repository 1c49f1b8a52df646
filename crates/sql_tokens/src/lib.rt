//! Tokens of SQL texts, read one after another from the front of a text, and what is left after some
//! of them. No call takes memory.
#![tactic(auto)]

mod count;
mod token;

pub use count::{left_after, token_count};
pub use token::{
    Token, after_front_word, after_mark, after_word, next_token, past_gaps, past_spaces,
    past_token, token_size,
};

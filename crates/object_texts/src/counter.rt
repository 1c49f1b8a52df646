//! The counter of a table: the column with AUTO_INCREMENT, and the number that comes next.
ghost use Rattle.std.specs.Prelude.{◌≡◌, ◌<◌, ◌+◌, ◌-◌, ◌*◌, ◌^◌, length, min, position, option_map, IfSome};
ghost use Rattle.std.specs.List.{fold, take_while};
ghost use Rattle.plain_data.specs.Byte.{is_digit};
ghost use Rattle.object_forms.specs.Shape.{column_of, counter, counter_at, counter_found, counter_in, is_auto};
ghost use Rattle.object_texts.specs.Reading.{columns_in, table_counter, is_auto_column, column_items};
ghost use Rattle.object_forms.specs.Token.{tokens};

use crate::column::{column_of, has_word};
use crate::items::next_part;
use crate::key::is_digit;
use crate::table::{column_count_of, option_at, table_in};
use sql_tokens::{Token, next_token};

/// Which column of a table has AUTO_INCREMENT, and the number that comes next, at most 2^64.
#[derive(Clone, Copy, Debug, PartialEq, Eq)]
pub struct Counter {
    /// The first column with AUTO_INCREMENT, counted from 0.
    pub column: u32,
    /// The number after the first `AUTO_INCREMENT=` after the parenthesis, and 1 where there is none.
    pub next: u128,
}

const MOST: u128 = 0x1_0000_0000_0000_0000;

// The digits that a word begins with.
#[tactic(auto, using(sql_tokens::proofs::Quotes::prefixes))]
fn digits(word: &[u8]) -> &[u8]
    ensures { result.now ≡ take_while is_digit word.now }
{
    for i in 0..word.len() {
        if !is_digit(word[i]) {
            return word.split_at(i).0;
        }
    }
    word
}

// The number that digits spell, and 2^64 where it is greater.
#[tactic(auto, using(crate::proofs::Counters::numbers))]
fn number_of(digits: &[u8]) -> u128
    ensures { result ≡ min (fold (λ n digit. n * 10 + (digit - 48)) 0 digits.now) (2 ^ 64) }
{
    let mut number = 0;
    for digit in digits {
        number = MOST.min(number * 10 + u128::from(digit.saturating_sub(b'0')));
    }
    number
}

// The number at the front, and 1 where there is none.
fn counter_at(text: &[u8]) -> u128
    ensures { result ≡ counter_at (tokens text.now) }
{
    let Some((Token::Word(word), _)) = next_token(text) else {
        return 1;
    };
    let digits = digits(word);
    if digits.is_empty() {
        1
    } else {
        number_of(digits)
    }
}

// The number after `AUTO_INCREMENT=` at the front.
fn counter_found(text: &[u8]) -> Option<u128>
    ensures { result ≡ counter_found (tokens text.now) }
{
    Some(counter_at(option_at(b"auto_increment", text)?))
}

// The first one, and 1 where there is none.
fn counter_in(text: &[u8]) -> u128
    ensures { result ≡ counter_in (tokens text.now) }
{
    let mut rest = text;
    'tokens: while let Some((_, after)) = next_token(rest) {
        if let Some(number) = counter_found(rest) {
            return number;
        }
        rest = after;
    }
    1
}

// Whether an item is a column with AUTO_INCREMENT.
fn is_auto_column(item: &[u8]) -> bool
    ensures { result ≡ is_auto_column (column_of (tokens item.now)) }
{
    match column_of(item) {
        Some(column) => has_word(b"auto_increment", column.rest),
        None => false,
    }
}

// The first column with AUTO_INCREMENT.
#[tactic(auto, using(crate::proofs::Counters::places))]
fn auto_place(items: &[u8]) -> Option<usize>
    ensures place { result ≡ position is_auto (column_items items.now) }
    ensures within { IfSome result (λ place. place < length (columns_in items.now)) }
{
    let mut rest = items;
    let mut place = 0;
    'items: loop {
        let (item, left) = next_part(rest);
        if is_auto_column(item) {
            return Some(place);
        }
        place += column_count_of(item);
        let Some(after) = left else {
            return None;
        };
        rest = after;
    }
}

/// The counter of a table's text; `None` where the text has no shape or no column has
/// AUTO_INCREMENT. Takes no memory. (MySQL 8.0 Reference Manual, 5.6.9, 15.1.20.)
pub fn counter_of(text: &[u8]) -> Option<Counter>
    ensures { option_map table_counter result ≡ counter text.now }
{
    let table = table_in(text)?;
    let place = auto_place(table.items)?;
    Some(Counter {
        column: place as u32,
        next: counter_in(table.after),
    })
}

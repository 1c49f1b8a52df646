//! The pieces of a statement's text: their length, and how they are written.
ghost use Rattle.std.specs.Prelude.{◌≡◌, ◌+◌, ◌≤◌, ◌^◌, ◌++◌, length, decimal, OnOk, OnErr};
ghost use Rattle.std.specs.Fmt.{signed_decimal};
ghost use Rattle.std.specs.List.{flat_map};
ghost use Rattle.sql_cells.specs.Literal.{text_literal};
ghost use Rattle.sql_cells.specs.Name.{quoted_name};
ghost use Rattle.sql_literals.specs.Room.{TakesRoom};
ghost use Rattle.sql_statements.specs.Piece.{IsLength, piece_text, pieces_text, later_name, later_number};
ghost use Rattle.statement_forms.specs.Text.{by_key, by_keys, dotted, key_above, key_from, name_row, names, number_row, numbers, one_after, rows_from, wide_above, wide_up_to};

use itoa::Buffer as Digits;
use plain_data::{Buffer, OutOfMemory};
use sql_cells::CellKind;
use sql_literals::{cell_into, name_into, name_length, text_length_checked};
use statement_forms::{NumberRow, Part, PartList, WholeText};

// The words between the names of queries.
const SELECT: &[u8] = b"SELECT ";

const FROM: &[u8] = b" FROM ";

const WHERE: &[u8] = b" WHERE ";

const ABOVE: &[u8] = b" > ";

const AT_MOST: &[u8] = b" <= ";

const ORDER_BY: &[u8] = b" ORDER BY ";

const LIMIT: &[u8] = b" LIMIT ";

const ONE: &[u8] = b",1";

// A piece of a statement's text.
#[derive(Clone, Copy)]
pub(crate) enum Piece<'a> {
    // Bytes as they stand.
    Word(&'a [u8]),
    // A whole text.
    Whole(&'a WholeText<'a>),
    // A name between backquotes.
    Name(&'a Part<'a>),
    // A schema, a dot and a name, each between backquotes.
    Path(&'a Part<'a>, &'a Part<'a>),
    // A text between single quotes.
    Text(&'a Part<'a>),
    // A number.
    Signed(&'a i128),
    // What a query for rows begins with: the columns, the schema and the table.
    RowsFrom(&'a PartList<'a>, &'a Part<'a>, &'a Part<'a>),
    // What a query for a key begins with: the key, the schema and the table.
    KeyFrom(&'a Part<'a>, &'a Part<'a>, &'a Part<'a>),
    // The condition that a key is above a bound.
    Above(&'a Part<'a>, &'a i128),
    // The order of a key.
    ByKey(&'a Part<'a>),
    // The condition that a key of several columns is above a bound.
    WideAbove(&'a PartList<'a>, &'a NumberRow),
    // The condition that a key of several columns is at most a bound.
    WideUpTo(&'a PartList<'a>, &'a NumberRow),
    // The order of a key of several columns.
    ByKeys(&'a PartList<'a>),
    // The limit to one row after so many others.
    OneAfter(u64),
}

// Nothing, where a text has fewer pieces.
pub(crate) const END: Piece<'static> = Piece::Word(b"");

// One piece, and nothing after it.
pub(crate) fn one_piece<'a>(first: Piece<'a>) -> [Piece<'a>; 7]
    ensures { pieces_text result ≡ piece_text first.entry }
{
    [first, END, END, END, END, END, END]
}

// Two pieces, and nothing after them.
pub(crate) fn two_pieces<'a>(first: Piece<'a>, second: Piece<'a>) -> [Piece<'a>; 7]
    ensures { pieces_text result ≡ piece_text first.entry ++ piece_text second.entry }
{
    [first, second, END, END, END, END, END]
}

// Three pieces, and nothing after them.
pub(crate) fn three_pieces<'a>(
    first: Piece<'a>,
    second: Piece<'a>,
    third: Piece<'a>,
) -> [Piece<'a>; 7]
    ensures { pieces_text result ≡ piece_text first.entry ++ piece_text second.entry
        ++ piece_text third.entry }
{
    [first, second, third, END, END, END, END]
}

// Four pieces, and nothing after them.
pub(crate) fn four_pieces<'a>(
    first: Piece<'a>,
    second: Piece<'a>,
    third: Piece<'a>,
    fourth: Piece<'a>,
) -> [Piece<'a>; 7]
    ensures { pieces_text result ≡ piece_text first.entry ++ piece_text second.entry
        ++ piece_text third.entry ++ piece_text fourth.entry }
{
    [first, second, third, fourth, END, END, END]
}

// How many bytes the names after the first have, each after a comma.
#[tactic(auto, using(crate::proofs::Lengths::later_names_fit))]
fn later_names_length(names: &[Part<'_>]) -> Option<usize>
    ensures { IsLength result (flat_map later_name names.now) }
{
    let mut total = 0usize;
    for name in names {
        let length = name_length(name.bytes())?.checked_add(1)?;
        total = total.checked_add(length)?;
    }
    Some(total)
}

// How many bytes the names have, with commas between them, if that many can be counted.
fn names_length(parts: &[Part<'_>]) -> Option<usize>
    ensures { IsLength result (names parts.now) }
{
    let Some((first, later)) = parts.split_first() else {
        return Some(0);
    };
    name_length(first.bytes())?.checked_add(later_names_length(later)?)
}

// How many bytes the schema, the dot and the name have, if that many can be counted.
fn path_length(schema: &[u8], name: &[u8]) -> Option<usize>
    ensures { IsLength result (dotted schema.now name.now) }
{
    name_length(schema)?
        .checked_add(1)?
        .checked_add(name_length(name)?)
}

fn signed_length(number: i128) -> usize
    ensures value { result ≡ length (signed_decimal number) }
    ensures short { result ≤ 40 }
{
    Digits::new().format(number).len()
}

fn rows_from_length(columns: &[Part<'_>], schema: &[u8], table: &[u8]) -> Option<usize>
    ensures { IsLength result (rows_from columns.now schema.now table.now) }
{
    names_length(columns)?
        .checked_add(SELECT.len() + FROM.len())?
        .checked_add(path_length(schema, table)?)
}

fn key_from_length(key: &[u8], schema: &[u8], table: &[u8]) -> Option<usize>
    ensures { IsLength result (key_from key.now schema.now table.now) }
{
    name_length(key)?
        .checked_add(SELECT.len() + FROM.len())?
        .checked_add(path_length(schema, table)?)
}

fn above_length(key: &[u8], bound: i128) -> Option<usize>
    ensures { IsLength result (key_above key.now bound) }
{
    name_length(key)?.checked_add(WHERE.len() + ABOVE.len() + signed_length(bound))
}

fn by_key_length(key: &[u8]) -> Option<usize>
    ensures { IsLength result (by_key key.now) }
{
    name_length(key)?.checked_add(ORDER_BY.len())
}

// How many bytes a number has after a comma.
fn later_number_length(number: &i128) -> usize
    ensures { result ≡ length (later_number number.now) }
{
    1 + signed_length(*number)
}

// How many bytes the numbers after the first have, each after a comma.
#[tactic(auto, using(crate::proofs::Lengths::later_numbers_fit))]
fn later_numbers_length(numbers: &[i128]) -> Option<usize>
    ensures { IsLength result (flat_map later_number numbers.now) }
{
    let mut total = 0usize;
    for number in numbers {
        total = total.checked_add(later_number_length(number))?;
    }
    Some(total)
}

// How many bytes the numbers have, with commas between them, if that many can be counted.
fn numbers_length(row: &[i128]) -> Option<usize>
    ensures { IsLength result (numbers row.now) }
{
    let Some((first, later)) = row.split_first() else {
        return Some(0);
    };
    signed_length(*first).checked_add(later_numbers_length(later)?)
}

// How many bytes the names have in parentheses, if that many can be counted.
fn name_row_length(keys: &[Part<'_>]) -> Option<usize>
    ensures { IsLength result (name_row keys.now) }
{
    names_length(keys)?.checked_add(2)
}

// How many bytes the numbers have in parentheses, if that many can be counted.
fn number_row_length(row: &[i128]) -> Option<usize>
    ensures { IsLength result (number_row row.now) }
{
    numbers_length(row)?.checked_add(2)
}

fn wide_above_length(keys: &[Part<'_>], bound: &[i128]) -> Option<usize>
    ensures { IsLength result (wide_above keys.now bound.now) }
{
    name_row_length(keys)?
        .checked_add(ABOVE.len())?
        .checked_add(number_row_length(bound)?)
}

fn wide_up_to_length(keys: &[Part<'_>], bound: &[i128]) -> Option<usize>
    ensures { IsLength result (wide_up_to keys.now bound.now) }
{
    name_row_length(keys)?
        .checked_add(AT_MOST.len())?
        .checked_add(number_row_length(bound)?)
}

fn by_keys_length(keys: &[Part<'_>]) -> Option<usize>
    ensures { IsLength result (by_keys keys.now) }
{
    names_length(keys)?.checked_add(ORDER_BY.len())
}

fn one_after_length(skipped: u64) -> usize
    ensures { result ≡ length (one_after skipped) }
{
    LIMIT.len() + Digits::new().format(skipped).len() + ONE.len()
}

// How many bytes the piece has, if that many can be counted.
fn piece_length(piece: &Piece<'_>) -> Option<usize>
    ensures { IsLength result (piece_text piece.now) }
{
    match piece {
        Piece::Word(bytes) => Some(bytes.len()),
        Piece::Whole(text) => Some(text.bytes().len()),
        Piece::Name(part) => name_length(part.bytes()),
        Piece::Path(schema, name) => path_length(schema.bytes(), name.bytes()),
        Piece::Text(part) => text_length_checked(part.bytes()),
        Piece::Signed(number) => Some(signed_length(**number)),
        Piece::RowsFrom(columns, schema, table) => {
            rows_from_length(columns.as_slice(), schema.bytes(), table.bytes())
        }
        Piece::KeyFrom(key, schema, table) => {
            key_from_length(key.bytes(), schema.bytes(), table.bytes())
        }
        Piece::Above(key, bound) => above_length(key.bytes(), **bound),
        Piece::ByKey(key) => by_key_length(key.bytes()),
        Piece::WideAbove(keys, bound) => wide_above_length(keys.as_slice(), bound.numbers()),
        Piece::WideUpTo(keys, bound) => wide_up_to_length(keys.as_slice(), bound.numbers()),
        Piece::ByKeys(keys) => by_keys_length(keys.as_slice()),
        Piece::OneAfter(skipped) => Some(one_after_length(*skipped)),
    }
}

// How many bytes the pieces have, if that many can be counted.
#[tactic(auto, using(crate::proofs::Lengths::pieces_fit))]
fn pieces_length(pieces: &[Piece<'_>]) -> Option<usize>
    ensures { IsLength result (flat_map piece_text pieces.now) }
{
    let mut total = 0usize;
    for piece in pieces {
        total = total.checked_add(piece_length(piece)?)?;
    }
    Some(total)
}

// Appends a name between backquotes.
fn push_name(name: &[u8], out: &mut Buffer)
    requires { length (quoted_name name.now) ≤ out.old.spare }
    ensures bytes { out.new.bytes ≡ out.old.bytes ++ quoted_name name.now }
    ensures spare { out.new.spare + length (quoted_name name.now) ≡ out.old.spare }
{
    let _ = name_into(name, out);
}

// Appends a name after a comma.
fn push_later_name(name: &[u8], out: &mut Buffer)
    requires { length (later_name name.now) ≤ out.old.spare }
    ensures bytes { out.new.bytes ≡ out.old.bytes ++ later_name name.now }
    ensures spare { out.new.spare + length (later_name name.now) ≡ out.old.spare }
{
    out.push_byte(b',');
    push_name(name, out);
}

// Appends names, each after a comma.
#[tactic(auto, using(crate::proofs::Lengths::later_names_fit))]
fn push_later_names(names: &[Part<'_>], out: &mut Buffer)
    requires { length (flat_map later_name names.now) ≤ out.old.spare }
    ensures bytes { out.new.bytes ≡ out.old.bytes ++ flat_map later_name names.now }
    ensures spare { out.new.spare + length (flat_map later_name names.now) ≡ out.old.spare }
{
    for name in names {
        push_later_name(name.bytes(), out);
    }
}

// Appends names with commas between them.
fn push_names(parts: &[Part<'_>], out: &mut Buffer)
    requires { length (names parts.now) ≤ out.old.spare }
    ensures bytes { out.new.bytes ≡ out.old.bytes ++ names parts.now }
    ensures spare { out.new.spare + length (names parts.now) ≡ out.old.spare }
{
    if let Some((first, later)) = parts.split_first() {
        push_name(first.bytes(), out);
        push_later_names(later, out);
    }
}

// Appends a schema, a dot and a name, each between backquotes.
fn push_path(schema: &[u8], name: &[u8], out: &mut Buffer)
    requires { length (dotted schema.now name.now) ≤ out.old.spare }
    ensures bytes { out.new.bytes ≡ out.old.bytes ++ dotted schema.now name.now }
    ensures spare { out.new.spare + length (dotted schema.now name.now) ≡ out.old.spare }
{
    push_name(schema, out);
    out.push_byte(b'.');
    push_name(name, out);
}

// Appends a text between single quotes.
fn push_text(text: &[u8], out: &mut Buffer)
    requires { length (text_literal text.now) ≤ out.old.spare }
    ensures bytes { out.new.bytes ≡ out.old.bytes ++ text_literal text.now }
    ensures spare { out.new.spare + length (text_literal text.now) ≡ out.old.spare }
{
    let _ = cell_into(CellKind::Text, Some(text), out);
}

fn push_signed(number: i128, out: &mut Buffer)
    requires { length (signed_decimal number) ≤ out.old.spare }
    ensures bytes { out.new.bytes ≡ out.old.bytes ++ signed_decimal number }
    ensures spare { out.new.spare + length (signed_decimal number) ≡ out.old.spare }
{
    out.push(Digits::new().format(number).as_bytes());
}

fn push_rows_from(columns: &[Part<'_>], schema: &[u8], table: &[u8], out: &mut Buffer)
    requires { length (rows_from columns.now schema.now table.now) ≤ out.old.spare }
    ensures bytes { out.new.bytes ≡ out.old.bytes ++ rows_from columns.now schema.now table.now }
    ensures spare { out.new.spare + length (rows_from columns.now schema.now table.now)
        ≡ out.old.spare }
{
    out.push(SELECT);
    push_names(columns, out);
    out.push(FROM);
    push_path(schema, table, out);
}

fn push_key_from(key: &[u8], schema: &[u8], table: &[u8], out: &mut Buffer)
    requires { length (key_from key.now schema.now table.now) ≤ out.old.spare }
    ensures bytes { out.new.bytes ≡ out.old.bytes ++ key_from key.now schema.now table.now }
    ensures spare { out.new.spare + length (key_from key.now schema.now table.now) ≡ out.old.spare }
{
    out.push(SELECT);
    push_name(key, out);
    out.push(FROM);
    push_path(schema, table, out);
}

fn push_above(key: &[u8], bound: i128, out: &mut Buffer)
    requires { length (key_above key.now bound) ≤ out.old.spare }
    ensures bytes { out.new.bytes ≡ out.old.bytes ++ key_above key.now bound }
    ensures spare { out.new.spare + length (key_above key.now bound) ≡ out.old.spare }
{
    out.push(WHERE);
    push_name(key, out);
    out.push(ABOVE);
    push_signed(bound, out);
}

fn push_by_key(key: &[u8], out: &mut Buffer)
    requires { length (by_key key.now) ≤ out.old.spare }
    ensures bytes { out.new.bytes ≡ out.old.bytes ++ by_key key.now }
    ensures spare { out.new.spare + length (by_key key.now) ≡ out.old.spare }
{
    out.push(ORDER_BY);
    push_name(key, out);
}

// Appends a number.
fn push_number(number: &i128, out: &mut Buffer)
    requires { length (signed_decimal number.now) ≤ out.old.spare }
    ensures bytes { out.new.bytes ≡ out.old.bytes ++ signed_decimal number.now }
    ensures spare { out.new.spare + length (signed_decimal number.now) ≡ out.old.spare }
{
    push_signed(*number, out);
}

// Appends a number after a comma.
fn push_later_number(number: &i128, out: &mut Buffer)
    requires { length (later_number number.now) ≤ out.old.spare }
    ensures bytes { out.new.bytes ≡ out.old.bytes ++ later_number number.now }
    ensures spare { out.new.spare + length (later_number number.now) ≡ out.old.spare }
{
    out.push_byte(b',');
    push_number(number, out);
}

// Appends numbers, each after a comma.
#[tactic(auto, using(crate::proofs::Lengths::later_numbers_fit))]
fn push_later_numbers(numbers: &[i128], out: &mut Buffer)
    requires { length (flat_map later_number numbers.now) ≤ out.old.spare }
    ensures bytes { out.new.bytes ≡ out.old.bytes ++ flat_map later_number numbers.now }
    ensures spare { out.new.spare + length (flat_map later_number numbers.now) ≡ out.old.spare }
{
    for number in numbers {
        push_later_number(number, out);
    }
}

// Appends numbers with commas between them.
fn push_numbers(row: &[i128], out: &mut Buffer)
    requires { length (numbers row.now) ≤ out.old.spare }
    ensures bytes { out.new.bytes ≡ out.old.bytes ++ numbers row.now }
    ensures spare { out.new.spare + length (numbers row.now) ≡ out.old.spare }
{
    if let Some((first, later)) = row.split_first() {
        push_number(first, out);
        push_later_numbers(later, out);
    }
}

// Appends names in parentheses.
fn push_name_row(keys: &[Part<'_>], out: &mut Buffer)
    requires { length (name_row keys.now) ≤ out.old.spare }
    ensures bytes { out.new.bytes ≡ out.old.bytes ++ name_row keys.now }
    ensures spare { out.new.spare + length (name_row keys.now) ≡ out.old.spare }
{
    out.push_byte(b'(');
    push_names(keys, out);
    out.push_byte(b')');
}

// Appends numbers in parentheses.
fn push_number_row(row: &[i128], out: &mut Buffer)
    requires { length (number_row row.now) ≤ out.old.spare }
    ensures bytes { out.new.bytes ≡ out.old.bytes ++ number_row row.now }
    ensures spare { out.new.spare + length (number_row row.now) ≡ out.old.spare }
{
    out.push_byte(b'(');
    push_numbers(row, out);
    out.push_byte(b')');
}

fn push_wide_above(keys: &[Part<'_>], bound: &[i128], out: &mut Buffer)
    requires { length (wide_above keys.now bound.now) ≤ out.old.spare }
    ensures bytes { out.new.bytes ≡ out.old.bytes ++ wide_above keys.now bound.now }
    ensures spare { out.new.spare + length (wide_above keys.now bound.now) ≡ out.old.spare }
{
    push_name_row(keys, out);
    out.push(ABOVE);
    push_number_row(bound, out);
}

fn push_wide_up_to(keys: &[Part<'_>], bound: &[i128], out: &mut Buffer)
    requires { length (wide_up_to keys.now bound.now) ≤ out.old.spare }
    ensures bytes { out.new.bytes ≡ out.old.bytes ++ wide_up_to keys.now bound.now }
    ensures spare { out.new.spare + length (wide_up_to keys.now bound.now) ≡ out.old.spare }
{
    push_name_row(keys, out);
    out.push(AT_MOST);
    push_number_row(bound, out);
}

fn push_by_keys(keys: &[Part<'_>], out: &mut Buffer)
    requires { length (by_keys keys.now) ≤ out.old.spare }
    ensures bytes { out.new.bytes ≡ out.old.bytes ++ by_keys keys.now }
    ensures spare { out.new.spare + length (by_keys keys.now) ≡ out.old.spare }
{
    out.push(ORDER_BY);
    push_names(keys, out);
}

fn push_one_after(skipped: u64, out: &mut Buffer)
    requires { length (one_after skipped) ≤ out.old.spare }
    ensures bytes { out.new.bytes ≡ out.old.bytes ++ one_after skipped }
    ensures spare { out.new.spare + length (one_after skipped) ≡ out.old.spare }
{
    out.push(LIMIT);
    out.push(Digits::new().format(skipped).as_bytes());
    out.push(ONE);
}

// Appends a piece.
fn push_piece(piece: &Piece<'_>, out: &mut Buffer)
    requires { length (piece_text piece.now) ≤ out.old.spare }
    ensures bytes { out.new.bytes ≡ out.old.bytes ++ piece_text piece.now }
    ensures spare { out.new.spare + length (piece_text piece.now) ≡ out.old.spare }
{
    match piece {
        Piece::Word(bytes) => out.push(bytes),
        Piece::Whole(text) => out.push(text.bytes()),
        Piece::Name(part) => push_name(part.bytes(), out),
        Piece::Path(schema, name) => push_path(schema.bytes(), name.bytes(), out),
        Piece::Text(part) => push_text(part.bytes(), out),
        Piece::Signed(number) => push_signed(**number, out),
        Piece::RowsFrom(columns, schema, table) => {
            push_rows_from(columns.as_slice(), schema.bytes(), table.bytes(), out)
        }
        Piece::KeyFrom(key, schema, table) => {
            push_key_from(key.bytes(), schema.bytes(), table.bytes(), out)
        }
        Piece::Above(key, bound) => push_above(key.bytes(), **bound, out),
        Piece::ByKey(key) => push_by_key(key.bytes(), out),
        Piece::WideAbove(keys, bound) => push_wide_above(keys.as_slice(), bound.numbers(), out),
        Piece::WideUpTo(keys, bound) => push_wide_up_to(keys.as_slice(), bound.numbers(), out),
        Piece::ByKeys(keys) => push_by_keys(keys.as_slice(), out),
        Piece::OneAfter(skipped) => push_one_after(*skipped, out),
    }
}

// Appends pieces.
#[tactic(auto, using(crate::proofs::Lengths::pieces_fit))]
fn push_pieces(pieces: &[Piece<'_>], out: &mut Buffer)
    requires { length (flat_map piece_text pieces.now) ≤ out.old.spare }
    ensures bytes { out.new.bytes ≡ out.old.bytes ++ flat_map piece_text pieces.now }
    ensures spare { out.new.spare + length (flat_map piece_text pieces.now) ≡ out.old.spare }
{
    for piece in pieces {
        push_piece(piece, out);
    }
}

// Appends the pieces one after the other. It is refused only for want of memory, and leaves the
// buffer as it was then. Where the room is there it takes no memory.
#[tactic(auto, using(crate::proofs::Lengths::pieces_text_is))]
pub(crate) fn pieces_into(pieces: &[Piece<'_>], out: &mut Buffer) -> Result<(), OutOfMemory>
    ensures ok { OnOk result (out.new.bytes ≡ out.old.bytes ++ pieces_text pieces.now) }
    ensures err { OnErr result (out.new ≡ out.old) }
    ensures room { TakesRoom result out.old.spare out.new.spare (pieces_text pieces.now) }
{
    let _spare = out.spare();
    let Some(length) = pieces_length(pieces) else {
        return Err(OutOfMemory);
    };
    out.reserve(length)?;
    push_pieces(pieces, out);
    Ok(())
}

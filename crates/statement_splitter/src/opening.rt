//! What begins between statements.
ghost use Rattle.std.specs.Prelude.{◌≡◌, ◌≤◌, length};
ghost use Rattle.std.specs.List.{prefix_len};
ghost use Rattle.splitter_forms.specs.Pieces.{begins, is_front_of, is_dollar, delimiter_line, line_opening, dash_opening, slash_opening, opening};

use splitter_forms::{CommentEnd, Delimiter, Opening};

fn begins(word: &[u8], bytes: &[u8]) -> bool
    ensures { result ≡ begins word.now bytes.now }
{
    bytes.starts_with(word)
}

fn is_front_of(word: &[u8], bytes: &[u8]) -> bool
    ensures { result ≡ is_front_of word.now bytes.now }
{
    word.starts_with(bytes) && bytes.len() < word.len()
}

// How many dollars stand in front.
pub(crate) fn dollar_count(bytes: &[u8]) -> usize
    ensures count { result ≡ prefix_len is_dollar bytes.now }
    ensures within { result ≤ length bytes.now }
{
    for i in 0..bytes.len() {
        if bytes[i] != b'$' {
            return i;
        }
    }
    bytes.len()
}

fn delimiter_line(bytes: &[u8]) -> Opening
    ensures { result ≡ delimiter_line bytes.now }
{
    if begins(b";\n", bytes) {
        return Opening::DelimiterLine(12, Delimiter::Semicolon);
    }
    if is_front_of(b";\n", bytes) {
        return Opening::Undecided;
    }
    let dollars = dollar_count(bytes);
    match &bytes[dollars..] {
        [] => Opening::Undecided,
        [b'\n', ..] if dollars >= 2 => {
            Opening::DelimiterLine(11 + dollars, Delimiter::Dollars(dollars))
        }
        _ => Opening::Statement,
    }
}

fn line_opening(bytes: &[u8]) -> Opening
    ensures { result ≡ line_opening bytes.now }
{
    if begins(b"DELIMITER ", bytes) {
        return delimiter_line(&bytes[10..]);
    }
    if is_front_of(b"DELIMITER ", bytes) {
        return Opening::Undecided;
    }
    Opening::Statement
}

fn dash_opening(bytes: &[u8]) -> Opening
    ensures { result ≡ dash_opening bytes.now }
{
    if begins(b"- ", bytes) {
        return Opening::Comment(3, CommentEnd::LineFeed);
    }
    if is_front_of(b"- ", bytes) {
        return Opening::Undecided;
    }
    Opening::Statement
}

fn slash_opening(bytes: &[u8]) -> Opening
    ensures { result ≡ slash_opening bytes.now }
{
    match bytes {
        [] => Opening::Undecided,
        [b'*', b'!', ..] => Opening::Statement,
        [b'*', ..] => Opening::Comment(2, CommentEnd::StarSlash),
        _ => Opening::Statement,
    }
}

pub(crate) fn opening_of(fresh: bool, bytes: &[u8]) -> Opening
    ensures { result ≡ opening fresh bytes.now }
{
    let Some((first, after)) = bytes.split_first() else {
        return Opening::Nothing;
    };
    match *first {
        b' ' | b'\t' | b'\n' | b'\r' => Opening::White,
        b'#' => Opening::Comment(1, CommentEnd::LineFeed),
        b'-' => dash_opening(after),
        b'/' => slash_opening(after),
        _ if fresh => line_opening(bytes),
        _ => Opening::Statement,
    }
}

//! The words of a command line.
ghost use Rattle.std.specs.Prelude.{◌≡◌, Some, None, MatchOption};
ghost use Rattle.std.specs.List.{list_all};
ghost use Rattle.dumper_cli.specs.AskedBy.{asked_by};
ghost use Rattle.dumper_cli.specs.Words.{is_name_byte, is_plain_word, is_free_word, are_options, is_password, are_words, without_password, with_password, asked_of};

use plain_data::{Name, NameList};

/// What a command line asks for, lent out of its words.
#[derive(Clone, Copy)]
pub struct Words<'a> {
    pub user: &'a Name,
    /// Empty where none is given.
    pub password: &'a [u8],
    pub schema: &'a Name,
    pub table: &'a Name,
    pub path: &'a Name,
}

// A letter, a digit or `_` of ASCII.
fn is_word_byte(byte: u8) -> bool
    ensures { result ≡ is_name_byte byte }
{
    matches!(byte, b'a'..=b'z' | b'A'..=b'Z' | b'0'..=b'9' | b'_')
}

fn are_word_bytes(bytes: &[u8]) -> bool
    ensures { result ≡ list_all is_name_byte bytes.now }
{
    bytes.iter().all(|byte| is_word_byte(*byte))
}

// One to a hundred letters, digits and `_`.
fn is_plain_word(word: &Name) -> bool
    ensures { result ≡ is_plain_word word.now }
{
    let bytes = word.as_slice();
    1 <= bytes.len() && bytes.len() <= 100 && are_word_bytes(bytes)
}

// A password or a path isn't empty and doesn't begin with `-`.
fn is_free_word(word: &Name) -> bool
    ensures { result ≡ is_free_word word.now }
{
    match word.as_slice() {
        [] => false,
        [byte, ..] => *byte != b'-',
    }
}

fn are_options(user: &Name, schema: &Name, table: &Name, path: &Name) -> bool
    ensures { result ≡ are_options user.now schema.now table.now path.now }
{
    user.as_str() == "-u"
        && schema.as_str() == "-B"
        && table.as_str() == "-T"
        && path.as_str() == "-o"
}

// The option of a password, and the password.
fn is_password(option: &Name, password: &Name) -> bool
    ensures { result ≡ is_password option.now password.now }
{
    option.as_str() == "-p" && is_free_word(password)
}

// Each word has its form.
fn are_words(words: &Words<'_>) -> bool
    ensures { result ≡ are_words (asked_by words.now) }
{
    is_plain_word(words.user)
        && is_plain_word(words.schema)
        && is_plain_word(words.table)
        && is_free_word(words.path)
}

// The eight words without a password.
fn without_password(words: &[Name]) -> Option<Words<'_>>
    ensures { MatchOption result (without_password words.now ≡ None)
        (λ found. without_password words.now ≡ Some (asked_by found)) }
{
    let [a, user, b, schema, c, table, d, path] = words else {
        return None;
    };
    let found = Words {
        user,
        password: &[],
        schema,
        table,
        path,
    };
    if are_options(a, b, c, d) && are_words(&found) {
        return Some(found);
    }
    None
}

// The ten words with one.
fn with_password(words: &[Name]) -> Option<Words<'_>>
    ensures { MatchOption result (with_password words.now ≡ None)
        (λ found. with_password words.now ≡ Some (asked_by found)) }
{
    let [a, user, p, password, b, schema, c, table, d, path] = words else {
        return None;
    };
    let found = Words {
        user,
        password: password.as_slice(),
        schema,
        table,
        path,
    };
    if are_options(a, b, c, d) && is_password(p, password) && are_words(&found) {
        return Some(found);
    }
    None
}

/// Reads the words of a command line: exactly the eight words `-u USER -B SCHEMA -T TABLE -o PATH`, or
/// ten with `-p PASSWORD` after the user. User, schema and table are one to a hundred ASCII letters,
/// digits and `_`; the password and the path aren't empty and don't begin with `-`. `None` exactly
/// where the words are others. Takes no memory.
pub fn read_words(words: &NameList) -> Option<Words<'_>>
    ensures { MatchOption result (asked_of words.now ≡ None)
        (λ found. asked_of words.now ≡ Some (asked_by found)) }
{
    let words = words.as_slice();
    match without_password(words) {
        Some(found) => Some(found),
        None => with_password(words),
    }
}

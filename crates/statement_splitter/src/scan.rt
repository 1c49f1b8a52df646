//! Where a statement ends.
ghost use Rattle.std.specs.Prelude.{◌≡◌, ◌≤◌, length};
ghost use Rattle.statement_splitter.specs.State.{SearchesEnd};
ghost use Rattle.splitter_forms.specs.declared.delimiter.Delimiter.TheVariants.{Semicolon};

use crate::mark::{Mark, mark_from};
use crate::runs::plain_until;
use crate::within::{after_byte, is_end};
use splitter_forms::{Delimiter, Within};

// What a search for the end of a statement found.
#[derive(Clone, Copy)]
pub(crate) enum Scan {
    // The place of what ends it.
    Ended(usize),
    // None, and the place from which on a search goes on, and where the byte there stands.
    Open(usize, Within),
}

// Where the statement ends by a semicolon, whose byte at `from` stands there.
fn semicolon_from(bytes: &[u8], from: usize, within: Within) -> Scan
    requires { from ≤ length bytes.now }
    ensures { SearchesEnd Semicolon within bytes.now from result }
{
    let mut at = from;
    let mut within = within;
    'bytes: loop {
        at = plain_until(bytes, at, within);
        if at == bytes.len() {
            return Scan::Open(at, within);
        }
        let byte = bytes[at];
        if is_end(within, byte) {
            return Scan::Ended(at);
        }
        within = after_byte(within, byte);
        at += 1;
    }
}

// Where the statement ends, whose byte at `from` stands there.
pub(crate) fn end_from(bytes: &[u8], from: usize, ending: Delimiter, within: Within) -> Scan
    requires { from ≤ length bytes.now }
    ensures { SearchesEnd ending within bytes.now from result }
{
    match ending {
        Delimiter::Semicolon => semicolon_from(bytes, from, within),
        Delimiter::Dollars(dollars) => match mark_from(bytes, from, b'\n', dollars, b'\n') {
            Mark::Ended(to) => Scan::Ended(to),
            Mark::Open(to) => Scan::Open(to, within),
        },
    }
}

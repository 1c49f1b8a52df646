//! Times, as seconds since 1970 and as texts.
ghost use Rattle.std.specs.Prelude.{◌≡◌, ◌≢◌, ◌+◌, ◌*◌, ◌<◌, ◌≤◌, ◌++◌, length, pos, OnOk, IfOk, MatchOption};
ghost use Rattle.jiff_core.specs.Date.{epoch_day};
ghost use Rattle.folder_forms.specs.Metadata.{IsMoment, IsTimeText, moment_seconds, moment_text, two_digits, year_9999};
ghost use Rattle.metadata_ini.specs.Time.{digit_value, pair_value, moment_in, IsDay, IsNoDay, IsMomentAt, AppendsTime, IsNoTime};

use crate::spelling::{append, is_same};
use folder_forms::Moment;
use jiff_core::civil::Date;
use plain_data::{Buffer, OutOfMemory};

// A number in two digits.
fn two_digits(number: u8) -> [u8; 2]
    requires { number < 100 }
    ensures { result ≡ two_digits number }
{
    [number / 10 + b'0', number % 10 + b'0']
}

// The text of a moment.
fn moment_text(moment: Moment) -> [u8; 20]
    requires { IsMoment moment }
    ensures { result ≡ moment_text moment }
{
    let [y0, y1] = two_digits((moment.year / 100) as u8);
    let [y2, y3] = two_digits((moment.year % 100) as u8);
    let [m0, m1] = two_digits(moment.month);
    let [d0, d1] = two_digits(moment.day);
    let [h0, h1] = two_digits(moment.hour);
    let [n0, n1] = two_digits(moment.minute);
    let [s0, s1] = two_digits(moment.second);
    [
        y0, y1, y2, y3, b'-', m0, m1, b'-', d0, d1, b'T', h0, h1, b':', n0, n1, b':', s0, s1, b'Z',
    ]
}

// The moment that is so many seconds after 1970 began.
fn moment_at(seconds: u64) -> Moment
    requires { seconds < year_9999 }
    ensures { IsMomentAt result seconds }
{
    let of_day = seconds % 86400;
    match Date::from_unix_epoch_day((seconds / 86400) as i64) {
        Ok(date) => Moment {
            year: date.year as u16,
            month: date.month,
            day: date.day,
            hour: (of_day / 3600) as u8,
            minute: (of_day / 60 % 60) as u8,
            second: (of_day % 60) as u8,
        },
        Err(_) => unreachable!(),
    }
}

/// Appends a time.
pub(crate) fn append_time(seconds: u64, out: &mut Buffer) -> Result<(), OutOfMemory>
    requires { seconds < year_9999 }
    ensures { OnOk result (AppendsTime out.old.bytes out.new.bytes seconds) }
{
    append(&moment_text(moment_at(seconds)), out)
}

// The value of a digit, and 10 for what is none.
fn digit_value(byte: u8) -> u8
    ensures value { result ≡ digit_value byte }
    ensures low { result ≤ 10 }
{
    if b'0' <= byte && byte <= b'9' {
        byte - b'0'
    } else {
        10
    }
}

// The value of the two digits that stand there.
fn pair_value(text: &[u8], at: usize) -> u8
    requires { at + 1 < length text.now }
    ensures value { result ≡ pair_value text.now at }
    ensures low { result ≤ 110 }
{
    digit_value(text[at]) * 10 + digit_value(text[at + 1])
}

// The moment whose text this is, if it is the text of one.
fn moment_in(text: &[u8]) -> Moment
    requires { length text.now ≡ 20 }
    ensures { result ≡ moment_in text.now }
{
    Moment {
        year: pair_value(text, 0) as u16 * 100 + pair_value(text, 2) as u16,
        month: pair_value(text, 5),
        day: pair_value(text, 8),
        hour: pair_value(text, 11),
        minute: pair_value(text, 14),
        second: pair_value(text, 17),
    }
}

// The day number of a date of the years 1970 to 9998.
fn day_number(year: u16, month: u8, day: u8) -> Option<u32>
    ensures { MatchOption result (IsNoDay year month day) (IsDay year month day) }
{
    if year < 1970 || year > 9998 || month > 12 || day > 31 {
        return None;
    }
    let Ok(date) = Date::new(year as i16, month as i8, day as i8) else {
        return None;
    };
    Some(date.to_unix_epoch_day() as u32)
}

// How many seconds after 1970 began a moment is.
fn seconds_of(moment: Moment) -> Option<u64>
    ensures { MatchOption result (¬ IsMoment moment) (IsMomentAt moment) }
{
    if moment.hour >= 24 || moment.minute >= 60 || moment.second >= 60 {
        return None;
    }
    let Some(day) = day_number(moment.year, moment.month, moment.day) else {
        return None;
    };
    let of_day = moment.hour as u64 * 3600 + moment.minute as u64 * 60 + moment.second as u64;
    Some(day as u64 * 86400 + of_day)
}

/// The time that is written so.
pub(crate) fn read_time(text: &[u8]) -> Option<u64>
    ensures { MatchOption result (IsNoTime text.now) (IsTimeText text.now) }
{
    if text.len() != 20 {
        return None;
    }
    let moment = moment_in(text);
    let Some(seconds) = seconds_of(moment) else {
        return None;
    };
    if is_same(text, &moment_text(moment)) {
        Some(seconds)
    } else {
        None
    }
}

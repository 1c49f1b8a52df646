//! Cases of the sink and of the clock.

use crate::words::{first_word, said};
use link_traits::{Clock, ClockFailed, Sink};
use std::alloc::Global;
use std::fs::File;
use std::io::{ErrorKind, Write};
use std::time::Duration;
use std::{io, time};
use system_outside::{ErrSink, SystemClock};

/// What comes of a report on standard error, or in a file.
pub fn answer_sink(rt: HostRuntime, call: &str, words: &str) -> io::Result<String> {
    let alloc = rt.alloc();
    match call {
        "stderr" => report(alloc, ErrSink::new(rt.stderr()), words),
        "file" => {
            let (path, words) = first_word(words);
            report(alloc, ErrSink::new(File::create(&rt, path)?), words)
        }
        _ => said(alloc, "no call"),
    }
}

// What comes of these words, and of a full stop.
fn report<W: Write + Drop>(alloc: Global, to: ErrSink<W>, words: &str) -> io::Result<String> {
    let mut sink = to;
    let first = sink.write(words.as_bytes()).is_ok();
    let second = sink.write(b".").is_ok();
    let faults = sink.faults();
    Ok(format!(in alloc; "{first}, {second}, {faults} faults")?)
}

// A clock that stands still, or is broken.
#[derive(Drop)]
struct Fixed(Option<u64>);

impl time::Clock for Fixed {
    fn monotonic(&self) -> io::Result<Duration> {
        self.since_1970()
    }

    fn since_1970(&self) -> io::Result<Duration> {
        let seconds = self.0.ok_or(io::Error::from(ErrorKind::Other))?;
        Ok(Duration::from_secs(seconds))
    }
}

/// What a clock tells that stands at this second, or is broken, or that of the system.
pub fn answer_clock(rt: HostRuntime, call: &str) -> io::Result<String> {
    match call {
        "system" => time_of_system(rt),
        _ => time_of(rt.alloc(), SystemClock::new(Fixed(call.parse().ok()))),
    }
}

fn time_of(alloc: Global, clock: SystemClock<Fixed>) -> io::Result<String> {
    let mut clock = clock;
    let moment = clock.now();
    let faults = clock.faults();
    match moment {
        Ok(moment) => Ok(format!(in alloc; "{moment}, {faults} faults")?),
        Err(ClockFailed) => Ok(format!(in alloc; "failed, {faults} faults")?),
    }
}

fn time_of_system(rt: HostRuntime) -> io::Result<String> {
    // The start of 2024.
    let is_later = match SystemClock::new(rt).now() {
        Ok(moment) => moment > 1_704_067_200,
        Err(ClockFailed) => false,
    };
    said(
        rt.alloc(),
        if is_later {
            "later than 2023"
        } else {
            "failed"
        },
    )
}

//! Cases of a link over TCP or over a wire.
ghost use Rattle.std.specs.Prelude.{◌≡◌, ◌<◌, length};

use crate::wire::Wire;
use crate::words::{bytes_of, digits, first_word, number_of, said, said_of, spelled};
use link_traits::{Link, LinkFailed};
use std::alloc::Global;
use std::io;
use std::io::{Read, Write};
use system_outside::TcpLink;

/// What comes of a call of a link.
pub fn answer_link<S: Read + Write + Drop>(
    alloc: Global,
    link: &mut TcpLink<S>,
    call: &str,
    words: &str,
) -> io::Result<String> {
    match call {
        "send" => send(alloc, link, words),
        "recv" => receive(alloc, link, words),
        "fill" => fill(alloc, link, words),
        "faults" => digits(alloc, link.faults()),
        _ => said(alloc, "no call"),
    }
}

fn send<S: Read + Write + Drop>(
    alloc: Global,
    link: &mut TcpLink<S>,
    words: &str,
) -> io::Result<String> {
    let message = bytes_of(alloc, words)?;
    said_of(alloc, link.send(&message).is_ok(), "sent")
}

// What a `recv` into so many bytes gives.
fn receive<S: Read + Write + Drop>(
    alloc: Global,
    link: &mut TcpLink<S>,
    words: &str,
) -> io::Result<String> {
    let mut buffer = vec![in alloc; 0; room(words)]?;
    match received(link, &mut buffer) {
        Some(count) if count <= buffer.len() => spelled(alloc, &buffer[..count]),
        _ => said(alloc, "failed"),
    }
}

// How many bytes come into the buffer, if it isn't empty and the link doesn't fail.
fn received<S: Read + Write + Drop>(link: &mut TcpLink<S>, buffer: &mut [u8]) -> Option<usize> {
    if buffer.is_empty() {
        return None;
    }
    link.recv(buffer).ok()
}

// What comes in several `recv`s until the buffer of so many bytes is full.
fn fill<S: Read + Write + Drop>(
    alloc: Global,
    link: &mut TcpLink<S>,
    words: &str,
) -> io::Result<String> {
    let mut buffer = vec![in alloc; 0; room(words)]?;
    match fill_all(link, &mut buffer) {
        Ok(()) => spelled(alloc, &buffer),
        Err(LinkFailed) => said(alloc, "failed"),
    }
}

fn fill_all<S: Read + Write + Drop>(
    link: &mut TcpLink<S>,
    mut buffer: &mut [u8],
) -> Result<(), LinkFailed> {
    for _ in 0..buffer.len() {
        if buffer.is_empty() {
            break;
        }
        let count = link.recv(buffer)?;
        buffer = &mut buffer[count..];
    }
    Ok(())
}

fn room(words: &str) -> usize {
    number_of(words).min(100_000) as usize
}

/// A link over a wire.
#[derive(Drop)]
pub struct WireCases {
    rt: HostRuntime,
    link: Option<TcpLink<Wire>>,
}

impl WireCases {
    /// No link yet.
    pub fn new(rt: HostRuntime) -> WireCases {
        WireCases { rt, link: None }
    }

    /// What comes of a call; a new link is over a wire that serves so many calls, and writes what it is
    /// sent to a file.
    pub fn answer(&mut self, call: &str, words: &str) -> io::Result<String> {
        if call == "new" {
            return self.begin(words);
        }
        match &mut self.link {
            Some(link) => answer_link(self.rt.alloc(), link, call, words),
            None => said(self.rt.alloc(), "no link"),
        }
    }

    fn begin(&mut self, words: &str) -> io::Result<String> {
        let (calls, path) = first_word(words);
        let wire = Wire::new(self.rt, number_of(calls), path)?;
        self.link = Some(link_over(self.rt.alloc(), wire)?);
        said(self.rt.alloc(), "a link")
    }
}

fn link_over(alloc: Global, wire: Wire) -> io::Result<TcpLink<Wire>> {
    match TcpLink::new(alloc, wire) {
        Ok(link) => Ok(link),
        Err(_) => Err(io::Error::from(io::ErrorKind::OutOfMemory)),
    }
}

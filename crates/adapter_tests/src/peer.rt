//! The peer of the links: a listener on the loopback, and its end of the last connection.

use crate::words::{bytes_of, number_of, said, spelled};
use std::io;
use std::io::{Read, Write};
use std::net::{TcpListener, TcpStream};

/// The peer of the links.
#[derive(Drop)]
pub struct Peer {
    rt: HostRuntime,
    listener: Option<TcpListener>,
    stream: Option<TcpStream>,
}

impl Peer {
    /// A peer that doesn't listen yet.
    pub fn new(rt: HostRuntime) -> Peer {
        Peer {
            rt,
            listener: None,
            stream: None,
        }
    }

    /// The port at which it listens, or 0.
    pub fn port(&self) -> io::Result<u16> {
        match &self.listener {
            Some(listener) => Ok(listener.local_addr()?.port()),
            None => Ok(0),
        }
    }

    /// Listens at a port that is free.
    pub fn listen(&mut self) -> io::Result<String> {
        self.listener = Some(TcpListener::bind(&self.rt, "127.0.0.1:0")?);
        said(self.rt.alloc(), "listening")
    }

    /// Takes the connection that was made last.
    pub fn accept(&mut self) -> io::Result<String> {
        let Some(listener) = &self.listener else {
            return said(self.rt.alloc(), "not listening");
        };
        let (stream, _) = listener.accept()?;
        self.stream = Some(stream);
        said(self.rt.alloc(), "accepted")
    }

    /// Sends these bytes on it.
    pub fn send(&mut self, words: &str) -> io::Result<String> {
        let bytes = bytes_of(self.rt.alloc(), words)?;
        let Some(stream) = &mut self.stream else {
            return said(self.rt.alloc(), "no connection");
        };
        stream.write_all(&bytes)?;
        said(self.rt.alloc(), "sent")
    }

    /// Reads so many bytes of it.
    pub fn read(&mut self, words: &str) -> io::Result<String> {
        let size = number_of(words).min(1000) as usize;
        let mut bytes = vec![in self.rt.alloc(); 0; size]?;
        let Some(stream) = &mut self.stream else {
            return said(self.rt.alloc(), "no connection");
        };
        stream.read_exact(&mut bytes)?;
        spelled(self.rt.alloc(), &bytes)
    }

    /// Closes the connection, and listens no more.
    pub fn close(&mut self) -> io::Result<String> {
        self.stream = None;
        self.listener = None;
        said(self.rt.alloc(), "closed")
    }
}

//! Cases of a server over TCP, and of the link to it that is out.

use crate::link_cases::answer_link;
use crate::peer::Peer;
use crate::words::{digits, first_word, number_of, said, said_of};
use link_traits::Site;
use std::io;
use std::marker::Model;
use system_outside::{TcpLink, TcpSite};

/// A server, its link while one is out, and the peer.
#[derive(Drop)]
pub struct SiteCases {
    rt: HostRuntime,
    site: TcpSite<HostRuntime>,
    link: Option<TcpLink>,
    peer: Peer,
}

impl Model for SiteCases {
    ghost use Rattle.std.specs.Prelude.{◌≡◌, is_some, if◌then◌else◌};
    ghost use Rattle.system_outside.specs.Status.{SiteStatus};

    ghost Value = { SiteStatus };

    ghost view = { λ s. s.site };

    ghost invariant = { λ s. s.site.links.out ≡ (if is_some s.link then 1 else 0) };
}

impl SiteCases {
    /// A site that is still to be aimed.
    pub fn new(rt: HostRuntime) -> SiteCases {
        SiteCases {
            rt,
            site: TcpSite::new(rt),
            link: None,
            peer: Peer::new(rt),
        }
    }

    /// What comes of a call of the site.
    pub fn answer(&mut self, call: &str, words: &str) -> io::Result<String> {
        match call {
            "new" => self.begin(),
            "aim" => self.aim(words),
            "connect" => self.connect(false),
            "connect_sole" => self.connect(true),
            "give_back" => self.give_back(),
            "faults" => digits(self.rt.alloc(), self.site.faults()),
            _ => said(self.rt.alloc(), "no call"),
        }
    }

    /// What comes of a call of the link that is out.
    pub fn answer_link(&mut self, call: &str, words: &str) -> io::Result<String> {
        match &mut self.link {
            Some(link) => answer_link(self.rt.alloc(), link, call, words),
            None => said(self.rt.alloc(), "no link"),
        }
    }

    /// What comes of something that the peer does.
    pub fn answer_peer(&mut self, call: &str, words: &str) -> io::Result<String> {
        match call {
            "listen" => self.peer.listen(),
            "accept" => self.peer.accept(),
            "send" => self.peer.send(words),
            "read" => self.peer.read(words),
            "close" => self.peer.close(),
            _ => said(self.rt.alloc(), "no call"),
        }
    }

    fn begin(&mut self) -> io::Result<String> {
        self.site = TcpSite::new(self.rt);
        self.link = None;
        said(self.rt.alloc(), "a site")
    }

    // Aims at a host and a port, or at the port of the peer.
    fn aim(&mut self, words: &str) -> io::Result<String> {
        let (host, port) = first_word(words);
        let port = match port {
            "peer" => self.peer.port()?,
            _ => number_of(port).min(65_535) as u16,
        };
        let aimed = self.site.aim(host, port).is_ok();
        said_of(self.rt.alloc(), aimed, "aimed")
    }

    // Makes a link, which is alone or not.
    fn connect(&mut self, sole: bool) -> io::Result<String> {
        if self.link.is_some() {
            return said(self.rt.alloc(), "a link is out");
        }
        let made = if sole {
            self.site.connect_sole()
        } else {
            self.site.connect()
        };
        self.link = made.ok();
        let is_made = self.link.is_some();
        said_of(self.rt.alloc(), is_made, "a link")
    }

    fn give_back(&mut self) -> io::Result<String> {
        let Some(link) = self.link.take() else {
            return said(self.rt.alloc(), "no link");
        };
        self.site.give_back(link);
        said(self.rt.alloc(), "given back")
    }
}

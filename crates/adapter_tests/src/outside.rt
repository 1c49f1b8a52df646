//! One adapter of each kind.

use crate::disk_cases::DiskCases;
use crate::link_cases::WireCases;
use crate::report_cases::{answer_clock, answer_sink};
use crate::site_cases::SiteCases;
use crate::words::{first_word, said};
use std::io;

/// One adapter of each kind, on which the cases are tried one after the other.
#[derive(Drop)]
pub struct Outside {
    rt: HostRuntime,
    site: SiteCases,
    disk: DiskCases,
    wire: WireCases,
}

impl Outside {
    /// Adapters that are still to be aimed.
    pub fn new(rt: HostRuntime) -> Outside {
        Outside {
            rt,
            site: SiteCases::new(rt),
            disk: DiskCases::new(rt),
            wire: WireCases::new(rt),
        }
    }

    /// What comes of a case: the adapter's word, the call, and what it is given.
    pub fn answer(&mut self, case: &str) -> io::Result<String> {
        let (object, words) = first_word(case);
        let (call, words) = first_word(words);
        match object {
            "site" => self.site.answer(call, words),
            "link" => self.site.answer_link(call, words),
            "peer" => self.site.answer_peer(call, words),
            "wire" => self.wire.answer(call, words),
            _ => self.answer_here(object, call, words),
        }
    }

    // What comes of a case of an adapter that is no connection.
    fn answer_here(&mut self, object: &str, call: &str, words: &str) -> io::Result<String> {
        match object {
            "folder" => self.disk.answer(call, words),
            "shelf" => self.disk.answer_shelf(call, words),
            "disk" => self.disk.answer_disk(call, words),
            "sink" => answer_sink(self.rt, call, words),
            "clock" => answer_clock(self.rt, call),
            _ => said(self.rt.alloc(), "no adapter"),
        }
    }
}

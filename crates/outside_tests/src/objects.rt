//! One object of each kind.

use crate::folder_cases::FolderCases;
use crate::report_cases::{ClockCases, SinkCases};
use crate::site_cases::SiteCases;
use crate::words::{first_word, said};
use plain_data::OutOfMemory;
use std::alloc::Global;

/// One object of each kind, on which the cases are tried one after the other.
#[derive(Drop)]
pub struct Objects {
    alloc: Global,
    site: SiteCases,
    folder: FolderCases,
    sink: SinkCases,
    clock: ClockCases,
}

impl Objects {
    /// Empty objects, of whose calls none is to fail.
    pub fn new(alloc: Global) -> Objects {
        Objects {
            alloc,
            site: SiteCases::new(alloc),
            folder: FolderCases::new(alloc),
            sink: SinkCases::new(alloc),
            clock: ClockCases::new(alloc),
        }
    }

    /// What comes of a case: the object's word, the call, and what it is given.
    pub fn answer(&mut self, case: &str) -> Result<String, OutOfMemory> {
        let (object, words) = first_word(case);
        let (call, words) = first_word(words);
        match object {
            "site" => self.site.answer(call, words),
            "link" => self.site.answer_link(call, words),
            "folder" => self.folder.answer(call, words),
            "shelf" => self.folder.answer_shelf(call, words),
            "sink" => self.sink.answer(call, words),
            "clock" => self.clock.answer(call, words),
            _ => said(self.alloc, "no object"),
        }
    }
}

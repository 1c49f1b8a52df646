//! A server, and a session with it.

use crate::asking::{Asking, fault_words};
use crate::script::Script;
use crate::words::{bytes_of, first_word, said, spelled};
use link_traits::Site;
use memory_outside::{ConversationList, ReplySite};
use my_session::Session;
use plain_data::{NumberList, OutOfMemory};
use std::alloc::Global;
use std::marker::Model;

/// What a server says, its site, and the session while there is one.
#[derive(Drop)]
pub struct Talk {
    alloc: Global,
    script: Script,
    site: ReplySite,
    asking: Option<Asking>,
}

impl Model for Talk {
    ghost use Rattle.std.specs.Prelude.{◌≡◌, is_some, if◌then◌else◌};
    ghost use Rattle.memory_outside.specs.Replies.{SiteState};

    ghost Value = { SiteState };

    ghost view = { λ t. t.site };

    ghost invariant = { λ t. t.site.links.out ≡ (if is_some t.asking then 1 else 0) };
}

impl Talk {
    /// A server that says nothing.
    pub fn new(alloc: Global) -> Talk {
        let conversations = ConversationList::new(alloc);
        Talk {
            alloc,
            script: Script::new(alloc),
            site: ReplySite::new(alloc, conversations, NumberList::new(alloc), 0),
            asking: None,
        }
    }

    /// Reads a line of what the server says.
    pub fn say(&mut self, line: &str) -> Result<(), OutOfMemory> {
        self.script.read(line)
    }

    /// What comes of a call.
    pub fn answer(&mut self, case: &str) -> Result<String, OutOfMemory> {
        let (call, words) = first_word(case);
        match call {
            "login" => self.login(words),
            "close" => self.close(),
            "messages" => self.messages(),
            "sent" => self.sent(words),
            _ => self.ask(case),
        }
    }

    // Connects, and logs this user in with this password.
    fn login(&mut self, words: &str) -> Result<String, OutOfMemory> {
        let (user, password) = first_word(words);
        let user = bytes_of(self.alloc, user)?;
        let password = bytes_of(self.alloc, password)?;
        let site = self.script.site()?;
        self.asking = None;
        self.site = site;
        let Ok(link) = self.site.connect_sole() else {
            return said(self.alloc, "no link");
        };
        match Session::login(self.alloc, link, &user, &password) {
            Ok(session) => {
                self.asking = Some(Asking::of(self.alloc, session));
                said(self.alloc, "logged in")
            }
            Err((link, fault)) => {
                self.site.give_back(link);
                fault_words(self.alloc, &fault)
            }
        }
    }

    fn close(&mut self) -> Result<String, OutOfMemory> {
        let Some(asking) = self.asking.take() else {
            return said(self.alloc, "no session");
        };
        self.site.give_back(asking.close());
        said(self.alloc, "closed")
    }

    // How many messages were sent on the link, once it is back.
    fn messages(&self) -> Result<String, OutOfMemory> {
        if !self.site.has_returned(0) {
            return said(self.alloc, "not back");
        }
        let count = self.site.sent(0).as_slice().len();
        Ok(format!(in self.alloc; "{count}")?)
    }

    // The message of this number.
    fn sent(&self, words: &str) -> Result<String, OutOfMemory> {
        if !self.site.has_returned(0) {
            return said(self.alloc, "not back");
        }
        let messages = self.site.sent(0).as_slice();
        match messages.get(words.parse().unwrap_or(0)) {
            Some(message) => spelled(self.alloc, message.as_slice()),
            None => said(self.alloc, "none"),
        }
    }

    fn ask(&mut self, case: &str) -> Result<String, OutOfMemory> {
        match &mut self.asking {
            Some(asking) => asking.answer(case),
            None => said(self.alloc, "no session"),
        }
    }
}

//! A server that is reached over TCP.
ghost use Rattle.std.specs.Prelude.{◌≡◌, ◌≤◌, ◌+◌, ◌-◌, [], None, false, IfOk, IfSome, OnOk, OnErr};
ghost use Rattle.system_outside.specs.Status.{one_link_more, with_fault};

use crate::tcp_link::TcpLink;
use link_traits::{Link, LinkFailed, Site};
use plain_data::OutOfMemory;
use std::marker::Model;
use std::net::{Net, OpenStream, TcpStream};

// Where connections go.
#[derive(Drop)]
struct Address {
    host: String,
    port: u16,
}

impl Model for Address {
    ghost use Rattle.std.specs.Prelude.{string_bytes};
    ghost use Rattle.link_traits.specs.Site.{Aim};

    ghost Value = { Aim };

    ghost view = { λ a. record { host = string_bytes a.host; port = a.port } };
}

/// A server that is reached over TCP. It tells nothing of what the server says.
#[derive(Drop)]
pub struct TcpSite<R> {
    rt: R,
    aim: Option<Address>,
    out: u64,
    // Whether a link is out that is alone.
    alone: bool,
    faults: u64,
}

impl<R> Model for TcpSite<R> {
    ghost use Rattle.system_outside.specs.Status.{SiteStatus};

    ghost Value = { SiteStatus };

    ghost view = { λ s. record {
      aim = s.aim;
      links = record { out = s.out; sole = s.alone };
      faults = s.faults;
    } };
}

impl<R> TcpSite<R> {
    /// A site that is still to be aimed. Takes no memory.
    pub fn new(rt: R) -> TcpSite<R>
        ensures { result
            ≡ record { aim = None; links = record { out = 0; sole = false }; faults = 0 } }
    {
        TcpSite {
            rt,
            aim: None,
            out: 0,
            alone: false,
            faults: 0,
        }
    }

    /// How often the site has failed, and each link that came back. Takes no memory.
    pub fn faults(&self) -> u64
        ensures { result ≡ self.now.faults }
    {
        self.faults
    }

    // Counts a failure.
    fn fail(&mut self) -> LinkFailed
        ensures failed { self.new ≡ with_fault self.old }
        ensures later { self.old.faults ≤ self.new.faults }
    {
        self.faults = self.faults.saturating_add(1);
        LinkFailed
    }
}

impl<R: Net + AllocGlobal> TcpSite<R> {
    // A link to where the site aims. A connection that doesn't take `nodelay` serves too.
    fn reach(&self) -> Option<TcpLink<R::Stream>>
        ensures { IfSome result (λ link. (link.failed ≡ false) × (link.faults ≡ 0)) }
    {
        let address = self.aim.as_ref()?;
        let stream = TcpStream::connect(&self.rt, (address.host.as_str(), address.port)).ok()?;
        let _ = stream.set_nodelay(true);
        TcpLink::new(self.rt.alloc(), stream).ok()
    }

    // The next link, which is out from now on.
    fn next_link(&mut self) -> Result<TcpLink<R::Stream>, LinkFailed>
        ensures link { IfOk result (λ link. (link.failed ≡ false) × (link.faults ≡ 0)) }
        ensures out { OnOk result (self.new
            ≡ record self.old { links = one_link_more self.old.links }) }
        ensures same_out { OnErr result (self.new ≡ with_fault self.old) }
        ensures later { self.old.faults ≤ self.new.faults }
    {
        let Some(out) = self.out.checked_add(1) else {
            return Err(self.fail());
        };
        let Some(link) = self.reach() else {
            return Err(self.fail());
        };
        self.out = out;
        Ok(link)
    }
}

impl<R: Net + AllocGlobal> Site for TcpSite<R>
where
    R::Stream: Send + Sync,
{
    type Link = TcpLink<R::Stream>;

    ghost use Rattle.link_traits.specs.Unserved.{unserved_site};

    ghost honest = { λ _. ⊥ };

    ghost served = { λ _. unserved_site };

    ghost own = { λ _ _. Unit {0} };

    ghost tells = { λ _. ⊥ };

    ghost told = { λ _. record { conversations = []; sent = [] } };

    ghost aim_of = { λ site. site.aim };

    ghost links = { λ site. site.links };

    ghost faults = { λ site. site.faults };

    ghost own_of_one = { λ _ _ _ _ _. tt };

    ghost stays_own = { λ _ _ _ _ own. own };

    ghost settled = { λ _ honest. absurd honest };

    fn aim(&mut self, host: &str, port: u16) -> Result<(), OutOfMemory> {
        let host = String::from_str(self.rt.alloc(), host)?;
        self.aim = Some(Address { host, port });
        Ok(())
    }

    fn connect(&mut self) -> Result<TcpLink<R::Stream>, LinkFailed> {
        self.alone = false;
        self.next_link()
    }

    fn connect_sole(&mut self) -> Result<TcpLink<R::Stream>, LinkFailed> {
        self.alone = false;
        let link = self.next_link()?;
        self.alone = true;
        Ok(link)
    }

    fn give_back(&mut self, link: TcpLink<R::Stream>) {
        self.out -= 1;
        self.alone = false;
        self.faults = self.faults.saturating_add(link.faults());
    }
}

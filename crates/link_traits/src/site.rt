//! A server that links can be had of.
ghost use Rattle.std.specs.Prelude.{◌≡◌, ◌<◌, ◌↔◌, ℕ, true, false, Option, Some, IfOk, OnOk, OnErr};
ghost use Rattle.honest_server.specs.Site.{ServedSite, Connects, IsNewLink, IsSettled, TakesBack};
ghost use Rattle.link_traits.specs.Cause.{HasCause};
ghost use Rattle.link_traits.specs.Site.{AddsFaults, Aim, ConnectsTold, IsGiven, KeepsHonest, Links, LosesLink, OwnsMore, ReturnsHonest, SiteTold, StaysSite, TakesLink, told_after_return};

use crate::link::{Link, LinkFailed};
use plain_data::OutOfMemory;

/// A server that links can be had of.
pub trait Site {
    type Link: Link + Send + Sync;

    /// Whether the server is honest. The adapter of a real server doesn't tell it.
    ghost honest: { Self → Type 0 };

    /// What an honest server tells.
    ghost served: { Self → ServedSite };

    /// Whether a link is the site's own, and not that of another site.
    ghost own: { Self → Self.Link → Type 0 };

    /// Whether the site tells what is said on its links by lists of replies. The adapter of a real
    /// server doesn't, and neither does a server in memory.
    ghost tells: { Self → Type 0 };

    /// What is said on its links, where it tells that.
    ghost told: { Self → SiteTold };

    /// Where connections go, once that was said. Every site tells it.
    ghost aim_of: { Self → Option Aim };

    /// How many links are out, and whether one of them is alone.
    ghost links: { Self → Links };

    /// How often connecting has failed, and each link that came back.
    ghost faults: { Self → ℕ };

    /// Keeps host and port for later connections. A refusal, for want of memory, changes nothing.
    fn aim(&mut self, host: &str, port: u16) -> Result<(), OutOfMemory>
        ensures ok { OnOk result
            (aim_of self.new ≡ Some (record { host = host.now; port = port })) }
        ensures err { OnErr result (aim_of self.new ≡ aim_of self.old) }
        ensures stays { StaysSite honest tells self.old self.new }
        ensures served { served self.new ≡ served self.old }
        ensures own { (link : Self.Link) → own self.old link → own self.new link }
        ensures told { told self.new ≡ told self.old }
        ensures links { links self.new ≡ links self.old }
        ensures faults { faults self.new ≡ faults self.old };

    /// Makes a link. Its condition is that no link is out that is alone.
    fn connect(&mut self) -> Result<Self::Link, LinkFailed>
        requires none_alone { 0 < (links self.old).out → (links self.old).sole ≡ false }

        ensures stays { StaysSite honest tells self.old self.new
            × (aim_of self.new ≡ aim_of self.old) }
        ensures served { honest self.old → Connects (served self.old) (served self.new) }
        ensures link { IfOk result (λ link. IsGiven (honest self.old) (Self.Link.honest link)
            (IsNewLink (served self.new) false (Self.Link.served link))) }
        ensures own { OwnsMore (own self.old) (own self.new) result }
        ensures told { tells self.old →
            ConnectsTold Self.Link.tells Self.Link.told (told self.old) result (told self.new) }
        ensures links { TakesLink false (links self.old) result (links self.new) }
        ensures cause { HasCause (faults self.old) (faults self.new) result };

    /// Makes a link that is alone: its condition is that none is out.
    fn connect_sole(&mut self) -> Result<Self::Link, LinkFailed>
        requires none_out { (links self.old).out ≡ 0 }

        ensures stays { StaysSite honest tells self.old self.new
            × (aim_of self.new ≡ aim_of self.old) }
        ensures served { honest self.old → Connects (served self.old) (served self.new) }
        ensures link { IfOk result (λ link. IsGiven (honest self.old) (Self.Link.honest link)
            (IsNewLink (served self.new) true (Self.Link.served link))) }
        ensures own { OwnsMore (own self.old) (own self.new) result }
        ensures told { tells self.old →
            ConnectsTold Self.Link.tells Self.Link.told (told self.old) result (told self.new) }
        ensures links { TakesLink true (links self.old) result (links self.new) }
        ensures cause { HasCause (faults self.old) (faults self.new) result };

    /// Closes the link. Its conditions are that the link is the site's own, and that one is out. It
    /// never fails, and adds the link's faults to the site's. While others are out they stay its own.
    fn give_back(&mut self, link: Self::Link)
        requires may { own self.old link × (0 < (links self.old).out) }

        ensures honest { ReturnsHonest (honest self.old) (Self.Link.honest link) (KeepsHonest
            (links self.new) (served self.old) (Self.Link.served link)) (honest self.new) }
        ensures served { honest self.old → Self.Link.honest link → TakesBack (links self.new).out
            (served self.old) (Self.Link.served link) (served self.new) }
        ensures own { 0 < (links self.new).out →
            (other : Self.Link) → own self.old other → own self.new other }
        ensures tells { tells self.old ↔ tells self.new }
        ensures told { tells self.old →
            told self.new ≡ told_after_return (told self.old) (Self.Link.told link).sent }
        ensures links { LosesLink (links self.old) (links self.new)
            × (aim_of self.new ≡ aim_of self.old) }
        ensures faults { AddsFaults (faults self.old) (Self.Link.faults link) (faults self.new) };

    /// Its own links are of one site.
    ghost own_of_one: { (site : Self) (one other : Self.Link) → own site one → own site other →
        Self.Link.same_origin one other };

    /// A link stays the site's own, whatever is done on it.
    ghost stays_own: { (site : Self) (one next : Self.Link) → Self.Link.same_origin one next →
        own site one → own site next };

    /// What an honest site tells: its history is sound, and once no link is out each grant of the read
    /// lock is a prefix of it.
    ghost settled: { (site : Self) → honest site → IsSettled (links site).out (served site) };
}

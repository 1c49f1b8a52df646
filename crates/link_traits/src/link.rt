//! A link to a server.
ghost use Rattle.std.specs.Prelude.{◌≡◌, ◌≢◌, ◌<◌, ℕ, [], true, false, length, IfOk};
ghost use Rattle.honest_server.specs.Link.{ServedLink, IsSoundLink, MaySend, MayStandBeside, Receives as TakesServed, Sends as IsServed, SendsBeside};
ghost use Rattle.link_traits.specs.Cause.{HasCause};
ghost use Rattle.link_traits.specs.Link.{Told, IsWithin, ReceivesAsTold, SendsAsTold, StaysLink};

use thiserror::Error;

/// The connection failed. The link has counted it.
#[derive(Clone, Copy, Debug, PartialEq, Eq, Error)]
#[error("connection failed")]
pub struct LinkFailed;

/// A connection to a server. After a failure every later call of the link fails.
pub trait Link: Drop {
    /// Whether the server on the other side is honest. The adapter of a real server doesn't tell it.
    ghost honest: { Self → Type 0 };

    /// What waits, and what an honest server keeps of the link.
    ghost served: { Self → ServedLink };

    /// Whether the link tells what is said on it by a list of replies. The adapter of a real server
    /// doesn't, and neither does a server in memory.
    ghost tells: { Self → Type 0 };

    /// What is said on it, where it tells that.
    ghost told: { Self → Told };

    /// How often the link has failed.
    ghost faults: { Self → ℕ };

    /// Both are links of one site.
    ghost same_origin: { Self → Self → Type 0 };

    /// Sends one whole client message with its packet headers. At `Ok` the server has handled it, and
    /// its reply's bytes wait. Its condition is that on an honest link the message is whole packets
    /// with the right ids, and in a session on a link that isn't sole no object's text.
    fn send(&mut self, message: &[u8]) -> Result<(), LinkFailed>
        requires may { honest self.old → MaySend (served self.old).state message.now }

        ensures stays { StaysLink honest tells same_origin self.old self.new }
        ensures served { honest self.old →
            IsServed (served self.old) message.now result (served self.new) }
        ensures sent { tells self.old →
            SendsAsTold (told self.old) message.now result (told self.new) }
        ensures cause { HasCause (faults self.old) (faults self.new) result };

    /// Sends one message while a link that holds the read lock is lent: the server handles it at what
    /// that link has seen. Its conditions are, on an honest link: that of `send`; that both are links
    /// of one site; and that the holder hasn't failed and holds the lock, and this link has no
    /// transactions of its own. Where the holder hasn't seen what this link has, the call fails.
    fn send_beside(&mut self, holder: &Self, message: &[u8]) -> Result<(), LinkFailed>
        requires may { honest self.old → MaySend (served self.old).state message.now }
        requires one_site { honest self.old → same_origin self.old holder.now }
        requires beside { honest self.old → MayStandBeside (served holder.now) (served self.old) }

        ensures stays { StaysLink honest tells same_origin self.old self.new }
        ensures served { honest self.old → SendsBeside (served holder.now).state (served self.old)
            message.now result (served self.new) }
        ensures sent { tells self.old →
            SendsAsTold (told self.old) message.now result (told self.new) }
        ensures cause { HasCause (faults self.old) (faults self.new) result };

    /// Takes some of the bytes that wait, at least one, into the front of the buffer, and answers how
    /// many. A peer that closes, and nothing that waits, are failures. Its conditions are that the
    /// buffer isn't empty, and that on an honest link that hasn't failed bytes wait.
    fn recv(&mut self, buffer: &mut [u8]) -> Result<usize, LinkFailed>
        requires room { 0 < length buffer.old }
        requires waits { honest self.old →
            (served self.old).failed ≡ false → (served self.old).waiting ≢ [] }

        ensures stays { StaysLink honest tells same_origin self.old self.new }
        ensures served { honest self.old →
            TakesServed (served self.old) buffer.new result (served self.new) }
        ensures received { tells self.old →
            ReceivesAsTold (told self.old) buffer.new result (told self.new) }
        ensures within { IfOk result (λ count. IsWithin buffer.old count) }
        ensures cause { HasCause (faults self.old) (faults self.new) result };

    /// A link is of one site with itself.
    ghost origin_begins: { (one : Self) → same_origin one one };

    /// Where one link is of another's site, that is of its.
    ghost origin_turns: { (one other : Self) → same_origin one other → same_origin other one };

    /// Where one link is of another's site, and that of a third's, the first is of the third's.
    ghost origins_join: { (one next last : Self) →
        same_origin one next → same_origin next last → same_origin one last };

    /// What is of one site with an honest link is honest.
    ghost honest_alike: { (one other : Self) → same_origin one other → honest one → honest other };

    /// What an honest server keeps of a link is sound.
    ghost sound: { (link : Self) → honest link → IsSoundLink (served link) };
}

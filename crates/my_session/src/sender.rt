//! How a message is sent: plainly, or beside a link that holds the read lock.
ghost use Rattle.std.specs.Prelude.{Option, OnOk, IfErr};
ghost use Rattle.my_session.specs.Channel.{outgoing, IsOfLink, MaySendPackets, SendsNone, SendsPackets};
ghost use Rattle.my_session.specs.Fault.{session_result};
ghost use Rattle.my_session.specs.Serving.{KeepsLink};

use crate::fault::ChannelFault;
use link_traits::Link;

/// How a message is sent on a link.
pub(crate) trait Sender<L: Link> {
    /// The holder of the read lock beside which it is sent, where there is one.
    ghost holder: { Self → Option L };

    /// Sends packets as one message. `Link` where the link fails. Takes no memory. On an honest link the
    /// packets must be a message that may be sent now; a holder must be of the link's site, alive and
    /// hold the read lock, and the link must have no transactions of its own.
    fn send(&self, link: &mut L, packets: &[u8]) -> Result<(), ChannelFault>
        requires may { MaySendPackets L.Link (outgoing packets.now (holder self.now)) link.old }

        ensures keeps { KeepsLink L.Link link.old link.new (session_result result) }
        ensures ok { OnOk result
            (SendsPackets L.Link (outgoing packets.now (holder self.now)) link.old link.new) }
        ensures err { IfErr (session_result result) (SendsNone L.Link IsOfLink
            (outgoing packets.now (holder self.now)) link.old link.new) };
}

/// Sends plainly.
pub(crate) struct Plainly;

impl<L: Link> Sender<L> for Plainly {
    ghost use Rattle.std.specs.Prelude.{None};

    ghost holder = { λ plainly. None };

    #[tactic(auto, using(crate::proofs::Sending::stream_answered))]
    fn send(&self, link: &mut L, packets: &[u8]) -> Result<(), ChannelFault> {
        match link.send(packets) {
            Ok(()) => Ok(()),
            Err(_) => Err(ChannelFault::Link),
        }
    }
}

//! Laws of length-encoded integers and packets: the contract of each function is one of them.
ghost use Rattle.my_packets.specs.Laws.{LenencIsReadBack, PacketsArePrefixFree, AFrontIsOneThing};

/// A law: the shortest spelling of a number below 2 ^ 64, whatever follows it, is read as that
/// number. Does nothing.
#[inline]
#[tactic(auto, using(crate::proofs::ReadBack::read_back))]
pub fn lenenc_is_read_back()
    ensures { LenencIsReadBack }
{}

/// A law: two messages whose packets from one sequence id begin the same bytes are the same
/// message. Does nothing.
#[inline]
#[tactic(auto, using(crate::proofs::Fronts::same_packets))]
pub fn packets_are_prefix_free()
    ensures { PacketsArePrefixFree }
{}

/// A law: of these four no two hold of the front of some bytes: it is a whole message within the
/// limit, a packet of it has another id than it should have, the message is announced past the
/// limit, bytes of it are missing. The ids, the length past the limit and the number of missing
/// bytes are one each. Does nothing.
#[inline]
#[tactic(auto, using(crate::proofs::Fronts::one_front))]
pub fn a_front_is_one_thing()
    ensures { AFrontIsOneThing }
{}

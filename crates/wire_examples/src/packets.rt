//! Length-encoded integers, and the packets of a message.
ghost use Rattle.wire_examples.specs.Packets.{Numbers, PacketsOfAQuery};

/// Numbers, written and read.
pub fn numbers()
    ensures { Numbers }
{}

/// A query's packet.
pub fn packets_of_a_query()
    ensures { PacketsOfAQuery }
{}

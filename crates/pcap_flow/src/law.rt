//! What is promised of the definitions of flows.
ghost use Rattle.pcap_flow.specs.Laws.{StepsGiveFlows, StepsGiveRows, KeyIsEnds};

/// A law on the definitions by which [`crate::Flows`] answers, and no code.
///
/// The flows of a list of packets are said of the whole list: a packet begins a flow where its time is
/// more than 60 seconds above that of every earlier packet of its ends and protocol, and others belong to
/// the flow that began last. To add the packets one by one, to no flows at first, gives these flows. Two
/// packets have one key exactly where they have the same protocol and the same ends in either order.
pub fn flows_of_packets()
    ensures steps { StepsGiveFlows }
    ensures rows { StepsGiveRows }
    ensures key { KeyIsEnds }
{}

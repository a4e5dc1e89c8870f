//! What is promised of chains of IPv6 headers.
ghost use Rattle.pcap_packet.specs.Chains.{EightAreFollowed, NoNinthIsFollowed, FragmentEnds};

/// A law on the definition by which `decode` answers, and no code: of the extension headers of IPv6 eight
/// are followed to what stands behind them, a ninth hides the protocol, and a later fragment ends the
/// chain with its protocol and without ports.
pub fn chains_of_headers()
    ensures followed { EightAreFollowed }
    ensures ninth { NoNinthIsFollowed }
    ensures fragment { FragmentEnds }
{}

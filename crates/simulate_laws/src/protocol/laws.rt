ghost use Rattle.simulate_laws.specs.protocol.Laws.{Acknowledged, KeepsOrder, KeepsProtocol, StartsInOrder};
ghost use Rattle.simulate_laws.specs.protocol.Scenes.{Scene};

/// Each rule of the protocol keeps what holds of it.
pub fn law_protocol_kept()
    ensures { KeepsProtocol }
{}

/// The protocol holds of the start, where there is main alone.
pub fn law_protocol_starts()
    ensures { StartsInOrder }
{}

/// What the protocol gives: an agent is in one affair at most, a letter finds its agent, a look-up finds what it looks for;
/// and an acknowledgement comes when what it acknowledges is done.
pub fn law_protocol_gives()
    ensures order { KeepsOrder }
    ensures acknowledged { (w : Scene) → Acknowledged w }
{}

ghost use Rattle.simulate_laws.specs.simulation.RestLaws.{RestsTogether};

/// By each infrastructure: where no site can act at the low level, none can at the high level. No agent has an affair, and no letter
/// is under way. The daemon's lock is free and holds its map; the map has just the agents of the source, and the lock of each is
/// free and holds the site of that agent. With caches each agent's cache is free too, with its hints, no agent of the source
/// waits for them, and no messenger carries a letter.
pub fn law_rests_together()
    ensures { RestsTogether }
{}

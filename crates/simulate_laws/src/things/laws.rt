ghost use Rattle.infrastructure_texts.specs.Infrastructures.{Infrastructure};
ghost use Rattle.simulate_laws.specs.things.Acting.{BeginsByThing};
ghost use Rattle.simulate_laws.specs.things.Laws.{DaemonByServers, StartsWithThings};

/// The daemon's process is its map, main's lock and its five servers.
pub fn law_daemon_desks()
    ensures { DaemonByServers }
{}

/// At the low start of a sound program main has its process, its `currentloc` and its server, and the daemon has its map, main's
/// lock and its servers. With caches main also has an empty cache and what keeps it, and the daemon tells where agents are.
pub fn law_start_things()
    ensures { (i : Infrastructure) → StartsWithThings i }
{}

/// An atom that begins an event of a kind is there for one thing, which begins events of this kind in this role; or it is a
/// bracket of the infrastructure.
pub fn law_begins()
    ensures { (i : Infrastructure) → BeginsByThing i }
{}

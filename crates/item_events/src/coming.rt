//! The event of what comes to a site.

ghost use Rattle.std.specs.Prelude.{◌≡◌};
ghost use Rattle.np_calculus.specs.Begins.{arrival, landing};
ghost use Rattle.item_events.specs.Coming.{event_for};

use agent_move::Load;
use np_calculus::Packet;
use np_syntax::{Event, Kind, Made, Name, Role, Tag};

/// The event of an agent that arrives.
fn arrival(agent: Name, site: u32) -> Event
    ensures { result ≡ arrival agent site }
{
    Event {
        site,
        kind: Kind::Arrive,
        actor: agent,
        other: None,
        tag: Tag {
            node: 0,
            role: Role::Plain,
        },
        made: Made::Nothing,
    }
}

/// The event of a packet that lands.
fn landing(mark: Name, packet: &Packet) -> Event
    ensures { result ≡ landing mark packet.now }
{
    Event {
        site: packet.to,
        kind: Kind::Land,
        actor: mark,
        other: None,
        tag: packet.tag,
        made: Made::Nothing,
    }
}

/// The event of what comes to a site.
pub fn event_for(site: u32, load: &Load) -> Event
    ensures { result ≡ event_for site load.now }
{
    match load {
        Load::Agent(agent) => arrival(agent.name(), site),
        Load::Packet(mark, packet) => landing(*mark, packet),
    }
}

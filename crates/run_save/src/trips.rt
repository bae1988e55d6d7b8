ghost use Rattle.std.specs.Prelude.{◌≡◌};
ghost use Rattle.run_save.specs.Travels.{departure, sending};

use np_conditions::way;
use np_configuration::Cfg;
use np_syntax::{Event, Name};

/// What goes from site to site: an agent, or the packet of a mark.
#[derive(Clone, Copy, PartialEq, Eq, Hash)]
pub enum Item {
    Agent(Name),
    Packet(Name),
}

/// The way from one site to another, or to the same one.
#[derive(Clone, Copy, PartialEq, Eq, Hash)]
pub struct Link {
    pub from: u32,
    pub to: u32,
}

/// An item on a link.
#[derive(Clone, Copy)]
pub struct Trip {
    pub item: Item,
    pub link: Link,
}

/// The trip that a Depart puts its agent on, told by the configuration after it.
pub fn departure(after: &Cfg, e: &Event) -> Option<Trip>
    ensures { result ≡ departure after.now e.now }
{
    let atom = after.atom(e.actor)?;
    let to = way(after.place(atom.agent)?)?;
    Some(Trip {
        item: Item::Agent(atom.agent),
        link: Link { from: e.site, to },
    })
}

/// The trip that a Send puts its packet on, told by the configuration after it.
pub fn sending(after: &Cfg, e: &Event) -> Option<Trip>
    ensures { result ≡ sending after.now e.now }
{
    let packet = after.packet(e.actor)?;
    Some(Trip {
        item: Item::Packet(e.actor),
        link: Link {
            from: e.site,
            to: packet.to,
        },
    })
}

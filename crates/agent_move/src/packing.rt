ghost use Rattle.std.specs.Prelude.{◌≡◌};
ghost use Rattle.agent_move.specs.declared.load.Load.TheVariants as load;
ghost use Rattle.agent_move.specs.Loads.{site_for};

use crate::item::Item;
use crate::load::Load;
use crate::space::Space;
use agent_pool::Agent;
use np_calculus::Packet;
use np_syntax::Name;

/// An agent under way to a site. It takes no memory but this space.
pub fn pack_agent(space: Space, agent: Agent, stamp: u64, from: u32, to: u32) -> Item
    ensures stamp { result.stamp ≡ stamp }
    ensures from { result.from ≡ from }
    ensures to { result.to ≡ to }
    ensures load { result.load ≡ load.Agent agent }
{
    Item {
        stamp,
        from,
        to,
        load: space.fill(Load::Agent(agent)),
    }
}

/// A packet under way to its site. It takes no memory but this space.
pub fn pack_packet(space: Space, mark: Name, packet: Packet, stamp: u64, from: u32) -> Item
    ensures stamp { result.stamp ≡ stamp }
    ensures from { result.from ≡ from }
    ensures to { result.to ≡ packet.to }
    ensures load { result.load ≡ load.Packet mark packet }
{
    let to = packet.to;
    Item {
        stamp,
        from,
        to,
        load: space.fill(Load::Packet(mark, packet)),
    }
}

/// The stamp of an item, the sites that it goes between, and its load, which is for the second of them.
pub fn unpack(item: Item) -> (u64, u32, u32, Load)
    ensures stamp { result.0 ≡ item.stamp }
    ensures from { result.1 ≡ item.from }
    ensures to { result.2 ≡ item.to }
    ensures load { result.3 ≡ item.load }
    ensures addressed { site_for result.3 result.2 ≡ result.2 }
{
    (item.stamp, item.from, item.to, item.load.into_inner())
}

ghost use Rattle.std.specs.Prelude.{◌≡◌, ◌<◌, IfErr, OnOk, OnErr};
ghost use Rattle.np_syntax.specs.declared.limits.TheConstants.{STAMPS_END};
ghost use Rattle.site_state.specs.Doing.{HasRoom, HasTaken};
ghost use Rattle.site_state.specs.Standings.{StaysForAll};

use super::coming::{room_for, take_in};
use super::site::Site;
use agent_move::{Item, unpack};
use np_site_runs::law_coming;
use np_syntax::Memory;

impl Site {
    /// Takes an item: the agent stands here then, or the packet is an output of its agent.
    pub fn accept(&mut self, item: Item) -> Result<(), (Item, Memory)>
        requires room { HasRoom self.old }
        requires to { item.to ≡ self.old.site }
        requires stamp { item.stamp < STAMPS_END }
        ensures ok { OnOk result (HasTaken self.old self.new item) }
        ensures err { OnErr result (StaysForAll self.old self.new) }
        ensures returned { IfErr result (λ refused. refused.0 ≡ item) }
    {
        law_coming();
        match room_for(&mut self.agents, &item) {
            Ok(()) => {
                let (stamp, _, _, load) = unpack(item);
                let event = take_in(&mut self.agents, self.site, load);
                self.note_taken(stamp, event);
                Ok(())
            }
            Err(memory) => Err((item, memory)),
        }
    }
}

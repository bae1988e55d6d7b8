ghost use Rattle.site_agents.specs.deeds.Calls.{Arrives, Ever, GoesOn, IsLost, Lands, Leaves, Makes, Passes, Sends, Tells};
ghost use Rattle.site_agents.specs.deeds.Resting.{EnabledIsReady, IdleByAgents, NoEventHere};
ghost use Rattle.site_agents.specs.deeds.Standing.{RoomIsUnseen};

/// What a site holds does not tell how much room its agents have.
pub fn law_room_unseen()
    ensures { RoomIsUnseen }
{}

/// By its calls an agent goes on at the site, tells another one something, or makes one.
pub fn law_agent_calls()
    ensures on { Ever GoesOn }
    ensures passes { Ever Passes }
    ensures tells { Ever Tells }
    ensures makes { Ever Makes }
{}

/// By a migration an agent leaves, and by a message a packet.
pub fn law_agents_leave()
    ensures agent { Ever Leaves }
    ensures packet { Ever Sends }
{}

/// An agent arrives, and a packet lands at its agent or at none.
pub fn law_agents_come()
    ensures agent { Ever Arrives }
    ensures packet { Ever Lands }
    ensures lost { Ever IsLost }
{}

/// Where no agent at a site has anything ready, no event but a post is enabled in what the site holds. This rests just where
/// each agent is idle, and each event that is enabled there but a post is of an agent that is ready for it.
pub fn law_agents_rest()
    ensures none { Ever NoEventHere }
    ensures idle { Ever IdleByAgents }
    ensures ready { Ever EnabledIsReady }
{}

ghost use Rattle.np_site_runs.specs.Coming.{Arrives, IsLost, Lands};
ghost use Rattle.np_site_runs.specs.Enabled.{EnabledIsOfAgent};
ghost use Rattle.np_site_runs.specs.HoldingLaws.{NothingDone};
ghost use Rattle.np_site_runs.specs.Leaving.{Leaves, Sends};
ghost use Rattle.np_site_runs.specs.Loads.{AgentIsBrought, PacketIsBrought};
ghost use Rattle.np_site_runs.specs.Making.{MadeInSpread};
ghost use Rattle.np_site_runs.specs.Resting.{IdleByAgents, NoEventHere};
ghost use Rattle.np_site_runs.specs.Within.{GoesOn, GoesOnAlone, Makes, Tells};

/// A site that does nothing holds what it held.
pub fn law_nothing_done()
    ensures { NothingDone }
{}

/// Where sites and what is under way between them have the parts of one configuration, each name of a site's own that stands
/// there is one that it has made.
pub fn law_names_made()
    ensures { MadeInSpread }
{}

/// By an event within an agent that stands at a site, the agent goes on, and so it does by a location test whose agent is
/// not there. Where that one is there, it gets the output. An agent that is made stands at the site then.
pub fn law_own_events()
    ensures on { GoesOn }
    ensures alone { GoesOnAlone }
    ensures tells { Tells }
    ensures makes { Makes }
{}

/// An agent under way to a site, with atoms of its own, and a packet bring something to the site to which they go.
pub fn law_loads()
    ensures agent { AgentIsBrought }
    ensures packet { PacketIsBrought }
{}

/// A migration puts out the agent with its atoms, and a message puts out a packet.
pub fn law_leaving()
    ensures agent { Leaves }
    ensures packet { Sends }
{}

/// An agent that arrives stands at the site then, with its atoms. A packet that lands is an output of its agent where this
/// stands there, and else nothing.
pub fn law_coming()
    ensures agent { Arrives }
    ensures packet { Lands }
    ensures lost { IsLost }
{}

/// An event that is enabled in what a site holds, but a post, is one for which an agent there is ready.
pub fn law_enabled()
    ensures { EnabledIsOfAgent }
{}

/// Where no agent at a site has anything to do, no event is enabled in what the site holds, but for posts. What it holds
/// rests just where each agent there is idle.
pub fn law_resting()
    ensures none { NoEventHere }
    ensures idle { IdleByAgents }
{}

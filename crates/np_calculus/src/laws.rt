ghost use Rattle.np_calculus.specs.Acting.{ActsWhereEnabled};
ghost use Rattle.np_calculus.specs.Agents.{StaysLodged};
ghost use Rattle.np_calculus.specs.Examples.{TwoPrints, Communication, Replication, Migration, Opening, LookingUp};
ghost use Rattle.np_calculus.specs.Footprints.{DependsOnTouched, Unseen};
ghost use Rattle.np_calculus.specs.FrameRule.{FrameBack, FrameRule, KeepsLodged, KeepsOfSite};
ghost use Rattle.np_calculus.specs.NotEnabled.{LowNotEnabled, NotEnabled, NoValue};

/// What the definitions say of small runs, and of events that are not enabled.
pub fn law_examples()
    ensures two_prints { TwoPrints }
    ensures communication { Communication }
    ensures replication { Replication }
    ensures migration { Migration }
    ensures opening { Opening }
    ensures looking_up { LookingUp }
    ensures not_enabled { NotEnabled }
    ensures low_not_enabled { LowNotEnabled }
    ensures no_value { NoValue }
{}

/// In a configuration that is well, a site can act exactly where some event of that site is enabled.
pub fn law_acts_where_enabled()
    ensures { ActsWhereEnabled }
{}

/// An event of a part of a configuration is an event of the whole, which leaves the rest as it is, and the other way
/// round. Each event but a post keeps the atoms of a part with their agents, and what is of a site stays of it.
pub fn law_frame()
    ensures rule { FrameRule }
    ensures back { FrameBack }
    ensures lodged { KeepsLodged }
    ensures of_site { KeepsOfSite }
{}

/// An event depends on nothing but what it touches. So it does not see an event that writes nothing of this.
pub fn law_footprints()
    ensures depends { DependsOnTouched }
    ensures unseen { Unseen }
{}

/// Where each agent that a configuration names has a place, the agent of each atom has one along each run.
pub fn law_lodged()
    ensures { StaysLodged }
{}

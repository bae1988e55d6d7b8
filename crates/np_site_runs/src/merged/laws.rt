ghost use Rattle.np_site_runs.specs.merged.Agrees.{EventOfSite};
ghost use Rattle.np_site_runs.specs.merged.Items.{AgentLeaves, ItemComes, PacketLeaves};
ghost use Rattle.np_site_runs.specs.merged.Links.{MergedRun};
ghost use Rattle.np_site_runs.specs.merged.Steps.{InnerStep, StepsRun};

/// An event of a site is an event of each configuration that agrees with what the site has, and changes nothing else.
pub fn law_agrees()
    ensures { EventOfSite }
{}

/// An event that a site makes is a step of it: of what it has alone, where an agent or a packet leaves then, and where
/// an item came before.
pub fn law_steps()
    ensures inner { InnerStep }
    ensures agent { AgentLeaves }
    ensures packet { PacketLeaves }
    ensures comes { ItemComes }
{}

/// The steps of many sites, with items that leave one and come to another, are a run of the whole: where the items lie in
/// any order, and where they go on links on which what is first in is first out.
pub fn law_merged_run()
    ensures steps { StepsRun }
    ensures links { MergedRun }
{}

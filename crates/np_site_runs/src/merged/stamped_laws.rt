ghost use Rattle.np_site_runs.specs.merged.Growing.{ClockGoesOn, PutsFollow, RunGrows, RunStarts, TakesFollow};
ghost use Rattle.np_site_runs.specs.merged.StampedLaws.{EndIsShown, IsToldByParts, LinksLead, MergedIsRun, SaidInOrder, StampsAreFew};
ghost use Rattle.np_site_runs.specs.merged.StampedLaws.{StampsRise};
ghost use Rattle.np_site_runs.specs.merged.Passing.{TakenLater};
ghost use Rattle.np_site_runs.specs.merged.Resting.{CanInParts, IdleInParts};
ghost use Rattle.np_site_runs.specs.merged.Starting.{LowStartIsSettled, SpreadBySites};
ghost use Rattle.np_site_runs.specs.merged.Turns.{HaveTurns, TurnGoesOn, TurnIsApart};

/// What a site does alone begins with nothing, and goes on with one event more.
pub fn law_site_run()
    ensures start { RunStarts }
    ensures run { RunGrows }
    ensures clock { ClockGoesOn }
    ensures put { PutsFollow }
    ensures taken { TakesFollow }
{}

/// A configuration in which nothing is under way is what its sites have; so is the low start.
pub fn law_spread_by_sites()
    ensures sites { SpreadBySites }
    ensures low { LowStartIsSettled }
{}

/// What a site takes from a link, and what is left on the link, was put on its way to that site.
pub fn law_links()
    ensures { LinksLead }
{}

/// What sites did with stamps by Lamport's rule, and with links on which what is first in is first out, is one run: that of
/// all their events by stamp and then by site. It ends in the one configuration that the sites, the links and the histories
/// show.
pub fn law_merged_is_run()
    ensures run { MergedIsRun }
    ensures one { IsToldByParts }
    ensures shown { EndIsShown }
{}

/// What that run says is what the histories have as printed, in the order of their merged events.
pub fn law_said_in_order()
    ensures { SaidInOrder }
{}

/// The stamps of a site's events rise, and so do those of the items that it puts on one link. Where no clock goes on by more
/// than it has to, no stamp is above the number of all events. An event that takes what an earlier one put on its way has a
/// greater stamp.
pub fn law_stamps()
    ensures rise { StampsRise }
    ensures few { StampsAreFew }
    ensures taken { TakenLater }
{}

/// A site can act in the whole just where it can in what one of the sites has, or something is under way to it. So the whole
/// rests just where what each site has rests and nothing is under way.
pub fn law_rest_in_parts()
    ensures can { CanInParts }
    ensures idle { IdleInParts }
{}

/// The events of sites that keep clocks and have links have one order in which each takes what waits first on its link. When
/// an event's turn comes, what it takes is apart from what its site has; and where it is a step of the site, the whole goes on.
pub fn law_turns()
    ensures turns { HaveTurns }
    ensures apart { TurnIsApart }
    ensures step { TurnGoesOn }
{}

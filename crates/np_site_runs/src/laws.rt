ghost use Rattle.np_site_runs.specs.Accounts.{AccountGrows, AccountStarts, CameFollows, LowSitesEnd, SettledAreRuns};
ghost use Rattle.np_site_runs.specs.Acting.{OnlySitesCan, SiteIsStill};
ghost use Rattle.np_site_runs.specs.Ending.{HeldRunsEnd, LowRunsEnd, RestsInHoldings, StillByOne};
ghost use Rattle.np_site_runs.specs.SiteRuns.{HeldRunGrows, HeldRunStarts, HeldRunsAreRuns};
ghost use Rattle.np_site_runs.specs.Starting.{LowStartIsHeld};

/// What a site does by its holdings begins with nothing, and goes on with one event more.
pub fn law_held_run()
    ensures start { HeldRunStarts }
    ensures run { HeldRunGrows }
{}

/// Where sites hold the parts of one configuration at first, what they did by their holdings are steps of configurations.
pub fn law_held_runs_are_runs()
    ensures { HeldRunsAreRuns }
{}

/// At the low start the sites hold its parts: main's site has main, the first site has the daemon.
pub fn law_low_start_is_held()
    ensures { LowStartIsHeld }
{}

/// The merged history of what sites did by their holdings is a run of the whole, which says what the histories have as
/// printed; so it is from the low start. It ends where the sites hold the parts, with what is left on the links.
pub fn law_held_runs_end()
    ensures run { HeldRunsEnd }
    ensures low { LowRunsEnd }
{}

/// The whole rests just where what each site holds can do nothing and nothing is left on the links.
pub fn law_rests_in_holdings()
    ensures one { StillByOne }
    ensures rest { RestsInHoldings }
{}

/// What a site tells of itself, with the links on which items came, begins with nothing and goes on with one event more.
pub fn law_account()
    ensures start { AccountStarts }
    ensures run { AccountGrows }
    ensures came { CameFollows }
{}

/// Where each of n sites tells what it did, and on each link what is put is what came and then what is left, they ran alone.
/// From the low start their merged history is a run of the whole, to where they hold its parts; and when the whole rests, they
/// can tell.
pub fn law_sites_end()
    ensures runs { SettledAreRuns }
    ensures low { LowSitesEnd }
{}

/// Where the merged history leads, a site cannot act if what it holds can do nothing and nothing is left on the links to it.
/// What is no site cannot act there.
pub fn law_site_is_still()
    ensures still { SiteIsStill }
    ensures sites { OnlySitesCan }
{}

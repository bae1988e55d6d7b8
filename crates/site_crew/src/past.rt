//! Why a crew does not do the events of a list again.
ghost use Rattle.std.specs.Prelude.{◌≡◌, ◌<◌, ◌^◌, true, false, length, IsSome, MatchOption};
ghost use Rattle.np_calculus.specs.Reductions.{run};
ghost use Rattle.np_calculus.specs.Starts.{start_low};
ghost use Rattle.run_save.specs.following.Following.{events_at};
ghost use Rattle.site_crew.specs.Lists.{AreWithin, IsFirstPast, IsRefused, IsToFollow};

use crate::follow_fail::FollowFail;
use np_syntax::{Event, LowProgram, Memory};
use run_save::ours_until;
use std::alloc::Global;

/// How many events of a list are of a site.
fn events_at(events: &[Event], site: u32) -> usize
    ensures { result ≡ events_at site events.now }
{
    let mut count = 0;
    for event in events {
        if event.site == site {
            count += 1;
        }
    }
    count
}

/// The first of so many sites that has more events in a list than the budget. It goes through the list once for each site.
fn first_past(events: &[Event], sites: u32, budget: u32) -> Option<u32>
    ensures { MatchOption result (AreWithin sites budget events.now) (IsFirstPast sites budget events.now) }
{
    for site in 0..sites {
        if events_at(events, site) > budget as usize {
            return Some(site);
        }
    }
    None
}

/// Whether none of so many sites has more events in a list than the budget.
pub fn are_within(events: &[Event], sites: u32, budget: u32) -> bool
    ensures yes { result ≡ true → AreWithin sites budget events.now }
    ensures no { result ≡ false → AreWithin sites budget events.now → ⊥ }
{
    first_past(events, sites, budget).is_none()
}

/// Why a run of a program is not one for its sites to follow. It goes through the events a second time.
pub fn refusal(
    alloc: Global,
    low: &LowProgram,
    sites: u32,
    budget: u32,
    events: &[Event],
) -> FollowFail
    requires sites { sites ≡ length low.now.sites }
    requires few { length events.now < 2 ^ 32 }
    requires run { IsSome (run (start_low low.now) events.now) }
    requires stops { IsToFollow low.now budget events.now → ⊥ }
    ensures { IsRefused low.now budget events.now result }
{
    match first_past(events, sites, budget) {
        Some(site) => FollowFail::BudgetPast(site),
        None => match ours_until(alloc, low, events) {
            Ok(Some(index)) => FollowFail::NotOurs(index),
            Ok(None) => unreachable!(),
            Err(Memory) => FollowFail::Memory,
        },
    }
}

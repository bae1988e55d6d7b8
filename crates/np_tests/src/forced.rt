//! An event that is given to a site, which does it at the stamp that is told.

ghost use Rattle.std.specs.Prelude.{◌≡◌, ◌<◌, ◌^◌, length, IfOk};
ghost use Rattle.std.specs.FinMap as map;
ghost use Rattle.stamp_history.specs.Histories.{without_events};

use super::agents::{OWN, main_agent};
use super::sources::{LETTER, checked};
use agent_pool::Agent;
use daemon_encode::encode;
use np_check::Checked;
use np_code::{Code, flatten};
use np_syntax::{Event, Kind, LowProgram, Made, Memory, Name};
use site_state::Site;
use stamp_history::Stamped;
use std::alloc::Global;
use std::test::Fail;

/// How many events the site may make.
const BUDGET: u32 = 3;

/// The stamp of the event.
const STAMP: u64 = 5;

/// The first name that the first site makes.
const FIRST: Name = Name { site: 0, n: 0 };

/// The first of some sites, with this agent alone.
fn site_with(alloc: Global, sites: u32, agent: Agent) -> Result<Site, Memory>
    requires { 0 < sites }
    ensures number { IfOk result (λ site. site.site ≡ 0) }
    ensures agents { IfOk result (λ site. site.agents ≡ map.insert map.empty agent.name agent) }
    ensures next { IfOk result (λ site. site.next ≡ 0) }
    ensures clock { IfOk result (λ site. site.clock ≡ 0) }
    ensures history { IfOk result (λ site. site.history ≡ without_events 0 BUDGET) }
    ensures outgoing { IfOk result (λ site. length site.outgoing ≡ sites) }
{
    let mut site = Site::new(alloc, 0, sites, BUDGET)?;
    match site.settle_agent(agent) {
        Ok(()) => Ok(site),
        Err((agent, memory)) => {
            drop(agent);
            drop(site);
            Err(memory)
        }
    }
}

/// The record of an agent's first event, where that is a fork, which its site is given.
fn forced(alloc: Global, code: &Code, agent: Agent) -> Result<Option<Stamped>, Memory> {
    let Some(ready) = agent.first_ready(code) else {
        drop(agent);
        return Ok(None);
    };
    if ready.kind != Kind::Fork || code.sites() == 0 {
        drop(agent);
        return Ok(None);
    }
    let event = Event {
        site: 0,
        kind: ready.kind,
        actor: ready.actor,
        other: ready.other,
        tag: ready.tag,
        made: Made::One(FIRST),
    };
    let mut site = site_with(alloc, code.sites(), agent)?;
    let done = site.force(alloc, code, event, STAMP);
    let last = site.history().events().last().copied();
    drop(site);
    match done {
        Ok(()) => Ok(last),
        Err(memory) => Err(memory),
    }
}

/// That of the agent of main's process in a low program.
fn forced_of_low(alloc: Global, low: &LowProgram) -> Result<Option<Stamped>, Memory>
    requires { length low.now.sites < 2 ^ 32 }
{
    let Ok(code) = flatten(alloc, low) else {
        return Err(Memory);
    };
    let agent = main_agent(alloc, &code)?;
    let done = forced(alloc, &code, agent);
    drop(code);
    done
}

/// That of a program.
fn forced_of(alloc: Global, program: &Checked) -> Result<Option<Stamped>, Memory> {
    let _ = program.program();
    let low = encode(alloc, program)?;
    let done = forced_of_low(alloc, &low);
    drop(low);
    done
}

#[test]
fn a_site_does_the_event_that_it_is_given(rt: HostRuntime) -> Result<(), Fail> {
    let program = checked(rt.alloc(), LETTER)?;
    let done = forced_of(rt.alloc(), &program);
    drop(program);
    let told = match done? {
        Some(Stamped { stamp, event }) => Some((stamp, event.kind, event.actor, event.made)),
        None => None,
    };
    assert!(rt; told == Some((STAMP, Kind::Fork, OWN, Made::One(FIRST))));
    Ok(())
}

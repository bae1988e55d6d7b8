//! How a crew begins.
ghost use Rattle.np_calculus.specs.Starts.{daemon_agent, daemon_mark, main_agent, main_mark};
ghost use Rattle.std.specs.Prelude.{◌==◌, true, ◌≡◌, ◌<◌, ◌≤◌, ◌^◌, None, length, IfOk, OnOk};
ghost use Rattle.std.specs.FinMap as map;
ghost use Rattle.np_syntax.specs.declared.limits.TheConstants.{LARGEST_BUDGET};
ghost use Rattle.crew_ends.specs.Starts.{AreFirst, HasFirst, IsFirst, IsFirstSite};

use agent_pool::Agent;
use np_calculus::{DAEMON, DAEMON_MARK, MAIN, MAIN_MARK};
use np_code::Code;
use np_eval::Frame;
use np_syntax::{Memory, Name};
use site_state::Site;
use site_turn::Seat;
use std::alloc::Global;

/// A name that the program has from the start.
fn own(code: &Code, n: u32) -> Name
    requires { length code.now.sites < 2 ^ 32 }
    ensures { result ≡ record { site = length code.now.sites; n = n } }
{
    Name {
        site: code.sites(),
        n,
    }
}

/// A new agent with its first atom stands at the site then.
fn settle_first(
    alloc: Global,
    _code: &Code,
    site: &mut Site,
    agent: Name,
    mark: Name,
    root: u32,
) -> Result<(), Memory>
    requires { map.get site.old.agents agent ≡ None }
    ensures { OnOk result (HasFirst _code.now true agent mark root site.old site.new) }
{
    let first = Agent::new(alloc, agent, mark, root, Frame::new(alloc))?;
    match site.settle_agent(first) {
        Ok(()) => Ok(()),
        Err((_, memory)) => Err(memory),
    }
}

/// So it is if it is to stand there.
fn settle_if(
    alloc: Global,
    code: &Code,
    site: &mut Site,
    here: bool,
    agent: Name,
    mark: Name,
    root: u32,
) -> Result<(), Memory>
    requires { map.get site.old.agents agent ≡ None }
    ensures { OnOk result (HasFirst code.now here agent mark root site.old site.new) }
{
    if here {
        return settle_first(alloc, code, site, agent, mark, root);
    }
    Ok(())
}

/// Main's agent.
fn settle_main(alloc: Global, code: &Code, site: &mut Site) -> Result<(), Memory>
    requires sites { length code.now.sites < 2 ^ 32 }
    requires free { map.get site.old.agents (main_agent (length code.now.sites)) ≡ None }
    ensures { OnOk result (HasFirst code.now (site.old.site == code.now.at) (main_agent (length code.now.sites))
        (main_mark (length code.now.sites)) code.now.main site.old site.new) }
{
    let here = site.number() == code.at();
    let agent = own(code, MAIN);
    let mark = own(code, MAIN_MARK);
    settle_if(alloc, code, site, here, agent, mark, code.main_root())
}

/// The daemon's agent.
fn settle_daemon(alloc: Global, code: &Code, site: &mut Site) -> Result<(), Memory>
    requires sites { length code.now.sites < 2 ^ 32 }
    requires free { map.get site.old.agents (daemon_agent (length code.now.sites)) ≡ None }
    ensures { OnOk result (HasFirst code.now (site.old.site == 0) (daemon_agent (length code.now.sites))
        (daemon_mark (length code.now.sites)) code.now.daemon site.old site.new) }
{
    let here = site.number() == 0;
    let agent = own(code, DAEMON);
    let mark = own(code, DAEMON_MARK);
    settle_if(alloc, code, site, here, agent, mark, code.daemon_root())
}

/// A site with the agents that stand there at the start.
fn first_site(alloc: Global, code: &Code, number: u32, budget: u32) -> Result<Site, Memory>
    requires number { (number < length code.now.sites) × (length code.now.sites < 2 ^ 32) }
    requires budget { budget ≤ LARGEST_BUDGET }
    ensures { IfOk result (IsFirstSite code.now budget number) }
{
    let mut site = Site::new(alloc, number, code.sites(), budget)?;
    settle_main(alloc, code, &mut site)?;
    settle_daemon(alloc, code, &mut site)?;
    Ok(site)
}

/// A seat with such a site, at its port.
fn first_seat<P>(
    alloc: Global,
    code: &Code,
    budget: u32,
    number: u32,
    port: P,
) -> Result<Seat<P>, Memory>
where
    P: Drop,
    requires number { (number < length code.now.sites) × (length code.now.sites < 2 ^ 32) }
    requires budget { budget ≤ LARGEST_BUDGET }
    ensures { IfOk result (IsFirst code.now budget number port) }
{
    let site = first_site(alloc, code, number, budget)?;
    Ok(Seat {
        site,
        port,
        aside: None,
        budget,
        failed: false,
        waits: false,
    })
}

/// A seat for each port.
pub fn seats_for<P>(
    alloc: Global,
    code: &Code,
    budget: u32,
    ports: Vec<P>,
) -> Result<Vec<Seat<P>>, Memory>
where
    P: Drop,
    requires ports { (length ports.items ≡ length code.now.sites) × (length code.now.sites < 2 ^ 32) }
    requires budget { budget ≤ LARGEST_BUDGET }
    ensures { IfOk result (λ seats. AreFirst code.now budget ports.items seats.items) }
{
    let mut seats = Vec::new(alloc);
    let mut number = 0u32;
    for port in ports {
        let seat = first_seat(alloc, code, budget, number, port)?;
        seats.push(seat)?;
        number = number.wrapping_add(1);
    }
    Ok(seats)
}

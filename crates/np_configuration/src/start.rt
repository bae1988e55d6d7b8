ghost use Rattle.std.specs.Prelude.{◌≡◌, ◌<◌, ◌^◌, true, length, map, IfOk, OnOk};
ghost use Rattle.std.specs.FinSet as set;
ghost use Rattle.np_calculus.specs.Starts.{start_high, start_low, first_atom, main_agent, main_mark, names_alone, own, with_agent};
ghost use Rattle.np_calculus.specs.Starts.{with_all};

use super::cfg::{Cfg, Near};
use super::filing::put_filed;
use super::places::Places;
use np_calculus::{Atom, DAEMON, DAEMON_MARK, MAIN, MAIN_MARK, Place};
use np_eval::Frame;
use np_syntax::{List, LowProgram, Memory, Name, Proc, Program};
use np_tables::{Names, Table, WorkLists};
use std::alloc::Global;

const OWN_NUMBERS: [u32; 17] = [0, 1, 2, 3, 4, 5, 6, 7, 8, 9, 10, 11, 12, 13, 14, 15, 16];

/// The names of these numbers that a program of so many sites has for its own.
fn names_of(alloc: Global, sites: u32, numbers: &[u32]) -> Result<Names, Memory>
    ensures { IfOk result (λ names. names.members ≡ with_all set.empty (map (own sites) numbers.now)) }
{
    let mut names = Names::new(alloc);
    for n in numbers {
        names.insert(Name { site: sites, n: *n })?;
    }
    Ok(names)
}

/// The names of a program of so many sites, and nothing else.
fn names_alone(alloc: Global, sites: u32) -> Result<Cfg, Memory>
    ensures { IfOk result (λ c. c ≡ names_alone sites) }
{
    let born = names_of(alloc, sites, &OWN_NUMBERS)?;
    Ok(Cfg {
        sites,
        places: Places::new(alloc),
        atoms: Table::new(alloc),
        packets: Table::new(alloc),
        born,
        said: List::new(alloc),
        work: WorkLists::new(alloc),
        near: Near::nothing(),
    })
}

/// The first atom of an agent, which shares its process.
fn first_atom(alloc: Global, agent: Name, proc: &Proc) -> Result<Atom, Memory>
    ensures { IfOk result (λ atom. atom ≡ first_atom agent proc.now) }
{
    let proc = proc.copy(alloc)?;
    let env = Frame::new(alloc);
    Ok(Atom { agent, proc, env })
}

impl Cfg {
    /// One agent more, at a site, with its first atom under a mark that is born.
    fn add_agent(
        &mut self,
        alloc: Global,
        agent: Name,
        site: u32,
        mark: Name,
        proc: &Proc,
    ) -> Result<(), Memory>
        requires { set.contains self.old.born mark ≡ true }
        ensures { OnOk result (self.new ≡ with_agent self.old agent site mark proc.now) }
    {
        self.places.reserve(1)?;
        let atom = first_atom(alloc, agent, proc)?;
        put_filed(&mut self.atoms, &mut self.work, mark, atom)?;
        self.places.put(agent, Place::At(site));
        Ok(())
    }
}

/// Main alone, at a site, with its process.
fn with_main(alloc: Global, sites: u32, at: u32, main: &Proc) -> Result<Cfg, Memory>
    ensures { IfOk result (λ c. c ≡ with_agent (names_alone sites) (main_agent sites) at (main_mark sites) main.now) }
{
    let mut start = names_alone(alloc, sites)?;
    let agent = Name {
        site: sites,
        n: MAIN,
    };
    let mark = Name {
        site: sites,
        n: MAIN_MARK,
    };
    match start.add_agent(alloc, agent, at, mark, main) {
        Ok(()) => Ok(start),
        Err(memory) => {
            drop(start);
            Err(memory)
        }
    }
}

/// Main at its site, with its process.
pub fn start_high(alloc: Global, p: &Program) -> Result<Cfg, Memory>
    requires { length p.now.sites < 2 ^ 32 }
    ensures { IfOk result (λ c. c ≡ start_high p.now) }
{
    let sites = p.sites.len() as u32;
    with_main(alloc, sites, p.at, &p.main)
}

/// Main at its site and the daemon at the first one, each with its process.
pub fn start_low(alloc: Global, q: &LowProgram) -> Result<Cfg, Memory>
    requires { length q.now.sites < 2 ^ 32 }
    ensures { IfOk result (λ c. c ≡ start_low q.now) }
{
    let sites = q.sites.len() as u32;
    let mut start = with_main(alloc, sites, q.at, &q.main)?;
    let agent = Name {
        site: sites,
        n: DAEMON,
    };
    let mark = Name {
        site: sites,
        n: DAEMON_MARK,
    };
    match start.add_agent(alloc, agent, 0, mark, &q.daemon) {
        Ok(()) => Ok(start),
        Err(memory) => {
            drop(start);
            Err(memory)
        }
    }
}

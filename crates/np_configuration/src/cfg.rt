ghost use Rattle.std.specs.Prelude.{◌≡◌, ◌↔◌, IfOk, IfSome, IfNone, IsTrue};
ghost use Rattle.std.specs.Option.{option_copied};
ghost use Rattle.std.specs.FinMap as map;
ghost use Rattle.np_calculus.specs.Idle.{Idle};
ghost use Rattle.np_calculus.specs.Seen.{acting, fresh, is_at, offered, site_of};
ghost use Rattle.np_configuration.specs.Next.{IsNext};

use super::going::any_may_act;
use super::places::Places;
use super::step::Step;
use np_calculus::{Atom, Packet, Place};
use np_eval::{Frame, chan_of, eval};
use np_syntax::{Event, Expr, List, Memory, Name, ProcForm, Value};
use np_tables::{Names, Ready, Table, WorkLists};
use std::alloc::Global;
use std::marker::Model;

/// Where the atom that is next to act stands, and where its agent's place does. They may be stale: who looks there looks
/// for the name too.
#[derive(Clone, Copy)]
pub(super) struct Near {
    atom: usize,
    place: usize,
}

impl Near {
    pub(super) fn nothing() -> Near {
        Near { atom: 0, place: 0 }
    }
}

/// A configuration, seen as the record of its definition. Beside it work lists keep what each atom waits
/// for, so that what can act is found without a walk over the atoms.
pub struct Cfg {
    pub(super) sites: u32,
    pub(super) places: Places,
    pub(super) atoms: Table<Atom>,
    pub(super) packets: Table<Packet>,
    pub(super) born: Names,
    pub(super) said: List<(u32, Value)>,
    pub(super) work: WorkLists,
    pub(super) near: Near,
}

impl Drop for Cfg {
    fn drop(self) {
        let Cfg {
            sites: _,
            places: _,
            atoms: _,
            packets: _,
            born: _,
            said: _,
            work: _,
            near: _,
        } = self;
    }
}

impl Model for Cfg {
    ghost use Rattle.np_calculus.specs.Config.{Config};

    ghost Value = { Config };

    ghost use Rattle.np_configuration.specs.ConfigCode.{config_code};

    ghost coded = { config_code };

    ghost view = { λ cfg. record {
      sites = cfg.sites;
      places = cfg.places.items;
      atoms = cfg.atoms.items;
      packets = cfg.packets.items;
      born = cfg.born.members;
      said = cfg.said;
    } };

    ghost use Rattle.np_configuration.specs.Errands.{IsKept};

    ghost invariant = { λ cfg. IsKept cfg.work cfg.atoms.items cfg.packets.items cfg.born.members };
}

impl Cfg {
    /// How many sites the program has.
    pub fn sites(&self) -> u32
        ensures { result ≡ self.now.sites }
    {
        self.sites
    }

    /// Where an agent is.
    pub fn place(&self, agent: Name) -> Option<Place>
        ensures { result ≡ map.get self.now.places agent }
    {
        self.places.get_near(self.near.place, agent)
    }

    /// The atom of a mark.
    pub fn atom(&self, mark: Name) -> Option<&Atom>
        ensures { option_copied result ≡ map.get self.now.atoms mark }
    {
        self.atoms.get_near(self.near.atom, mark)
    }

    /// The packet of a mark.
    pub fn packet(&self, mark: Name) -> Option<&Packet>
        ensures { option_copied result ≡ map.get self.now.packets mark }
    {
        self.packets.get(mark)
    }

    /// What was printed, with the sites, in order.
    pub fn said(&self) -> &[(u32, Value)]
        ensures { result.now ≡ self.now.said }
    {
        self.said.as_slice()
    }

    /// The acting atom of an event.
    pub(super) fn acting(&self, e: &Event) -> Option<&Atom>
        ensures { option_copied result ≡ acting self.now e.now }
    {
        let atom = self.atom(e.actor)?;
        let place = self.place(atom.agent)?;
        match place {
            Place::At(site) if site == e.site && atom.proc.tag == e.tag => Some(atom),
            _ => None,
        }
    }

    /// The name is not born yet.
    pub(super) fn fresh(&self, name: Name) -> Option<()>
        ensures { result ≡ fresh self.now name }
    {
        if self.born.has(name) { None } else { Some(()) }
    }

    /// The site of the program that an expression names.
    pub(super) fn site_of(
        &self,
        alloc: Global,
        e: &Expr,
        env: &Frame,
    ) -> Result<Option<u32>, Memory>
        ensures { IfOk result (λ site. site ≡ site_of self.now e.now env.now) }
    {
        match &eval(alloc, e, env)? {
            Some(Value::Site(site)) if *site < self.sites => Ok(Some(*site)),
            _ => Ok(None),
        }
    }

    /// Whether an agent is at a site.
    pub fn is_at(&self, agent: Name, site: u32) -> bool
        ensures { result ≡ is_at self.now agent site }
    {
        self.places.is_at(agent, site)
    }

    /// The value that the atom of a mark, in this agent, outputs on this channel.
    pub(super) fn offered(
        &self,
        alloc: Global,
        mark: Name,
        agent: Name,
        chan: Name,
    ) -> Result<Option<Value>, Memory>
        ensures { IfOk result (λ value. value ≡ offered self.now mark agent chan) }
    {
        let Some(mate) = self.atoms.get(mark) else {
            return Ok(None);
        };
        if agent != mate.agent {
            return Ok(None);
        }
        let ProcForm::Out(on, value) = mate.proc.form.get() else {
            return Ok(None);
        };
        if chan_of(on, &mate.env) != Some(chan) {
            return Ok(None);
        }
        eval(alloc, value, &mate.env)
    }

    /// What happens next: an agent under way arrives, else a packet lands, else atoms go on.
    pub fn next(&mut self) -> Option<Step>
        ensures same { self.new ≡ self.old }
        ensures next { IfSome result (IsNext self.old) }
        ensures none { IfNone result (Idle self.old) }
    {
        if let Some((agent, site)) = self.places.under_way() {
            return Some(Step::Arrives(agent, site));
        }
        if self.packets.len() > 0 {
            return Some(Step::Lands(self.packets.key(0)));
        }
        let ready = self.work.next()?;
        self.near = self.near_of(ready);
        Some(Step::Goes(ready))
    }

    /// Where the atom that acts in this stands, and its agent's place.
    fn near_of(&self, ready: Ready) -> Near {
        let (Ready::Acts(actor) | Ready::Meets(actor, _)) = ready;
        let atom = self.atoms.index(actor).unwrap_or(0);
        let place = match self.atoms.get_near(atom, actor) {
            Some(acting) => self.places.index(acting.agent).unwrap_or(0),
            None => 0,
        };
        Near { atom, place }
    }

    /// Whether no site can act. It takes no memory. Where nothing is ready, and where something is under way, it walks
    /// over nothing; else over the atoms, since those of an agent that has no place stand in the work lists and act
    /// nowhere.
    pub fn idle(&self) -> bool
        ensures { IsTrue result ↔ Idle self.now }
    {
        if !self.packets.is_empty() {
            return false;
        }
        if self.places.under_way().is_some() {
            return false;
        }
        if self.work.is_quiet() {
            return true;
        }
        !any_may_act(&self.atoms, &self.places)
    }
}

//! The event of a choice.

ghost use Rattle.std.specs.Prelude.{◌≡◌, IfOk};
ghost use Rattle.np_calculus.specs.declared.config.Place.TheVariants as place;
ghost use Rattle.np_eval.specs.Forms.{layer};
ghost use Rattle.np_calculus.specs.Begins.{arrival, begun_by, landing, made_by, made_there};
ghost use Rattle.run_choices.specs.Choices.{arrives, begun, begun_at, event_by, lands};

use super::choice::Choice;
use np_calculus::{Atom, Packet, Place};
use np_configuration::Cfg;
use np_eval::agent_of;
use np_syntax::{Event, Kind, Made, Memory, Name, Proc, ProcForm, Role, Tag};
use std::alloc::Global;

/// The names that an event may make: the next ones that nothing has yet.
#[derive(Clone, Copy)]
pub struct Fresh {
    pub first: Name,
    pub second: Name,
}

/// The event of a choice, which makes no names but these; none where it is no choice of the configuration.
pub fn event_of(
    alloc: Global,
    c: &Cfg,
    choice: Choice,
    fresh: Fresh,
) -> Result<Option<Event>, Memory>
    ensures { IfOk result (λ event. event ≡ event_by c.now choice fresh.first fresh.second) }
{
    match choice {
        Choice::Arrives(agent) => Ok(arrives(c, agent)),
        Choice::Lands(mark) => Ok(lands(c, mark)),
        Choice::Acts(mark) => begun(alloc, c, mark, None, fresh),
        Choice::Meets(input, output) => begun(alloc, c, input, Some(output), fresh),
    }
}

/// The event of an agent that is under way.
fn arrives(c: &Cfg, agent: Name) -> Option<Event>
    ensures { result ≡ arrives c.now agent }
{
    match c.place(agent)? {
        Place::Way(site) => Some(arrival(agent, site)),
        Place::At(_) => None,
    }
}

/// The event of a packet that is under way.
fn lands(c: &Cfg, mark: Name) -> Option<Event>
    ensures { result ≡ lands c.now mark }
{
    Some(landing(mark, c.packet(mark)?))
}

/// The event of an agent that arrives.
fn arrival(agent: Name, site: u32) -> Event
    ensures { result ≡ arrival agent site }
{
    let tag = Tag {
        node: 0,
        role: Role::Plain,
    };
    Event {
        site,
        kind: Kind::Arrive,
        actor: agent,
        other: None,
        tag,
        made: Made::Nothing,
    }
}

/// The event of a packet that lands.
fn landing(mark: Name, packet: &Packet) -> Event
    ensures { result ≡ landing mark packet.now }
{
    Event {
        site: packet.to,
        kind: Kind::Land,
        actor: mark,
        other: None,
        tag: packet.tag,
        made: Made::Nothing,
    }
}

/// The event that the atom of a mark begins, alone or with an output that it takes.
fn begun(
    alloc: Global,
    c: &Cfg,
    mark: Name,
    other: Option<Name>,
    fresh: Fresh,
) -> Result<Option<Event>, Memory>
    ensures { IfOk result (λ event. event ≡ begun c.now mark other fresh.first fresh.second) }
{
    let Some(atom) = c.atom(mark) else {
        return Ok(None);
    };
    match c.place(atom.agent) {
        Some(Place::At(site)) => begun_at(alloc, c, site, mark, other, atom, fresh),
        Some(Place::Way(site)) => Ok(Some(arrival(atom.agent, site))),
        None => Ok(None),
    }
}

/// The same, where its agent stands at this site.
fn begun_at(
    alloc: Global,
    c: &Cfg,
    site: u32,
    actor: Name,
    other: Option<Name>,
    atom: &Atom,
    fresh: Fresh,
) -> Result<Option<Event>, Memory>
    ensures { IfOk result (λ event. event ≡ begun_at c.now actor other fresh.first fresh.second atom.now (place.At site)) }
{
    let Some(kind) = begun_by(&atom.proc) else {
        return Ok(None);
    };
    let made = made_by(alloc, c, site, atom, fresh)?;
    Ok(Some(Event {
        site,
        kind,
        actor,
        other,
        tag: atom.proc.tag,
        made,
    }))
}

/// The kind of event that an atom of this process begins; an output only waits.
fn begun_by(p: &Proc) -> Option<Kind>
    ensures { result ≡ begun_by (layer p.now) }
{
    match p.form.get() {
        ProcForm::Stop => Some(Kind::Stop),
        ProcForm::Par(_, _) => Some(Kind::Fork),
        ProcForm::New(_, _, _) => Some(Kind::New),
        ProcForm::Out(_, _) => None,
        ProcForm::Inp(_, _, _) => Some(Kind::Comm),
        ProcForm::Rep(_, _, _) => Some(Kind::Rep),
        ProcForm::Agent(_, _, _) => Some(Kind::Agent),
        ProcForm::Migrate(_, _) => Some(Kind::Depart),
        ProcForm::IfLocal(_, _, _, _, _) => Some(Kind::Local),
        ProcForm::Send(_, _, _, _) => Some(Kind::Send),
        ProcForm::Post(_, _, _) => Some(Kind::Post),
        ProcForm::If(_, _, _) => Some(Kind::If),
        ProcForm::Let(_, _, _) => Some(Kind::Let),
        ProcForm::Print(_) => Some(Kind::Print),
        ProcForm::Open(_) => Some(Kind::Open),
        ProcForm::Lookup(_, _, _, _, _) => Some(Kind::Lookup),
    }
}

/// What an atom makes at a site, where these are the next names.
fn made_by(alloc: Global, c: &Cfg, site: u32, atom: &Atom, fresh: Fresh) -> Result<Made, Memory>
    ensures { IfOk result (λ made. made ≡ made_by c.now site atom.now.env (layer atom.now.proc) fresh.first fresh.second) }
{
    match atom.proc.form.get() {
        ProcForm::Par(_, _) => Ok(Made::One(fresh.first)),
        ProcForm::New(_, _, _) => Ok(Made::One(fresh.first)),
        ProcForm::Agent(_, _, _) => Ok(Made::Two(fresh.first, fresh.second)),
        ProcForm::IfLocal(agent, _, _, _, _) => {
            let agent = agent_of(alloc, agent, &atom.env)?;
            Ok(made_there(c, site, agent, fresh.first))
        }
        _ => Ok(Made::Nothing),
    }
}

/// A location test makes a name where it finds its agent.
fn made_there(c: &Cfg, site: u32, agent: Option<Name>, first: Name) -> Made
    ensures { result ≡ made_there c.now site agent first }
{
    match agent {
        Some(agent) if c.is_at(agent, site) => Made::One(first),
        _ => Made::Nothing,
    }
}

ghost use Rattle.std.specs.Prelude.{◌≡◌, Some, IfOk};
ghost use Rattle.std.specs.FinMap as map;
ghost use Rattle.np_calculus.specs.declared.config.Place.TheVariants as place;
ghost use Rattle.np_configuration.specs.declared.step.Step.TheVariants as step;
ghost use Rattle.np_eval.specs.Forms.{layer};
ghost use Rattle.np_configuration.specs.Next.{IsNext};
ghost use Rattle.np_serial.specs.Serial.{IsEnabled, IsReached, Stands, actor_of, taken_by};
ghost use Rattle.np_calculus.specs.Begins.{AreNew, arrival, begun_by, landing, made_by, made_there};

use np_calculus::{Atom, Packet, Place};
use np_configuration::{Cfg, Step};
use np_eval::agent_of;
use np_syntax::{Event, Kind, Made, Memory, Name, Proc, ProcForm, Role, Tag};
use np_tables::Ready;
use std::alloc::Global;

/// The event of the next step. It makes no names but these.
pub fn event_of(
    alloc: Global,
    c: &Cfg,
    step: Step,
    first: Name,
    second: Name,
) -> Result<Event, Memory>
    requires reached { IsReached c.now }
    requires next { IsNext c.now step }
    requires new { AreNew c.now first second }
    ensures { IfOk result (λ e. IsEnabled c.now e first second) }
{
    match step {
        Step::Arrives(agent, site) => Ok(arrival(agent, site)),
        Step::Lands(mark) => match c.packet(mark) {
            Some(packet) => Ok(landing(mark, packet)),
            None => unreachable!(),
        },
        Step::Goes(ready) => begun(alloc, c, ready, first, second),
    }
}

/// The event of an agent that arrives.
fn arrival(agent: Name, site: u32) -> Event
    ensures { result ≡ arrival agent site }
{
    let tag = Tag {
        node: 0,
        role: Role::Plain,
    };
    Event {
        site,
        kind: Kind::Arrive,
        actor: agent,
        other: None,
        tag,
        made: Made::Nothing,
    }
}

/// The event of a packet that lands.
fn landing(mark: Name, packet: &Packet) -> Event
    ensures { result ≡ landing mark packet.now }
{
    Event {
        site: packet.to,
        kind: Kind::Land,
        actor: mark,
        other: None,
        tag: packet.tag,
        made: Made::Nothing,
    }
}

/// The event of the atoms that go on.
fn begun(alloc: Global, c: &Cfg, ready: Ready, first: Name, second: Name) -> Result<Event, Memory>
    requires reached { IsReached c.now }
    requires next { IsNext c.now (step.Goes ready) }
    requires new { AreNew c.now first second }
    ensures { IfOk result (λ e. IsEnabled c.now e first second) }
{
    let actor = actor_of(ready);
    let Some(atom) = c.atom(actor) else {
        unreachable!();
    };
    let Some(kind) = begun_by(&atom.proc) else {
        unreachable!();
    };
    let site = site_of(c, atom.agent);
    let made = made_by(alloc, c, site, atom, first, second)?;
    Ok(Event {
        site,
        kind,
        actor,
        other: taken_by(ready),
        tag: atom.proc.tag,
        made,
    })
}

/// The mark of the atom that acts.
fn actor_of(ready: Ready) -> Name
    ensures { result ≡ actor_of ready }
{
    match ready {
        Ready::Acts(mark) => mark,
        Ready::Meets(input, _) => input,
    }
}

/// The mark of the output that it takes.
fn taken_by(ready: Ready) -> Option<Name>
    ensures { result ≡ taken_by ready }
{
    match ready {
        Ready::Acts(_) => None,
        Ready::Meets(_, output) => Some(output),
    }
}

/// The kind of event that an atom of this process begins; an output only waits.
fn begun_by(p: &Proc) -> Option<Kind>
    ensures { result ≡ begun_by (layer p.now) }
{
    match p.form.get() {
        ProcForm::Stop => Some(Kind::Stop),
        ProcForm::Par(_, _) => Some(Kind::Fork),
        ProcForm::New(_, _, _) => Some(Kind::New),
        ProcForm::Out(_, _) => None,
        ProcForm::Inp(_, _, _) => Some(Kind::Comm),
        ProcForm::Rep(_, _, _) => Some(Kind::Rep),
        ProcForm::Agent(_, _, _) => Some(Kind::Agent),
        ProcForm::Migrate(_, _) => Some(Kind::Depart),
        ProcForm::IfLocal(_, _, _, _, _) => Some(Kind::Local),
        ProcForm::Send(_, _, _, _) => Some(Kind::Send),
        ProcForm::Post(_, _, _) => Some(Kind::Post),
        ProcForm::If(_, _, _) => Some(Kind::If),
        ProcForm::Let(_, _, _) => Some(Kind::Let),
        ProcForm::Print(_) => Some(Kind::Print),
        ProcForm::Open(_) => Some(Kind::Open),
        ProcForm::Lookup(_, _, _, _, _) => Some(Kind::Lookup),
    }
}

/// The site at which an agent stands.
fn site_of(c: &Cfg, agent: Name) -> u32
    requires { Stands c.now agent }
    ensures { map.get c.now.places agent ≡ Some (place.At result) }
{
    match c.place(agent) {
        Some(Place::At(site)) => site,
        Some(Place::Way(_)) => unreachable!(),
        None => unreachable!(),
    }
}

/// What an atom makes at a site, where these are the next names.
fn made_by(
    alloc: Global,
    c: &Cfg,
    site: u32,
    atom: &Atom,
    first: Name,
    second: Name,
) -> Result<Made, Memory>
    ensures { IfOk result (λ made. made ≡ made_by c.now site atom.now.env (layer atom.now.proc) first second) }
{
    match atom.proc.form.get() {
        ProcForm::Par(_, _) => Ok(Made::One(first)),
        ProcForm::New(_, _, _) => Ok(Made::One(first)),
        ProcForm::Agent(_, _, _) => Ok(Made::Two(first, second)),
        ProcForm::IfLocal(agent, _, _, _, _) => {
            let agent = agent_of(alloc, agent, &atom.env)?;
            Ok(made_there(c, site, agent, first))
        }
        _ => Ok(Made::Nothing),
    }
}

/// A location test makes a name where it finds its agent.
fn made_there(c: &Cfg, site: u32, agent: Option<Name>, first: Name) -> Made
    ensures { result ≡ made_there c.now site agent first }
{
    match agent {
        Some(agent) if c.is_at(agent, site) => Made::One(first),
        _ => Made::Nothing,
    }
}

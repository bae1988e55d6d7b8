//! What an event touches, and what it writes.

ghost use Rattle.std.specs.Prelude.{◌≡◌, IfOk};
ghost use Rattle.np_calculus.specs.Footprints.{listed, touches};
ghost use Rattle.np_calculus.specs.Sight.{inside};
ghost use Rattle.run_views.specs.Past.{made_agent, writes};
ghost use Rattle.run_views.specs.Touching.{IsActing, asked_in, bound_at, touched_as, written_as};

use super::turning::agent_at;
use np_calculus::Atom;
use np_configuration::Cfg;
use np_eval::{agent_of, as_iflocal};
use np_syntax::{Event, Kind, Made, Memory, Name};
use std::alloc::Global;

/// The marks that an event touches, and the agents whose places it touches.
#[derive(Clone, Copy)]
pub(super) struct Touched {
    pub actor: Option<Name>,
    pub other: Option<Name>,
    pub agent: Option<Name>,
    pub asked: Option<Name>,
}

/// The marks that an event writes, and the agent whose place it writes.
#[derive(Clone, Copy)]
pub(super) struct Written {
    pub actor: Option<Name>,
    pub other: Option<Name>,
    pub made: Made,
    pub agent: Option<Name>,
}

/// What an event touches in a configuration.
pub(super) fn touched_by(alloc: Global, reached: &Cfg, event: &Event) -> Result<Touched, Memory>
    ensures { IfOk result (λ found. touched_as found ≡ touches event.now.kind (inside reached.now) event.now) }
{
    match event.kind {
        Kind::Arrive => Ok(Touched {
            actor: None,
            other: None,
            agent: Some(event.actor),
            asked: None,
        }),
        Kind::Land => Ok(Touched {
            actor: Some(event.actor),
            other: None,
            agent: bound_for(reached, event.actor),
            asked: None,
        }),
        _ => touched_acting(alloc, reached, event),
    }
}

/// The agent to which the packet of a mark goes.
fn bound_for(reached: &Cfg, mark: Name) -> Option<Name>
    ensures { result ≡ bound_at reached.now mark }
{
    Some(reached.packet(mark)?.agent)
}

/// What the event of an atom touches.
fn touched_acting(alloc: Global, reached: &Cfg, event: &Event) -> Result<Touched, Memory>
    ensures { IfOk result (IsActing reached.now event.now) }
{
    let actor = Some(event.actor);
    let other = event.other;
    let Some(atom) = reached.atom(event.actor) else {
        return Ok(Touched {
            actor,
            other,
            agent: None,
            asked: None,
        });
    };
    let agent = Some(atom.agent);
    let asked = asked_in(alloc, atom)?;
    Ok(Touched {
        actor,
        other,
        agent,
        asked,
    })
}

/// The agent for which a location test asks.
fn asked_in(alloc: Global, atom: &Atom) -> Result<Option<Name>, Memory>
    ensures { IfOk result (λ asked. asked ≡ asked_in atom.now) }
{
    match as_iflocal(&atom.proc) {
        Some((agent, _, _, _, _)) => agent_of(alloc, agent, &atom.env),
        None => Ok(None),
    }
}

/// What an event writes in a configuration.
pub(super) fn written_by(reached: &Cfg, event: &Event) -> Written
    ensures { written_as result ≡ writes event.now.kind (inside reached.now) event.now }
{
    match event.kind {
        Kind::Arrive => Written {
            actor: None,
            other: None,
            made: Made::Nothing,
            agent: Some(event.actor),
        },
        Kind::Rep => Written {
            actor: None,
            other: event.other,
            made: event.made,
            agent: None,
        },
        Kind::Agent => with_marks(event, made_agent(event.made)),
        Kind::Depart => with_marks(event, agent_at(reached, event.actor)),
        _ => with_marks(event, None),
    }
}

/// The marks of an event, and an agent whose place it writes.
fn with_marks(event: &Event, agent: Option<Name>) -> Written
    ensures { result ≡ record { actor = Some event.now.actor; other = event.now.other; made = event.now.made; agent = agent } }
{
    Written {
        actor: Some(event.actor),
        other: event.other,
        made: event.made,
        agent,
    }
}

/// The agent that an event makes.
fn made_agent(made: Made) -> Option<Name>
    ensures { listed result ≡ made_agent made }
{
    match made {
        Made::Two(agent, _) => Some(agent),
        _ => None,
    }
}

//! Conditions on what acts.

ghost use Rattle.std.specs.Prelude.{◌≡◌, is_some};
ghost use Rattle.np_calculus.specs.NotEnabled.{asks};
ghost use Rattle.np_calculus.specs.Sight.{inside};
ghost use Rattle.np_eval.specs.Forms.{layer};
ghost use Rattle.history_conditions.specs.Conditions.{actor_stands, has_node, has_role, is_at_its_site, is_of_kind, owner};

use np_calculus::Place;
use np_configuration::Cfg;
use np_eval::{
    as_agent_form, as_if, as_iflocal, as_inp, as_let, as_lookup, as_migrate, as_new, as_open,
    as_par, as_post, as_print, as_rep, as_send, as_stop,
};
use np_syntax::{Event, Kind, Proc, Role, Tag};

/// Whether what acts is there.
pub(super) fn actor_stands(reached: &Cfg, event: &Event) -> bool
    ensures { result ≡ actor_stands event.now.kind (inside reached.now) event.now.actor }
{
    match event.kind {
        Kind::Arrive => match reached.place(event.actor) {
            Some(Place::Way(_)) => true,
            _ => false,
        },
        Kind::Land => match reached.packet(event.actor) {
            Some(_) => true,
            None => false,
        },
        _ => match reached.atom(event.actor) {
            Some(_) => true,
            None => false,
        },
    }
}

/// Whether the event is where what acts goes or is.
pub(super) fn is_at_its_site(reached: &Cfg, event: &Event) -> bool
    ensures { result ≡ is_at_its_site event.now.kind (inside reached.now) event.now }
{
    match event.kind {
        Kind::Arrive => match reached.place(event.actor) {
            Some(Place::Way(site)) => site == event.site,
            _ => false,
        },
        Kind::Land => match reached.packet(event.actor) {
            Some(packet) => packet.to == event.site,
            None => false,
        },
        _ => match reached.atom(event.actor) {
            Some(atom) => reached.is_at(atom.agent, event.site),
            None => false,
        },
    }
}

/// Whether a process makes events of a kind.
fn asks(kind: Kind, proc: &Proc) -> bool
    ensures { result ≡ asks kind (layer proc.now) }
{
    match kind {
        Kind::Stop => as_stop(proc).is_some(),
        Kind::Fork => as_par(proc).is_some(),
        Kind::New => as_new(proc).is_some(),
        Kind::Let => as_let(proc).is_some(),
        Kind::If => as_if(proc).is_some(),
        Kind::Comm => as_inp(proc).is_some(),
        Kind::Rep => as_rep(proc).is_some(),
        Kind::Agent => as_agent_form(proc).is_some(),
        Kind::Depart => as_migrate(proc).is_some(),
        Kind::Local => as_iflocal(proc).is_some(),
        Kind::Send => as_send(proc).is_some(),
        Kind::Print => as_print(proc).is_some(),
        Kind::Open => as_open(proc).is_some(),
        Kind::Lookup => as_lookup(proc).is_some(),
        Kind::Post => as_post(proc).is_some(),
        Kind::Arrive | Kind::Land => false,
    }
}

/// Whether the process of the atom makes events of the kind.
pub(super) fn is_of_kind(reached: &Cfg, event: &Event) -> bool
    ensures { result ≡ is_of_kind event.now.kind (inside reached.now) event.now.actor }
{
    match event.kind {
        Kind::Arrive | Kind::Land => true,
        kind => match reached.atom(event.actor) {
            Some(atom) => asks(kind, &atom.proc),
            None => false,
        },
    }
}

/// The tag that the row asks for.
fn owner(reached: &Cfg, event: &Event) -> Option<Tag>
    ensures { result ≡ owner event.now.kind (inside reached.now) event.now.actor }
{
    match event.kind {
        Kind::Arrive => Some(Tag {
            node: 0,
            role: Role::Plain,
        }),
        Kind::Land => match reached.packet(event.actor) {
            Some(packet) => Some(packet.tag),
            None => None,
        },
        _ => match reached.atom(event.actor) {
            Some(atom) => Some(atom.proc.tag),
            None => None,
        },
    }
}

/// Whether the event has the node that the row asks for.
pub(super) fn has_node(reached: &Cfg, event: &Event) -> bool
    ensures { result ≡ has_node event.now.kind (inside reached.now) event.now }
{
    match owner(reached, event) {
        Some(tag) => tag.node == event.tag.node,
        None => false,
    }
}

/// Whether the event has the role that the row asks for.
pub(super) fn has_role(reached: &Cfg, event: &Event) -> bool
    ensures { result ≡ has_role event.now.kind (inside reached.now) event.now }
{
    match owner(reached, event) {
        Some(tag) => tag.role == event.tag.role,
        None => false,
    }
}

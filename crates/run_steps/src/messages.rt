//! The messages of events: what is sent and what comes.

ghost use Rattle.std.specs.Prelude.{◌≡◌, IfOk};
ghost use Rattle.run_steps.specs.Messages as spec;

use np_calculus::{Atom, Packet};
use np_configuration::Cfg;
use np_eval::{chan_of, eval};
use np_syntax::{Event, Kind, Made, Memory, Name, ProcForm, Role};
use run_pictures::Message;
use std::alloc::Global;

/// The message that an atom is, if it is an output.
fn output_of(alloc: Global, atom: &Atom) -> Result<Option<Message>, Memory>
    ensures { IfOk result (λ message. message ≡ spec.output_of atom.now) }
{
    let ProcForm::Out(chan, value) = atom.proc.form.get() else {
        return Ok(None);
    };
    let Some(chan) = chan_of(chan, &atom.env) else {
        return Ok(None);
    };
    match eval(alloc, value, &atom.env)? {
        Some(value) => Ok(Some(Message { chan, value })),
        None => Ok(None),
    }
}

/// The message that the atom of a mark is, if there is one.
fn output_at(alloc: Global, reached: &Cfg, mark: Name) -> Result<Option<Message>, Memory>
    ensures { IfOk result (λ message. message ≡ spec.output_at reached.now mark) }
{
    match reached.atom(mark) {
        Some(atom) => output_of(alloc, atom),
        None => Ok(None),
    }
}

/// The message in a packet.
fn parcel_of(alloc: Global, packet: &Packet) -> Result<Message, Memory>
    ensures { IfOk result (λ message. message ≡ spec.parcel_of packet.now) }
{
    let value = packet.value.copy(alloc)?;
    Ok(Message {
        chan: packet.chan,
        value,
    })
}

/// The message in the packet of a mark, if there is one.
fn parcel_at(alloc: Global, reached: &Cfg, mark: Name) -> Result<Option<Message>, Memory>
    ensures { IfOk result (λ message. message ≡ spec.parcel_at reached.now mark) }
{
    match reached.packet(mark) {
        Some(packet) => Ok(Some(parcel_of(alloc, packet)?)),
        None => Ok(None),
    }
}

/// What an event of a role takes, where it takes the output of this mark.
fn taken_at(
    alloc: Global,
    reached: &Cfg,
    role: Role,
    other: Option<Name>,
) -> Result<Option<Message>, Memory>
    ensures { IfOk result (λ message. message ≡ spec.taken_at reached.now role other) }
{
    match role {
        Role::Infra => Ok(None),
        Role::Plain | Role::Post => match other {
            Some(mark) => output_at(alloc, reached, mark),
            None => Ok(None),
        },
    }
}

/// What comes or is taken by an event, as it stands before the event.
pub(super) fn coming_in(
    alloc: Global,
    reached: &Cfg,
    event: &Event,
) -> Result<Option<Message>, Memory>
    ensures { IfOk result (λ message. message ≡ spec.coming event.now.kind reached.now event.now) }
{
    match event.kind {
        Kind::Land => parcel_at(alloc, reached, event.actor),
        _ => taken_at(alloc, reached, event.tag.role, event.other),
    }
}

/// What is sent by an event, as it stands after the event.
pub(super) fn going_in(
    alloc: Global,
    reached: &Cfg,
    event: &Event,
) -> Result<Option<Message>, Memory>
    ensures { IfOk result (λ message. message ≡ spec.going event.now.kind reached.now event.now) }
{
    match event.kind {
        Kind::Send => parcel_at(alloc, reached, event.actor),
        Kind::Post => output_at(alloc, reached, event.actor),
        Kind::Local => match event.made {
            Made::One(mark) => output_at(alloc, reached, mark),
            Made::Nothing | Made::Two(_, _) => Ok(None),
        },
        _ => Ok(None),
    }
}

/// The first, if there is one.
pub(super) fn either(first: Option<Message>, second: Option<Message>) -> Option<Message>
    ensures { result ≡ spec.either first second }
{
    match first {
        Some(message) => {
            drop(second);
            Some(message)
        }
        None => second,
    }
}

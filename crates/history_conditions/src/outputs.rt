//! Conditions on the output that is taken.

ghost use Rattle.std.specs.Prelude.{◌≡◌, is_some};
ghost use Rattle.np_eval.specs.Forms.{as_out, layer};
ghost use Rattle.np_calculus.specs.Sight.{inside};
ghost use Rattle.history_conditions.specs.Conditions.{input_channel, is_in_agent, is_on_channel, is_output};
ghost use Rattle.history_conditions.specs.Conditions.{names_output, of_both, output_channel, output_stands};

use np_calculus::Atom;
use np_configuration::Cfg;
use np_eval::chan_of;
use np_syntax::{Event, Kind, Name, ProcForm};

/// Whether an output is named exactly where the kind takes one.
pub(super) fn names_output(event: &Event) -> bool
    ensures { result ≡ names_output event.now.kind event.now.other }
{
    match event.kind {
        Kind::Comm | Kind::Rep => event.other.is_some(),
        _ => event.other.is_none(),
    }
}

/// Whether an atom stands under the mark of the output that is named.
pub(super) fn output_stands(reached: &Cfg, event: &Event) -> bool
    ensures { result ≡ output_stands (inside reached.now) event.now }
{
    match event.other {
        Some(other) => match reached.atom(other) {
            Some(_) => true,
            None => false,
        },
        None => true,
    }
}

/// Whether the atom under the mark of the output that is named is an output.
pub(super) fn is_output(reached: &Cfg, event: &Event) -> bool
    ensures { result ≡ is_output (inside reached.now) event.now }
{
    match event.other {
        Some(other) => match reached.atom(other) {
            Some(output) => is_output_atom(output),
            None => false,
        },
        None => true,
    }
}

/// Whether an atom is an output.
fn is_output_atom(atom: &Atom) -> bool
    ensures { result ≡ is_some (as_out (layer atom.now.proc)) }
{
    match atom.proc.form.get() {
        ProcForm::Out(_, _) => true,
        _ => false,
    }
}

/// Whether the output that is named is in the agent of the atom that acts.
pub(super) fn is_in_agent(reached: &Cfg, event: &Event) -> bool
    ensures { result ≡ of_both (inside reached.now) event.now is_in_agent }
{
    let Some(other) = event.other else {
        return true;
    };
    match (reached.atom(event.actor), reached.atom(other)) {
        (Some(atom), Some(output)) => atom.agent == output.agent,
        _ => false,
    }
}

/// The channel of an input.
fn input_channel(atom: &Atom) -> Option<Name>
    ensures { result ≡ input_channel atom.now }
{
    match atom.proc.form.get() {
        ProcForm::Inp(chan, _, _) => chan_of(chan, &atom.env),
        ProcForm::Rep(chan, _, _) => chan_of(chan, &atom.env),
        _ => None,
    }
}

/// The channel of an output.
fn output_channel(atom: &Atom) -> Option<Name>
    ensures { result ≡ output_channel atom.now }
{
    match atom.proc.form.get() {
        ProcForm::Out(chan, _) => chan_of(chan, &atom.env),
        _ => None,
    }
}

/// Whether an input and an output are not on two channels.
fn are_on_channel(input: &Atom, output: &Atom) -> bool
    ensures { result ≡ is_on_channel input.now output.now }
{
    match (input_channel(input), output_channel(output)) {
        (Some(taken), Some(given)) => taken == given,
        _ => true,
    }
}

/// Whether the output that is named is on the channel of the input.
pub(super) fn is_on_channel(reached: &Cfg, event: &Event) -> bool
    ensures { result ≡ of_both (inside reached.now) event.now is_on_channel }
{
    let Some(other) = event.other else {
        return true;
    };
    match (reached.atom(event.actor), reached.atom(other)) {
        (Some(atom), Some(output)) => are_on_channel(atom, output),
        _ => false,
    }
}

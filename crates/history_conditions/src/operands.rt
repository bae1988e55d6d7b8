//! Conditions on the operands of what acts.

ghost use Rattle.std.specs.Prelude.{◌≡◌, ◌&&◌, is_some, IfOk};
ghost use Rattle.np_eval.specs.Eval.{Env, agent_of, chan_of, eval, letter_of, places_of, truth_of};
ghost use Rattle.np_calculus.specs.Reductions.{site_in};
ghost use Rattle.np_calculus.specs.Sight.{inside};
ghost use Rattle.np_eval.specs.Forms.{layer};
ghost use Rattle.history_conditions.specs.Sent.{sent_of};
ghost use Rattle.history_conditions.specs.Conditions.{form_fits, input_fits, message_fits, operands_fit, taken_fits};

use np_calculus::Atom;
use np_configuration::Cfg;
use np_eval::{Frame, agent_of, chan_of, eval, fits, letter_of, matches, places_of, truth_of};
use np_syntax::{Event, Expr, Kind, Memory, Pat, ProcForm, Value};
use std::alloc::Global;

/// Whether an expression names a site of the program.
fn names_site(alloc: Global, sites: u32, site: &Expr, env: &Frame) -> Result<bool, Memory>
    ensures { IfOk result (λ met. met ≡ is_some (site_in sites site.now env.now)) }
{
    match &eval(alloc, site, env)? {
        Some(Value::Site(site)) => Ok(*site < sites),
        _ => Ok(false),
    }
}

/// Whether an expression names an agent.
fn names_agent(alloc: Global, agent: &Expr, env: &Frame) -> Result<bool, Memory>
    ensures { IfOk result (λ met. met ≡ is_some (agent_of agent.now env.now)) }
{
    let agent = agent_of(alloc, agent, env)?;
    Ok(agent.is_some())
}

/// Whether an expression has a value.
fn has_value(alloc: Global, value: &Expr, env: &Frame) -> Result<bool, Memory>
    ensures { IfOk result (λ met. met ≡ is_some (eval value.now env.now)) }
{
    let value = eval(alloc, value, env)?;
    Ok(value.is_some())
}

/// Whether an expression names a letter.
fn names_letter(alloc: Global, letter: &Expr, env: &Frame) -> Result<bool, Memory>
    ensures { IfOk result (λ met. met ≡ is_some (letter_of letter.now env.now)) }
{
    let letter = letter_of(alloc, letter, env)?;
    Ok(letter.is_some())
}

/// Whether an expression has a truth value.
fn names_truth(alloc: Global, test: &Expr, env: &Frame) -> Result<bool, Memory>
    ensures { IfOk result (λ met. met ≡ is_some (truth_of test.now env.now)) }
{
    let truth = truth_of(alloc, test, env)?;
    Ok(truth.is_some())
}

/// Whether expressions name an agent and a map of places.
fn looks_up(alloc: Global, agent: &Expr, among: &Expr, env: &Frame) -> Result<bool, Memory>
    ensures { IfOk result (λ met. met ≡ (is_some (agent_of agent.now env.now) && is_some (places_of among.now env.now))) }
{
    if !names_agent(alloc, agent, env)? {
        return Ok(false);
    }
    let places = places_of(alloc, among, env)?;
    Ok(places.is_some())
}

/// Whether expressions name an agent, a channel and what is sent on it.
fn message_fits(
    alloc: Global,
    agent: &Expr,
    chan: &Expr,
    sent: &Expr,
    env: &Frame,
) -> Result<bool, Memory>
    ensures { IfOk result (λ met. met ≡ message_fits agent.now chan.now sent.now env.now) }
{
    if !names_agent(alloc, agent, env)? {
        return Ok(false);
    }
    if chan_of(chan, env).is_none() {
        return Ok(false);
    }
    has_value(alloc, sent, env)
}

/// The value that an atom sends, if it is an output whose operands have values.
fn sent_by(alloc: Global, output: &Atom) -> Result<Option<Value>, Memory>
    ensures { IfOk result (λ sent. sent ≡ sent_of output.now) }
{
    let ProcForm::Out(chan, value) = output.proc.form.get() else {
        return Ok(None);
    };
    if chan_of(chan, &output.env).is_none() {
        return Ok(None);
    }
    eval(alloc, value, &output.env)
}

/// Whether a pattern matches what the output sends.
fn taken_fits(alloc: Global, reached: &Cfg, event: &Event, pat: &Pat) -> Result<bool, Memory>
    ensures { IfOk result (λ met. (env : Env) → met ≡ taken_fits (inside reached.now) event.now pat.now env) }
{
    let Some(other) = event.other else {
        return Ok(false);
    };
    let Some(output) = reached.atom(other) else {
        return Ok(false);
    };
    match &sent_by(alloc, output)? {
        Some(sent) => Ok(matches(pat, sent)),
        None => Ok(false),
    }
}

/// Whether an input names a channel, and its pattern matches what the output sends.
fn input_fits(
    alloc: Global,
    reached: &Cfg,
    event: &Event,
    input: &Atom,
    chan: &Expr,
    pat: &Pat,
) -> Result<bool, Memory>
    ensures { IfOk result (λ met. met ≡ input_fits (inside reached.now) event.now chan.now pat.now input.now.env) }
{
    if chan_of(chan, &input.env).is_none() {
        return Ok(false);
    }
    taken_fits(alloc, reached, event, pat)
}

/// Whether the operands of an atom fit its row.
fn form_fits(alloc: Global, reached: &Cfg, event: &Event, atom: &Atom) -> Result<bool, Memory>
    ensures { IfOk result (λ met. met ≡ form_fits reached.now.sites (inside reached.now) event.now atom.now.env (layer atom.now.proc)) }
{
    let env = &atom.env;
    match atom.proc.form.get() {
        ProcForm::Inp(chan, pat, _) => input_fits(alloc, reached, event, atom, chan, pat),
        ProcForm::Rep(chan, pat, _) => input_fits(alloc, reached, event, atom, chan, pat),
        ProcForm::Migrate(site, _) => names_site(alloc, reached.sites(), site, env),
        ProcForm::IfLocal(agent, chan, sent, _, _) => message_fits(alloc, agent, chan, sent, env),
        ProcForm::Send(agent, site, chan, sent) => {
            if names_site(alloc, reached.sites(), site, env)? {
                message_fits(alloc, agent, chan, sent, env)
            } else {
                Ok(false)
            }
        }
        ProcForm::Post(agent, chan, sent) => message_fits(alloc, agent, chan, sent, env),
        ProcForm::If(test, _, _) => names_truth(alloc, test, env),
        ProcForm::Let(pat, bound, _) => Ok(fits(pat, bound, env)),
        ProcForm::Print(said) => has_value(alloc, said, env),
        ProcForm::Open(letter) => names_letter(alloc, letter, env),
        ProcForm::Lookup(agent, among, _, _, _) => looks_up(alloc, agent, among, env),
        _ => Ok(true),
    }
}

/// Whether the operands of what acts fit the row of its event.
pub(super) fn operands_fit(alloc: Global, reached: &Cfg, event: &Event) -> Result<bool, Memory>
    ensures { IfOk result (λ met. met ≡ operands_fit event.now.kind reached.now.sites (inside reached.now) event.now) }
{
    match event.kind {
        Kind::Arrive | Kind::Land => Ok(true),
        _ => match reached.atom(event.actor) {
            Some(atom) => form_fits(alloc, reached, event, atom),
            None => Ok(false),
        },
    }
}

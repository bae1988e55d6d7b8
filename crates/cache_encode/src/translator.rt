//! The translation of processes.

ghost use Rattle.std.specs.Prelude.{◌≡◌, ◌<◌, ◌+◌, ◌^◌, IfOk};
ghost use Rattle.daemon_encode.specs.Encoded as central;
ghost use Rattle.infrastructure_texts.specs.Pieces as piece;
ghost use Rattle.cache_encode.specs.Encoded as spec;
ghost use Rattle.infrastructure_texts.specs.CacheTexts as text;

use daemon_encode::{Translated, Translator};
use np_syntax::{Expr, Memory, Proc, ProcForm, Tag};
use text_filling::{cached_agent_text, cached_post_text};

/// The low process of a process of this agent, whose new binders are numbered from the next on.
#[cycle(translate)]
#[tactic(auto, using(crate::proofs::Forms::forms))]
pub fn translate(forms: Translator, p: &Proc, agent: &Expr, next: u32) -> Result<Translated, Memory>
    requires { (spec.cached forms.sites p.now agent.now next).next < 2 ^ 32 }
    ensures { IfOk result (λ t. t ≡ spec.cached forms.sites p.now agent.now next) }
{
    form(forms, p.form.get(), p.tag, p.at, agent, next)
}

#[cycle(translate)]
#[tactic(auto, using(crate::proofs::Forms::forms))]
fn form(
    forms: Translator,
    form: &ProcForm,
    tag: Tag,
    at: u32,
    agent: &Expr,
    next: u32,
) -> Result<Translated, Memory>
    requires { (spec.cached_form forms.sites form.now tag at agent.now next).next < 2 ^ 32 }
    ensures { IfOk result (λ t. t ≡ spec.cached_form forms.sites form.now tag at agent.now next) }
{
    match form {
        ProcForm::Par(left, right) => {
            let left = translate(forms, left, agent, next)?;
            let right = translate(forms, right, agent, left.next)?;
            let both = Ok(ProcForm::Par(left.proc, right.proc));
            forms.kept(tag, at, both, right.next)
        }
        ProcForm::New(chan, ty, body) => {
            let body = translate(forms, body, agent, next)?;
            forms.channel(tag, at, *chan, ty, body)
        }
        ProcForm::Inp(chan, names, body) => {
            let body = translate(forms, body, agent, next)?;
            forms.input(tag, at, chan, names, body)
        }
        ProcForm::Rep(chan, names, body) => {
            let body = translate(forms, body, agent, next)?;
            forms.replicated(tag, at, chan, names, body)
        }
        ProcForm::Agent(child, body, rest) => {
            let body = new_agent(forms, body, *child, next)?;
            let rest = maker(forms, rest, agent, body.next)?;
            creation(forms, tag, agent, *child, next, body, rest)
        }
        ProcForm::Migrate(to, body) => {
            let body = translate(forms, body, agent, next)?;
            forms.migration(tag, agent, to, body)
        }
        ProcForm::IfLocal(to, chan, value, met, unmet) => {
            let met = translate(forms, met, agent, next)?;
            let unmet = translate(forms, unmet, agent, met.next)?;
            forms.iflocal(tag, at, to, chan, value, met.proc, unmet)
        }
        ProcForm::Post(to, chan, value) => post(forms, tag, agent, to, chan, value, next),
        ProcForm::If(test, met, unmet) => {
            let met = translate(forms, met, agent, next)?;
            let unmet = translate(forms, unmet, agent, met.next)?;
            forms.test(tag, at, test, met.proc, unmet)
        }
        ProcForm::Let(names, value, body) => {
            let body = translate(forms, body, agent, next)?;
            forms.bind(tag, at, names, value, body)
        }
        ProcForm::Lookup(who, places, found, met, unmet) => {
            let met = translate(forms, met, agent, next)?;
            let unmet = translate(forms, unmet, agent, met.next)?;
            forms.lookup(tag, at, who, places, *found, met.proc, unmet)
        }
        ProcForm::Stop
        | ProcForm::Out(_, _)
        | ProcForm::Send(_, _, _, _)
        | ProcForm::Print(_)
        | ProcForm::Open(_) => forms.same(tag, at, form, next),
    }
}

/// What a new agent does, behind the binder for its site.
#[cycle(translate)]
fn new_agent(forms: Translator, p: &Proc, child: u32, next: u32) -> Result<Translated, Memory>
    requires { (spec.cached forms.sites p.now (piece.variable child) (next + 1)).next < 2 ^ 32 }
    ensures { IfOk result (λ t. t ≡ spec.cached forms.sites p.now (piece.variable child) (next + 1)) }
{
    translate(forms, p, &forms.variable(child)?, next + 1)
}

/// What the agent that makes another does then, behind the binders of the other's server and cache.
#[cycle(translate)]
fn maker(forms: Translator, p: &Proc, agent: &Expr, first: u32) -> Result<Translated, Memory>
    requires { (spec.cached forms.sites p.now agent.now (first + 7)).next < 2 ^ 32 }
    ensures { IfOk result (λ t. t ≡ spec.cached forms.sites p.now agent.now (first + 7)) }
{
    translate(forms, p, agent, first + 7)
}

fn post(
    forms: Translator,
    tag: Tag,
    from: &Expr,
    to: &Expr,
    chan: &Expr,
    value: &Expr,
    next: u32,
) -> Result<Translated, Memory>
    requires { next + 4 < 2 ^ 32 }
    ensures { IfOk result (λ t. t ≡ spec.posting forms.sites tag.node to.now chan.now value.now from.now next) }
{
    let proc = cached_post_text(forms.writer(tag), from, to, chan, value, next)?;
    Ok(Translated {
        proc,
        next: next + 4,
    })
}

fn creation(
    forms: Translator,
    tag: Tag,
    agent: &Expr,
    child: u32,
    at: u32,
    body: Translated,
    rest: Translated,
) -> Result<Translated, Memory>
    requires { body.next + 6 < 2 ^ 32 }
    ensures { IfOk result (λ t. t ≡ central.becomes
        (text.agent_text forms.sites tag.node agent.now child at body.next (body.next + 1) (body.next + 2) body.proc rest.proc) rest.next) }
{
    let next = rest.next;
    let first = body.next;
    let writer = forms.writer(tag);
    let proc = cached_agent_text(writer, agent, child, at, first, body.proc, rest.proc)?;
    Ok(Translated { proc, next })
}

ghost use Rattle.std.specs.Prelude.{◌≡◌, option_map};
ghost use Rattle.np_eval.specs.Forms.{layer};
ghost use Rattle.np_eval.specs.FormParts.{as_stop, as_par, as_new, as_inp, as_rep, as_agent_form, as_migrate};
ghost use Rattle.np_eval.specs.FormParts.{as_iflocal, as_send, as_post, as_if, as_let, as_print, as_open, as_lookup};

use np_syntax::{Expr, Pat, Proc, ProcForm, Ty};

/// `0`.
pub fn as_stop(p: &Proc) -> Option<()>
    ensures { result ≡ as_stop (layer p.now) }
{
    match p.form.get() {
        ProcForm::Stop => Some(()),
        _ => None,
    }
}

/// The parts of a composition.
pub fn as_par(p: &Proc) -> Option<(&Proc, &Proc)>
    ensures { option_map (λ parts. (parts.0.now, parts.1.now)) result ≡ as_par (layer p.now) }
{
    match p.form.get() {
        ProcForm::Par(left, right) => Some((left, right)),
        _ => None,
    }
}

/// The binder, the type and the body of a `new`.
pub fn as_new(p: &Proc) -> Option<(u32, &Ty, &Proc)>
    ensures { option_map (λ parts. (parts.0, parts.1.now, parts.2.now)) result ≡ as_new (layer p.now) }
{
    match p.form.get() {
        ProcForm::New(binder, ty, body) => Some((*binder, ty, body)),
        _ => None,
    }
}

/// The channel, the pattern and the body of an input.
pub fn as_inp(p: &Proc) -> Option<(&Expr, &Pat, &Proc)>
    ensures { option_map (λ parts. (parts.0.now, parts.1.now, parts.2.now)) result ≡ as_inp (layer p.now) }
{
    match p.form.get() {
        ProcForm::Inp(chan, pat, body) => Some((chan, pat, body)),
        _ => None,
    }
}

/// The channel, the pattern and the body of a replicated input.
pub fn as_rep(p: &Proc) -> Option<(&Expr, &Pat, &Proc)>
    ensures { option_map (λ parts. (parts.0.now, parts.1.now, parts.2.now)) result ≡ as_rep (layer p.now) }
{
    match p.form.get() {
        ProcForm::Rep(chan, pat, body) => Some((chan, pat, body)),
        _ => None,
    }
}

/// The binder of a new agent, its process, and what goes on.
pub fn as_agent_form(p: &Proc) -> Option<(u32, &Proc, &Proc)>
    ensures { option_map (λ parts. (parts.0, parts.1.now, parts.2.now)) result ≡ as_agent_form (layer p.now) }
{
    match p.form.get() {
        ProcForm::Agent(binder, body, rest) => Some((*binder, body, rest)),
        _ => None,
    }
}

/// The site of a `migrate`, and its body.
pub fn as_migrate(p: &Proc) -> Option<(&Expr, &Proc)>
    ensures { option_map (λ parts. (parts.0.now, parts.1.now)) result ≡ as_migrate (layer p.now) }
{
    match p.form.get() {
        ProcForm::Migrate(site, body) => Some((site, body)),
        _ => None,
    }
}

/// The agent, the channel and the value of a location test, and its two ways to go on.
pub fn as_iflocal(p: &Proc) -> Option<(&Expr, &Expr, &Expr, &Proc, &Proc)>
    ensures { option_map (λ parts. (parts.0.now, parts.1.now, parts.2.now, parts.3.now, parts.4.now)) result ≡ as_iflocal (layer p.now) }
{
    match p.form.get() {
        ProcForm::IfLocal(agent, chan, value, met, unmet) => {
            Some((agent, chan, value, met, unmet))
        }
        _ => None,
    }
}

/// The agent, the site, the channel and the value of a message.
pub fn as_send(p: &Proc) -> Option<(&Expr, &Expr, &Expr, &Expr)>
    ensures { option_map (λ parts. (parts.0.now, parts.1.now, parts.2.now, parts.3.now)) result ≡ as_send (layer p.now) }
{
    match p.form.get() {
        ProcForm::Send(agent, site, chan, value) => Some((agent, site, chan, value)),
        _ => None,
    }
}

/// The agent, the channel and the value of a post.
pub fn as_post(p: &Proc) -> Option<(&Expr, &Expr, &Expr)>
    ensures { option_map (λ parts. (parts.0.now, parts.1.now, parts.2.now)) result ≡ as_post (layer p.now) }
{
    match p.form.get() {
        ProcForm::Post(agent, chan, value) => Some((agent, chan, value)),
        _ => None,
    }
}

/// The condition of an `if`, and its two ways to go on.
pub fn as_if(p: &Proc) -> Option<(&Expr, &Proc, &Proc)>
    ensures { option_map (λ parts. (parts.0.now, parts.1.now, parts.2.now)) result ≡ as_if (layer p.now) }
{
    match p.form.get() {
        ProcForm::If(test, met, unmet) => Some((test, met, unmet)),
        _ => None,
    }
}

/// The pattern, the value and the body of a `let`.
pub fn as_let(p: &Proc) -> Option<(&Pat, &Expr, &Proc)>
    ensures { option_map (λ parts. (parts.0.now, parts.1.now, parts.2.now)) result ≡ as_let (layer p.now) }
{
    match p.form.get() {
        ProcForm::Let(pat, value, body) => Some((pat, value, body)),
        _ => None,
    }
}

/// What a `print` prints.
pub fn as_print(p: &Proc) -> Option<&Expr>
    ensures { option_map (λ e. e.now) result ≡ as_print (layer p.now) }
{
    match p.form.get() {
        ProcForm::Print(e) => Some(e),
        _ => None,
    }
}

/// The letter that an `open` opens.
pub fn as_open(p: &Proc) -> Option<&Expr>
    ensures { option_map (λ e. e.now) result ≡ as_open (layer p.now) }
{
    match p.form.get() {
        ProcForm::Open(e) => Some(e),
        _ => None,
    }
}

/// The agent, the map of places, the binder, and the two ways to go on of a `lookup`.
pub fn as_lookup(p: &Proc) -> Option<(&Expr, &Expr, u32, &Proc, &Proc)>
    ensures { option_map (λ parts. (parts.0.now, parts.1.now, parts.2, parts.3.now, parts.4.now)) result ≡ as_lookup (layer p.now) }
{
    match p.form.get() {
        ProcForm::Lookup(agent, places, binder, met, unmet) => {
            Some((agent, places, *binder, met, unmet))
        }
        _ => None,
    }
}

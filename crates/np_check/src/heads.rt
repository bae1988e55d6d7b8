//! What a form asks for before the processes in it.

ghost use Rattle.std.specs.Prelude.{◌≡◌, IfOk, OnErr};
ghost use Rattle.np_syntax.specs.declared.types.Ty.{out-Ty};
ghost use Rattle.np_types.specs.declared.fault.Rule.TheVariants as rule;
ghost use Rattle.np_types.specs.Sub.{is_bool, is_site, is_agent, is_letter, is_places};
ghost use Rattle.np_types.specs.Checks.{ensure};
ghost use Rattle.np_types.specs.Covers.{cover};
ghost use Rattle.np_types.specs.Least.{least_of, least, input};
ghost use Rattle.np_types.specs.Told.{LeadsBack};
ghost use Rattle.np_types.specs.Worlds.{bare};
ghost use Rattle.np_check.specs.Answers.{Gives, GivesTypes};
ghost use Rattle.np_check.specs.Faults as spec;

use super::fail::CheckFail;
use np_syntax::{Boxed, Cap, Expr, Memory, Pat, Ty};
use np_types::{
    Env, Rule, Trail, is_agent, is_bool, is_letter, is_narrow, is_places, is_printable, is_site,
};
use std::alloc::Global;

/// The least type of an expression, or its first fault.
pub fn least(alloc: Global, env: &Env, e: &Expr) -> Result<Ty, CheckFail>
    ensures { Gives (least bare env.now e.now) result }
{
    Ok(np_types::least(alloc, env, e)?)
}

/// What the channel of an input carries, or the first fault.
pub fn carried(alloc: Global, env: &Env, chan: &Expr) -> Result<Ty, CheckFail>
    ensures { Gives (input (least_of bare env.now chan.now)) result }
{
    Ok(np_types::input(alloc, env, chan)?)
}

/// An output of a value on a channel.
pub fn output(alloc: Global, env: &Env, chan: &Expr, value: &Expr) -> Result<(), CheckFail>
    ensures { Gives (spec.is_output bare chan.now value.now env.now) result }
{
    Ok(np_types::output(alloc, env, chan, value)?)
}

/// Gives the names of a pattern their types, and answers what they had before. Where it fails, each has what
/// it had.
pub fn cover(alloc: Global, env: &mut Env, names: &Pat, ty: &Ty) -> Result<Trail, CheckFail>
    ensures gives { GivesTypes (cover names.now ty.now env.old) env.new result }
    ensures back { IfOk result (λ trail. LeadsBack trail env.new env.old) }
    ensures unchanged { OnErr result (env.new ≡ env.old) }
{
    Ok(np_types::cover(alloc, env, names, ty)?)
}

/// Goes on where the test is met.
fn ensure(met: bool, at: u32, rule: Rule) -> Result<(), CheckFail>
    ensures { Gives (ensure met at rule) result }
{
    Ok(np_types::ensure(met, at, rule)?)
}

#[tactic(auto, unfolding(crate::specs::Faults::is_of))]
pub fn site(alloc: Global, env: &Env, e: &Expr) -> Result<(), CheckFail>
    ensures { Gives (spec.is_of bare is_site rule.NotSite e.now env.now) result }
{
    let ty = least(alloc, env, e)?;
    ensure(is_site(&ty), e.at, Rule::NotSite)
}

#[tactic(auto, unfolding(crate::specs::Faults::is_of))]
fn agent(alloc: Global, env: &Env, e: &Expr) -> Result<(), CheckFail>
    ensures { Gives (spec.is_of bare is_agent rule.NotAgent e.now env.now) result }
{
    let ty = least(alloc, env, e)?;
    ensure(is_agent(&ty), e.at, Rule::NotAgent)
}

#[tactic(auto, unfolding(crate::specs::Faults::is_of))]
pub fn truth(alloc: Global, env: &Env, e: &Expr) -> Result<(), CheckFail>
    ensures { Gives (spec.is_of bare is_bool rule.NotBool e.now env.now) result }
{
    let ty = least(alloc, env, e)?;
    ensure(is_bool(&ty), e.at, Rule::NotBool)
}

#[tactic(auto, unfolding(crate::specs::Faults::is_of))]
pub fn letter(alloc: Global, env: &Env, e: &Expr) -> Result<(), CheckFail>
    ensures { Gives (spec.is_of bare is_letter rule.Mismatch e.now env.now) result }
{
    let ty = least(alloc, env, e)?;
    ensure(is_letter(&ty), e.at, Rule::Mismatch)
}

#[tactic(auto, unfolding(crate::specs::Faults::is_of))]
fn places(alloc: Global, env: &Env, e: &Expr) -> Result<(), CheckFail>
    ensures { Gives (spec.is_of bare is_places rule.Mismatch e.now env.now) result }
{
    let ty = least(alloc, env, e)?;
    ensure(is_places(&ty), e.at, Rule::Mismatch)
}

#[tactic(auto, unfolding(crate::specs::Faults::is_printable))]
pub fn printable(alloc: Global, env: &Env, e: &Expr) -> Result<(), CheckFail>
    ensures { Gives (spec.is_printable bare e.now env.now) result }
{
    let ty = least(alloc, env, e)?;
    ensure(is_printable(&ty), e.at, Rule::NotPrintable)
}

/// A message to an agent at a site.
#[tactic(auto, unfolding(crate::specs::Faults::check_send))]
pub fn send(
    alloc: Global,
    env: &Env,
    to: &Expr,
    at: &Expr,
    chan: &Expr,
    value: &Expr,
) -> Result<(), CheckFail>
    ensures { Gives (spec.check_send bare to.now at.now chan.now value.now env.now) result }
{
    agent(alloc, env, to)?;
    site(alloc, env, at)?;
    output(alloc, env, chan, value)
}

/// A message to an agent.
#[tactic(auto, unfolding(crate::specs::Faults::check_post))]
pub fn post(alloc: Global, env: &Env, to: &Expr, chan: &Expr, value: &Expr) -> Result<(), CheckFail>
    ensures { Gives (spec.check_post bare to.now chan.now value.now env.now) result }
{
    agent(alloc, env, to)?;
    output(alloc, env, chan, value)
}

/// What is looked up, an agent, and where, in a map of places.
#[tactic(auto, unfolding(crate::specs::Faults::check_places))]
pub fn sought(alloc: Global, env: &Env, who: &Expr, map: &Expr) -> Result<(), CheckFail>
    ensures { Gives (spec.check_places bare who.now map.now env.now) result }
{
    agent(alloc, env, who)?;
    places(alloc, env, map)
}

fn is_channel(ty: &Ty) -> bool
    ensures { result ≡ spec.is_channel (out-Ty ty.now) }
{
    matches!(ty, Ty::Chan(_, _))
}

/// The type at a `new` that stands at this offset.
#[tactic(auto, unfolding(crate::specs::Faults::is_for_channels))]
pub fn for_channels(ty: &Ty, at: u32) -> Result<(), CheckFail>
    ensures { Gives (spec.is_for_channels ty.now at) result }
{
    ensure(is_narrow(ty), at, Rule::Wide)?;
    ensure(is_channel(ty), at, Rule::NotChannel)
}

/// The type of lock channels, `^Site`.
pub fn lock_type(alloc: Global) -> Result<Ty, Memory>
    ensures { IfOk result (λ ty. ty ≡ spec.lock_type) }
{
    Ok(Ty::Chan(Cap::Both, Boxed::of(alloc, Ty::Site)?))
}

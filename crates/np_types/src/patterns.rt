ghost use Rattle.std.specs.Prelude.{◌≡◌, IfOk, OnErr, OnOk};
ghost use Rattle.std.specs.FinMap as map;
ghost use Rattle.np_types.specs.Covers.{cover, cover_form, cover_parts};
ghost use Rattle.np_types.specs.Told.{ToldTypes, LeadsBack, LeadsOn};

use super::checks::fault;
use super::env::{Env, Trail};
use super::fault::{LeastFail, Rule};
use np_syntax::{List, Memory, Pat, PatForm, Ty};
use std::alloc::Global;

/// Gives the names of a pattern their types, and answers what they had before. Where it fails, each has what
/// it had.
pub fn cover(alloc: Global, env: &mut Env, pattern: &Pat, ty: &Ty) -> Result<Trail, LeastFail>
    ensures told { ToldTypes result env.new (cover pattern.now ty.now env.old) }
    ensures back { IfOk result (λ trail. LeadsBack trail env.new env.old) }
    ensures unchanged { OnErr result (env.new ≡ env.old) }
{
    let mut trail = List::new(alloc);
    match cover_onto(alloc, env, &mut trail, pattern, ty) {
        Ok(()) => Ok(trail),
        Err(fail) => {
            env.rewind(trail);
            Err(fail)
        }
    }
}

#[tactic(auto, using(crate::proofs::Covers::coverings))]
#[cycle(cover)]
fn cover_onto(
    alloc: Global,
    env: &mut Env,
    trail: &mut Trail,
    pattern: &Pat,
    ty: &Ty,
) -> Result<(), LeastFail>
    ensures told { ToldTypes result env.new (cover pattern.now ty.now env.old) }
    ensures back { LeadsOn trail.old env.old trail.new env.new }
{
    cover_form(alloc, env, trail, &pattern.form, ty, pattern.at)
}

#[tactic(auto, using(crate::proofs::Covers::coverings))]
#[cycle(cover)]
fn cover_form(
    alloc: Global,
    env: &mut Env,
    trail: &mut Trail,
    form: &PatForm,
    ty: &Ty,
    at: u32,
) -> Result<(), LeastFail>
    ensures told { ToldTypes result env.new (cover_form form.now at ty.now env.old) }
    ensures back { LeadsOn trail.old env.old trail.new env.new }
{
    match form {
        PatForm::Any => Ok(()),
        PatForm::Bind(binder) => {
            put_noted(env, trail, *binder, ty.copy(alloc)?)?;
            Ok(())
        }
        PatForm::Tuple(parts) => match ty {
            Ty::Tuple(types) => {
                let (parts, types) = (parts.as_slice(), types.as_slice());
                cover_parts(alloc, env, trail, parts, types, at)
            }
            _ => fault(at, Rule::Shape),
        },
    }
}

#[tactic(auto, using(crate::proofs::Covers::coverings))]
#[cycle(cover)]
fn cover_parts(
    alloc: Global,
    env: &mut Env,
    trail: &mut Trail,
    parts: &[Pat],
    types: &[Ty],
    at: u32,
) -> Result<(), LeastFail>
    ensures told { ToldTypes result env.new (cover_parts parts.now types.now at env.old) }
    ensures back { LeadsOn trail.old env.old trail.new env.new }
{
    if parts.len() != types.len() {
        return fault(at, Rule::Shape);
    }
    for i in 0..parts.len() {
        cover_onto(alloc, env, trail, &parts[i], &types[i])?;
    }
    Ok(())
}

/// Gives a binder its type, and notes on the trail what it had before. A refused call changes neither.
fn put_noted(env: &mut Env, trail: &mut Trail, binder: u32, ty: Ty) -> Result<(), Memory>
    ensures ok { OnOk result (env.new ≡ map.insert env.old binder ty) }
    ensures back { LeadsOn trail.old env.old trail.new env.new }
{
    let old = env.put(binder, ty)?;
    match trail.push((binder, old)) {
        Ok(()) => Ok(()),
        Err((noted, memory)) => {
            let (binder, old) = noted;
            env.back(binder, old);
            Err(memory)
        }
    }
}

//! The least types of the forms that low programs alone have.

use np_syntax::{Boxed, Cap, Expr, ExprForm, Memory, Ty, Value};
use np_types::{Env, LeastFail, Rule, TypeFault, least};
use std::alloc::Global;
use std::test::Fail;

/// An operand: a number, a truth value or a variable.
#[derive(Clone, Copy)]
enum Leaf {
    Number,
    Truth,
    Var(u32),
}

fn operand(alloc: Global, at: u32, leaf: Leaf) -> Result<Expr, Memory> {
    let form = match leaf {
        Leaf::Number => ExprForm::Val(Value::Int(7)),
        Leaf::Truth => ExprForm::Val(Value::Truth(true)),
        Leaf::Var(binder) => ExprForm::Var(binder),
    };
    Expr::new(alloc, at, form)
}

fn chan(alloc: Global, cap: Cap, ty: Ty) -> Result<Ty, Memory> {
    Ok(Ty::Chan(cap, Boxed::of(alloc, ty)?))
}

/// Binders from 0 on: `^Int`, `?Int`, `^Site`, Agent, Places.
fn set_binders(alloc: Global, env: &mut Env) -> Result<(), Memory> {
    env.set(0, chan(alloc, Cap::Both, Ty::Int)?)?;
    env.set(1, chan(alloc, Cap::Input, Ty::Int)?)?;
    env.set(2, chan(alloc, Cap::Both, Ty::Site)?)?;
    env.set(3, Ty::Agent)?;
    env.set(4, Ty::Places)
}

/// The rule and the place of the first fault, if there is one.
fn fault_in(alloc: Global, env: &Env, expr: &Expr) -> Result<Option<(u32, Rule)>, Memory> {
    match least(alloc, env, expr) {
        Ok(_) => Ok(None),
        Err(LeastFail::Fault(TypeFault { at, rule })) => Ok(Some((at, rule))),
        Err(LeastFail::Memory) => Err(Memory),
    }
}

/// The first fault of an expression in which the binders may stand.
fn fault_of(alloc: Global, expr: &Expr) -> Result<Option<(u32, Rule)>, Memory> {
    let mut env = Env::new(alloc);
    let fault = fault_under(alloc, &mut env, expr);
    drop(env);
    fault
}

/// The same, where the binders are set in this environment.
fn fault_under(alloc: Global, env: &mut Env, expr: &Expr) -> Result<Option<(u32, Rule)>, Memory> {
    set_binders(alloc, env)?;
    fault_in(alloc, env, expr)
}

fn whole(alloc: Global, form: ExprForm) -> Result<Expr, Memory> {
    Expr::new(alloc, 1, form)
}

/// `pack(c, e)` has the faults of the output `c!e`.
fn letter(alloc: Global, chan: Leaf, value: Leaf) -> Result<Expr, Memory> {
    let chan = operand(alloc, 2, chan)?;
    let value = operand(alloc, 3, value)?;
    whole(alloc, ExprForm::Pack(chan, value))
}

#[test]
fn letters(rt: HostRuntime) -> Result<(), Fail> {
    for (chan, value, fault) in [
        (Leaf::Var(3), Leaf::Var(9), Some((2, Rule::NotChannel))),
        (Leaf::Var(1), Leaf::Truth, Some((2, Rule::NoOutput))),
        (Leaf::Var(0), Leaf::Truth, Some((3, Rule::Mismatch))),
        (Leaf::Var(0), Leaf::Number, None),
    ] {
        let letter = letter(rt.alloc(), chan, value)?;
        let found = fault_of(rt.alloc(), &letter);
        drop(letter);
        assert_eq!(rt; found, Ok(fault));
    }
    Ok(())
}

/// `m with a -> c`.
fn places(alloc: Global, map: Leaf, agent: Leaf, lock: Leaf) -> Result<Expr, Memory> {
    let map = operand(alloc, 2, map)?;
    let agent = operand(alloc, 3, agent)?;
    let lock = operand(alloc, 4, lock)?;
    whole(alloc, ExprForm::With(map, agent, lock))
}

#[test]
fn maps_of_places(rt: HostRuntime) -> Result<(), Fail> {
    for (map, agent, lock, fault) in [
        (
            Leaf::Var(3),
            Leaf::Truth,
            Leaf::Truth,
            Some((2, Rule::Mismatch)),
        ),
        (
            Leaf::Var(4),
            Leaf::Truth,
            Leaf::Truth,
            Some((3, Rule::NotAgent)),
        ),
        (
            Leaf::Var(4),
            Leaf::Var(3),
            Leaf::Var(0),
            Some((4, Rule::Mismatch)),
        ),
        (Leaf::Var(4), Leaf::Var(3), Leaf::Var(2), None),
    ] {
        let places = places(rt.alloc(), map, agent, lock)?;
        let found = fault_of(rt.alloc(), &places);
        drop(places);
        assert_eq!(rt; found, Ok(fault));
    }
    Ok(())
}

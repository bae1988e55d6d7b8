ghost use Rattle.std.specs.Prelude.{◌≡◌};
ghost use Rattle.np_syntax.specs.declared.types.Ty as shape;
ghost use Rattle.np_syntax.specs.declared.types.Ty.{out-Ty};
ghost use Rattle.np_types.specs.declared.fault.Rule.TheVariants as rule;
ghost use Rattle.np_types.specs.Checks.{checked, ensure};
ghost use Rattle.np_types.specs.Least.{is_lock_type};
ghost use Rattle.np_types.specs.Operands.{takes_first, first_rule, takes_second, second_rule, type_of};
ghost use Rattle.np_subtyping.specs.Sub.{is_agent, is_places, sub};
ghost use Rattle.np_types.specs.Told.{Told};

use super::checks::{ensure, fault};
use super::fault::{LeastFail, Rule};
use super::forms::{is_basic, is_lock, same_basic};
use np_subtyping::{is_agent, is_int, is_places, sub};
use np_syntax::{Op, Ty};

/// The type of an operation's first operand, or its fault.
pub fn first_operand(op: Op, ty: Ty, at: u32) -> Result<Ty, LeastFail>
    ensures { Told result (checked (takes_first op (out-Ty ty)) at (first_rule op) ty) }
{
    if takes_first(op, &ty) {
        Ok(ty)
    } else {
        fault(at, first_rule(op))
    }
}

/// The type of an operation on two operands, the first of which is taken, or the fault of the second.
pub fn operated(op: Op, first: Ty, second: Ty, at: u32) -> Result<Ty, LeastFail>
    ensures { Told result (checked (takes_second op (out-Ty first) (out-Ty second)) at (second_rule op) (type_of op)) }
{
    if takes_second(op, &first, &second) {
        Ok(type_of(op))
    } else {
        fault(at, second_rule(op))
    }
}

/// The type of a value packed for a channel, where what the channel carries is above the value's type.
pub fn letter(given: Ty, carried: Ty, at: u32) -> Result<Ty, LeastFail>
    ensures { Told result (checked (sub given carried) at rule.Mismatch shape.Letter) }
{
    if sub(&given, &carried) {
        Ok(Ty::Letter)
    } else {
        fault(at, Rule::Mismatch)
    }
}

/// Goes on where it is the type of a map of places.
pub fn ensure_places(ty: Ty, at: u32) -> Result<(), LeastFail>
    ensures { Told result (ensure (is_places (out-Ty ty)) at rule.Mismatch) }
{
    ensure(is_places(&ty), at, Rule::Mismatch)
}

/// Goes on where it is the type of agents.
pub fn ensure_agent(ty: Ty, at: u32) -> Result<(), LeastFail>
    ensures { Told result (ensure (is_agent (out-Ty ty)) at rule.NotAgent) }
{
    ensure(is_agent(&ty), at, Rule::NotAgent)
}

/// The type of a map of places with one more, where the lock's type is that of lock channels.
pub fn with_lock(ty: Ty, at: u32) -> Result<Ty, LeastFail>
    ensures { Told result (checked (is_lock_type (out-Ty ty)) at rule.Mismatch shape.Places) }
{
    if is_lock(&ty) {
        Ok(Ty::Places)
    } else {
        fault(at, Rule::Mismatch)
    }
}

fn takes_first(op: Op, first: &Ty) -> bool
    ensures { result ≡ takes_first op (out-Ty first.now) }
{
    match op {
        Op::Equal => is_basic(first),
        Op::Add | Op::Sub | Op::Mul | Op::Less => is_int(first),
    }
}

fn first_rule(op: Op) -> Rule
    ensures { result ≡ first_rule op }
{
    match op {
        Op::Equal => Rule::NotComparable,
        Op::Add | Op::Sub | Op::Mul | Op::Less => Rule::NotInt,
    }
}

fn takes_second(op: Op, first: &Ty, second: &Ty) -> bool
    ensures { result ≡ takes_second op (out-Ty first.now) (out-Ty second.now) }
{
    match op {
        Op::Equal => same_basic(first, second),
        Op::Add | Op::Sub | Op::Mul | Op::Less => is_int(second),
    }
}

fn second_rule(op: Op) -> Rule
    ensures { result ≡ second_rule op }
{
    match op {
        Op::Equal => Rule::Mismatch,
        Op::Add | Op::Sub | Op::Mul | Op::Less => Rule::NotInt,
    }
}

fn type_of(op: Op) -> Ty
    ensures { result ≡ type_of op }
{
    match op {
        Op::Equal | Op::Less => Ty::Bool,
        Op::Add | Op::Sub | Op::Mul => Ty::Int,
    }
}

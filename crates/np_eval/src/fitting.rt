ghost use Rattle.std.specs.Prelude.{◌≡◌, is_some};
ghost use Rattle.std.specs.Option.{option_map};
ghost use Rattle.np_syntax.specs.declared.pattern.PatForm as pat;
ghost use Rattle.np_eval.specs.Eval.{Env, eval, bind};
ghost use Rattle.np_eval.specs.Levels.{eval_form, eval_all, bind_form, bind_all};
ghost use Rattle.np_eval.specs.Fitting.{fits, fits_tuple, fits_all, shape_of, equal_shape, operate_shape, pack_shape, with_shape};

use super::frame::Frame;
use np_syntax::{Expr, ExprForm, Op, Pat, PatForm, Value};

/// The forms of values.
#[derive(Clone, Copy)]
pub enum Shape {
    Int,
    Truth,
    Str,
    Site,
    Agent,
    Chan,
    Tuple,
    Letter,
    Places,
}

/// Whether the expression has a value that the pattern matches. It takes no memory.
#[tactic(auto, using(crate::proofs::Binds::binds, crate::proofs::FittingTuples::fitting))]
#[cycle(fits)]
pub fn fits(p: &Pat, e: &Expr, env: &Frame) -> bool
    ensures { result ≡ fits p.now e.now env.now }
{
    match &p.form {
        PatForm::Any => has_value(e, env),
        PatForm::Bind(_) => has_value(e, env),
        PatForm::Tuple(parts) => fits_tuple(parts.as_slice(), e.form.get(), env),
    }
}

/// Whether this form of expression has a value that the tuple of the patterns matches.
#[tactic(auto, using(crate::proofs::Binds::binds, crate::proofs::FittingTuples::fitting))]
#[cycle(fits)]
fn fits_tuple(parts: &[Pat], form: &ExprForm, env: &Frame) -> bool
    ensures { result ≡ fits_tuple parts.now form.now env.now }
{
    match form {
        ExprForm::Val(v) => matches_tuple(parts, v),
        ExprForm::Var(x) => match env.get(*x) {
            Some(v) => matches_tuple(parts, v),
            None => false,
        },
        ExprForm::Tuple(exprs) => fits_all(parts, exprs.as_slice(), env),
        ExprForm::Bin(_, _, _) => false,
        ExprForm::Pack(_, _) => false,
        ExprForm::With(_, _, _) => false,
    }
}

#[tactic(auto, using(crate::proofs::Binds::binds, crate::proofs::FittingTuples::fitting))]
#[cycle(fits)]
fn fits_all(parts: &[Pat], exprs: &[Expr], env: &Frame) -> bool
    ensures { result ≡ fits_all parts.now exprs.now env.now }
{
    if parts.len() != exprs.len() {
        return false;
    }
    for at in 0..parts.len() {
        if !fits(&parts[at], &exprs[at], env) {
            return false;
        }
    }
    true
}

/// Whether the pattern matches the value, which no environment changes. It takes no memory.
#[tactic(auto, using(crate::proofs::Binds::binds))]
#[cycle(matches)]
pub fn matches(p: &Pat, v: &Value) -> bool
    ensures { (env : Env) → result ≡ is_some (bind p.now v.now env) }
{
    match &p.form {
        PatForm::Any => true,
        PatForm::Bind(_) => true,
        PatForm::Tuple(parts) => matches_tuple(parts.as_slice(), v),
    }
}

#[tactic(auto, using(crate::proofs::Binds::binds))]
#[cycle(matches)]
fn matches_tuple(parts: &[Pat], v: &Value) -> bool
    ensures { (env : Env) → result ≡ is_some (bind_form (pat.Tuple parts.now) v.now env) }
{
    match v {
        Value::Tuple(values) => matches_all(parts, values.as_slice()),
        _ => false,
    }
}

#[tactic(auto, using(crate::proofs::Binds::binds))]
#[cycle(matches)]
fn matches_all(parts: &[Pat], values: &[Value]) -> bool
    ensures { (env : Env) → result ≡ is_some (bind_all parts.now values.now env) }
{
    if parts.len() != values.len() {
        return false;
    }
    for at in 0..parts.len() {
        if !matches(&parts[at], &values[at]) {
            return false;
        }
    }
    true
}

#[tactic(auto, using(crate::proofs::FittingShapes::shapes))]
#[cycle(eval_shape)]
fn has_value(e: &Expr, env: &Frame) -> bool
    ensures { result ≡ is_some (eval e.now env.now) }
{
    eval_shape(e, env).is_some()
}

/// The form of the expression's value, which the forms of its operands' values decide. It takes no memory.
#[tactic(auto, using(crate::proofs::FittingShapes::shapes))]
#[cycle(eval_shape)]
pub fn eval_shape(e: &Expr, env: &Frame) -> Option<Shape>
    ensures { result ≡ option_map shape_of (eval e.now env.now) }
{
    eval_form_shape(e.form.get(), env)
}

#[tactic(auto, using(crate::proofs::FittingShapes::shapes))]
#[cycle(eval_shape)]
fn eval_form_shape(form: &ExprForm, env: &Frame) -> Option<Shape>
    ensures { result ≡ option_map shape_of (eval_form form.now env.now) }
{
    match form {
        ExprForm::Val(v) => Some(shape_of(v)),
        ExprForm::Var(x) => match env.get(*x) {
            Some(v) => Some(shape_of(v)),
            None => None,
        },
        ExprForm::Tuple(parts) => {
            if all_have_values(parts.as_slice(), env) {
                Some(Shape::Tuple)
            } else {
                None
            }
        }
        ExprForm::Bin(op, a, b) => {
            let x = eval_shape(a, env)?;
            let y = eval_shape(b, env)?;
            operate_shape(*op, x, y)
        }
        ExprForm::Pack(chan, e) => {
            let chan = eval_shape(chan, env)?;
            eval_shape(e, env)?;
            pack_shape(chan)
        }
        ExprForm::With(places, agent, lock) => {
            let places = eval_shape(places, env)?;
            let agent = eval_shape(agent, env)?;
            let lock = eval_shape(lock, env)?;
            with_shape(places, agent, lock)
        }
    }
}

#[tactic(auto, using(crate::proofs::FittingShapes::shapes))]
#[cycle(eval_shape)]
fn all_have_values(parts: &[Expr], env: &Frame) -> bool
    ensures { result ≡ is_some (eval_all parts.now env.now) }
{
    for part in parts {
        if !has_value(part, env) {
            return false;
        }
    }
    true
}

fn shape_of(v: &Value) -> Shape
    ensures { result ≡ shape_of v.now }
{
    match v {
        Value::Int(_) => Shape::Int,
        Value::Truth(_) => Shape::Truth,
        Value::Str(_) => Shape::Str,
        Value::Site(_) => Shape::Site,
        Value::Agent(_) => Shape::Agent,
        Value::Chan(_) => Shape::Chan,
        Value::Tuple(_) => Shape::Tuple,
        Value::Letter(_, _) => Shape::Letter,
        Value::Places(_) => Shape::Places,
    }
}

fn operate_shape(op: Op, x: Shape, y: Shape) -> Option<Shape>
    ensures { result ≡ operate_shape op x y }
{
    match (op, x, y) {
        (Op::Equal, _, _) => equal_shape(x, y),
        (Op::Less, Shape::Int, Shape::Int) => Some(Shape::Truth),
        (_, Shape::Int, Shape::Int) => Some(Shape::Int),
        _ => None,
    }
}

fn equal_shape(x: Shape, y: Shape) -> Option<Shape>
    ensures { result ≡ equal_shape x y }
{
    match (x, y) {
        (Shape::Int, Shape::Int) => Some(Shape::Truth),
        (Shape::Truth, Shape::Truth) => Some(Shape::Truth),
        (Shape::Str, Shape::Str) => Some(Shape::Truth),
        (Shape::Site, Shape::Site) => Some(Shape::Truth),
        (Shape::Agent, Shape::Agent) => Some(Shape::Truth),
        _ => None,
    }
}

fn pack_shape(chan: Shape) -> Option<Shape>
    ensures { result ≡ pack_shape chan }
{
    match chan {
        Shape::Chan => Some(Shape::Letter),
        _ => None,
    }
}

fn with_shape(places: Shape, agent: Shape, lock: Shape) -> Option<Shape>
    ensures { result ≡ with_shape places agent lock }
{
    match (places, agent, lock) {
        (Shape::Places, Shape::Agent, Shape::Chan) => Some(Shape::Places),
        _ => None,
    }
}

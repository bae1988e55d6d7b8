ghost use Rattle.std.specs.Prelude.{◌≡◌};
ghost use Rattle.np_subtyping.specs.Sub.{sub};
ghost use Rattle.np_subtyping.specs.Ordered.{Ordered, OrderedAll};

use super::forms::{is_agent, is_bool, is_int, is_letter, is_places, is_site, is_str};
use np_syntax::{Cap, Ty};

/// Whether the type is below the other one. It takes no memory, and looks at each node of the two at most
/// once.
pub fn sub(a: &Ty, b: &Ty) -> bool
    ensures { result ≡ sub a.now b.now }
{
    compare(a, b, true)
}

/// Whether `a` is below `b`, or, where not `up`, above it. What two `^` carry is looked at once, for equality:
/// to compare it both ways would double the work at each level.
#[cycle(compare)]
fn compare(a: &Ty, b: &Ty, up: bool) -> bool
    ensures { result ≡ Ordered up a.now b.now }
{
    match a {
        Ty::Int => is_int(b),
        Ty::Bool => is_bool(b),
        Ty::Str => is_str(b),
        Ty::Site => is_site(b),
        Ty::Agent => is_agent(b),
        Ty::Chan(c, s) => match b {
            Ty::Chan(d, t) => match *c {
                Cap::Both => match *d {
                    Cap::Both => s.get().same(t.get()),
                    Cap::Input => up && compare(s.get(), t.get(), true),
                    Cap::Output => up && compare(s.get(), t.get(), false),
                },
                Cap::Input => match *d {
                    Cap::Both => !up && compare(s.get(), t.get(), false),
                    Cap::Input => compare(s.get(), t.get(), up),
                    Cap::Output => false,
                },
                Cap::Output => match *d {
                    Cap::Both => !up && compare(s.get(), t.get(), true),
                    Cap::Input => false,
                    Cap::Output => compare(s.get(), t.get(), !up),
                },
            },
            _ => false,
        },
        Ty::Tuple(x) => match b {
            Ty::Tuple(y) => compare_all(x.as_slice(), y.as_slice(), up),
            _ => false,
        },
        Ty::Letter => is_letter(b),
        Ty::Places => is_places(b),
    }
}

#[tactic(auto, using(crate::proofs::Comparisons::ordered_lengths))]
#[cycle(compare)]
fn compare_all(a: &[Ty], b: &[Ty], up: bool) -> bool
    ensures { result ≡ OrderedAll up a.now b.now }
{
    if a.len() != b.len() {
        return false;
    }
    for i in 0..a.len() {
        if !compare(&a[i], &b[i], up) {
            return false;
        }
    }
    true
}

ghost use Rattle.std.specs.Prelude.{◌≡◌};
ghost use Rattle.np_syntax.specs.declared.types.Ty.{out-Ty};
ghost use Rattle.np_types.specs.Least.{basic, same_basic, is_lock_type};

use np_subtyping::{is_agent, is_bool, is_int, is_site, is_str};
use np_syntax::{Cap, Ty};

/// Whether it is the type of lock channels, `^Site`.
pub fn is_lock(ty: &Ty) -> bool
    ensures { result ≡ is_lock_type (out-Ty ty.now) }
{
    match ty {
        Ty::Chan(Cap::Both, carried) => is_site(carried.get()),
        _ => false,
    }
}

/// Whether values of the type can be compared.
pub fn is_basic(ty: &Ty) -> bool
    ensures { result ≡ basic (out-Ty ty.now) }
{
    matches!(ty, Ty::Int | Ty::Bool | Ty::Str | Ty::Site | Ty::Agent)
}

/// Whether the two are one type whose values can be compared.
pub fn same_basic(first: &Ty, second: &Ty) -> bool
    ensures { result ≡ same_basic (out-Ty first.now) (out-Ty second.now) }
{
    match first {
        Ty::Int => is_int(second),
        Ty::Bool => is_bool(second),
        Ty::Str => is_str(second),
        Ty::Site => is_site(second),
        Ty::Agent => is_agent(second),
        Ty::Chan(_, _) | Ty::Tuple(_) | Ty::Letter | Ty::Places => false,
    }
}

ghost use Rattle.std.specs.Prelude.{◌≡◌};
ghost use Rattle.np_syntax.specs.declared.types.Ty.{out-Ty};
ghost use Rattle.np_subtyping.specs.Sub.{is_int, is_bool, is_str, is_site, is_agent, is_letter, is_places};

use np_syntax::Ty;

pub fn is_int(ty: &Ty) -> bool
    ensures { result ≡ is_int (out-Ty ty.now) }
{
    matches!(ty, Ty::Int)
}

pub fn is_bool(ty: &Ty) -> bool
    ensures { result ≡ is_bool (out-Ty ty.now) }
{
    matches!(ty, Ty::Bool)
}

pub fn is_str(ty: &Ty) -> bool
    ensures { result ≡ is_str (out-Ty ty.now) }
{
    matches!(ty, Ty::Str)
}

pub fn is_site(ty: &Ty) -> bool
    ensures { result ≡ is_site (out-Ty ty.now) }
{
    matches!(ty, Ty::Site)
}

pub fn is_agent(ty: &Ty) -> bool
    ensures { result ≡ is_agent (out-Ty ty.now) }
{
    matches!(ty, Ty::Agent)
}

pub fn is_letter(ty: &Ty) -> bool
    ensures { result ≡ is_letter (out-Ty ty.now) }
{
    matches!(ty, Ty::Letter)
}

pub fn is_places(ty: &Ty) -> bool
    ensures { result ≡ is_places (out-Ty ty.now) }
{
    matches!(ty, Ty::Places)
}

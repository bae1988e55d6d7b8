ghost use Rattle.std.specs.Prelude.{◌≡◌, ◌+◌, ◌<◌, MatchOption};
ghost use Rattle.np_types.specs.Widths.{nodes, nodes_all, narrow, printable, printable_all};

use np_syntax::{Ty, WIDEST_TYPE};

/// Whether the type has at most 1,024 nodes. It looks at no more of them.
pub fn is_narrow(ty: &Ty) -> bool
    ensures { result ≡ narrow ty.now }
{
    left_after(ty, WIDEST_TYPE).is_some()
}

/// What is left of the room behind the nodes of a type, or none where they need more.
#[tactic(auto, using(crate::proofs::Counts::counts))]
#[cycle(left_after)]
fn left_after(ty: &Ty, room: u32) -> Option<u32>
    ensures { MatchOption result (room < nodes ty.now) (λ left. nodes ty.now + left ≡ room) }
{
    if room == 0 {
        return None;
    }
    match ty {
        Ty::Chan(_, carried) => left_after(carried.get(), room - 1),
        Ty::Tuple(parts) => left_after_all(parts.as_slice(), room - 1),
        Ty::Int | Ty::Bool | Ty::Str | Ty::Site | Ty::Agent | Ty::Letter | Ty::Places => {
            Some(room - 1)
        }
    }
}

#[tactic(auto, using(crate::proofs::Counts::counts))]
#[cycle(left_after)]
fn left_after_all(types: &[Ty], room: u32) -> Option<u32>
    ensures { MatchOption result (room < nodes_all types.now) (λ left. nodes_all types.now + left ≡ room) }
{
    let mut left = room;
    for ty in types {
        match left_after(ty, left) {
            Some(rest) => left = rest,
            None => return None,
        }
    }
    Some(left)
}

/// Whether values of the type may be printed.
#[tactic(auto, using(crate::proofs::Counts::prints))]
#[cycle(is_printable)]
pub fn is_printable(ty: &Ty) -> bool
    ensures { result ≡ printable ty.now }
{
    match ty {
        Ty::Int | Ty::Bool | Ty::Str | Ty::Site => true,
        Ty::Tuple(parts) => are_printable(parts.as_slice()),
        Ty::Agent | Ty::Chan(_, _) | Ty::Letter | Ty::Places => false,
    }
}

#[tactic(auto, using(crate::proofs::Counts::prints))]
#[cycle(is_printable)]
fn are_printable(types: &[Ty]) -> bool
    ensures { result ≡ printable_all types.now }
{
    for ty in types {
        if !is_printable(ty) {
            return false;
        }
    }
    true
}

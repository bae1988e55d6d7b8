ghost use Rattle.std.specs.Prelude.{◌≡◌, nat_eq, not};
ghost use Rattle.np_syntax.specs.Options.{need};
ghost use Rattle.np_tables.specs.Names.{same_name};
ghost use Rattle.np_calculus.specs.Reductions.{none_made, one_made, two_made, no_other, way, same_tag};
ghost use Rattle.np_calculus.specs.Sight.{at_site};

use np_calculus::Place;
use np_syntax::{Made, Name, Tag};

/// No name is made.
pub fn none_made(made: Made) -> Option<()>
    ensures { result ≡ none_made made }
{
    match made {
        Made::Nothing => Some(()),
        _ => None,
    }
}

/// The one name that is made.
pub fn one_made(made: Made) -> Option<Name>
    ensures { result ≡ one_made made }
{
    match made {
        Made::One(name) => Some(name),
        _ => None,
    }
}

/// The two names that are made.
pub fn two_made(made: Made) -> Option<(Name, Name)>
    ensures { result ≡ two_made made }
{
    match made {
        Made::Two(first, second) => Some((first, second)),
        _ => None,
    }
}

/// No output is taken.
pub fn no_other(other: Option<Name>) -> Option<()>
    ensures { result ≡ no_other other }
{
    match other {
        None => Some(()),
        Some(_) => None,
    }
}

/// The names are not one name.
pub fn two_names(first: Name, second: Name) -> Option<()>
    ensures { result ≡ need (not (same_name first second)) }
{
    if first == second { None } else { Some(()) }
}

/// Whether an agent of this place is at a site.
pub fn at_site(place: Option<Place>, site: u32) -> bool
    ensures { result ≡ at_site place site }
{
    match place {
        Some(Place::At(at)) => at == site,
        _ => false,
    }
}

/// The site to which an agent of this place is under way.
pub fn way(place: Place) -> Option<u32>
    ensures { result ≡ way place }
{
    match place {
        Place::At(_) => None,
        Place::Way(site) => Some(site),
    }
}

/// The sites are one site.
pub fn one_site(first: u32, second: u32) -> Option<()>
    ensures { result ≡ need (nat_eq first second) }
{
    if first == second { Some(()) } else { None }
}

/// The tags are one tag.
pub fn one_tag(first: Tag, second: Tag) -> Option<()>
    ensures { result ≡ need (same_tag first second) }
{
    if first == second { Some(()) } else { None }
}

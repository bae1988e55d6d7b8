//! The list of sites.

ghost use Rattle.std.specs.Prelude.{◌≡◌, [], length, map, IfOk, OnOk, ◌<◌};
ghost use Rattle.np_scope.specs.Outcomes.{Gives};
ghost use Rattle.np_scope.specs.Resolved as spec;
ghost use Rattle.np_scope.specs.Naming.{Enters};

use super::fail::ScopeFail;
use super::scope::{Meaning, Scope};
use np_syntax::{List, MOST_SITES, Memory, Text};
use np_tree::Ident;
use std::alloc::Global;

/// Puts the site of this number in scope.
#[tactic(auto, unfolding(crate::specs::Resolved::with_site))]
fn enter_site<'a>(scope: &mut Scope<'a>, site: &'a Ident, number: u32) -> Result<(), ScopeFail>
    ensures enters { Enters (spec.with_site site.now number scope.old) result scope.new }
    ensures few { OnOk result (number < MOST_SITES) }
{
    let name = site.text.as_slice();
    if scope.find(name).is_some() {
        return Err(ScopeFail::SiteTwice(site.at));
    }
    if number >= MOST_SITES {
        return Err(ScopeFail::TooManySites(site.at));
    }
    scope.enter(name, Meaning::Site(number))?;
    Ok(())
}

/// Puts the sites in scope, and answers how many there are.
pub fn enter_sites<'a>(scope: &mut Scope<'a>, sites: &'a [Ident]) -> Result<u32, ScopeFail>
    ensures enters { Enters (spec.with_sites sites.now 0 scope.old) result scope.new }
    ensures counted { IfOk result (λ count. count ≡ length sites.now) }
{
    let mut count: u32 = 0;
    for site in sites {
        enter_site(scope, site, count)?;
        count += 1;
    }
    Ok(count)
}

/// The site that the name after `main at` names.
pub fn home(scope: &Scope<'_>, name: &Ident) -> Result<u32, ScopeFail>
    ensures { Gives (spec.home_of scope.now name.now) result }
{
    match scope.find(name.text.as_slice()) {
        Some(Meaning::Site(site)) => Ok(site),
        _ => Err(ScopeFail::NotASite(name.at)),
    }
}

/// The names of the sites.
pub fn texts(alloc: Global, sites: &[Ident]) -> Result<List<Text>, Memory>
    ensures { IfOk result (λ names. names ≡ map (λ site. site.text) sites.now) }
{
    let mut names = List::new(alloc);
    for site in sites {
        names.add(site.text.copy(alloc)?)?;
    }
    Ok(names)
}

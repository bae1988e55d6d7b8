ghost use Rattle.std.specs.Prelude.{◌≡◌, ◌↔◌, length, IfOk, IsTrue};
ghost use Rattle.std.specs.Bool.{OnTrue};
ghost use Rattle.run_save.specs.Ours.{AreNext, names_of};
ghost use Rattle.run_save.specs.Notes.{CountsMore, IsNext, count_of};

use indexmap::IndexMap;
use np_syntax::{Made, Memory, Name};

/// How many names a site has made.
pub fn count(made: &IndexMap<u32, u64>, site: u32) -> u64
    ensures { result ≡ count_of made.now site }
{
    made.get(&site).copied().unwrap_or(0)
}

/// Counts a name that a site makes, and tells whether it is the site's next. Where it is not, nothing is counted.
fn makes_one(made: &mut IndexMap<u32, u64>, site: u32, name: Name) -> Result<bool, Memory>
    ensures next { IfOk result (λ next. IsTrue next ↔ IsNext site (count_of made.old site) name) }
    ensures counts { IfOk result (λ next. OnTrue next (CountsMore made.old made.new site 1)) }
{
    let n = count(made, site);
    if name.site != site || u64::from(name.n) != n {
        return Ok(false);
    }
    made.insert(site, n + 1)?;
    Ok(true)
}

/// Counts the names that an event of a site makes, and tells whether they are the site's next.
pub fn makes(made: &mut IndexMap<u32, u64>, site: u32, names: Made) -> Result<bool, Memory>
    ensures next { IfOk result (λ next. IsTrue next ↔ AreNext site (count_of made.old site) (names_of names)) }
    ensures counts { IfOk result (λ next. OnTrue next (CountsMore made.old made.new site (length (names_of names)))) }
{
    match names {
        Made::Nothing => Ok(true),
        Made::One(name) => makes_one(made, site, name),
        Made::Two(first, second) => {
            if !makes_one(made, site, first)? {
                return Ok(false);
            }
            makes_one(made, site, second)
        }
    }
}

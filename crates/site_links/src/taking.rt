//! How a port looks for an item.
ghost use Rattle.std.specs.Prelude.{◌≡◌, ◌≢◌, ◌+◌, ◌<◌, ◌≤◌, ℕ, [], true, false, MatchOption};
ghost use Rattle.site_links.specs.Seats.{among_of, known_at, Looked, Took};

use crate::ends::Ends;
use crate::port_of::PortOf;

/// The first of these sites from which an item is there.
pub fn find<I, E: Ends<I>>(port: &mut PortOf<E>, first: usize, end: usize) -> Option<usize>
    requires { (first ≤ end) × (end ≤ among_of port.old) }
    ensures { MatchOption result (Looked E.Ends first end port.old port.new)
        (λ from. (from < among_of port.old) × Looked E.Ends first first port.old port.new × (known_at E.Ends port.new from ≢ [])) }
{
    for site in first..end {
        if has_item(port, site) {
            return Some(site);
        }
    }
    None
}

/// Whether an item from a site is there.
fn has_item<I, E: Ends<I>>(port: &mut PortOf<E>, from: usize) -> bool
    requires { from < among_of port.old }
    ensures yes { result ≡ true → Looked E.Ends from from port.old port.new × (known_at E.Ends port.new from ≢ []) }
    ensures no { result ≡ false → Looked E.Ends from (from + 1) port.old port.new }
{
    !port.ends[from].is_empty()
}

/// Takes an item from one site, if one is there.
pub fn take_at<I, E: Ends<I>>(port: &mut PortOf<E>, from: usize) -> Option<I>
    requires { from < among_of port.old }
    ensures { MatchOption result (known_at E.Ends port.old from ≡ []) (λ item. Took E.Ends port.old port.new from item) }
{
    port.ends[from].take()
}

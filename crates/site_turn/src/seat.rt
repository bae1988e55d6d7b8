use agent_move::Item;
use site_state::Site;

/// A site beside its port. `aside` is an item that was taken from the port and is not accepted. `budget` is that of the
/// site's history. `failed` tells whether memory ran out, and `waits` whether an item waits for the site since its links
/// were settled.
#[derive(Drop)]
pub struct Seat<P> {
    pub site: Site,
    pub port: P,
    pub aside: Option<Item>,
    pub budget: u32,
    pub failed: bool,
    pub waits: bool,
}

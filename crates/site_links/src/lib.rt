//! Links between sites: a port for each site, over rings of `rtrb` or over lists that are handed over.
//!
//! A `Port` is what one site has of its links with all sites: `sent`, the items put for each site; `got`, those taken from
//! each; `known`, those known to wait from each; `room`, how many places are known to be free for each. `put` appends an
//! item, or gives it back, and that only if no place was known to be free; `take` gives the next item from some site, and
//! nothing only if none was known to wait. Once the link between two ports is settled, `got` and then `known` at the receiver
//! is `sent` at the sender, so in every schedule what was taken is a beginning of what was put. `put` and `take` wait for
//! nobody and take no memory. `Rings` and `Tray` are one type, `PortOf`, over two kinds of `Ends`.
//!
//! Contracts: `Port`, `Rings`, `Tray`, `Addressed`.
#![tactic(auto)]

mod addressed;
mod ends;
mod making;
mod places;
mod port;
mod port_of;
mod ring_ends;
mod taking;
mod tray_ends;

pub use addressed::Addressed;
pub use ends::Ends;
pub use places::PLACES;
pub use port::Port;
pub use port_of::{PortOf, Rings, Tray};
pub use ring_ends::RingEnds;
pub use tray_ends::TrayEnds;

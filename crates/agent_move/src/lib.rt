//! Items: agents and packets on their way from site to site.
//!
//! An `Item` is an agent with its atoms, or a packet under its mark, with its stamp and its two sites. It owns what it
//! carries; packing and unpacking move each part unchanged. The memory for it is made sure of before (`Space`).
//!
//! Contracts: `pack_agent`, `pack_packet`, `unpack`, `law_loads`.
#![tactic(auto)]

mod item;
mod laws;
mod load;
mod packing;
mod space;

pub use item::Item;
pub use laws::law_loads;
pub use load::Load;
pub use packing::{pack_agent, pack_packet, unpack};
pub use space::Space;

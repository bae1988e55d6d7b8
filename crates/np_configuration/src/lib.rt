//! The configuration in code, its rows, and the two starts.
//!
//! `apply` makes an event of any of the seventeen kinds exactly if its row is met, and leaves the configuration of that row;
//! where the row is not met, or memory runs out, it changes nothing. First a function of `&self`, such as `find_let`, finds
//! what the row needs, and makes the atoms that go on; then a short one makes room, files them and puts them in. `idle`,
//! `start_high` and `start_low` are their definitions. `Cfg::next` gives what can happen next, and nothing only if no site
//! can act.
//!
//! Contracts: `apply` (`Applied`), `Cfg::next` (`IsNext`), `idle`, `start_high`, `start_low`.
#![tactic(auto)]

mod alone;
mod atoms;
mod cfg;
mod entries;
mod fail;
mod filing;
mod frames;
mod going;
mod letters;
mod meets;
mod messages;
mod outputs;
mod places;
mod rows;
mod start;
mod step;
mod travel;
mod views;

pub use cfg::Cfg;
pub use fail::ApplyFail;
pub use rows::apply;
pub use start::{start_high, start_low};
pub use step::Step;

//! What a site holds, and does alone; and laws of sites that hold parts of one configuration. Definitions and laws only.
//!
//! A `Holding` is what a site sees of itself: its agents with their atoms, the number of the next name that it makes, and
//! what it printed. What a site does (`Does`) is a step of each configuration that is just this there (`IsPart`), if the
//! names that stand there are made and an item that comes is apart from it. No site can know these two; each whole has them.
//! Sites that did what they did by their holdings, with stamps by Lamport's rule over first-in first-out links, made one run
//! of the whole, from the low start to what they and the links hold at the end. It prints what the histories have as printed,
//! and rests exactly if each site can do nothing and the links are empty. A site cannot act there if it can do nothing by
//! itself and nothing is left on the links to it (`law_site_is_still`).
//!
//! Contracts: `law_own_events`, `law_leaving`, `law_coming`, `law_resting`, `law_enabled`, `law_names_made`, `law_held_run`,
//! `law_account`, `law_held_runs_are_runs`, `law_low_start_is_held`, `law_held_runs_end`, `law_sites_end`,
//! `law_rests_in_holdings`, `law_site_is_still`.
#![tactic(auto)]

mod holding_laws;
mod laws;
pub mod merged;

pub use holding_laws::{
    law_coming, law_enabled, law_leaving, law_loads, law_names_made, law_nothing_done,
    law_own_events, law_resting,
};
pub use laws::{
    law_account, law_held_run, law_held_runs_are_runs, law_held_runs_end, law_low_start_is_held,
    law_rests_in_holdings, law_site_is_still, law_sites_end,
};

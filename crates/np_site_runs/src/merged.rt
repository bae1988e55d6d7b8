//! Laws of runs that many parts make together: sites that hold parts of one configuration, what goes between them, and their
//! clocks.
//!
//! An event of a site is an event of each configuration that agrees with what the site has. Steps of many sites, with agents
//! and packets that leave one and come to another over first-in first-out links, are a run of the whole (`law_merged_run`).
//! Where each site ran alone with stamps by Lamport's rule (`IsSiteRun`, `AreSiteRuns`), the merged history is a run of the
//! whole, and ends in the one configuration that the sites, the links and the printed values show. The proof takes the deeds
//! by their stamps: an item that a deed takes has a lower stamp, so it was put before, and on its link it is the first that
//! waits. No stamp is above the number of all events, and an event that takes what an earlier one put on its way has a
//! greater one (`law_stamps`).
//!
//! Contracts: `law_agrees`, `law_steps`, `law_merged_run`, `law_site_run`, `law_spread_by_sites`, `law_links`,
//! `law_merged_is_run`, `law_said_in_order`, `law_stamps`, `law_rest_in_parts`.

mod laws;
mod stamped_laws;

pub use laws::{law_agrees, law_merged_run, law_steps};
pub use stamped_laws::{
    law_links, law_merged_is_run, law_rest_in_parts, law_said_in_order, law_site_run,
    law_spread_by_sites, law_stamps, law_turns,
};

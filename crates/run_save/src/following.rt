//! Laws of runs that sites make by themselves, and of one event more of such a run. Laws only.
//!
//! What sites did by their holdings, over first-in first-out links, is a run that is ours, and what it puts and takes on each
//! link is, item by item, what the ports tell. An event of an atom that is enabled where the merged history leads is enabled
//! in what its site holds, if it makes the site's next names. A history with an event more, of a stamp above all others, has
//! that event last in the merged list. If sites go on from a list of events, and each later event has a stamp greater than
//! their number, the merged list begins with the list.
//!
//! Contracts: `law_settled_are_ours`, `law_links_are_told`, `law_enabled_in_part`, `law_next_is_counted`,
//! `law_one_more_follows`, `law_resumes`.

mod laws;
mod travel_laws;

pub use laws::{law_enabled_in_part, law_next_is_counted, law_one_more_follows, law_resumes};
pub use travel_laws::{
    law_coming_is_first, law_deeds_are_of_kinds, law_links_are_told, law_settled_are_ours,
    law_settled_take_later,
};

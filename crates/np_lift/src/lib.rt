//! The list of events of the high level that is read off a run of the low level, by either infrastructure, and the posts that
//! are handed over in such a run.
//!
//! With the central infrastructure a list is lifted event by event (the code of this `lift` is in run_merge). With caches a
//! messenger has marks of its own, which at the high level are the mark of its post; so the lift goes along the events with a
//! `Standing`: which marks stand for others, and who the messengers are. `lift_cached` makes that list. The list of two parts
//! is that of the first, and then that of the second from what stands for what; where no mark comes to stand for another, it
//! is the list of the central infrastructure. The *deeds* of a run are its posts and what hands them over, each for the mark
//! for which its own stands; posts are *paired* if for each mark the two take turns.
//!
//! Contracts: `lift_cached`, `law_lift_of_lists`, `law_posts`, `law_stands_for`, `law_lift_cached_of_lists`,
//! `law_lift_cached_without_messengers`.
#![tactic(auto)]

mod cached_laws;
mod laws;
mod lifting;
mod stand_ins;

pub use cached_laws::{
    law_lift_cached_of_lists, law_lift_cached_without_messengers, law_stands_for,
};
pub use laws::{law_lift_of_lists, law_posts};
pub use lifting::lift_cached;

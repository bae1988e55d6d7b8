//! The invariant between the two levels: one record, `Coupled`, of a low and a high configuration. Laws only.
//!
//! The things under the marks of the low level give the atoms of the high one (`Mirrors`) and the chips of the protocol. The
//! starts of a sound program and of its low program have the invariant, and each event of the low level keeps it: with the
//! same high configuration if it is the infrastructure's or the landing of a post; with the Post if it is the Send of a post
//! or makes a messenger for one; and with the same event if it is the source's own. There are no others. Each law says what
//! the event makes of the letters under way, and with caches which marks come to stand for others.
//!
//! Contracts: `law_coupled_starts`, `law_roles`, `law_quiet`, `law_posts_are_events`, `law_steps_are_events`,
//! `law_meetings_are_events`, `law_moves_are_events`.

mod laws;

pub use laws::{
    law_coupled_starts, law_meetings_are_events, law_moves_are_events, law_posts_are_events,
    law_quiet, law_roles, law_steps_are_events,
};

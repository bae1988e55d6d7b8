//! The rule of an inbox: one bounded queue of a receiving site, into which all sites put. Laws only.
//!
//! Each step of a sender and of the owner keeps the rule, by which no more than 64 items of one sender wait, and what was
//! taken is a beginning of what was put. It is over plain lists, with a lemma for each step on the one that takes it and one
//! for all others.
//!
//! Contracts: `law_inbox_begins`, `law_inbox_pushes`, `law_inbox_pops`, `law_inbox_looks`, `law_inbox_splits`,
//! `law_inbox_joins`.
#![tactic(auto)]

mod laws;
mod rule;
mod views;

pub use laws::{
    law_inbox_begins, law_inbox_joins, law_inbox_looks, law_inbox_pops, law_inbox_pushes,
    law_inbox_splits,
};
pub use rule::{
    InboxRule, JoinGot, JoinSent, Look, NewSender, NoteGot, NoteSent, OneSite, Put, Take,
};
pub use views::{GotNote, OwnerView, SenderView, SentNote, View};

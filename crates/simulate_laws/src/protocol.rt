//! The protocol between agents and the daemon, and the caches of agents with their hints, told without processes. Laws only.
//!
//! The protocol is a collection of *chips*, each something that is there, such as an agent's free `currentloc` or a request
//! to move. A *rule* takes chips and gives chips. Each of sixteen rules keeps what the record `Protocol` says: the table of
//! phases, the one map of places, the use of each agent's lock, and the truth of every site that somebody is told. So an
//! agent has at most one move, creation or registration in progress with the daemon, and a letter under way finds its agent.
//! Caches have chips of their own and the rule `CacheRule`: each agent has a cache, whoever needs a hint finds one, and the
//! lock of a hint is hidden from the high level. Another infrastructure with the same protocol needs no other rules.
//!
//! Contracts: `law_protocol_kept`, `law_protocol_starts`, `law_protocol_gives`, `law_cache_rule_kept`,
//! `law_cache_rule_starts`, `law_cache_rule_gives`, `law_cache_rule_rests`.

mod cache_laws;
mod laws;

pub use cache_laws::{
    law_cache_rule_gives, law_cache_rule_kept, law_cache_rule_rests, law_cache_rule_starts,
};
pub use laws::{law_protocol_gives, law_protocol_kept, law_protocol_starts};

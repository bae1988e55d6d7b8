//! What the calls of an agent do at the site where it stands. Laws only.
//!
//! By each call of an agent the site does an event of what it holds (`Does` of np_site_runs).
//!
//! Contracts: `law_agent_calls`, `law_agents_leave`, `law_agents_come`, `law_agents_rest`.

mod laws;

pub use laws::{
    law_agent_calls, law_agents_come, law_agents_leave, law_agents_rest, law_room_unseen,
};

use agent_pool::Agent;

/// An agent, whether it has a turn, and whether it is among those of which it is not known whether they can do anything.
#[derive(Drop)]
pub struct Seat {
    pub agent: Agent,
    pub queued: bool,
    pub doubted: bool,
}

use agent_pool::Agent;
use np_calculus::Packet;
use np_syntax::Name;

/// What is under way: an agent with its atoms, or a packet under its mark.
#[derive(Drop)]
pub enum Load {
    Agent(Agent),
    Packet(Name, Packet),
}

ghost use Rattle.agent_pool.specs.Shown.{ChangesTheWhole};

/// An event of an agent is one of each configuration that shows the agent, with the same change.
pub fn law_shown()
    ensures { ChangesTheWhole }
{}

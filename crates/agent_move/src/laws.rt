ghost use Rattle.agent_move.specs.Laws.{LoadsAreItems, LoadsAreSomething};

/// What is under way is an item of the calculus, and is not nothing.
pub fn law_loads()
    ensures items { LoadsAreItems }
    ensures something { LoadsAreSomething }
{}

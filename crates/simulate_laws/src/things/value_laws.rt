ghost use Rattle.simulate_laws.specs.things.ValueLaws.{AgentStays, KeepsKnown, KnownMore, SameBinding, SameValue, SoundIsSource};
ghost use Rattle.simulate_laws.specs.things.ValueLaws.{ValueIsKnown};

/// Main's process in a sound program is a process of a source, for main.
pub fn law_sources()
    ensures { SoundIsSource }
{}

/// Under environments that agree on the source's binders an expression of a source has the same value, and a pattern binds the
/// same; what names the agent keeps its value, whatever the process binds.
pub fn law_same_values()
    ensures value { SameValue }
    ensures binding { SameBinding }
    ensures agent { AgentStays }
{}

/// A source makes no letter and no map, and no agent or channel that its values do not have.
pub fn law_known_values()
    ensures value { ValueIsKnown }
    ensures binding { KeepsKnown }
    ensures more { KnownMore }
{}

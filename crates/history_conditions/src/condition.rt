//! The conditions that a row of the table of reductions asks of an event.

ghost use Rattle.std.specs.Prelude.{◌≡◌};
ghost use Rattle.history_conditions.specs.Conditions.{field_of};

/// What a row asks of an event.
#[derive(Clone, Copy, PartialEq, Eq)]
pub enum Condition {
    /// An agent is under way, for an Arrive; a packet is, for a Land; else an atom stands under the mark.
    ActorStands,
    /// The agent or the packet goes to the site, or the agent of the atom is there.
    IsAtSite,
    /// The process of the atom makes events of the kind.
    IsOfKind,
    /// The node is that of the atom or of the packet, or 0.
    HasNode,
    /// The role is that of the atom or of the packet, or Plain.
    HasRole,
    /// An output is named exactly where the kind takes one.
    NamesOutput,
    /// A first name is made exactly where the row makes one.
    MakesFirst,
    /// A second name is made exactly where the row makes one.
    MakesSecond,
    /// The first name is not born yet.
    FirstIsNew,
    /// The second name is not born yet.
    SecondIsNew,
    /// The two names differ.
    NamesDiffer,
    /// An atom stands under the mark of the output.
    OutputStands,
    /// It is an output.
    IsOutput,
    /// It is in the agent of the input.
    IsInAgent,
    /// It is on the channel of the input.
    IsOnChannel,
    /// Each expression of the process has a value of the form that the row needs, and each pattern matches.
    OperandsFit,
}

/// The conditions, in the order in which they are asked.
pub const CONDITIONS: [Condition; 16] = [
    Condition::ActorStands,
    Condition::IsAtSite,
    Condition::IsOfKind,
    Condition::HasNode,
    Condition::HasRole,
    Condition::NamesOutput,
    Condition::MakesFirst,
    Condition::MakesSecond,
    Condition::FirstIsNew,
    Condition::SecondIsNew,
    Condition::NamesDiffer,
    Condition::OutputStands,
    Condition::IsOutput,
    Condition::IsInAgent,
    Condition::IsOnChannel,
    Condition::OperandsFit,
];

/// The fields of an event's line.
#[derive(Clone, Copy, PartialEq, Eq)]
pub enum EventField {
    Site,
    Kind,
    Actor,
    Other,
    Node,
    Role,
    FirstMade,
    SecondMade,
}

/// The field that a condition is about.
pub fn field_of(condition: Condition) -> EventField
    ensures { result ≡ field_of condition }
{
    match condition {
        Condition::ActorStands => EventField::Actor,
        Condition::IsAtSite => EventField::Site,
        Condition::IsOfKind | Condition::OperandsFit => EventField::Kind,
        Condition::HasNode => EventField::Node,
        Condition::HasRole => EventField::Role,
        Condition::MakesFirst | Condition::FirstIsNew => EventField::FirstMade,
        Condition::MakesSecond | Condition::SecondIsNew | Condition::NamesDiffer => {
            EventField::SecondMade
        }
        Condition::NamesOutput
        | Condition::OutputStands
        | Condition::IsOutput
        | Condition::IsInAgent
        | Condition::IsOnChannel => EventField::Other,
    }
}

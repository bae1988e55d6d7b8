use np_syntax::{Kind, Name, Tag};

/// What an agent can do: an atom that acts alone, or an input and an output that meet.
#[derive(Clone, Copy, PartialEq, Eq)]
pub struct Ready {
    pub kind: Kind,
    pub actor: Name,
    pub other: Option<Name>,
    pub tag: Tag,
}

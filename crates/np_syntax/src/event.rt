use super::process::Tag;
use super::value::Name;

/// The kinds of event, one for each row of the table of reductions.
#[derive(Clone, Copy, PartialEq, Eq)]
pub enum Kind {
    Stop,
    Fork,
    New,
    Let,
    If,
    Comm,
    Rep,
    Agent,
    Depart,
    Arrive,
    Local,
    Send,
    Land,
    Print,
    Open,
    Lookup,
    Post,
}

/// The names that an event makes.
#[derive(Clone, Copy, PartialEq, Eq)]
pub enum Made {
    Nothing,
    One(Name),
    Two(Name, Name),
}

/// One reduction at one site. `actor` is the mark of the acting atom, the mark of the packet that lands,
/// or the agent that arrives; `other` is the mark of the output that is taken.
#[derive(Clone, Copy, PartialEq, Eq)]
pub struct Event {
    pub site: u32,
    pub kind: Kind,
    pub actor: Name,
    pub other: Option<Name>,
    pub tag: Tag,
    pub made: Made,
}

/// How a run ended: no event was possible, or the budget was used and one was.
#[derive(Clone, Copy, PartialEq, Eq)]
pub enum End {
    Rest,
    Spent,
}

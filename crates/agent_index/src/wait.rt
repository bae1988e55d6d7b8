use np_syntax::Name;

/// What an atom waits for: it acts alone, it is an output or an input on a channel, or it waits on none.
#[derive(Clone, Copy, PartialEq, Eq)]
pub enum Wait {
    Acts,
    Gives(Name),
    Takes(Name),
    Stuck,
}

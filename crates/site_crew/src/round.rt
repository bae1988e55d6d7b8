/// What a round did: it added an event to a history; or it added none, and the whole rests; or it added none, and the whole
/// does not rest.
#[derive(Clone, Copy, PartialEq, Eq)]
pub enum Round {
    Went,
    Rest,
    Spent,
}

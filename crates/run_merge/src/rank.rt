/// Where an event stands in a merged history: by its stamp, and then by the number of its site.
#[derive(Clone, Copy, PartialEq, Eq, PartialOrd, Ord)]
pub struct Rank {
    pub stamp: u64,
    pub site: u32,
}

/// What is had of an event, with the event's rank.
#[derive(Clone, Copy)]
pub struct Ranked<T> {
    pub rank: Rank,
    pub item: T,
}

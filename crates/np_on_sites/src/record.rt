use np_syntax::{End, List};
use stamp_history::History;

/// What is kept of a run on sites: the history of each site, in the order of their numbers, and how the run ended.
#[derive(Drop)]
pub struct Record {
    pub histories: List<History>,
    pub end: End,
}

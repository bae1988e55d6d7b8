use np_syntax::Event;
use std::mem::size_of;

/// An event with its stamp: how far the clock of its site was then.
#[derive(Clone, Copy, PartialEq, Eq)]
pub struct Stamped {
    pub stamp: u64,
    pub event: Event,
}

/// How many bytes a history reserves for each event.
const STAMPED_BYTES: usize = 64;

const _: () = prove!(size_of::<Stamped>() == STAMPED_BYTES);

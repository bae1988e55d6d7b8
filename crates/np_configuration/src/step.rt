use np_syntax::Name;
use np_tables::Ready;

/// What a configuration does next: an agent arrives at a site, the packet of a mark lands, or atoms go on.
#[derive(Clone, Copy, PartialEq, Eq)]
pub enum Step {
    Arrives(Name, u32),
    Lands(Name),
    Goes(Ready),
}

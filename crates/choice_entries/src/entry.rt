//! What stands in the list of all that can happen next.

use np_syntax::Name;
use np_tables::Meeting;

/// An agent under way, a packet, an atom that acts alone, or a channel of an agent on which both an output and an input wait.
#[derive(Clone, Copy, PartialEq, Eq, Hash)]
pub enum Entry {
    Arrives(Name),
    Lands(Name),
    Acts(Name),
    Meets(Meeting),
}

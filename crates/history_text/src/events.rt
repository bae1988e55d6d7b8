//! Reading an event's line.

ghost use Rattle.std.specs.Prelude.{◌≡◌, ◌↔◌, IsTrue};
ghost use Rattle.history_text.specs.Reading as spec;

use super::fields::{behind, kind_at, made_at, name_at, number_at, optional_at, tag_at};
use super::format::Format;
use super::words::high_word;
use np_syntax::{Event, Kind, Role};

/// Whether the bytes are those that stand behind the eight fields of such an event.
fn ends_well(format: Format, kind: Kind, role: Role, rest: &[u8]) -> bool
    ensures { result ≡ spec.ends_well format kind role rest.now }
{
    match format {
        Format::First => rest.is_empty(),
        Format::Second => match rest {
            [b' ', high @ ..] => high == high_word(kind, role),
            _ => false,
        },
    }
}

/// The event of a line.
#[tactic(auto, unfolding(crate::specs::Reading::event_of))]
pub fn event_of(format: Format, line: &[u8]) -> Option<Event>
    ensures { result ≡ spec.event_of format line.now }
{
    let (site, rest) = number_at(line)?;
    let (kind, rest) = kind_at(behind(b' ', rest)?)?;
    let (actor, rest) = name_at(behind(b' ', rest)?)?;
    let (other, rest) = optional_at(behind(b' ', rest)?)?;
    let (tag, rest) = tag_at(behind(b' ', rest)?)?;
    let (made, rest) = made_at(behind(b' ', rest)?)?;
    if !ends_well(format, kind, tag.role, rest) {
        return None;
    }
    Some(Event {
        site,
        kind,
        actor,
        other,
        tag,
        made,
    })
}

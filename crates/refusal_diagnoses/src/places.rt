//! The place that is told of a refusal.

ghost use Rattle.std.specs.Prelude.{◌≡◌, ◌≤◌, ◌<◌, ◌^◌, length, min, IfSome};
ghost use Rattle.source_places.specs.Places.{place_at};
ghost use Rattle.refusal_diagnoses.specs.Diagnoses.{IsPlaceOf};

use super::spot::Spot;
use source_places::{Place, Reasons, place_at};

/// Where the mark of reasons begins, if there is one.
fn marked_place(bytes: &[u8], reasons: &Reasons) -> Option<Place>
    requires { length bytes.now < 2 ^ 31 }
{
    match &reasons.refused {
        Some(mark) => Some(place_at(bytes, mark.range.from.min(bytes.len()))),
        None => None,
    }
}

/// The place in a line: that of the mark where it stands there, and else the first column.
fn line_place(bytes: &[u8], line: usize, reasons: &Reasons) -> Place
    requires { length bytes.now < 2 ^ 31 }
    ensures { result.line ≡ line }
{
    match marked_place(bytes, reasons) {
        Some(place) if place.line == line => place,
        _ => Place {
            at: bytes.len(),
            start: bytes.len(),
            line,
            column: 1,
        },
    }
}

/// The place that is told, if there is one.
pub(super) fn place_for(bytes: &[u8], spot: Spot, reasons: &Reasons) -> Option<Place>
    requires { length bytes.now < 2 ^ 31 }
    ensures { IsPlaceOf spot bytes.now result }
{
    match spot {
        Spot::Offset(at) => {
            let at = (at as usize).min(bytes.len());
            Some(place_at(bytes, at))
        }
        Spot::Line(line) => Some(line_place(bytes, line as usize, reasons)),
        Spot::Marked => marked_place(bytes, reasons),
        Spot::Nowhere => None,
    }
}

//! Where a refusal is.

ghost use Rattle.std.specs.Prelude.{◌≡◌};
ghost use Rattle.refusal_diagnoses.specs.Diagnoses as spec;

use np_verdict::Refusal;

/// An offset of a source, a line of a history by its number, where the mark is, or no place.
#[derive(Clone, Copy)]
pub enum Spot {
    Offset(u32),
    Line(u32),
    Marked,
    Nowhere,
}

/// Where a refusal is.
pub fn spot_of(refusal: Refusal) -> Spot
    ensures { result ≡ spec.spot_of refusal }
{
    match refusal {
        Refusal::BadChar(at)
        | Refusal::BadString(at)
        | Refusal::BigNumber(at)
        | Refusal::Syntax(at)
        | Refusal::TooDeep(at)
        | Refusal::Unbound(at)
        | Refusal::SiteTwice(at)
        | Refusal::TooManySites(at)
        | Refusal::NotASite(at)
        | Refusal::LocationTest(at) => Spot::Offset(at),
        Refusal::TypeFault(fault) => Spot::Offset(fault.at),
        Refusal::HistSyntax(line) => Spot::Line(line),
        Refusal::NotARun(_) | Refusal::NotOurs(_) | Refusal::NoLine(_) | Refusal::BudgetPast(_) =>
            Spot::Marked,
        Refusal::Memory
        | Refusal::Usage
        | Refusal::ReadFault
        | Refusal::TooLong
        | Refusal::TooManyNodes(_)
        | Refusal::TooManyEvents
        | Refusal::HistoryTooLong => Spot::Nowhere,
    }
}

//! What is told of each event, as words that stand in no picture.

ghost use Rattle.std.specs.Prelude.{◌≡◌, length, IfOk};

use super::cast::{Binder, Cast, cast_of};
use super::shapes::Hue;
use super::telling::{printed_by, sentence_of};
use np_syntax::{Kind, List, Memory, Text};
use run_pictures::{Followed, Step};
use std::alloc::Global;

/// Who acts in an event, in which colour, and what that agent does.
#[derive(Drop)]
pub struct Saying {
    pub hue: Hue,
    pub name: Text,
    pub words: Text,
}

fn saying_of(
    alloc: Global,
    cast: &Cast,
    sites: &[Text],
    printed: &[u8],
    step: &Step,
) -> Result<Saying, Memory> {
    let name = List::from_slice(alloc, cast.name(step.agent))?;
    let words = sentence_of(alloc, cast, sites, printed, step)?;
    Ok(Saying {
        hue: cast.hue(step.agent),
        name,
        words,
    })
}

/// What is told of each event of a run of a program with these sites.
pub fn sayings_of(
    alloc: Global,
    sites: &[Text],
    binders: &[Binder],
    followed: &Followed,
) -> Result<List<Saying>, Memory>
    ensures { IfOk result (λ sayings. length sayings ≡ length followed.now.steps) }
{
    let steps = followed.steps.as_slice();
    let printed = followed.printed.as_slice();
    let count = u32::try_from(sites.len()).unwrap_or(0);
    let cast = cast_of(alloc, count, followed.makers.as_slice(), steps, binders)?;
    let mut sayings = List::new(alloc);
    let mut prints = 0usize;
    for step in steps {
        let said = printed_by(printed, prints);
        sayings.add(saying_of(alloc, &cast, sites, said, step)?)?;
        if matches!(step.event.kind, Kind::Print) {
            prints = prints.saturating_add(1);
        }
    }
    Ok(sayings)
}

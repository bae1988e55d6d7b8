//! What stands on the page of a run.

ghost use Rattle.std.specs.Prelude.{◌≡◌, ◌≤◌, length, take, IfOk};
ghost use Rattle.run_pictures.specs.declared.marks.TheConstants.{MOST_STEPS};
ghost use Rattle.picture_svg.specs.Pictures.{IsPicture};
ghost use Rattle.source_words.specs.Words.{source_of};
ghost use Rattle.look_pages.specs.ShownPages.{IsPageOfSteps, ShowsSteps};

use super::codes::{Codes, codes_of};
use super::heads::{heads_of, names_of};
use super::rows::{Facts, rows_of};
use super::sides::{Side, first_of};
use itoa::Buffer;
use look_sources::binders_of;
use markup_text::law_formed;
use np_lex::Token;
use np_syntax::{Kind, List, Memory, Proc, Text};
use page_html::{Page, Printed, View, law_pages_formed, page_text};
use picture_svg::{Binder, picture_text, sayings_of};
use run_pictures::{Followed, MOST_STEPS, Step};
use source_words::{Line, lines_of};
use std::alloc::Global;

/// How many events the table of a level has at most, and the picture of the source and that of the sites.
pub const MOST_ROWS: usize = 20_000;

pub const MOST_DRAWN_HIGH: usize = 400;

pub const MOST_DRAWN_LOW: usize = 1_200;

const HIGH_UNIT: &[u8] = b" events of the source";

const LOW_UNIT: &[u8] = b" events of the sites";

/// The name of a source, its sites, and how its run ended.
#[derive(Clone, Copy)]
pub(super) struct About<'a> {
    pub title: &'a [u8],
    pub sites: &'a [Text],
    pub end: &'a [u8],
}

/// What a source tells of itself: its lines, how it names the agents that it makes, and the words of its processes.
#[derive(Drop)]
pub(super) struct Told {
    pub lines: List<Line>,
    pub binders: List<Binder>,
    pub codes: Codes,
}

/// What a source of these tokens and this process tells, with the colours of the agents of a run of it.
pub(super) fn told_of(
    alloc: Global,
    bytes: &[u8],
    tokens: &[Token],
    main: &Proc,
    steps: &[Step],
) -> Result<Told, Memory>
    ensures { IfOk result (λ told. source_of told.lines ≡ bytes.now) }
{
    let binders = binders_of(alloc, bytes, main)?;
    let heads = heads_of(alloc, main)?;
    let agents = names_of(alloc, binders.as_slice(), steps)?;
    let lines = lines_of(alloc, bytes, tokens, heads.as_slice(), agents.as_slice())?;
    let codes = codes_of(alloc, lines.as_slice())?;
    Ok(Told {
        lines,
        binders,
        codes,
    })
}

fn put_count(text: &mut Text, count: usize) -> Result<(), Memory> {
    text.append(Buffer::new().format(count).as_bytes())
}

/// How many of the events there are: `All 7`, or `The first 20000 of 68215`, with what is counted.
fn share_of(alloc: Global, count: usize, most: usize, unit: &[u8]) -> Result<Text, Memory> {
    let mut text = List::new(alloc);
    if most < count {
        text.append(b"The first ")?;
        put_count(&mut text, most)?;
        text.append(b" of ")?;
    } else {
        text.append(b"All ")?;
    }
    put_count(&mut text, count)?;
    text.append(unit)?;
    Ok(text)
}

/// What is said of a picture that is not whole.
fn note_of(alloc: Global, count: usize, most: usize, unit: &[u8]) -> Result<Text, Memory> {
    if count <= most {
        return Ok(List::new(alloc));
    }
    let mut text = share_of(alloc, count, most, unit)?;
    text.append(b" are drawn.")?;
    Ok(text)
}

/// How many events there are at both levels.
fn summary_of(alloc: Global, high: usize, low: usize, end: &[u8]) -> Result<Text, Memory> {
    let mut text = List::new(alloc);
    put_count(&mut text, high)?;
    text.append(HIGH_UNIT)?;
    text.append(b", read off ")?;
    put_count(&mut text, low)?;
    text.append(LOW_UNIT)?;
    text.append(b"; ")?;
    text.append(end)?;
    Ok(text)
}

/// The line of what was printed at a site.
fn printed_line(alloc: Global, site: Option<&Text>, value: Option<&Text>) -> Result<Text, Memory> {
    let mut text = List::new(alloc);
    if let Some(site) = site {
        text.append(site.as_slice())?;
        text.append(b": ")?;
    }
    if let Some(value) = value {
        text.append(value.as_slice())?;
    }
    Ok(text)
}

/// What a run printed, with the numbers of the events.
fn printed_of(alloc: Global, sites: &[Text], followed: &Followed) -> Result<List<Printed>, Memory> {
    let values = followed.printed.as_slice();
    let mut printed = List::new(alloc);
    let mut event = 0u32;
    let mut prints = 0usize;
    for step in followed.steps.as_slice() {
        event = event.saturating_add(1);
        if matches!(step.event.kind, Kind::Print) {
            let site = sites.get(step.event.site as usize);
            let text = printed_line(alloc, site, values.get(prints))?;
            printed.add(Printed { event, text })?;
            prints = prints.saturating_add(1);
        }
    }
    Ok(printed)
}

/// A level on a page, whose picture has at most so many events.
fn view_of(
    alloc: Global,
    about: &About<'_>,
    told: &Told,
    unit: &[u8],
    side: &Side,
    most: usize,
) -> Result<View, Memory>
    requires { most ≤ MOST_STEPS }
    ensures { IfOk result (ShowsSteps most side.now.followed.steps) }
{
    let steps = side.followed.steps.as_slice();
    let binders = told.binders.as_slice();
    let first = first_of(alloc, &side.followed, most)?;
    let picture = picture_text(alloc, b"", unit, about.sites, binders, &first)?;
    let sayings = sayings_of(alloc, about.sites, binders, &side.followed)?;
    let facts = Facts {
        sites: about.sites,
        codes: &told.codes,
        sayings: sayings.as_slice(),
        causes: side.causes.as_slice(),
        twins: side.twins.as_slice(),
    };
    let rows = rows_of(alloc, &facts, steps, MOST_ROWS)?;
    let summary = share_of(alloc, steps.len(), MOST_ROWS, unit)?;
    let note = note_of(alloc, steps.len(), most, unit)?;
    Ok(View {
        picture,
        rows,
        summary,
        note,
    })
}

/// The page of a source with both levels of its run.
fn draft(
    alloc: Global,
    about: &About<'_>,
    told: Told,
    high: &Side,
    low: &Side,
) -> Result<Page, Memory>
    ensures lines { IfOk result (λ page. page.lines ≡ told.lines) }
    ensures high { IfOk result (λ page. ShowsSteps MOST_DRAWN_HIGH high.now.followed.steps page.high) }
    ensures low { IfOk result (λ page. ShowsSteps MOST_DRAWN_LOW low.now.followed.steps page.low) }
{
    let above = view_of(alloc, about, &told, HIGH_UNIT, high, MOST_DRAWN_HIGH)?;
    let below = view_of(alloc, about, &told, LOW_UNIT, low, MOST_DRAWN_LOW)?;
    let printed = printed_of(alloc, about.sites, &high.followed)?;
    let count = high.followed.steps.len();
    let summary = summary_of(alloc, count, low.followed.steps.len(), about.end)?;
    let title = List::from_slice(alloc, about.title)?;
    let end = List::from_slice(alloc, about.end)?;
    let Told {
        lines,
        binders: _,
        codes: _,
    } = told;
    Ok(Page {
        title,
        summary,
        lines,
        printed,
        end,
        high: above,
        low: below,
    })
}

/// The text of the page of a source with both levels of its run.
pub(super) fn text_for(
    alloc: Global,
    about: &About<'_>,
    told: Told,
    high: &Side,
    low: &Side,
) -> Result<Text, Memory>
    ensures { IfOk result (IsPageOfSteps (source_of told.lines) high.now.followed.steps low.now.followed.steps) }
{
    law_formed();
    law_pages_formed();
    let page = draft(alloc, about, told, high, low)?;
    page_text(alloc, &page)
}

//! What is said beside the marks: a sentence for each event that is told.

use super::cast::Cast;
use super::drawing::is_pale;
use super::shapes::{Form, Hue, Look, Point, Shape};
use super::values::{put_letter, put_message, put_value};
use itoa::Buffer;
use np_syntax::{Kind, List, Made, Memory, Role, Text};
use run_pictures::{Followed, Mark, Message, Step, is_told};
use std::alloc::Global;
use text_writer::TextWriter;

/// How wide a letter of a name is.
const LETTER: u32 = 8;

/// How far below the middle of a row its letters stand.
const BASE: u32 = 5;

/// How far behind its number a sentence begins.
const NUMBER_GAP: u32 = 14;

/// How many letters a sentence may have behind the name of who acts.
const LONGEST: usize = 48;

/// Writes to whom something goes.
fn put_target(text: &mut TextWriter, cast: &Cast, step: &Step) {
    match step.target {
        Some(target) if target == step.agent => text.put(b"itself"),
        Some(target) => text.put(cast.name(target)),
        None => text.put(b"an agent"),
    }
}

/// Writes the message of a step. Of a post that goes by the daemon that is the letter, with the agent for which it is.
fn put_sent(alloc: Global, text: &mut TextWriter, cast: &Cast, sites: &[Text], step: &Step) {
    let Some(message) = &step.message else {
        return text.put(b"a message");
    };
    match step.event.tag.role {
        Role::Post => put_letter(alloc, text, cast, sites, &message.value),
        Role::Plain | Role::Infra => put_message(alloc, text, cast, sites, message),
    }
}

/// What is sent, and to whom.
fn put_sending(alloc: Global, text: &mut TextWriter, cast: &Cast, sites: &[Text], step: &Step) {
    text.put(b"sends ");
    put_sent(alloc, text, cast, sites, step);
    text.put(b" to ");
    put_target(text, cast, step)
}

/// What is taken, and from which channel.
fn put_taking(alloc: Global, text: &mut TextWriter, cast: &Cast, sites: &[Text], step: &Step) {
    let Some(Message { chan, value }) = &step.message else {
        return text.put(b"takes a message");
    };
    text.put(b"takes ");
    put_value(alloc, text, cast, sites, value);
    text.put(b" from ");
    text.put(cast.channel(*chan))
}

/// Whether an agent is found here, and what it gets then.
fn put_looking(alloc: Global, text: &mut TextWriter, cast: &Cast, sites: &[Text], step: &Step) {
    if step.target.is_none() {
        return text.put(b"does not find the agent here");
    }
    text.put(b"gives ");
    put_sent(alloc, text, cast, sites, step);
    text.put(b" to ");
    put_target(text, cast, step);
    text.put(b", which is here")
}

/// What comes, or is lost.
fn put_landing(alloc: Global, text: &mut TextWriter, cast: &Cast, sites: &[Text], step: &Step) {
    if step.here {
        text.put(b"gets ");
    } else {
        text.put(b"is not here, lost: ");
    }
    put_sent(alloc, text, cast, sites, step)
}

/// The name of the agent that an event makes.
fn child<'a>(cast: &'a Cast, made: Made) -> &'a [u8] {
    match made {
        Made::Two(agent, _) => cast.name(agent),
        _ => b"?",
    }
}

/// The name of the channel that an event makes.
fn channel<'a>(cast: &'a Cast, made: Made) -> &'a [u8] {
    match made {
        Made::One(chan) => cast.channel(chan),
        _ => b"?",
    }
}

/// The name of a site.
fn site_name(sites: &[Text], site: u32) -> &[u8] {
    match sites.get(site as usize) {
        Some(name) => name.as_slice(),
        None => b"?",
    }
}

/// Writes a word and a name.
fn put_two(text: &mut TextWriter, word: &[u8], name: &[u8]) {
    text.put(word);
    text.put(name)
}

/// Writes what is done in a step, which prints this.
fn put_deed(
    alloc: Global,
    text: &mut TextWriter,
    cast: &Cast,
    sites: &[Text],
    printed: &[u8],
    step: &Step,
) {
    let made = step.event.made;
    match step.event.kind {
        Kind::Stop => text.put(b"ends a process"),
        Kind::Fork => text.put(b"splits in two"),
        Kind::New => put_two(text, b"makes a channel ", channel(cast, made)),
        Kind::Let => text.put(b"names a value"),
        Kind::If => text.put(b"decides"),
        Kind::Comm | Kind::Rep => put_taking(alloc, text, cast, sites, step),
        Kind::Agent => put_two(text, b"makes agent ", child(cast, made)),
        Kind::Depart => text.put(b"leaves"),
        Kind::Arrive => put_two(text, b"arrives at ", site_name(sites, step.event.site)),
        Kind::Local => put_looking(alloc, text, cast, sites, step),
        Kind::Send | Kind::Post => put_sending(alloc, text, cast, sites, step),
        Kind::Land => put_landing(alloc, text, cast, sites, step),
        Kind::Print => put_two(text, b"prints ", printed),
        Kind::Open => text.put(b"opens a letter"),
        Kind::Lookup => text.put(b"looks an agent up"),
    }
}

/// What is said of a step, cut where it is too long.
pub(crate) fn sentence_of(
    alloc: Global,
    cast: &Cast,
    sites: &[Text],
    printed: &[u8],
    step: &Step,
) -> Result<Text, Memory> {
    let mut written = TextWriter::new(alloc);
    put_deed(alloc, &mut written, cast, sites, printed, step);
    let text = written.finish()?;
    if text.len() <= LONGEST {
        return Ok(text);
    }
    let (front, _) = text.as_slice().split_at(LONGEST);
    let mut cut = List::from_slice(alloc, front)?;
    cut.append(b"..")?;
    Ok(cut)
}

/// How something is written beside a mark.
#[derive(Clone, Copy)]
struct Ink {
    look: Look,
    hue: Hue,
    pale: bool,
}

fn add_said(
    alloc: Global,
    words: &mut List<Shape>,
    ink: Ink,
    at: Point,
    said: &[u8],
) -> Result<(), Memory> {
    let text = List::from_slice(alloc, said)?;
    let Ink { look, hue, pale } = ink;
    let form = Form::Words { at, text };
    words.add(Shape {
        look,
        hue,
        pale,
        form,
    })
}

/// So far to the right of a point.
fn beside(at: Point, by: u32) -> Point {
    Point {
        x: at.x.saturating_add(by),
        y: at.y,
    }
}

/// How wide a name is, with the gap behind it.
fn width_of(name: &[u8]) -> u32 {
    let letters = u32::try_from(name.len()).unwrap_or(0);
    letters.saturating_mul(LETTER).saturating_add(5)
}

/// The number of an event, counted from 1.
fn add_number(
    alloc: Global,
    words: &mut List<Shape>,
    pale: bool,
    at: Point,
    number: u32,
) -> Result<(), Memory> {
    let mut digits = Buffer::new();
    let number = digits.format(number.saturating_add(1));
    let ink = Ink {
        look: Look::Number,
        hue: Hue::Plain,
        pale,
    };
    add_said(alloc, words, ink, at, number.as_bytes())
}

/// Who acts, and behind the name what was done.
fn add_sentence(
    alloc: Global,
    words: &mut List<Shape>,
    cast: &Cast,
    pale: bool,
    at: Point,
    step: &Step,
    said: &[u8],
) -> Result<(), Memory> {
    let name = cast.name(step.agent);
    let who = Ink {
        look: Look::Name,
        hue: cast.hue(step.agent),
        pale,
    };
    add_said(alloc, words, who, at, name)?;
    let look = match step.event.tag.role {
        Role::Infra => Look::Small,
        Role::Plain | Role::Post => Look::Say,
    };
    let what = Ink {
        look,
        hue: Hue::Plain,
        pale,
    };
    add_said(alloc, words, what, beside(at, width_of(name)), said)
}

/// What was printed by the Print of this number.
pub(crate) fn printed_by(printed: &[Text], count: usize) -> &[u8] {
    match printed.get(count) {
        Some(text) => text.as_slice(),
        None => b"",
    }
}

/// The sentences, to the right of this.
pub(crate) fn sentences_of(
    alloc: Global,
    cast: &Cast,
    sites: &[Text],
    followed: &Followed,
    marks: &[Mark],
    left: u32,
) -> Result<List<Shape>, Memory> {
    let mut words = List::new(alloc);
    let printed = followed.printed.as_slice();
    let numbers = followed.numbers.as_slice();
    let mut event = 0u32;
    let mut prints = 0usize;
    for (step, mark) in followed.steps.as_slice().iter().zip(marks.iter()) {
        let y = mark.y.saturating_add(BASE);
        if is_told(step) {
            let said = sentence_of(alloc, cast, sites, printed_by(printed, prints), step)?;
            let number = numbers.get(event as usize).copied().unwrap_or(event);
            let pale = is_pale(followed.pale.as_slice(), event);
            let at = Point { x: left, y };
            add_number(alloc, &mut words, pale, at, number)?;
            let behind = beside(at, NUMBER_GAP);
            add_sentence(alloc, &mut words, cast, pale, behind, step, said.as_slice())?;
        }
        if matches!(step.event.kind, Kind::Print) {
            prints = prints.saturating_add(1);
        }
        event = event.saturating_add(1);
    }
    Ok(words)
}

//! Reading a history.

ghost use Rattle.std.specs.Prelude.{◌≡◌, ◌≢◌, ◌+◌, ◌<◌, ◌≤◌, ◌∷◌, List as Items, length, IfOk, IfErr, MatchResult};
ghost use Rattle.std.specs.List.{prefix_len};
ghost use Rattle.np_syntax.specs.declared.event.Event.{Event as OneEvent};
ghost use Rattle.history_text.specs.declared.fail.HistFail.TheVariants as fail;
ghost use Rattle.history_text.specs.declared.format.Format.{Format as OneFormat};
ghost use Rattle.history_text.specs.Histories.{lines, IsHistory, IsRefusal};
ghost use Rattle.history_text.specs.Reading as spec;

use super::events::event_of;
use super::fail::HistFail;
use super::format::Format;
use super::words::format_of;
use np_syntax::{Event, List};
use std::alloc::Global;

/// How many bytes the shortest line of an event has, with its line feed.
const SHORTEST_LINE: usize = 22;

fn in_line(byte: u8) -> bool
    ensures { result ≡ spec.in_line byte }
{
    byte != b'\n'
}

fn line_len(bytes: &[u8]) -> usize
    ensures value { result ≡ prefix_len spec.in_line bytes.now }
    ensures within { result ≤ length bytes.now }
{
    bytes.iter().take_while(|byte| in_line(**byte)).count()
}

/// The line at the front, and the bytes behind it and its line feed.
fn cut(bytes: &[u8]) -> (&[u8], &[u8])
    requires { 0 < length bytes.now }
    ensures lines { lines bytes.now ≡ result.0.now ∷ lines result.1.now }
    ensures shorter { length result.1.now < length bytes.now }
{
    let (line, behind) = bytes.split_at(line_len(bytes));
    match behind {
        [_, rest @ ..] => (line, rest),
        [] => (line, behind),
    }
}

/// Whether the line is the last of a history.
fn is_end(line: &[u8]) -> bool
    ensures { result ≡ spec.is_end line.now }
{
    line == b"end".as_slice()
}

/// A history's events, from the line behind its first one on.
#[derive(Drop)]
struct Begun<'a> {
    format: Format,
    /// How many lines stand before.
    number: u32,
    rest: &'a [u8],
}

/// Skips the lines before the first line of the history, and that line.
fn begin(bytes: &[u8]) -> Result<Begun<'_>, HistFail>
    requires { length bytes.now ≤ 2147483648 }
    ensures { MatchResult result (λ b. spec.IsBegun bytes.now b.format b.number b.rest.now)
        (λ e. spec.Fails e (spec.history_from 0 (lines bytes.now))) }
{
    let mut number = 0;
    let mut rest = bytes;
    'lines: while !rest.is_empty() {
        let (line, after) = cut(rest);
        number += 1;
        rest = after;
        if let Some(format) = format_of(line) {
            return Ok(Begun {
                format,
                number,
                rest,
            });
        }
    }
    Err(HistFail::HistSyntax(number + 1))
}

/// The events of the lines up to the line `end`. So many lines stand before.
fn events_to_end(
    alloc: Global,
    format: Format,
    number: u32,
    bytes: &[u8],
) -> Result<List<Event>, HistFail>
    requires { number + length bytes.now ≤ 2147483648 }
    ensures reads { spec.Reads result (spec.events_from format number (lines bytes.now)) }
    ensures room { IfOk result (λ events. length events ≤ length bytes.now) }
{
    let mut events = List::new(alloc);
    events.reserve(bytes.len() / SHORTEST_LINE)?;
    let mut number = number;
    let mut rest = bytes;
    'lines: while !rest.is_empty() {
        let (line, after) = cut(rest);
        number += 1;
        rest = after;
        if is_end(line) {
            return Ok(events);
        }
        let Some(event) = event_of(format, line) else {
            return Err(HistFail::HistSyntax(number));
        };
        events.add(event)?;
    }
    Err(HistFail::HistSyntax(number + 1))
}

/// The events of a history, or the first line at fault.
fn history_of(alloc: Global, bytes: &[u8]) -> Result<List<Event>, HistFail>
    requires { length bytes.now ≤ 2147483648 }
    ensures reads { spec.Reads result (spec.history_from 0 (lines bytes.now)) }
    ensures room { IfOk result (λ events. length events ≤ length bytes.now) }
{
    let begun = begin(bytes)?;
    events_to_end(alloc, begun.format, begun.number, begun.rest)
}

/// The events of a history's text. Lines before the first line of a history are skipped, and nothing behind the first line
/// `end` after it is looked at.
pub fn read_history(alloc: Global, bytes: &[u8]) -> Result<List<Event>, HistFail>
    requires { length bytes.now ≤ 2147483648 }
    ensures found { IfOk result (λ events. (format : OneFormat) × IsHistory bytes.now format events) }
    ensures only { IfOk result (λ events. (format : OneFormat) (others : Items OneEvent) → IsHistory bytes.now format others
        → others ≡ events) }
    ensures refused { IfErr result (λ e. IsRefusal bytes.now e) }
    ensures none { IfErr result (λ e. e ≢ fail.Memory → (format : OneFormat) (events : Items OneEvent) → IsHistory bytes.now format events
        → ⊥) }
    ensures room { IfOk result (λ events. length events ≤ length bytes.now) }
{
    history_of(alloc, bytes)
}

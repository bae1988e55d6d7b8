//! An entry of a log as text.

ghost use Rattle.std.specs.Prelude.{◌≡◌, ◌++◌, IfOk, OnOk};
ghost use Rattle.shiviz_log.specs.Logs as spec;

use super::clocks::count_at;
use super::words::{kind_word, role_word};
use itoa::Buffer;
use np_syntax::{Event, List, Memory, Text};
use run_pictures::Step;
use std::alloc::Global;

fn site_name(sites: &[Text], site: usize) -> &[u8]
    ensures { result.now ≡ spec.site_name sites.now site }
{
    match sites.get(site) {
        Some(name) => name.as_slice(),
        None => b"?",
    }
}

/// A comma, unless nothing stands there.
fn put_comma(text: &mut Text) -> Result<(), Memory>
    ensures { OnOk result (text.new ≡ text.old ++ spec.comma_behind text.old) }
{
    if text.len() == 0 {
        return Ok(());
    }
    text.append(b",")
}

/// Appends the count of a site, unless it is 0.
fn put_count(text: &mut Text, name: &[u8], count: u32) -> Result<(), Memory>
    ensures { OnOk result (text.new ≡ spec.with_count text.old name.now count) }
{
    if count == 0 {
        return Ok(());
    }
    put_comma(text)?;
    text.append(b"\"")?;
    text.append(name)?;
    text.append(b"\":")?;
    text.append(Buffer::new().format(count).as_bytes())
}

/// A clock as text.
fn clock_text(alloc: Global, sites: &[Text], clock: &[u32]) -> Result<Text, Memory>
    ensures { IfOk result (λ text. text ≡ spec.clock_text sites.now clock.now) }
{
    let mut text = List::new(alloc);
    for site in 0..clock.len() {
        put_count(&mut text, site_name(sites, site), count_at(clock, site))?;
    }
    Ok(text)
}

/// Appends what an event is.
fn put_event(text: &mut Text, event: &Event) -> Result<(), Memory>
    ensures { OnOk result (text.new ≡ text.old ++ spec.event_words event.now) }
{
    text.append(kind_word(event.kind))?;
    text.append(b", node ")?;
    text.append(Buffer::new().format(event.tag.node).as_bytes())?;
    text.append(b", ")?;
    text.append(role_word(event.tag.role))
}

/// Appends the entry of a step with a clock.
pub(super) fn put_entry(
    alloc: Global,
    text: &mut Text,
    sites: &[Text],
    step: &Step,
    clock: &[u32],
) -> Result<(), Memory>
    ensures { OnOk result (text.new ≡ text.old ++ spec.entry sites.now step.now clock.now) }
{
    let counts = clock_text(alloc, sites, clock)?;
    text.append(site_name(sites, step.event.site as usize))?;
    text.append(b" {")?;
    text.append(counts.as_slice())?;
    text.append(b"}\n")?;
    put_event(text, &step.event)?;
    text.append(b"\n")
}

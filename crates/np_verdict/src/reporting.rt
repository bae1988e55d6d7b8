ghost use Rattle.std.specs.Prelude.{◌≡◌, ◌+ℤ◌, IfOk};
ghost use Rattle.std.specs.Int.{int_wrap, w64};
ghost use Rattle.np_syntax.specs.Printed.{value_text};
ghost use Rattle.text_writer.specs.Writes.{Writes};
ghost use Rattle.np_verdict.specs.Report.{said_line, said_text, last_line, load_text, number_of, past_text, report_text, replay_text};
ghost use Rattle.np_verdict.specs.Report.{wrapped_total};

use itoa::Buffer;
use np_syntax::{End, List, Memory, Text, Value, print_value};
use std::alloc::Global;
use text_writer::TextWriter;

/// The report of a run: a line for each printed value, with the name of its site; the text `between`; and the line that
/// says how the run ended.
#[tactic(auto, unfolding(crate::specs::Report::report_text))]
pub fn report(
    alloc: Global,
    sites: &List<Text>,
    said: &[(u32, Value)],
    between: &[u8],
    end: End,
) -> Result<Text, Memory>
    ensures { IfOk result (λ text. text ≡ report_text sites.now said.now between.now end) }
{
    let mut text = TextWriter::new(alloc);
    put_all(alloc, &mut text, sites, said);
    text.put(between);
    text.put(end_line(end));
    text.finish()
}

/// The report of a replay: a line for each printed value, and how many events the run has.
#[tactic(auto, unfolding(crate::specs::Report::replay_text))]
pub fn replay_report(
    alloc: Global,
    sites: &List<Text>,
    said: &[(u32, Value)],
    events: usize,
) -> Result<Text, Memory>
    ensures { IfOk result (λ text. text ≡ replay_text sites.now said.now events) }
{
    let mut text = TextWriter::new(alloc);
    put_all(alloc, &mut text, sites, said);
    text.put(b"a run of ");
    text.put(Buffer::new().format(events).as_bytes());
    text.put(b" events\n");
    text.finish()
}

/// The report of the past of a printed value: its line, the history text of the past, and how many events that has.
#[tactic(auto, unfolding(crate::specs::Report::past_text))]
pub fn past_report(
    alloc: Global,
    sites: &List<Text>,
    site: u32,
    value: &Value,
    history: &[u8],
    events: usize,
) -> Result<Text, Memory>
    ensures { IfOk result (λ text. text ≡ past_text sites.now (site, value.now) history.now events) }
{
    let mut text = TextWriter::new(alloc);
    put_said(alloc, &mut text, sites, site, value);
    text.put(history);
    text.put(b"past of ");
    text.put(Buffer::new().format(events).as_bytes());
    text.put(b" events\n");
    text.finish()
}

/// The report of a run of the generated source of so many agents: four lines, with how many values were printed and the
/// sum of those that are numbers.
#[tactic(auto, unfolding(crate::specs::Report::load_text))]
pub fn load_report(
    alloc: Global,
    agents: u32,
    said: &[(u32, Value)],
    end: End,
) -> Result<Text, Memory>
    ensures { IfOk result (λ text. text ≡ load_text agents said.now end) }
{
    let mut text = TextWriter::new(alloc);
    text.put(b"agents ");
    text.put(Buffer::new().format(agents).as_bytes());
    text.put(b"\nsaid ");
    text.put(Buffer::new().format(said.len()).as_bytes());
    text.put(b"\nsum ");
    text.put(Buffer::new().format(wrapped_total(said)).as_bytes());
    text.put(b"\n");
    text.put(end_line(end));
    text.finish()
}

/// The sum of the printed numbers, of which 64 bits with a sign are left.
fn wrapped_total(said: &[(u32, Value)]) -> i64
    ensures { result ≡ wrapped_total said.now }
{
    let mut sum = 0i64;
    for (_, value) in said {
        sum = plus(sum, number_of(value));
    }
    sum
}

/// The sum, of which 64 bits with a sign are left.
fn plus(a: i64, b: i64) -> i64
    ensures { result ≡ int_wrap w64 (a +ℤ b) }
{
    a.wrapping_add(b)
}

/// The number that a value is, or 0.
fn number_of(value: &Value) -> i64
    ensures { result ≡ number_of value.now }
{
    match value {
        Value::Int(number) => *number,
        _ => 0,
    }
}

/// The lines of the values.
fn put_all(alloc: Global, text: &mut TextWriter, sites: &List<Text>, said: &[(u32, Value)])
    ensures { Writes text.old text.new (said_text sites.now said.now) }
{
    for (site, value) in said {
        put_said(alloc, text, sites, *site, value);
    }
}

/// The line of a value.
fn put_said(alloc: Global, text: &mut TextWriter, sites: &List<Text>, site: u32, value: &Value)
    ensures { Writes text.old text.new (said_line sites.now (site, value.now)) }
{
    if let Some(name) = sites.as_slice().get(site as usize) {
        text.put(name.as_slice());
    }
    text.put(b": ");
    put_value(alloc, text, sites, value);
    text.put(b"\n")
}

fn put_value(alloc: Global, text: &mut TextWriter, sites: &List<Text>, value: &Value)
    ensures { Writes text.old text.new (value_text sites.now value.now) }
{
    match print_value(alloc, value, sites) {
        Ok(printed) => text.put(printed.as_slice()),
        Err(_) => text.fail(),
    }
}

fn end_line(end: End) -> &'static [u8]
    ensures { result.now ≡ last_line end }
{
    match end {
        End::Rest => b"at rest\n",
        End::Spent => b"budget spent\n",
    }
}

//! The modes that read a history.

ghost use Rattle.std.specs.Prelude.{◌≢◌, ◌+◌, ◌<◌, ◌≤◌, ◌^◌, ◌⊎◌, length, IfOk, IfErr};
ghost use Rattle.np_io.specs.Causes.{NoneFell};
ghost use Rattle.np_io.specs.Bytes.{StayHeld};
ghost use Rattle.np_sources.specs.Reaches.{Reach};
ghost use Rattle.np_words.specs.Plans.{HasLine};
ghost use Rattle.np_modes.specs.Readings.{seen};
ghost use Rattle.np_modes.specs.Causes.{IsLowered, OfRun, OfReplay, OfUpgrade, RefusesSource, RefusesRun, RefusesReplay, RefusesHistory};

use super::reading::read_text;
use np_histories::{LONGEST_HISTORY, replayed, upgraded};
use np_io::{Texts, Word};
use np_sources::{Job, low_of, text_alone};
use np_syntax::{LONGEST_SOURCE, LowProgram};
use np_verdict::Refusal;
use np_words::{Infrastructure, View};
use std::alloc::Global;

/// Writes a history anew, in the second format.
pub(crate) fn upgrade<T: Texts>(
    alloc: Global,
    texts: &mut T,
    history: &Word,
) -> Result<Job, Refusal>
    ensures begins { T.begins texts.new ≤ T.begins texts.old + 1 }
    ensures made { let seen = seen (T.held texts.old) (T.faults texts.old) (T.faults texts.new) (T.taken texts.new) (T.begins texts.old)
        (T.begins texts.new)
        in IfOk result (λ job. OfUpgrade seen history.now job.kept job.high job.text) }
    ensures refused { let seen = seen (T.held texts.old) (T.faults texts.old) (T.faults texts.new) (T.taken texts.new) (T.begins texts.old)
        (T.begins texts.new)
        in IfErr result (λ refusal. refusal ≢ Refusal.Memory → RefusesHistory seen history.now refusal) }
{
    let bytes = read_text(
        alloc,
        texts,
        history,
        LONGEST_HISTORY,
        Refusal::HistoryTooLong,
    )?;
    let text = upgraded(alloc, bytes.as_slice())?;
    Ok(text_alone(text))
}

/// Replays a history of a source, and shows this of it.
pub(crate) fn replay<T: Texts>(
    alloc: Global,
    texts: &mut T,
    source: &Word,
    history: &Word,
    infrastructure: Infrastructure,
    view: View,
) -> Result<Job, Refusal>
    requires { HasLine view }
    ensures begins { T.begins texts.new ≤ T.begins texts.old + 2 }
    ensures made { let seen = seen (T.held texts.old) (T.faults texts.old) (T.faults texts.new) (T.taken texts.new) (T.begins texts.old)
        (T.begins texts.new)
        in IfOk result (λ job. OfReplay seen source.now history.now infrastructure view job.kept job.high job.text) }
    ensures refused { let seen = seen (T.held texts.old) (T.faults texts.old) (T.faults texts.new) (T.taken texts.new) (T.begins texts.old)
        (T.begins texts.new)
        in IfErr result (λ refusal. refusal ≢ Refusal.Memory
        → RefusesSource seen source.now (Reach.low infrastructure) refusal
        ⊎ RefusesReplay seen source.now history.now infrastructure view refusal) }
{
    match read_low(alloc, texts, infrastructure, source) {
        Ok(low) => replay_low(alloc, texts, infrastructure, &low, history, view),
        Err(refusal) => Err(refusal),
    }
}

/// The low program of the source of this name.
fn read_low<T: Texts>(
    alloc: Global,
    texts: &mut T,
    infrastructure: Infrastructure,
    source: &Word,
) -> Result<LowProgram, Refusal>
    ensures held { StayHeld (T.held texts.old) (T.held texts.new) }
    ensures later { NoneFell (T.faults texts.old) (T.faults texts.new) }
    ensures begins { T.begins texts.new ≤ T.begins texts.old + 1 }
    ensures made { let seen = seen (T.held texts.old) (T.faults texts.old) (T.faults texts.new) (T.taken texts.new) (T.begins texts.old)
        (T.begins texts.new)
        in IfOk result (IsLowered seen source.now infrastructure) }
    ensures few { IfOk result (λ low. length low.sites < 2 ^ 32) }
    ensures refused { let seen = seen (T.held texts.old) (T.faults texts.old) (T.faults texts.new) (T.taken texts.new) (T.begins texts.old)
        (T.begins texts.new)
        in IfErr result (λ refusal. refusal ≢ Refusal.Memory → RefusesSource seen source.now (Reach.low infrastructure) refusal) }
{
    let bytes = read_text(alloc, texts, source, LONGEST_SOURCE, Refusal::TooLong)?;
    low_of(alloc, infrastructure, bytes.as_slice())
}

/// Replays the history of this name from the start of the low program, and shows this of it.
fn replay_low<T: Texts>(
    alloc: Global,
    texts: &mut T,
    infrastructure: Infrastructure,
    low: &LowProgram,
    history: &Word,
    view: View,
) -> Result<Job, Refusal>
    requires sites { length low.now.sites < 2 ^ 32 }
    requires line { HasLine view }
    ensures begins { T.begins texts.new ≤ T.begins texts.old + 1 }
    ensures made { let seen = seen (T.held texts.old) (T.faults texts.old) (T.faults texts.new) (T.taken texts.new) (T.begins texts.old)
        (T.begins texts.new)
        in IfOk result (λ job. OfRun seen history.now infrastructure low.now view job.kept job.high job.text) }
    ensures refused { let seen = seen (T.held texts.old) (T.faults texts.old) (T.faults texts.new) (T.taken texts.new) (T.begins texts.old)
        (T.begins texts.new)
        in IfErr result (λ refusal. refusal ≢ Refusal.Memory → RefusesRun seen history.now low.now view refusal) }
{
    let bytes = read_text(
        alloc,
        texts,
        history,
        LONGEST_HISTORY,
        Refusal::HistoryTooLong,
    )?;
    let text = replayed(alloc, infrastructure, low, view, bytes.as_slice())?;
    Ok(text_alone(text))
}

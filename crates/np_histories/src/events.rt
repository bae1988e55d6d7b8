//! From the text of a history to its events.

ghost use Rattle.std.specs.Prelude.{◌≡◌, ◌≢◌, ◌≤◌, length, IfOk, IfErr};
ghost use Rattle.np_histories.specs.Histories.{IsRead, Upgrades, HasNoEvents, of_history};

use super::limits::LONGEST_HISTORY;
use history_text::{HistFail, read_history, write_history};
use np_syntax::{Event, List, Memory, Text};
use np_verdict::Refusal;
use std::alloc::Global;

/// The refusal of `read_history` as a refusal of the program.
fn of_history(fail: HistFail) -> Refusal
    ensures { result ≡ of_history fail }
{
    match fail {
        HistFail::Memory => Refusal::Memory,
        HistFail::HistSyntax(line) => Refusal::HistSyntax(line),
    }
}

/// The events of a history.
pub fn events_of(alloc: Global, bytes: &[u8]) -> Result<List<Event>, Refusal>
    requires { length bytes.now ≤ LONGEST_HISTORY }
    ensures found { IfOk result (IsRead bytes.now) }
    ensures few { IfOk result (λ events. length events ≤ length bytes.now) }
    ensures refused { IfErr result (λ refusal. refusal ≢ Refusal.Memory → HasNoEvents bytes.now refusal) }
{
    match read_history(alloc, bytes) {
        Ok(events) => Ok(events),
        Err(fail) => Err(of_history(fail)),
    }
}

/// The events of a history in the second format.
pub fn upgraded(alloc: Global, bytes: &[u8]) -> Result<Text, Refusal>
    requires { length bytes.now ≤ LONGEST_HISTORY }
    ensures made { IfOk result (Upgrades bytes.now) }
    ensures refused { IfErr result (λ refusal. refusal ≢ Refusal.Memory → HasNoEvents bytes.now refusal) }
{
    let events = events_of(alloc, bytes)?;
    match write_history(alloc, events.as_slice()) {
        Ok(text) => Ok(text),
        Err(Memory) => Err(Refusal::Memory),
    }
}

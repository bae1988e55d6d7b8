//! Histories in the first format.

use history_text::{read_history, write_history_1};
use np_syntax::{Memory, Text};
use std::alloc::Global;
use std::test::Fail;

/// The nine events of a print.
const PRINT: &str =
    "history 1\n0 Fork 1.11 - 0 Infra 0.0 -\n0 Fork 1.11 - 0 Infra 0.1 -\n0 Print 1.11 - 1 Plain - -\n\
    0 Fork 1.12 - 0 Infra 0.2 -\n0 Fork 1.12 - 0 Infra 0.3 -\n0 Fork 1.12 - 0 Infra 0.4 -\n0 Fork 1.12 - 0 Infra 0.5 -\n\
    0 Fork 1.12 - 0 Infra 0.6 -\n0 Fork 1.12 - 0 Infra 0.7 -\nend\n";

/// What is read of a history, written again.
fn written_again(alloc: Global, history: &str) -> Result<Text, Memory> {
    let bytes = history.as_bytes();
    if bytes.len() > 1_000 {
        return Err(Memory);
    }
    match read_history(alloc, bytes) {
        Ok(events) => write_history_1(alloc, events.as_slice()),
        Err(_) => Err(Memory),
    }
}

#[test]
fn writes_the_first_format(rt: HostRuntime) -> Result<(), Fail> {
    let text = written_again(rt.alloc(), PRINT)?;
    let same = text.as_slice() == PRINT.as_bytes();
    drop(text);
    assert!(rt; same);
    Ok(())
}

//! Reading the texts that the words name.

ghost use Rattle.std.specs.Prelude.{◌≢◌, ◌+◌, ◌≤◌, IfOk, IfErr};
ghost use Rattle.np_io.specs.Causes.{NoneFell};
ghost use Rattle.np_io.specs.Bytes.{StayHeld};
ghost use Rattle.np_modes.specs.Readings.{IsRead, IsUnread, seen};

use np_io::{ReadFail, Texts, Word, read_all};
use np_syntax::List;
use np_verdict::Refusal;
use std::alloc::Global;

/// The bytes of a text, which has at most `limit` of them. `long` is the refusal of one with more.
pub(crate) fn read_text<T: Texts>(
    alloc: Global,
    texts: &mut T,
    name: &Word,
    limit: usize,
    long: Refusal,
) -> Result<List<u8>, Refusal>
    ensures held { StayHeld (T.held texts.old) (T.held texts.new) }
    ensures later { NoneFell (T.faults texts.old) (T.faults texts.new) }
    ensures begins { T.begins texts.new ≤ T.begins texts.old + 1 }
    ensures read { let seen = seen (T.held texts.old) (T.faults texts.old) (T.faults texts.new) (T.taken texts.new) (T.begins texts.old)
        (T.begins texts.new)
        in IfOk result (λ bytes. IsRead seen name.now limit bytes) }
    ensures refused { let seen = seen (T.held texts.old) (T.faults texts.old) (T.faults texts.new) (T.taken texts.new) (T.begins texts.old)
        (T.begins texts.new)
        in IfErr result (λ refusal. refusal ≢ Refusal.Memory → IsUnread seen name.now limit long refusal) }
{
    match read_all(alloc, texts, name, limit) {
        Ok(bytes) => Ok(bytes),
        Err(ReadFail::Memory) => Err(Refusal::Memory),
        Err(ReadFail::ReadFault) => Err(Refusal::ReadFault),
        Err(ReadFail::TooLong) => Err(long),
    }
}

ghost use Rattle.std.specs.Prelude.{◌≡◌, ◌≢◌, ◌+◌, ◌-◌, ◌^◌, ◌<◌, ◌≤◌, ℕ, Bool, true, List, length, min, Option, is_ok, IfOk, OnOk, OnErr};
ghost use Rattle.std.specs.Prelude.{IfSome};
ghost use Rattle.std.specs.Io.{ReadsAtMost};
ghost use Rattle.std.specs.Io.KnownBytes.{ReadConsumes};
ghost use Rattle.np_io.specs.Causes.{Rose, NoneFell, MayBe, HasCauseAt};
ghost use Rattle.np_io.specs.Bytes.{StayHeld, Starts};

use super::fault::Fault;
use super::word::Word;
use np_syntax::{List, Memory};
use std::alloc::Global;
use thiserror::Error;

/// Texts that are read by name, one at a time, from the first byte on. Failed calls are counted for
/// each name. A count at the greatest `u64` stays there, and contracts treat it as risen.
pub trait Texts {
    // For each name, how often a call for it has failed.
    ghost faults: { Self → List ℕ → ℕ };

    ghost is_begun: { Self → Bool };

    // The bytes held under each name, where they are told; none under a name that is not held.
    ghost held: { Self → List ℕ → Option (List ℕ) };

    // The name begun last, where it is told.
    ghost last: { Self → Option (List ℕ) };

    // The bytes left of the text that is begun, where they are told.
    ghost left: { Self → Option (List ℕ) };

    // How many bytes were read since the last beginning.
    ghost taken: { Self → ℕ };

    // How often a text was to begin.
    ghost begins: { Self → ℕ };

    /// Starts the named text from its first byte, with none of it read. After a fault no text is begun.
    fn begin(&mut self, name: &Word) -> Result<(), Fault>
        ensures begun { is_begun self.new ≡ is_ok result }
        ensures held { StayHeld (held self.old) (held self.new) }
        ensures later { NoneFell (faults self.old) (faults self.new) }
        ensures cause { OnErr result (Rose (faults self.old name.now) (faults self.new name.now)) }
        ensures last { OnOk result (MayBe (last self.new) name.now) }
        ensures left { OnOk result (Starts (held self.old name.now) (left self.new)) }
        ensures taken { taken self.new ≡ 0 }
        ensures begins { begins self.new ≡ min (begins self.old + 1) (2 ^ 64 - 1) };

    /// Puts the next bytes of the text into the front of `buf`, and answers how many. For a buffer
    /// that is not empty, 0 means the end of the text. A fault counts for the name begun last, or
    /// for every name where contracts do not know it.
    fn read(&mut self, buf: &mut [u8]) -> Result<usize, Fault>
        requires { is_begun self.old ≡ true }
        ensures begun { is_begun self.new ≡ true }
        ensures held { StayHeld (held self.old) (held self.new) }
        ensures later { NoneFell (faults self.old) (faults self.new) }
        ensures cause { HasCauseAt (last self.old) (faults self.old) (faults self.new) result }
        ensures last { last self.new ≡ last self.old }
        ensures bound { ReadsAtMost result buf.new }
        ensures bytes { ReadConsumes (left self.old) (left self.new) result buf.new }
        ensures taken { IfOk result (λ n. taken self.new ≡ min (taken self.old + n) (2 ^ 64 - 1)) }
        ensures none_taken { OnErr result (taken self.new ≡ taken self.old) }
        ensures begins { begins self.new ≡ begins self.old };
}

/// Why a text was not read whole.
#[derive(Clone, Copy, Debug, Error)]
pub enum ReadFail {
    #[error("out of memory")]
    Memory,
    /// A call of the texts failed.
    #[error("the text cannot be read")]
    ReadFault,
    /// More bytes were read than the limit.
    #[error("the text is too long")]
    TooLong,
}

/// How many bytes are asked for in one call.
const PIECE: usize = 4096;

/// Reads the whole text of a name. `ReadFault`: a call failed and at most `limit` bytes were read.
/// `TooLong`: more than `limit` bytes were read.
pub fn read_all<T: Texts>(
    alloc: Global,
    texts: &mut T,
    name: &Word,
    limit: usize,
) -> Result<List<u8>, ReadFail>
    ensures held { StayHeld (T.held texts.old) (T.held texts.new) }
    ensures later { NoneFell (T.faults texts.old) (T.faults texts.new) }
    ensures begins { T.begins texts.new ≡ min (T.begins texts.old + 1) (2 ^ 64 - 1) }
    ensures cause { result ≡ Err ReadFail.ReadFault
        → Rose (T.faults texts.old name.now) (T.faults texts.new name.now) }
    ensures whole { IfOk result (λ bytes. IfSome (T.held texts.old name.now) (λ text. bytes ≡ text)) }
    ensures count { IfOk result (λ bytes. (length bytes ≤ limit) × (T.taken texts.new ≡ length bytes)) }
    ensures long { result ≡ Err ReadFail.TooLong → limit < T.taken texts.new }
    ensures within { result ≢ Err ReadFail.TooLong → T.taken texts.new ≤ limit }
    ensures long_text { result ≡ Err ReadFail.TooLong
        → IfSome (T.held texts.old name.now) (λ text. limit < length text) }
{
    match texts.begin(name) {
        Ok(()) => read_rest(alloc, texts, limit),
        Err(Fault) => Err(ReadFail::ReadFault),
    }
}

/// Reads the rest of the text that was begun.
fn read_rest<T: Texts>(alloc: Global, texts: &mut T, limit: usize) -> Result<List<u8>, ReadFail>
    requires begun { T.is_begun texts.old ≡ true }
    requires none_taken { T.taken texts.old ≡ 0 }
    ensures held { StayHeld (T.held texts.old) (T.held texts.new) }
    ensures later { NoneFell (T.faults texts.old) (T.faults texts.new) }
    ensures begins { T.begins texts.new ≡ T.begins texts.old }
    ensures cause { (name : List ℕ) → MayBe (T.last texts.old) name → result ≡ Err ReadFail.ReadFault
        → Rose (T.faults texts.old name) (T.faults texts.new name) }
    ensures whole { IfOk result (λ bytes. IfSome (T.left texts.old) (λ text. bytes ≡ text)) }
    ensures count { IfOk result (λ bytes. (length bytes ≤ limit) × (T.taken texts.new ≡ length bytes)) }
    ensures long { result ≡ Err ReadFail.TooLong → limit < T.taken texts.new }
    ensures within { result ≢ Err ReadFail.TooLong → T.taken texts.new ≤ limit }
    ensures long_text { result ≡ Err ReadFail.TooLong → IfSome (T.left texts.old) (λ text. limit < length text) }
{
    let mut bytes = List::new(alloc);
    let mut buffer = [0u8; PIECE];
    loop {
        match texts.read(&mut buffer) {
            Ok(0) => return Ok(bytes),
            Ok(count) if count > limit - bytes.as_slice().len() => return Err(ReadFail::TooLong),
            Ok(count) => bytes
                .append(&buffer[..count])
                .map_err(|_| ReadFail::Memory)?,
            Err(Fault) => return Err(ReadFail::ReadFault),
        }
    }
}

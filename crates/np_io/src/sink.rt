ghost use Rattle.std.specs.Prelude.{◌≡◌, ◌≤◌, ℕ, List, [], Option, IfOk, OnOk, OnErr};
ghost use Rattle.std.specs.Io.{WritesAtMost};
ghost use Rattle.std.specs.Io.KnownBytes.{Appends, WriteAppends};
ghost use Rattle.np_io.specs.Causes.{Rose};
ghost use Rattle.np_io.specs.Bytes.{AppendsPrefix};

use super::fault::Fault;
use thiserror::Error;

/// Something to write bytes to, a piece at a time. Failed writes are counted. A count at the
/// greatest `u64` stays there, and contracts treat it as risen.
pub trait Sink {
    // How often a write has failed.
    ghost faults: { Self → ℕ };

    // The bytes written so far, where they are told.
    ghost written: { Self → Option (List ℕ) };

    /// Appends the first bytes of the piece, and answers how many. It answers 0 only for an empty
    /// piece. A call that fails appends nothing.
    fn write(&mut self, piece: &[u8]) -> Result<usize, Fault>
        ensures later { faults self.old ≤ faults self.new }
        ensures cause { OnErr result (Rose (faults self.old) (faults self.new)) }
        ensures bound { WritesAtMost result piece.now }
        ensures bytes { WriteAppends (written self.old) (written self.new) result piece.now }
        ensures some { IfOk result (λ n. n ≡ 0 → piece.now ≡ []) };
}

/// Why bytes were not written whole.
#[derive(Clone, Copy, Debug, Error)]
pub enum WriteFail {
    /// A call of the sink failed.
    #[error("the bytes cannot be written")]
    WriteFault,
}

/// Writes all the bytes, and takes no memory. After a fault a prefix of them is written.
pub fn write_all<S: Sink>(sink: &mut S, bytes: &[u8]) -> Result<(), WriteFail>
    ensures later { S.faults sink.old ≤ S.faults sink.new }
    ensures cause { OnErr result (Rose (S.faults sink.old) (S.faults sink.new)) }
    ensures all { OnOk result (Appends (S.written sink.old) (S.written sink.new) bytes.now) }
    ensures part { OnErr result (AppendsPrefix (S.written sink.old) (S.written sink.new) bytes.now) }
{
    let mut at = 0;
    while at < bytes.len() {
        match sink.write(&bytes[at..]) {
            Ok(count) => at += count,
            Err(Fault) => return Err(WriteFail::WriteFault),
        }
    }
    Ok(())
}

//! Texts to read by name and sinks to write to: in memory, over files, over standard streams.
//!
//! A text that was read is the text that is held. Both count their faults, so the cause of an error can be named afterwards.
//! ReadFault comes only if a count of faults rose, or stands at its greatest number, and at most `limit` bytes were read;
//! TooLong exactly if more were read. After a failed write a prefix is written. The texts and sinks in memory fail at chosen
//! calls.
//!
//! Contracts: `read_all`, `write_all`, the traits `Texts` and `Sink`.
#![tactic(auto)]

mod fault;
mod file_texts;
mod mem_sink;
mod mem_texts;
mod named_text;
mod sink;
mod stream;
mod texts;
mod word;

pub use fault::Fault;
pub use file_texts::FileTexts;
pub use mem_sink::MemSink;
pub use mem_texts::MemTexts;
pub use sink::{Sink, WriteFail, write_all};
pub use stream::{ErrSink, OutSink};
pub use texts::{ReadFail, Texts, read_all};
pub use word::Word;

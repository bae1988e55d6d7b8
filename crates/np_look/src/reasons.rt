//! What `why` tells: the refusal of a source, of a history of it, or of words of np; or what a word names.

ghost use Rattle.std.specs.Prelude.{IfErr};
ghost use Rattle.look_reasons.specs.Unread.{IsUnread};

use look_reasons::reason_of;
use look_words::Question;
use np_io::Texts;
use np_verdict::Refusal;
use refusal_diagnoses::Told;
use std::alloc::Global;

/// Answers a question; it cannot only for want of memory, and where a file cannot be read.
pub fn reason<T: Texts>(alloc: Global, texts: &mut T, question: Question) -> Result<Told, Refusal>
    ensures { IfErr result IsUnread }
{
    let Question {
        file,
        history,
        infrastructure,
    } = question;
    reason_of(alloc, texts, &file, &history, infrastructure)
}

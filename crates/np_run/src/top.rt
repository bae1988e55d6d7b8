ghost use Rattle.np_run.specs.Answers.{HasCauses};

use np_answers::{Answer, answer_of};
use np_io::{Sink, Texts, Word};
use np_modes::work;
use np_on_sites::{Free, Gate};
use std::alloc::Global;
use std::sync::Wait;
use std::thread::Threads;

/// np, over any texts and sinks. `words` is the command line without the program's name. `HasCauses` says what the answer
/// means.
pub fn np<R: Threads + Wait + Sync, T: Texts, O: Sink, E: Sink>(
    rt: &R,
    alloc: Global,
    words: &[Word],
    texts: &mut T,
    out: &mut O,
    err: &mut E,
) -> Answer
    ensures { HasCauses (record {
      words = words.now;
      texts = record {
        held = T.held texts.old;
        before = T.faults texts.old;
        now = T.faults texts.new;
        taken = T.taken texts.new;
        begun = T.begins texts.old;
        begins = T.begins texts.new;
      };
      out = record {
        before = O.faults out.old;
        now = O.faults out.new;
        old = O.written out.old;
        new = O.written out.new;
      };
      err = record {
        before = E.faults err.old;
        now = E.faults err.new;
        old = E.written err.old;
        new = E.written err.new;
      };
    }) result }
{
    np_gated(rt, alloc, words, texts, out, err, &Free)
}

/// The same, where the gate is called after each event that a site makes on a thread of its own.
pub fn np_gated<R: Threads + Wait + Sync, T: Texts, O: Sink, E: Sink, G: Gate>(
    rt: &R,
    alloc: Global,
    words: &[Word],
    texts: &mut T,
    out: &mut O,
    err: &mut E,
    gate: &G,
) -> Answer
    ensures { HasCauses (record {
      words = words.now;
      texts = record {
        held = T.held texts.old;
        before = T.faults texts.old;
        now = T.faults texts.new;
        taken = T.taken texts.new;
        begun = T.begins texts.old;
        begins = T.begins texts.new;
      };
      out = record {
        before = O.faults out.old;
        now = O.faults out.new;
        old = O.written out.old;
        new = O.written out.new;
      };
      err = record {
        before = E.faults err.old;
        now = E.faults err.new;
        old = E.written err.old;
        new = E.written err.new;
      };
    }) result }
{
    let made = work(alloc, rt, gate, words, texts);
    answer_of(alloc, made, out, err)
}

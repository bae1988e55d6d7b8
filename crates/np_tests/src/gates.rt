//! Sites on threads: two sites make their events beside each other.

use np_io::{MemSink, MemTexts, Word};
use np_run::{DONE, Gate, np_gated};
use np_syntax::{List, Memory};
use std::alloc::Global;
use std::sync::Wait;
use std::sync::atomic::{AtomicBool, AtomicU32, Ordering};
use std::thread::Threads;

/// How often a thread looks for what the other does before it gives up.
const LOOKS: u32 = 100_000_000;

/// After how many of its events a site is held.
const HELD: u32 = 3;

/// The daemon's site makes three events and more, main's makes seven.
const SOURCE: &str = "sites home far ; main at far = (0 | 0 | 0)";

/// Holds each of two sites after each of its first events, until the other has made as many.
#[derive(Drop)]
struct InStep {
    home: AtomicU32,
    far: AtomicU32,
    late: AtomicBool,
}

fn reaches(counter: &AtomicU32, count: u32) -> bool {
    for _ in 0..LOOKS {
        if counter.load(Ordering::SeqCst) >= count {
            return true;
        }
    }
    false
}

impl Gate for InStep {
    fn event(&self, site: u32, count: u32) {
        let (own, other) = if site == 0 {
            (&self.home, &self.far)
        } else {
            (&self.far, &self.home)
        };
        own.store(count, Ordering::SeqCst);
        if count <= HELD && !reaches(other, count) {
            self.late.store(true, Ordering::SeqCst);
        }
    }
}

/// The one text, the source.
fn hold_source(alloc: Global, texts: &mut MemTexts) -> Result<(), Memory> {
    let name = Word::new(alloc, "a")?;
    let bytes = List::from_slice(alloc, SOURCE.as_bytes())?;
    texts.add(name, bytes)
}

fn words(alloc: Global, line: &str) -> Result<List<Word>, Memory> {
    let mut words = List::new(alloc);
    for word in line.split_whitespace() {
        words.add(Word::new(alloc, word)?)?;
    }
    Ok(words)
}

fn sink(alloc: Global) -> Result<MemSink, Memory> {
    let mut sink = MemSink::new(alloc, 64);
    sink.reserve(64)?;
    Ok(sink)
}

/// The exit status of the run of the source by these words.
fn status_of<R: Threads + Wait + Sync, G: Gate>(
    rt: &R,
    alloc: Global,
    words: &[Word],
    out: &mut MemSink,
    gate: &G,
) -> Result<u8, Memory> {
    let mut texts = MemTexts::new(alloc);
    let status = status_over(rt, alloc, words, &mut texts, out, gate);
    drop(texts);
    status
}

/// The same, where the source is held in these texts first.
fn status_over<R: Threads + Wait + Sync, G: Gate>(
    rt: &R,
    alloc: Global,
    words: &[Word],
    texts: &mut MemTexts,
    out: &mut MemSink,
    gate: &G,
) -> Result<u8, Memory> {
    hold_source(alloc, texts)?;
    let mut err = sink(alloc)?;
    let answer = np_gated(rt, alloc, words, texts, out, &mut err, gate);
    drop(err);
    Ok(answer.told().status)
}

/// The exit status of the run by the words of a line.
fn run<R: Threads + Wait + Sync, G: Gate>(
    rt: &R,
    alloc: Global,
    line: &str,
    out: &mut MemSink,
    gate: &G,
) -> Result<u8, Memory> {
    let words = words(alloc, line)?;
    let status = status_of(rt, alloc, words.as_slice(), out, gate);
    drop(words);
    status
}

/// Whether the run comes to rest, and each site was held after each of its first events, none in vain.
fn goes_in_step<R: Threads + Wait + Sync>(
    rt: &R,
    alloc: Global,
    line: &str,
) -> Result<bool, Memory> {
    let gate = InStep {
        home: AtomicU32::new(0),
        far: AtomicU32::new(0),
        late: AtomicBool::new(false),
    };
    let mut out = sink(alloc)?;
    let status = run(rt, alloc, line, &mut out, &gate);
    let is_at_rest = out.bytes() == b"at rest\n".as_slice();
    drop(out);
    let is_late = gate.late.load(Ordering::SeqCst);
    let are_held = gate.home.load(Ordering::SeqCst) >= HELD
        && gate.far.load(Ordering::SeqCst) >= HELD;
    Ok(status? == DONE && is_at_rest && are_held && !is_late)
}

#[test]
fn two_sites_make_their_events_beside_each_other(rt: HostRuntime) {
    assert_eq!(rt;
        goes_in_step(&rt, rt.alloc(), "run a --links tray"),
        Ok(true)
    );
    assert_eq!(rt;
        goes_in_step(&rt, rt.alloc(), "run a --links rings"),
        Ok(true)
    );
    assert_eq!(rt;
        goes_in_step(&rt, rt.alloc(), "run a --links inbox"),
        Ok(true)
    );
}

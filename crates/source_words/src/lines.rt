//! The lines of a source, cut into words.

ghost use Rattle.std.specs.Prelude.{◌≡◌, ◌++◌, ◌≤◌, ◌<◌, take, drop, length, IfOk};
ghost use Rattle.source_words.specs.Words as spec;

use super::dyes::dyes_of;
use super::word::{Class, Dye, Head, Line, Named, Word};
use np_lex::Token;
use np_syntax::{List, Memory};
use std::alloc::Global;

const PLAIN: Dye = Dye {
    class: Class::Blank,
    node: 0,
};

fn dye_at(dyes: &[Dye], at: usize) -> Dye {
    match dyes.get(at).copied() {
        Some(dye) => dye,
        None => PLAIN,
    }
}

/// Where the bytes end that have one dye with that of a place, before an end.
fn run_end(dyes: &[Dye], at: usize, end: usize) -> usize
    requires { at < end }
    ensures from { at < result }
    ensures to { result ≤ end }
{
    let dye = dye_at(dyes, at);
    let mut reached = at + 1;
    while reached < end && dye_at(dyes, reached) == dye {
        reached += 1;
    }
    reached
}

/// The word from a place to an end.
fn word_of(
    alloc: Global,
    source: &[u8],
    dyes: &[Dye],
    at: usize,
    end: usize,
) -> Result<Word, Memory>
    requires from { at ≤ end }
    requires to { end ≤ length source.now }
    ensures { IfOk result (λ word. word.text ≡ drop at (take end source.now)) }
{
    let (front, _) = source.split_at(end);
    let (_, bytes) = front.split_at(at);
    let text = List::from_slice(alloc, bytes)?;
    Ok(Word {
        dye: dye_at(dyes, at),
        text,
    })
}

/// The line from a place to an end.
fn line_of(
    alloc: Global,
    source: &[u8],
    dyes: &[Dye],
    start: usize,
    end: usize,
) -> Result<Line, Memory>
    requires from { start ≤ end }
    requires to { end ≤ length source.now }
    ensures { IfOk result (λ line. take start source.now ++ spec.line_text line ≡ take end source.now) }
{
    let mut words = List::new(alloc);
    let mut at = start;
    'words: while at < end {
        let behind = run_end(dyes, at, end);
        words.add(word_of(alloc, source, dyes, at, behind)?)?;
        at = behind;
    }
    Ok(Line { words })
}

/// The lines of a source whose bytes have these dyes.
fn cut(alloc: Global, source: &[u8], dyes: &[Dye]) -> Result<List<Line>, Memory>
    ensures { IfOk result (λ lines. spec.source_of lines ≡ source.now) }
{
    let mut lines = List::new(alloc);
    let mut start = 0;
    for at in 0..source.len() {
        if source[at] == b'\n' {
            lines.add(line_of(alloc, source, dyes, start, at)?)?;
            start = at + 1;
        }
    }
    lines.add(line_of(alloc, source, dyes, start, source.len())?)?;
    Ok(lines)
}

/// The lines of a source that has these tokens. `heads` says where the words of its process nodes begin, in the order of the
/// source, and `agents` which names are those of agents.
pub fn lines_of(
    alloc: Global,
    source: &[u8],
    tokens: &[Token],
    heads: &[Head],
    agents: &[Named],
) -> Result<List<Line>, Memory>
    ensures { IfOk result (λ lines. spec.source_of lines ≡ source.now) }
{
    let dyes = dyes_of(alloc, source, tokens, heads, agents)?;
    cut(alloc, source, dyes.as_slice())
}

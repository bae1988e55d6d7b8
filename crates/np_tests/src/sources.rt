//! Sources of which programs of both levels are made.

use np_check::Checked;
use np_syntax::{LONGEST_SOURCE, Memory};
use np_verdict::checked_source;
use std::alloc::Global;

/// A message finds its agent at another site.
pub(crate) const LETTER: &str =
    "sites home far ; main at home = new c : ^Int in agent b = migrate to far -> c?x -> print x in <b@?>c!5";

/// An agent goes round eight sites twice, and tells main of each.
pub(crate) const TOUR: &str =
    "sites s0 s1 s2 s3 s4 s5 s6 s7 ; main at s0 = new r : ^Int in (*r?k -> print k | agent t = \
    migrate to s1 -> (<main@?>r!1 | migrate to s2 -> (<main@?>r!2 | migrate to s3 -> (<main@?>r!3 | migrate to s4 -> (<main@?>r!4 | \
    migrate to s5 -> (<main@?>r!5 | migrate to s6 -> (<main@?>r!6 | migrate to s7 -> (<main@?>r!7 | migrate to s0 -> (<main@?>r!8 | \
    migrate to s1 -> (<main@?>r!9 | migrate to s2 -> (<main@?>r!10 | migrate to s3 -> (<main@?>r!11 | migrate to s4 -> (<main@?>r!12 | \
    migrate to s5 -> (<main@?>r!13 | migrate to s6 -> (<main@?>r!14 | migrate to s7 -> (<main@?>r!15 | \
    migrate to s0 -> (<main@?>r!16 | 0)))))))))))))))) in 0)";

/// A buyer asks shops at their sites, and a clerk from there.
pub(crate) const SHOP: &str = "sites home shop1 shop2 shop3 ; main at home = \
    new offer : ^[Site Int] in new ask : ^[Agent Int] in new answer : ^String in \
    agent clerk = *ask?[who item] -> if item == 1 then <who@?>answer!\"tea\" else <who@?>answer!\"no such item\" in \
    agent buyer = migrate to shop1 -> (<main@?>offer![shop1 30] | migrate to shop2 -> (<main@?>offer![shop2 25] | \
    migrate to shop3 -> (<main@?>offer![shop3 28] | <clerk@?>ask![buyer 7] | answer?word -> migrate to home -> print word))) in \
    *offer?[place price] -> print [place price]";

/// The checked program of a source.
pub(crate) fn checked(alloc: Global, source: &str) -> Result<Checked, Memory> {
    let bytes = source.as_bytes();
    if bytes.len() > LONGEST_SOURCE as usize {
        return Err(Memory);
    }
    match checked_source(alloc, bytes) {
        Ok(checked) => Ok(checked),
        Err(_) => Err(Memory),
    }
}

//! How many of the runs were made, told while they are made.

use itoa::Buffer;
use look_runs::Progress;
use std::io::Write;
use std::time::{Clock, Instant};

/// Tells it where somebody watches, at most once a second, and not in the first.
#[derive(Drop)]
pub struct Teller<'a, C, W> {
    clock: &'a C,
    writer: W,
    is_watched: bool,
    last: Option<Instant>,
    has_told: bool,
}

impl<'a, C: Clock, W: Write> Teller<'a, C, W> {
    pub fn new(clock: &'a C, writer: W, is_watched: bool) -> Teller<'a, C, W> {
        Teller {
            clock,
            writer,
            is_watched,
            last: None,
            has_told: false,
        }
    }

    /// Whether a second went by since the last time. The first time only begins to count.
    fn is_due(&mut self) -> bool {
        let Ok(now) = Instant::now(self.clock) else {
            return false;
        };
        match self.last {
            Some(last) if now.duration_since(last).as_secs() < 1 => false,
            Some(_) => {
                self.last = Some(now);
                true
            }
            None => {
                self.last = Some(now);
                false
            }
        }
    }
}

/// Writes the line over the one before it. What cannot be written is let go.
fn tell<W: Write>(writer: &mut W, runs: u32, of: u32, end: &[u8]) {
    let mut count = Buffer::new();
    let mut all = Buffer::new();
    let _ = writer.write_all(b"\r");
    let _ = writer.write_all(count.format(runs).as_bytes());
    let _ = writer.write_all(b" of ");
    let _ = writer.write_all(all.format(of).as_bytes());
    let _ = writer.write_all(b" runs");
    let _ = writer.write_all(end);
}

impl<'a, C: Clock, W: Write> Progress for Teller<'a, C, W> {
    fn made(&mut self, runs: u32, of: u32) {
        if !self.is_watched {
            return;
        }
        if self.has_told && of <= runs {
            tell(&mut self.writer, runs, of, b"\n");
        } else if self.is_due() {
            tell(&mut self.writer, runs, of, b"");
            self.has_told = true;
        }
    }
}

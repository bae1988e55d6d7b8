//! Texts that are files, and sinks over writers.

use np_io::{ErrSink, FileTexts, OutSink, Sink, Texts, Word};
use std::fs;
use std::io::{self, Write};
use std::test::Fail;

/// How many bytes each of three calls reads of a text, and none where the text does not begin or one of them fails.
fn read_thrice<T: Texts>(texts: &mut T, name: &Word, buffer: &mut [u8]) -> Option<[usize; 3]> {
    if texts.begin(name).is_err() {
        return None;
    }
    let first = texts.read(buffer).ok()?;
    let second = texts.read(buffer).ok()?;
    let third = texts.read(buffer).ok()?;
    Some([first, second, third])
}

#[test]
fn reads_a_file_and_misses_one(rt: HostRuntime) -> Result<(), Fail> {
    fs::write(&rt, "some", "seven bytes")?;
    let some = Word::new(rt.alloc(), "some")?;
    let missing = Word::new(rt.alloc(), "missing")?;
    let mut buffer = [0u8; 8];
    let mut texts = FileTexts::new(&rt);
    let read = read_thrice(&mut texts, &some, &mut buffer);
    let is_missed = texts.begin(&missing).is_err();
    drop(texts);
    assert_eq!(rt; (read, is_missed), (Some([8, 3, 0]), true));
    assert_eq!(rt; &buffer, b"tesen by");
    Ok(())
}

/// Takes two bytes a call, at its third call none, and fails from then on.
#[derive(Drop)]
struct Dripping<'a> {
    bytes: &'a mut Vec<u8>,
    calls: u32,
}

impl Write for Dripping<'_> {
    fn write(&mut self, piece: &[u8]) -> io::Result<usize> {
        self.calls = self.calls.saturating_add(1);
        match self.calls {
            0..3 => {
                let count = piece.len().min(2);
                self.bytes.extend_from_slice(&piece[..count])?;
                Ok(count)
            }
            3 => Ok(0),
            _ => Err(io::ErrorKind::BrokenPipe.into()),
        }
    }

    fn flush(&mut self) -> io::Result<()> {
        Ok(())
    }
}

/// How many bytes each of four pieces is taken of, and none where a call fails.
fn write_four<S: Sink>(sink: &mut S, pieces: [&[u8]; 4]) -> [Option<usize>; 4] {
    let first = sink.write(pieces[0]).ok();
    let second = sink.write(pieces[1]).ok();
    let third = sink.write(pieces[2]).ok();
    let fourth = sink.write(pieces[3]).ok();
    [first, second, third, fourth]
}

#[test]
fn out_passes_bytes_on_and_fails(rt: HostRuntime) {
    let mut bytes = Vec::new(rt.alloc());
    let mut sink = OutSink::new(Dripping {
        bytes: &mut bytes,
        calls: 0,
    });
    let taken = write_four(&mut sink, [b"abc", b"c", b"d", b"d"]);
    drop(sink);
    assert_eq!(rt; taken, [Some(2), Some(1), None, None]);
    assert_eq!(rt; bytes.as_slice(), b"abc".as_slice());
}

#[test]
fn err_passes_bytes_on_and_fails(rt: HostRuntime) {
    let mut bytes = Vec::new(rt.alloc());
    let mut sink = ErrSink::new(Dripping {
        bytes: &mut bytes,
        calls: 1,
    });
    let taken = write_four(&mut sink, [b"abc", b"", b"c", b"c"]);
    drop(sink);
    assert_eq!(rt; taken, [Some(2), Some(0), None, None]);
    assert_eq!(rt; bytes.as_slice(), b"ab".as_slice());
}

//! The low text of a program.

ghost use Rattle.std.specs.Prelude.{◌≡◌, ◌++◌, IfOk, true, codes};
ghost use Rattle.text_writer.specs.Writes.{Writes};
ghost use Rattle.np_low_text.specs.LowText.{site_text, proc_text, low_text};

use super::processes::put_proc;
use np_syntax::{List, LowProgram, Memory, Proc, Text};
use std::alloc::Global;
use text_writer::TextWriter;

/// The low text of a program: a line for main and one for the daemon.
pub fn print_low(alloc: Global, q: &LowProgram) -> Result<Text, Memory>
    ensures { IfOk result (λ text. text ≡ low_text q.now) }
{
    let mut text = TextWriter::new(alloc);
    text.put(b"main");
    put_line(alloc, &mut text, &q.sites, q.at, &q.main);
    text.put(b"daemon");
    put_line(alloc, &mut text, &q.sites, 0, &q.daemon);
    text.finish()
}

/// ` at S = P` and a line feed.
fn put_line(alloc: Global, text: &mut TextWriter, sites: &List<Text>, at: u32, p: &Proc)
    ensures { Writes text.old text.new (codes " at " ++ site_text sites.now at ++ codes " = " ++ proc_text sites.now true p.now
        ++ codes "\n") }
{
    text.put(b" at ");
    put_site(text, sites.as_slice(), at);
    text.put(b" = ");
    put_proc(alloc, text, sites, true, p);
    text.put(b"\n")
}

fn put_site(text: &mut TextWriter, sites: &[Text], at: u32)
    ensures { Writes text.old text.new (site_text sites.now at) }
{
    match sites.get(at as usize) {
        Some(name) => text.put(name.as_slice()),
        None => {}
    }
}

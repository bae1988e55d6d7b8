//! The canonical text.

ghost use Rattle.std.specs.Prelude.{◌≡◌, IfOk, map};
ghost use Rattle.np_syntax.specs.Printed.{spaced};
ghost use Rattle.text_writer.specs.Writes.{Writes};
ghost use Rattle.np_show.specs.Shown.{name_text, shown};
ghost use Rattle.np_show.specs.Again.{ReadsBack};

use super::processes::put_proc;
use np_syntax::{Memory, Text};
use np_tree::{Ident, Tree};
use std::alloc::Global;
use text_writer::TextWriter;

/// The canonical text of a tree: one line and a line feed.
pub fn show(alloc: Global, tree: &Tree) -> Result<Text, Memory>
    ensures text { IfOk result (λ text. text ≡ shown tree.now) }
    ensures law { IfOk result (λ text. ReadsBack text tree.now) }
{
    let mut text = TextWriter::new(alloc);
    text.put(b"sites ");
    put_names(&mut text, tree.sites.as_slice());
    text.put(b" ; main at ");
    text.put(tree.at.text.as_slice());
    text.put(b" = ");
    put_proc(alloc, &mut text, true, &tree.main);
    text.put(b"\n");
    text.finish()
}

/// The names with single spaces between them.
fn put_names(text: &mut TextWriter, names: &[Ident])
    ensures { Writes text.old text.new (spaced (map name_text names.now)) }
{
    let Some((first, others)) = names.split_first() else {
        return;
    };
    text.put(first.text.as_slice());
    for other in others {
        text.put(b" ");
        text.put(other.text.as_slice());
    }
}

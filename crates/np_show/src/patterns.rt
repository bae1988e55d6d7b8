//! The texts of patterns.

ghost use Rattle.std.specs.Prelude.{map};
ghost use Rattle.np_syntax.specs.Printed.{spaced};
ghost use Rattle.text_writer.specs.Writes.{Writes};
ghost use Rattle.np_show.specs.Shown.{squared, pat_text};

use np_tree::{RawPat, RawPatForm};
use text_writer::TextWriter;

#[cycle(pat)]
pub fn put_pat(text: &mut TextWriter, pat: &RawPat)
    ensures { Writes text.old text.new (pat_text pat.now) }
{
    match &pat.form {
        RawPatForm::Any => text.put(b"_"),
        RawPatForm::Bind(name) => text.put(name.text.as_slice()),
        RawPatForm::Tuple(parts) => put_tuple_pat(text, parts.as_slice()),
    }
}

#[cycle(pat)]
fn put_tuple_pat(text: &mut TextWriter, parts: &[RawPat])
    ensures { Writes text.old text.new (squared (map pat_text parts.now)) }
{
    text.put(b"[");
    put_pats(text, parts);
    text.put(b"]")
}

/// The patterns with single spaces between them.
#[cycle(pat)]
fn put_pats(text: &mut TextWriter, parts: &[RawPat])
    ensures { Writes text.old text.new (spaced (map pat_text parts.now)) }
{
    let Some((first, others)) = parts.split_first() else {
        return;
    };
    put_pat(text, first);
    for other in others {
        text.put(b" ");
        put_pat(text, other);
    }
}

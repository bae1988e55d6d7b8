//! The texts of types.

ghost use Rattle.std.specs.Prelude.{map};
ghost use Rattle.np_syntax.specs.Printed.{spaced};
ghost use Rattle.np_lex.specs.Tokens.{sign_text};
ghost use Rattle.np_tree.specs.Grammar.{cap_sign};
ghost use Rattle.text_writer.specs.Writes.{Writes};
ghost use Rattle.np_show.specs.Shown.{squared, type_text};

use np_syntax::{Cap, Ty};
use text_writer::TextWriter;

#[cycle(ty)]
pub fn put_type(text: &mut TextWriter, ty: &Ty)
    ensures { Writes text.old text.new (type_text ty.now) }
{
    match ty {
        Ty::Int => text.put(b"Int"),
        Ty::Bool => text.put(b"Bool"),
        Ty::Str => text.put(b"String"),
        Ty::Site => text.put(b"Site"),
        Ty::Agent => text.put(b"Agent"),
        Ty::Chan(cap, carried) => {
            put_cap(text, *cap);
            put_type(text, carried.get())
        }
        Ty::Tuple(parts) => put_tuple_type(text, parts.as_slice()),
        Ty::Letter => {}
        Ty::Places => {}
    }
}

#[cycle(ty)]
fn put_tuple_type(text: &mut TextWriter, parts: &[Ty])
    ensures { Writes text.old text.new (squared (map type_text parts.now)) }
{
    text.put(b"[");
    put_types(text, parts);
    text.put(b"]")
}

/// The types with single spaces between them.
#[cycle(ty)]
fn put_types(text: &mut TextWriter, parts: &[Ty])
    ensures { Writes text.old text.new (spaced (map type_text parts.now)) }
{
    let Some((first, others)) = parts.split_first() else {
        return;
    };
    put_type(text, first);
    for other in others {
        text.put(b" ");
        put_type(text, other);
    }
}

fn put_cap(text: &mut TextWriter, cap: Cap)
    ensures { Writes text.old text.new (sign_text (cap_sign cap)) }
{
    match cap {
        Cap::Both => text.put(b"^"),
        Cap::Input => text.put(b"?"),
        Cap::Output => text.put(b"!"),
    }
}

//! Bytes as they may stand in a text or in the value of an attribute.

ghost use Rattle.std.specs.Prelude.{◌≡◌, ◌<◌};
ghost use Rattle.text_writer.specs.Writes.{Writes};
ghost use Rattle.markup_text.specs.Escapes as spec;

use text_writer::TextWriter;

/// The digit of a number below 16.
fn hex_digit(number: u8) -> u8
    requires { number < 16 }
    ensures { result ≡ spec.hex_digit number }
{
    if number < 10 {
        b'0' + number
    } else {
        b'a' + (number - 10)
    }
}

/// Writes a byte by its number, as `\x1b`.
pub fn put_number(text: &mut TextWriter, byte: u8)
    ensures { Writes text.old text.new (spec.numbered byte) }
{
    text.put(b"\\x");
    text.put_byte(hex_digit(byte / 16));
    text.put_byte(hex_digit(byte % 16))
}

/// A byte: as an entity where it could be read as markup, itself where it can be printed, and else by its number.
fn put_byte(text: &mut TextWriter, byte: u8)
    ensures { Writes text.old text.new (spec.escaped_byte byte) }
{
    match byte {
        b'&' => text.put(b"&amp;"),
        b'<' => text.put(b"&lt;"),
        b'>' => text.put(b"&gt;"),
        b'"' => text.put(b"&quot;"),
        b'\'' => text.put(b"&#39;"),
        b' '..=b'~' => text.put_byte(byte),
        _ => put_number(text, byte),
    }
}

/// Writes bytes, each escaped.
pub fn put_escaped(text: &mut TextWriter, bytes: &[u8])
    ensures { Writes text.old text.new (spec.escaped bytes.now) }
{
    for byte in bytes {
        put_byte(text, *byte);
    }
}

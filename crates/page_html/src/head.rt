//! The head of a page, with what a browser may load and run: nothing but the styles and the script that stand in the page.

ghost use Rattle.std.specs.Prelude.{◌≡◌, IfOk};
ghost use Rattle.sha2.specs.Sha256.{sha256};
ghost use Rattle.text_writer.specs.Writes.{Writes};
ghost use Rattle.page_html.specs.Heads as spec;

use super::parts::put_plain;
use base64::engine::general_purpose::STANDARD;
use markup_text::{
    AttributeName, Tag, close_single, open_tag, put_closing, put_opening, put_words_attribute,
};
use np_syntax::{Memory, Text};
use sha2::{Digest, Sha256};
use std::alloc::Global;
use text_writer::TextWriter;

fn hash_of(bytes: &[u8]) -> [u8; 32]
    ensures { result ≡ sha256 bytes.now }
{
    let mut hasher = Sha256::new();
    hasher.update(bytes);
    hasher.finalize()
}

/// Writes the digest of bytes, as a policy has it.
fn put_digest(alloc: Global, text: &mut TextWriter, bytes: &[u8])
    ensures { Writes text.old text.new (spec.digest bytes.now) }
{
    let hash = hash_of(bytes);
    match STANDARD.encode(alloc, hash.as_slice()) {
        Ok(encoded) => text.put(encoded.as_bytes()),
        Err(_) => text.fail(),
    }
}

/// The policy of a page with this style and script, and this style of its pictures.
pub(super) fn policy(
    alloc: Global,
    style: &[u8],
    pictures: &[u8],
    script: &[u8],
) -> Result<Text, Memory>
    ensures { IfOk result (λ text. text ≡ spec.policy style.now pictures.now script.now) }
{
    let mut text = TextWriter::new(alloc);
    text.put(b"default-src 'none'; style-src 'sha256-");
    put_digest(alloc, &mut text, style);
    text.put(b"' 'sha256-");
    put_digest(alloc, &mut text, pictures);
    text.put(b"'; script-src 'sha256-");
    put_digest(alloc, &mut text, script);
    text.put(b"'; base-uri 'none'; form-action 'none'");
    text.finish()
}

/// Writes what a browser is told under a name.
fn put_meta(text: &mut TextWriter, attribute: AttributeName, name: &[u8], content: &[u8])
    ensures { Writes text.old text.new (spec.meta attribute name.now content.now) }
{
    open_tag(text, Tag::Meta);
    put_words_attribute(text, attribute, name);
    put_words_attribute(text, AttributeName::Content, content);
    close_single(text)
}

fn put_metas(text: &mut TextWriter, policy: &[u8])
    ensures { Writes text.old text.new (spec.metas policy.now) }
{
    let named = AttributeName::Name;
    let told = AttributeName::HttpEquiv;
    put_meta(text, told, b"Content-Security-Policy", policy);
    let width = b"width=device-width,initial-scale=1";
    put_meta(text, named, b"viewport", width);
    put_meta(text, named, b"color-scheme", b"light dark")
}

/// Writes the head of a page.
pub(super) fn put_head(text: &mut TextWriter, title: &[u8], policy: &[u8], style: &[u8])
    ensures { Writes text.old text.new (spec.head_text title.now policy.now style.now) }
{
    put_opening(text, Tag::Head);
    put_metas(text, policy);
    put_plain(text, Tag::Title, title);
    put_plain(text, Tag::Style, style);
    put_closing(text, Tag::Head)
}

//! What stands at the front of bytes: a blank, a comment or a token.

ghost use Rattle.std.specs.Prelude.{◌≡◌, ◌≤◌, length, IfOk};
ghost use Rattle.std.specs.Char.{is_ascii_digit};
ghost use Rattle.std.specs.List.{prefix_len};
ghost use Rattle.np_lex.specs.Tokens as spec;
ghost use Rattle.np_lex.specs.Lexing as lexing;
ghost use Rattle.np_lex.specs.Refusals.{refusal as refusal_of};

use super::fail::LexFail;
use super::strings::string;
use super::token::{KEYS, Key, SIGNS, Sign, What};
use np_syntax::{LARGEST_INTEGER, LONGEST_NAME, List, Memory};
use std::alloc::Global;

fn is_digit(byte: u8) -> bool
    ensures { result ≡ is_ascii_digit byte }
{
    byte.is_ascii_digit()
}

fn is_letter(byte: u8) -> bool
    ensures { result ≡ spec.is_letter byte }
{
    byte.is_ascii_alphabetic()
}

/// Whether a word goes on with the byte.
fn goes_on(byte: u8) -> bool
    ensures { result ≡ spec.goes_on byte }
{
    is_letter(byte) || is_digit(byte) || byte == b'_' || byte == b'\''
}

fn is_blank(byte: u8) -> bool
    ensures { result ≡ spec.is_blank byte }
{
    byte == b' ' || byte == b'\t' || byte == b'\r' || byte == b'\n'
}

fn in_line(byte: u8) -> bool
    ensures { result ≡ spec.in_line byte }
{
    byte != b'\n'
}

fn line_len(bytes: &[u8]) -> usize
    ensures value { result ≡ prefix_len spec.in_line bytes.now }
    ensures within { result ≤ length bytes.now }
{
    bytes.iter().take_while(|byte| in_line(**byte)).count()
}

/// The length of the blank or the comment at the front, or 0.
pub fn skip_len(bytes: &[u8]) -> usize
    ensures value { result ≡ spec.skip_len bytes.now }
    ensures within { result ≤ length bytes.now }
{
    match bytes {
        [b'-', b'-', rest @ ..] => 2 + line_len(rest),
        [first, ..] if is_blank(*first) => 1,
        _ => 0,
    }
}

/// Why no token begins at this place, where the bytes stand.
pub fn refusal(place: u32, bytes: &[u8]) -> LexFail
    ensures { result ≡ refusal_of place bytes.now }
{
    match bytes {
        [b'"', ..] => LexFail::BadString(place),
        [first, ..] if is_digit(*first) => LexFail::BigNumber(place),
        _ => LexFail::BadChar(place),
    }
}

fn word_len(bytes: &[u8]) -> usize
    ensures value { result ≡ prefix_len spec.goes_on bytes.now }
    ensures within { result ≤ length bytes.now }
{
    bytes.iter().take_while(|byte| goes_on(**byte)).count()
}

fn key_of(text: &[u8]) -> Option<Key>
    ensures { result ≡ lexing.key_of text.now }
{
    KEYS.iter().copied().find(|key| key.text() == text)
}

/// The keyword or the name that the word is, unless it is too long.
#[tactic(auto, unfolding(crate::specs::Lexing::word_kind))]
fn word_kind(alloc: Global, text: &[u8]) -> Result<Option<What>, Memory>
    ensures { IfOk result (λ kind. kind ≡ lexing.word_kind text.now) }
{
    if let Some(key) = key_of(text) {
        return Ok(Some(What::Word(key)));
    }
    if text.len() > LONGEST_NAME {
        return Ok(None);
    }
    Ok(Some(What::Ident(List::from_slice(alloc, text)?)))
}

fn digits_len(bytes: &[u8]) -> usize
    ensures value { result ≡ prefix_len is_ascii_digit bytes.now }
    ensures within { result ≤ length bytes.now }
{
    bytes.iter().take_while(|byte| is_digit(**byte)).count()
}

/// The length of the `0` or of the digits at the front.
fn number_len(bytes: &[u8]) -> usize
    ensures value { result ≡ lexing.number_len bytes.now }
    ensures within { result ≤ length bytes.now }
{
    match bytes {
        [b'0', ..] => 1,
        _ => digits_len(bytes),
    }
}

/// The number that the digits write, unless it is too large.
fn bounded(digits: &[u8]) -> Option<u64>
    ensures { result ≡ lexing.bounded digits.now }
{
    let mut number: u64 = 0;
    'digits: for byte in digits {
        let digit = u64::from(byte.saturating_sub(b'0'));
        if number > (LARGEST_INTEGER - digit) / 10 {
            return None;
        }
        number = 10 * number + digit;
    }
    Some(number)
}

#[tactic(auto, unfolding(crate::specs::Lexing::number_kind))]
fn number_kind(digits: &[u8]) -> Option<What>
    ensures { result ≡ lexing.number_kind digits.now }
{
    bounded(digits).map(|number| What::Number(number as i64))
}

fn is_pair(first: u8, second: u8) -> bool
    ensures { result ≡ lexing.is_pair first second }
{
    (first == b'-' && second == b'>') || (first == b'=' && second == b'=')
}

/// The length of the sign at the front, if there is one.
fn sign_len(bytes: &[u8]) -> usize
    ensures value { result ≡ lexing.sign_len bytes.now }
    ensures within { result ≤ length bytes.now }
{
    match bytes {
        [first, second, ..] if is_pair(*first, *second) => 2,
        [_, ..] => 1,
        [] => 0,
    }
}

fn sign_of(text: &[u8]) -> Option<Sign>
    ensures { result ≡ lexing.sign_of text.now }
{
    SIGNS.iter().copied().find(|sign| sign.text() == text)
}

#[tactic(auto, unfolding(crate::specs::Lexing::sign_kind))]
fn sign_kind(text: &[u8]) -> Option<What>
    ensures { result ≡ lexing.sign_kind text.now }
{
    match sign_of(text) {
        Some(sign) => Some(What::Sign(sign)),
        None => None,
    }
}

/// The token that is so long, if there is one.
fn sized(len: usize, kind: Option<What>) -> Option<(usize, What)>
    ensures { result ≡ lexing.sized len kind }
{
    match kind {
        Some(kind) => Some((len, kind)),
        None => None,
    }
}

/// The token at the front, with its length.
#[tactic(auto, unfolding(crate::specs::Lexing::first_token))]
pub fn first_token(alloc: Global, bytes: &[u8]) -> Result<Option<(usize, What)>, Memory>
    ensures { IfOk result (λ first. first ≡ lexing.first_token bytes.now) }
{
    match bytes {
        [] => Ok(None),
        [b'"', rest @ ..] => string(alloc, rest),
        [first, ..] if is_letter(*first) => {
            let len = word_len(bytes);
            Ok(sized(len, word_kind(alloc, &bytes[..len])?))
        }
        [first, ..] if is_digit(*first) => {
            let len = number_len(bytes);
            Ok(sized(len, number_kind(&bytes[..len])))
        }
        [_, ..] => {
            let len = sign_len(bytes);
            Ok(sized(len, sign_kind(&bytes[..len])))
        }
    }
}

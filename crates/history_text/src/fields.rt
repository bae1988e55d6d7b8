//! Reading the fields of an event's line, each at the front of bytes.

ghost use Rattle.std.specs.Prelude.{◌≡◌, ◌≤◌, length};
ghost use Rattle.std.specs.Char.{is_ascii_digit};
ghost use Rattle.std.specs.List.{prefix_len};
ghost use Rattle.history_text.specs.Reading as spec;
ghost use Rattle.history_text.specs.Reading.{Gives};

use super::words::{kind_of, role_of};
use np_syntax::{Kind, LARGEST_NUMBER, Made, Name, Role, Tag};

fn is_digit(byte: u8) -> bool
    ensures { result ≡ is_ascii_digit byte }
{
    byte.is_ascii_digit()
}

fn digits_len(bytes: &[u8]) -> usize
    ensures value { result ≡ prefix_len is_ascii_digit bytes.now }
    ensures within { result ≤ length bytes.now }
{
    bytes.iter().take_while(|byte| is_digit(**byte)).count()
}

/// No leading zero, and some digit.
fn is_canonical(digits: &[u8]) -> bool
    ensures { result ≡ spec.is_canonical digits.now }
{
    match digits {
        [] => false,
        [_] => true,
        [first, _, ..] => *first != b'0',
    }
}

/// The number that the digits write, unless it is too large.
fn bounded(digits: &[u8]) -> Option<u32>
    ensures { result ≡ spec.bounded digits.now }
{
    let mut number: u64 = 0;
    'digits: for byte in digits {
        let digit = u64::from(byte.saturating_sub(b'0'));
        number = 10 * number + digit;
        if number > LARGEST_NUMBER {
            return None;
        }
    }
    Some(number as u32)
}

#[tactic(auto, unfolding(crate::specs::Reading::number_of))]
fn number_of(digits: &[u8]) -> Option<u32>
    ensures { result ≡ spec.number_of digits.now }
{
    if is_canonical(digits) {
        bounded(digits)
    } else {
        None
    }
}

/// A number, and the bytes behind it.
#[tactic(auto, unfolding(crate::specs::Reading::number_at))]
pub fn number_at(bytes: &[u8]) -> Option<(u32, &[u8])>
    ensures { Gives (λ x. (x.0, x.1.now)) result (spec.number_at bytes.now) }
{
    let (digits, rest) = bytes.split_at(digits_len(bytes));
    let number = number_of(digits)?;
    Some((number, rest))
}

/// The bytes behind this one.
pub fn behind(sign: u8, bytes: &[u8]) -> Option<&[u8]>
    ensures { Gives (λ x. x.now) result (spec.behind sign bytes.now) }
{
    match bytes {
        [first, rest @ ..] if *first == sign => Some(rest),
        _ => None,
    }
}

/// `site.n`, and the bytes behind it.
#[tactic(auto, unfolding(crate::specs::Reading::name_at))]
pub fn name_at(bytes: &[u8]) -> Option<(Name, &[u8])>
    ensures { Gives (λ x. (x.0, x.1.now)) result (spec.name_at bytes.now) }
{
    let (site, rest) = number_at(bytes)?;
    let rest = behind(b'.', rest)?;
    let (n, rest) = number_at(rest)?;
    Some((Name { site, n }, rest))
}

/// A name, or `-` for none, and the bytes behind it.
#[tactic(auto, unfolding(crate::specs::Reading::optional_at))]
pub fn optional_at(bytes: &[u8]) -> Option<(Option<Name>, &[u8])>
    ensures { Gives (λ x. (x.0, x.1.now)) result (spec.optional_at bytes.now) }
{
    if let Some(rest) = behind(b'-', bytes) {
        return Some((None, rest));
    }
    let (name, rest) = name_at(bytes)?;
    Some((Some(name), rest))
}

fn in_field(byte: u8) -> bool
    ensures { result ≡ spec.in_field byte }
{
    byte != b' '
}

fn field_len(bytes: &[u8]) -> usize
    ensures value { result ≡ prefix_len spec.in_field bytes.now }
    ensures within { result ≤ length bytes.now }
{
    bytes.iter().take_while(|byte| in_field(**byte)).count()
}

/// A kind's word, and the bytes behind it.
#[tactic(auto, unfolding(crate::specs::Reading::kind_at))]
pub fn kind_at(bytes: &[u8]) -> Option<(Kind, &[u8])>
    ensures { Gives (λ x. (x.0, x.1.now)) result (spec.kind_at bytes.now) }
{
    let (word, rest) = bytes.split_at(field_len(bytes));
    let kind = kind_of(word)?;
    Some((kind, rest))
}

/// A role's word, and the bytes behind it.
#[tactic(auto, unfolding(crate::specs::Reading::role_at))]
fn role_at(bytes: &[u8]) -> Option<(Role, &[u8])>
    ensures { Gives (λ x. (x.0, x.1.now)) result (spec.role_at bytes.now) }
{
    let (word, rest) = bytes.split_at(field_len(bytes));
    let role = role_of(word)?;
    Some((role, rest))
}

/// The fields NODE and ROLE, and the bytes behind them.
#[tactic(auto, unfolding(crate::specs::Reading::tag_at))]
pub fn tag_at(bytes: &[u8]) -> Option<(Tag, &[u8])>
    ensures { Gives (λ x. (x.0, x.1.now)) result (spec.tag_at bytes.now) }
{
    let (node, rest) = number_at(bytes)?;
    let rest = behind(b' ', rest)?;
    let (role, rest) = role_at(rest)?;
    Some((Tag { node, role }, rest))
}

/// The names that an event makes; there is no second one without a first.
fn made_of(first: Option<Name>, second: Option<Name>) -> Option<Made>
    ensures { result ≡ spec.made_of first second }
{
    match (first, second) {
        (None, None) => Some(Made::Nothing),
        (Some(name), None) => Some(Made::One(name)),
        (Some(name), Some(other)) => Some(Made::Two(name, other)),
        (None, Some(_)) => None,
    }
}

/// The fields MADE1 and MADE2, and the bytes behind them.
#[tactic(auto, unfolding(crate::specs::Reading::made_at))]
pub fn made_at(bytes: &[u8]) -> Option<(Made, &[u8])>
    ensures { Gives (λ x. (x.0, x.1.now)) result (spec.made_at bytes.now) }
{
    let (first, rest) = optional_at(bytes)?;
    let rest = behind(b' ', rest)?;
    let (second, rest) = optional_at(rest)?;
    let made = made_of(first, second)?;
    Some((made, rest))
}

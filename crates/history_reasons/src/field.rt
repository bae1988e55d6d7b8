//! The fields of an event's line.

use history_conditions::EventField;
use np_syntax::LARGEST_NUMBER;

/// A field, with how it is named and what it is to be.
#[derive(Clone, Copy)]
pub(super) struct Field {
    pub name: &'static [u8],
    pub wanted: &'static [u8],
}

pub(super) const SITE: usize = 0;

pub(super) const KIND: usize = 1;

pub(super) const ACTOR: usize = 2;

pub(super) const OTHER: usize = 3;

pub(super) const NODE: usize = 4;

pub(super) const ROLE: usize = 5;

pub(super) const MADE1: usize = 6;

pub(super) const MADE2: usize = 7;

pub(super) const HIGH: usize = 8;

const A_NUMBER: &[u8] = b"a number below 4,294,967,296, without leading zeros";

const A_NAME_OR_NONE: &[u8] = b"a name or `-`";

/// The fields in their order; the first format has no last one.
pub(super) const FIELDS: [Field; 9] = [
    Field {
        name: b"SITE",
        wanted: A_NUMBER,
    },
    Field {
        name: b"KIND",
        wanted: b"one of the seventeen kinds",
    },
    Field {
        name: b"ACTOR",
        wanted: b"a name, as `1.11`",
    },
    Field {
        name: b"OTHER",
        wanted: A_NAME_OR_NONE,
    },
    Field {
        name: b"NODE",
        wanted: A_NUMBER,
    },
    Field {
        name: b"ROLE",
        wanted: b"Plain, Post or Infra",
    },
    Field {
        name: b"MADE1",
        wanted: A_NAME_OR_NONE,
    },
    Field {
        name: b"MADE2",
        wanted: A_NAME_OR_NONE,
    },
    Field {
        name: b"HIGH",
        wanted: b"",
    },
];

/// The index of a field that a condition is about.
pub(super) fn place_of(field: EventField) -> usize {
    match field {
        EventField::Site => SITE,
        EventField::Kind => KIND,
        EventField::Actor => ACTOR,
        EventField::Other => OTHER,
        EventField::Node => NODE,
        EventField::Role => ROLE,
        EventField::FirstMade => MADE1,
        EventField::SecondMade => MADE2,
    }
}

/// The number that digits say, or a very large one.
fn value_of(digits: &[u8]) -> u64 {
    let mut value: u64 = 0;
    for digit in digits {
        let digit = u64::from(digit.saturating_sub(b'0'));
        value = value.saturating_mul(10).saturating_add(digit);
    }
    value
}

/// Whether a field is a number below 2 to the power of 32, without zeros in front.
fn is_number(field: &[u8]) -> bool {
    let digits = !field.is_empty() && field.iter().all(|byte| byte.is_ascii_digit());
    let zeros = field.len() > 1 && field.first() == Some(&b'0');
    digits && !zeros && value_of(field) <= LARGEST_NUMBER
}

/// Whether a field is two numbers with a point between them.
fn is_name(field: &[u8]) -> bool {
    let len = field.iter().take_while(|byte| **byte != b'.').count();
    let site = field.get(..len).unwrap_or(&[]);
    let n = field.get(len.saturating_add(1)..).unwrap_or(&[]);
    is_number(site) && is_number(n)
}

fn is_kind(field: &[u8]) -> bool {
    matches!(
        field,
        b"Stop"
            | b"Fork"
            | b"New"
            | b"Let"
            | b"If"
            | b"Comm"
            | b"Rep"
            | b"Agent"
            | b"Depart"
            | b"Arrive"
            | b"Local"
            | b"Send"
            | b"Land"
            | b"Print"
            | b"Open"
            | b"Lookup"
            | b"Post"
    )
}

/// Whether a field has the form of one with this index.
pub(super) fn has_form(field: &[u8], index: usize) -> bool {
    match index {
        SITE | NODE => is_number(field),
        KIND => is_kind(field),
        ACTOR => is_name(field),
        ROLE => matches!(field, b"Plain" | b"Post" | b"Infra"),
        OTHER | MADE1 | MADE2 => matches!(field, b"-") || is_name(field),
        _ => true,
    }
}

/// What becomes of an event in the high-level run, by its kind and its role.
pub(super) fn high_word(kind: &[u8], role: &[u8]) -> &'static [u8] {
    match (kind, role) {
        (b"Send", b"Post") => b"Post",
        (b"Land", b"Post") => b"-",
        (_, b"Infra") => b"-",
        _ => b"=",
    }
}

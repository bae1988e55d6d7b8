//! Numbers as words.

ghost use Rattle.std.specs.Prelude.{◌≡◌, ◌≤◌, IfSome};
ghost use Rattle.std.specs.Char.{is_ascii_digit};
ghost use Rattle.std.specs.List.{list_all};
ghost use Rattle.np_words.specs.Modes as spec;

use np_syntax::MOST_EVENTS;

/// How many digits a budget and a number of agents may have.
pub const MOST_DIGITS: usize = 6;

/// How many digits the number of a line may have.
pub const LINE_DIGITS: usize = 7;

/// The greatest number of a line of what a run printed: each line has an event.
pub const LAST_LINE: u32 = MOST_EVENTS;

/// The line that is meant where the words do not say it.
pub const FIRST_LINE: u32 = 1;

fn is_digit(byte: u8) -> bool
    ensures { result ≡ is_ascii_digit byte }
{
    byte.is_ascii_digit()
}

fn are_digits(bytes: &[u8]) -> bool
    ensures { result ≡ list_all is_ascii_digit bytes.now }
{
    bytes.iter().all(|byte| is_digit(*byte))
}

/// Whether these are one to so many digits.
fn is_numeral(digits: usize, bytes: &[u8]) -> bool
    ensures { result ≡ spec.is_numeral digits bytes.now }
{
    0 < bytes.len() && bytes.len() <= digits && are_digits(bytes)
}

fn within(most: u32, number: u32) -> Option<u32>
    ensures is { result ≡ spec.within most number }
    ensures bounds { IfSome result (λ n. (1 ≤ n) × (n ≤ most)) }
{
    if 1 <= number && number <= most {
        Some(number)
    } else {
        None
    }
}

/// The number that a word gives, if it is a numeral of at most so many digits, of a number from 1 to this.
pub fn number_of(digits: usize, most: u32, word: &str) -> Option<u32>
    ensures is { result ≡ spec.number_of digits most word.now }
    ensures bounds { IfSome result (λ n. (1 ≤ n) × (n ≤ most)) }
{
    if !is_numeral(digits, word.as_bytes()) {
        return None;
    }
    match word.parse::<u32>() {
        Ok(number) => within(most, number),
        Err(_) => None,
    }
}

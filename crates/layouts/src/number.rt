// Decimal numbers of 1 to 4 digits with no leading zero.
ghost use Rattle.std.specs.Prelude.{◌≡◌, ◌+◌, ◌*◌, ◌<◌, ◌≤◌, ◌==◌, ◌&&◌, length, min, nat_lt};
ghost use Rattle.std.specs.List.{take_while};
ghost use Rattle.std.specs.Option.{unwrap_or};
ghost use Rattle.layouts.specs.Numbers.{digit_worth, front_worth, is_digit, digits, most_digits, worth, number_at, Numerals};

use crate::fault::NumberFault;
use lists::rest_from;

// At most so many digits.
const MOST_DIGITS: usize = 4;

// A number that was read, and the place after its last digit.
#[derive(Clone, Copy, Debug, PartialEq, Eq)]
pub struct Number {
    pub value: u16,
    pub after: usize,
}

// What a digit stands for; any other byte has no worth.
pub fn digit_worth(b: u8) -> Option<u8>
    ensures { result ≡ digit_worth b }
{
    b.is_ascii_digit().then(|| b - b'0')
}

// How many digits stand at the front.
fn count_digits(text: &[u8]) -> usize
    ensures { result ≡ length (take_while is_digit text.now) }
{
    text.iter().take_while(|b| b.is_ascii_digit()).count()
}

// The same, up to one more than a number may have: however many follow, it is no number.
fn count_few_digits(text: &[u8]) -> usize
    ensures { result ≡ min (most_digits + 1) (digits text.now) }
{
    let most = (MOST_DIGITS + 1).min(text.len());
    count_digits(&text[..most])
}

// The worth of the first byte, if it is a digit.
fn front_worth(text: &[u8]) -> Option<u8>
    ensures { result ≡ front_worth text.now }
{
    text.first().and_then(|b| digit_worth(*b))
}

// Whether the first of so many digits is a zero that others follow.
fn zero_leads(text: &[u8], digits: usize) -> bool
    ensures { result ≡ (unwrap_or (front_worth text.now) 1 == 0 && nat_lt 1 digits) }
{
    front_worth(text).unwrap_or(1) == 0 && digits > 1
}

// The number with one digit more.
fn with_digit(value: u16, worth: u8) -> u16
    requires { value * 10 + worth < 65536 }
    ensures { result ≡ value * 10 + worth }
{
    value * 10 + u16::from(worth)
}

// What the digits at the front are worth together, of at most four bytes. As a `fold` it was tried: what `with_digit` asks at each step stays open.
fn worth_of(text: &[u8]) -> u16
    requires { length text.now ≤ most_digits }
    ensures { result ≡ worth 0 text.now }
{
    let mut value = 0;
    for b in text {
        let Some(worth) = digit_worth(*b) else {
            return value;
        };
        value = with_digit(value, worth);
    }
    value
}

// Reads the number that starts at `at`.
pub fn read_number(text: &[u8], at: usize) -> Result<Number, NumberFault>
    ensures { result ≡ number_at text.now at }
{
    let rest = rest_from(text, at);
    let digits = count_few_digits(rest);
    if digits == 0 || zero_leads(rest, digits) {
        return Err(NumberFault { at });
    }
    if digits > MOST_DIGITS {
        return Err(NumberFault {
            at: at + MOST_DIGITS,
        });
    }
    Ok(Number {
        value: worth_of(&rest[..digits]),
        after: at + digits,
    })
}

// A number is read exactly where its numeral stands and no further digit follows.
pub fn numbers_read_as_written()
    ensures { Numerals }
{}

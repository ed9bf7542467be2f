// The identifiers: which one some bytes begin with, and what its data must be.
#![tactic(auto)]

ghost use Rattle.std.specs.Prelude.{◌≡◌, true, ◌+◌, ◌<◌, length, get_or, take};
ghost use Rattle.laws.specs.First.{first_not};
ghost use Rattle.digits.specs.Digit.{is_digit};
ghost use Rattle.laws.specs.Among.{among};
ghost use Rattle.identifiers.specs.Identifiers.{exactly, up_to, measures, spelled};
ghost use Rattle.identifiers.specs.Rows.{digits_after, row_of, row_at};
ghost use Rattle.identifiers.specs.Data.{pair_at};

pub mod contents;

// What the data of an element string is.
#[derive(Clone, Copy)]
pub enum Content {
    DigitsWithCheck,
    Date,
    Digits,
    Text,
}

// Whether the length of the data is predefined, the least and the most bytes, and what they are.
#[derive(Clone, Copy)]
pub struct Kind {
    pub predefined: bool,
    pub least: usize,
    pub most: usize,
    pub content: Content,
}

impl Kind {
    fn exactly(size: usize, content: Content) -> Self
        ensures { result ≡ exactly size content }
    {
        Self {
            predefined: true,
            least: size,
            most: size,
            content,
        }
    }

    fn up_to(most: usize, content: Content) -> Self
        ensures { result ≡ up_to most content }
    {
        Self {
            predefined: false,
            least: 1,
            most,
            content,
        }
    }
}

// Document 01's table of identifiers: a listed identifier and its kind.
pub fn row_of(identifier: usize) -> Option<(usize, Kind)>
    ensures { result ≡ row_of identifier }
{
    let kind = match identifier {
        0 => Kind::exactly(18, Content::DigitsWithCheck),
        1 | 2 => Kind::exactly(14, Content::DigitsWithCheck),
        410 | 411 | 412 | 413 | 414 | 415 => Kind::exactly(13, Content::DigitsWithCheck),
        11 | 12 | 13 | 15 | 16 | 17 => Kind::exactly(6, Content::Date),
        20 => Kind::exactly(2, Content::Digits),
        30 | 37 => Kind::up_to(8, Content::Digits),
        10 | 21 => Kind::up_to(20, Content::Text),
        240 | 241 | 250 | 400 | 90 => Kind::up_to(30, Content::Text),
        _ if is_measure(identifier) => Kind::exactly(6, Content::Digits),
        _ => return None,
    };
    Some((identifier, kind))
}

// 310y to 316y, y 0 to 5.
fn is_measure(identifier: usize) -> bool
    ensures { result ≡ among measures identifier }
{
    (3100..=3165).contains(&identifier) && identifier % 10 < 6
}

// How many digits an identifier has.
pub fn digits_of(identifier: usize) -> usize
    ensures { result ≡ length (spelled identifier) }
{
    if identifier < 100 {
        return 2;
    }
    if identifier < 1000 {
        return 3;
    }
    4
}

// An identifier as its digits, in the first places.
pub fn spelling(identifier: usize) -> [u8; 4]
    requires { identifier < 10000 }
    ensures { take (length (spelled identifier)) result ≡ spelled identifier }
{
    let last = digit_byte(identifier % 10);
    let tens = identifier / 10;
    if identifier < 100 {
        return [digit_byte(tens), last, 0, 0];
    }
    let second = digit_byte(tens % 10);
    let hundreds = identifier / 100;
    if identifier < 1000 {
        return [digit_byte(hundreds), second, last, 0];
    }
    [
        digit_byte(identifier / 1000),
        digit_byte(hundreds % 10),
        second,
        last,
    ]
}

fn digit_byte(value: usize) -> u8
    requires { value < 10 }
    ensures { result ≡ 48 + value }
{
    // one digit, so nothing is cut off; `try_from` would make a refusal that can't come
    b'0' + value as u8
}

// The row of the listed identifier that some bytes begin with: its first two digits say how many it has.
pub fn row_at(bytes: &[u8]) -> Option<(usize, Kind)>
    ensures { result ≡ row_at bytes.now }
{
    let run = leading_digits(bytes);
    if run < 2 {
        return None;
    }
    let pair = pair_at(bytes, 0);
    let count = digits_after(pair);
    if run < count {
        return None;
    }
    if count == 2 {
        return row_of(pair);
    }
    if count == 3 {
        return row_of(10 * pair + digits::value_of(bytes[2]));
    }
    row_of(100 * pair + pair_at(bytes, 2))
}

// How many digits the identifiers have that begin with these two.
fn digits_after(pair: usize) -> usize
    requires { pair < 100 }
    ensures { result ≡ digits_after pair }
{
    match pair {
        31 => 4,
        24 | 25 | 40 | 41 => 3,
        _ => 2,
    }
}

// How many digits some bytes begin with, counted up to four.
fn leading_digits(bytes: &[u8]) -> usize
    ensures { result ≡ first_not is_digit (take 4 bytes.now) }
{
    digits::first_other(&bytes[..bytes.len().min(4)])
}

// The number that two digits make.
fn pair_at(bytes: &[u8], at: usize) -> usize
    requires at_in_bounds { at + 1 < length bytes.now }
    requires at_value { is_digit (get_or bytes.now at 0) ≡ true }
    requires at_value_2 { is_digit (get_or bytes.now (at + 1) 0) ≡ true }
    ensures value { result ≡ pair_at bytes.now at }
    ensures upper_bound { result < 100 }
{
    10 * digits::value_of(bytes[at]) + digits::value_of(bytes[at + 1])
}

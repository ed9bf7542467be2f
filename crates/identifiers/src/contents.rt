// What the data of an element string must be. They are a part of a message, so their length is a clause.
ghost use Rattle.std.specs.Prelude.{◌≡◌, true, ◌≤◌, ◌<◌, length};
ghost use Rattle.digits.specs.Digit.{is_digit};
ghost use Rattle.character_set_82.specs.Characters.{is_of82};
ghost use Rattle.identifiers.specs.Data.{all_pass, is_number, days_in, is_date, right_data};
ghost use Rattle.identifiers.specs.Rows.{sized};

use crate::{Content, Kind};

// Whether the data is right for its kind.
pub fn right_data(kind: Kind, bytes: &[u8]) -> bool
    requires { sized kind ≡ true }
    ensures { result ≡ right_data kind bytes.now }
{
    if bytes.len() < kind.least || kind.most < bytes.len() {
        return false;
    }
    match kind.content {
        Content::DigitsWithCheck => is_number(bytes),
        Content::Date => is_date(bytes),
        Content::Digits => is_digits(bytes),
        Content::Text => is_text(bytes),
    }
}

// Digits, the last of them the check digit.
fn is_number(bytes: &[u8]) -> bool
    requires bytes_nonzero { 0 < length bytes.now }
    requires bytes_len_bound { length bytes.now ≤ 18 }
    ensures { result ≡ is_number bytes.now }
{
    digits::right_number(bytes, bytes.len()).is_ok()
}

// YYMMDD; MM 01 to 12, DD a day of that month, or 00 where no day is given.
fn is_date(bytes: &[u8]) -> bool
    requires { length bytes.now ≡ 6 }
    ensures { result ≡ is_date bytes.now }
{
    if !is_digits(bytes) {
        return false;
    }
    let month = crate::pair_at(bytes, 2);
    if !(1..=12).contains(&month) {
        return false;
    }
    crate::pair_at(bytes, 4) <= days_in(crate::pair_at(bytes, 0), month)
}

// How many days a month has. Only YY is known of its year, so 00 is a leap year.
fn days_in(year: usize, month: usize) -> usize
    ensures { result ≡ days_in year month }
{
    match month {
        4 | 6 | 9 | 11 => 30,
        2 => { if year % 4 == 0 { 29 } else { 28 } }
        _ => 31,
    }
}

fn is_digits(bytes: &[u8]) -> bool
    ensures { result ≡ all_pass is_digit bytes.now }
{
    bytes.iter().all(|byte| digits::is_digit(*byte))
}

fn is_text(bytes: &[u8]) -> bool
    ensures { result ≡ all_pass is_of82 bytes.now }
{
    bytes.iter().all(|byte| character_set_82::is_of_82(*byte))
}

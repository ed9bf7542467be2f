// What a digit is, and the check digit of a number.
#![tactic(auto)]

ghost use Rattle.std.specs.Prelude.{◌≡◌, map, ◌≤◌, ◌<◌, length};
ghost use Rattle.laws.specs.First.{first_not};
ghost use Rattle.laws.specs.Below.{Below};
ghost use Rattle.laws.specs.Weighed.{weighed};
ghost use Rattle.refusal.specs.Outcome.{made};
ghost use Rattle.refusal.specs.Fills.{answered, answer_of, Fills, FillsOwn};
ghost use Rattle.digits.specs.Digit.{is_digit, value_of};
ghost use Rattle.digits.specs.Check.{weight_at, check_digit, right_number};
ghost use Rattle.digits.specs.Numbered.{number_read};

use refusal::Refusal;

pub mod numbered;

// The check digit of 1 to 17 digits: its value, 0 to 9.
pub fn check_digit(digits: &[u8]) -> Result<usize, Refusal>
    ensures { result ≡ answered (check_digit digits.now) }
{
    if digits.is_empty() || 17 < digits.len() {
        return Err(Refusal::Count);
    }
    let place = first_other(digits);
    if place < digits.len() {
        return Err(Refusal::Character(place));
    }
    Ok((10 - weighed_sum(digits) % 10) % 10)
}

// Whether a number has so many digits and the last of them is its check digit: the count, or the refusal.
pub fn right_number(number: &[u8], count: usize) -> Result<usize, Refusal>
    requires count_nonzero { 0 < count }
    requires count_bound { count ≤ 18 }
    ensures { result ≡ answer_of (right_number count number.now) }
{
    if number.len() != count {
        return Err(Refusal::Count);
    }
    let place = first_other(number);
    if place < count {
        return Err(Refusal::Character(place));
    }
    let last = count - 1;
    let sum = weighed_sum(&number[..last]) + value_of(number[last]);
    if sum % 10 == 0 {
        Ok(count)
    } else {
        Err(Refusal::CheckDigit)
    }
}

// The digits of a right number by value, as many as there are places for.
pub fn values_of(number: &[u8], values: &mut [u8]) -> Result<usize, Refusal>
    requires values_nonzero { 0 < length values.old }
    requires values_len_bound { length values.old ≤ 18 }
    ensures { FillsOwn (right_number (length values.old) number.now) values.old result values.new }
{
    let count = right_number(number, values.len())?;
    for (i, byte) in number.iter().enumerate() {
        values[i] = byte - b'0';
    }
    Ok(count)
}

// Lays the number of these digits, if the last of them is its check digit: the end of every reading of a number. That they are below ten is a
// clause, since what is scanned is defined of lists of numbers.
pub fn lay_values(values: &[u8], lent: &mut [u8]) -> Result<usize, Refusal>
    requires values_nonzero { 0 < length values.now }
    requires values_len_bound { length values.now ≤ 18 }
    requires below { Below 10 values.now }
    ensures { Fills (number_read (made values.now) (length lent.old)) lent.old result lent.new }
{
    let mut bytes = [0u8; 18];
    let number = &mut bytes[..values.len()];
    for (i, value) in values.iter().enumerate() {
        number[i] = b'0' + value;
    }
    right_number(number, values.len())?;
    refusal::lay(number, lent)
}

pub fn is_digit(byte: u8) -> bool
    ensures { result ≡ is_digit byte }
{
    byte.is_ascii_digit()
}

// The place of the first byte that is no digit, or the count of bytes where there is none.
pub fn first_other(bytes: &[u8]) -> usize
    ensures { result ≡ first_not is_digit bytes.now }
{
    bytes
        .iter()
        .position(|byte| !is_digit(*byte))
        .unwrap_or(bytes.len())
}

pub fn value_of(byte: u8) -> usize
    requires { 48 ≤ byte }
    ensures { result ≡ value_of byte }
{
    usize::from(byte - b'0')
}

// The sum of the digits before a check digit, each times its weight.
fn weighed_sum(digits: &[u8]) -> usize
    requires digits_len_bound { length digits.now ≤ 17 }
    requires digits_value { first_not is_digit digits.now ≡ length digits.now }
    ensures value { result ≡ weighed weight_at (map value_of digits.now) }
    ensures upper_bound { result ≤ 459 }
{
    let mut sum: usize = 0;
    let mut weight: usize = 3;
    for digit in digits.iter().rev() {
        sum += weight * value_of(*digit);
        weight = 4 - weight;
    }
    sum
}

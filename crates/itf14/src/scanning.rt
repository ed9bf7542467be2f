// What widths hold: the value of each pair between the start and the stop. Ten widths are a part of a longer list, so their count is a clause.
ghost use Rattle.std.specs.Prelude.{◌≡◌, ◌*◌, ◌≤◌, ◌<◌, length};
ghost use Rattle.refusal.specs.Fills.{FillsOwn};
ghost use Rattle.patterns.specs.Matching.{match_in};
ghost use Rattle.patterns.specs.Between.{between};
ghost use Rattle.itf14.specs.Tables.{pairs, start, stop};
ghost use Rattle.itf14.specs.Itf14.{unpaired, scanned};
ghost use Rattle.itf14.specs.Candidates.{wide_of, weight_at, candidate_at};

use crate::{Itf14, tables};
use refusal::Refusal;

// The digits that widths hold, two to a pair.
pub fn digits_in(widths: &[u8], digits: &mut [u8; Itf14::DIGITS]) -> Result<usize, Refusal>
    ensures { FillsOwn (scanned widths.now) digits.old result digits.new }
{
    let mut values = [0u8; Itf14::PAIRS];
    pair_values(widths, &mut values)?;
    digits_of(&values, digits);
    Ok(Itf14::DIGITS)
}

// The values of the seven pairs.
fn pair_values(widths: &[u8], values: &mut [u8; Itf14::PAIRS]) -> Result<usize, Refusal>
    ensures { FillsOwn (between start stop pairs 10 7 widths.now) values.old result values.new }
{
    if widths.len() != Itf14::WIDTHS {
        return Err(Refusal::Count);
    }
    if !patterns::equal(&widths[..Itf14::PAIRS_AT], &Itf14::START) {
        return Err(Refusal::Guard);
    }
    if !patterns::equal(&widths[Itf14::STOP_AT..], &Itf14::STOP) {
        return Err(Refusal::Guard);
    }
    for i in 0..Itf14::PAIRS {
        let at = Itf14::PAIRS_AT + Itf14::PAIR * i;
        values[i] = pair_value(&widths[at..at + Itf14::PAIR]).ok_or(Refusal::Pattern(i))?;
    }
    Ok(Itf14::PAIRS)
}

// The pair that ten widths draw. Only one can be: its digits are weighed out, and its widths compared.
fn pair_value(widths: &[u8]) -> Option<u8>
    requires { length widths.now ≡ 10 }
    ensures { result ≡ match_in pairs widths.now }
{
    let first = candidate(widths, 0);
    let second = candidate(widths, 1);
    let pattern = tables::pair(first, second);
    if patterns::equal(&pattern, widths) {
        // two digits, so nothing is cut off; `try_from` would make a refusal that can't come
        Some((10 * first + second) as u8)
    } else {
        None
    }
}

// The one digit that every second width can be, from the first bar or from the first space on: the weight of its wide elements. Only the
// digit 0 weighs more than 9.
fn candidate(widths: &[u8], from: usize) -> usize
    requires widths_len { length widths.now ≡ 10 }
    requires from_bound { from ≤ 1 }
    ensures value { result ≡ candidate_at from widths.now }
    ensures upper_bound { result < 10 }
{
    let weight = weight(widths, from);
    if weight < 10 { weight } else { 0 }
}

fn weight(widths: &[u8], from: usize) -> usize
    requires widths_len { length widths.now ≡ 10 }
    requires from_bound { from ≤ 1 }
    ensures { result ≡ weight_at from widths.now }
{
    wide(widths[from])
        + 2 * wide(widths[from + 2])
        + 4 * wide(widths[from + 4])
        + 7 * wide(widths[from + 6])
}

fn wide(width: u8) -> usize
    ensures value { result ≡ wide_of width }
    ensures upper_bound { result ≤ 1 }
{
    if width == Itf14::WIDE { 1 } else { 0 }
}

// The digits of the pairs, by value.
fn digits_of(values: &[u8; Itf14::PAIRS], digits: &mut [u8; Itf14::DIGITS])
    ensures { digits.new ≡ unpaired values.now }
{
    for (i, value) in values.iter().enumerate() {
        digits[2 * i] = *value / 10;
        digits[2 * i + 1] = *value % 10;
    }
}

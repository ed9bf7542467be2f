// What widths hold: the start, where the stop ends them, and the values of the characters between. Six widths are a part of a longer list, and how
// many there are in all is the symbol's, so their counts are clauses.
ghost use Rattle.std.specs.Prelude.{◌≡◌, ◌+◌, ◌*◌, ◌≤◌, length};
ghost use Rattle.refusal.specs.Fills.{answered, FillsOwn};
ghost use Rattle.patterns.specs.Matching.{match_in};
ghost use Rattle.gs1_128.specs.Symbol.{allowed};
ghost use Rattle.gs1_128.specs.Scanning.{start_in, values_in};

use crate::Gs1128;
use refusal::Refusal;

// The start of widths that begin with one and end with the stop.
pub fn start_of(widths: &[u8]) -> Result<usize, Refusal>
    requires { 31 ≤ length widths.now }
    ensures { result ≡ answered (start_in widths.now) }
{
    let front = &widths[..Gs1128::CHARACTER];
    let start = code128::characters::value_of(front).ok_or(Refusal::Guard)?;
    if start < Gs1128::LEAST_START {
        return Err(Refusal::Guard);
    }
    let at = widths.len() - Gs1128::STOP_WIDTHS;
    if !patterns::equal(&widths[at..], &Gs1128::STOP) {
        return Err(Refusal::Guard);
    }
    Ok(usize::from(start))
}

// The values of the characters from the first FNC1 to the check, one to a place. The start is character 0.
pub fn values_in(widths: &[u8], values: &mut [u8]) -> Result<usize, Refusal>
    requires widths_len { length widths.now ≡ 6 * length values.old + 13 }
    requires in_bounds { 1 ≤ length values.old }
    ensures { FillsOwn (values_in widths.now) values.old result values.new }
{
    for i in 0..values.len() {
        let place = i + 1;
        let at = Gs1128::CHARACTER * place;
        let part = &widths[at..at + Gs1128::CHARACTER];
        values[i] = allowed_value(part).ok_or(Refusal::Pattern(place))?;
    }
    Ok(values.len())
}

// The value of six widths, if it is allowed after the start.
fn allowed_value(part: &[u8]) -> Option<u8>
    requires { length part.now ≡ 6 }
    ensures { result ≡ match_in allowed part.now }
{
    let value = code128::characters::value_of(part)?;
    if Gs1128::LEAST_START <= value {
        None
    } else {
        Some(value)
    }
}

// What values hold, wherever they were found: whether they are a symbol's, and the message that they spell. A start is a number that the check
// sums, so its bound is a clause.
ghost use Rattle.std.specs.Prelude.{◌≡◌, ◌≤◌, ◌<◌, length};
ghost use Rattle.refusal.specs.Fills.{answer_of, FillsOwn};
ghost use Rattle.gs1_128.specs.Scanning.{judged_values};
ghost use Rattle.gs1_128.specs.Rules.{message_from};

use crate::Gs1128;
use refusal::Refusal;

// Judges the values from the first FNC1 to the check: how many stand between the two, or refusal 6 or 7.
pub fn judged(start: usize, values: &[u8]) -> Result<usize, Refusal>
    requires start_bound { start < 106 }
    requires in_bounds { (2 ≤ length values.now) × (length values.now ≤ 101) }
    ensures { result ≡ answer_of (judged_values start values.now) }
{
    let last = values.len() - 1;
    if usize::from(values[last]) != code128::check::check_of(start, &values[0..last]) {
        return Err(Refusal::CheckCharacter);
    }
    if values[0] != Gs1128::FNC1 {
        return Err(Refusal::FirstCharacter);
    }
    Ok(last - 1)
}

// The message that a start and the values after the first FNC1 spell, in a list of the caller's own: or refusal 8, 9, 10 or 11.
pub fn message_from(start: usize, values: &[u8], text: &mut [u8; 48]) -> Result<usize, Refusal>
    ensures { FillsOwn (message_from start values.now) text.old result text.new }
{
    let count = code_sets::text_of(start, values, text)?;
    elements::test(&text[..count])?;
    Ok(count)
}

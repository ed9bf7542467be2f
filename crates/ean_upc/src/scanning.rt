// Scanning: a character is judged on the widths from where it begins, by one look in a table. Four widths are a part of a longer list, so their
// count is a clause.
ghost use Rattle.std.specs.Prelude.{◌≡◌, ◌++◌, ◌+◌, ◌*◌, ◌≤◌, length};
ghost use Rattle.refusal.specs.Fills.{FillsOwn};
ghost use Rattle.patterns.specs.Patterns.{characters};
ghost use Rattle.patterns.specs.Matching.{match_in, Candidate};
ghost use Rattle.ean_upc.specs.Tables.{set_a, set_b};
ghost use Rattle.ean_upc.specs.Halves.{patterns_of, guarded, halves_in};

use crate::tables;
use crate::tables::{CENTRE_WIDTHS, CHARACTER, GUARD_WIDTHS, Sets};
use refusal::Refusal;

// The values of two halves between their guards, `count` characters in each.
pub fn halves(sets: Sets, count: usize, widths: &[u8], values: &mut [u8]) -> Result<usize, Refusal>
    requires count_bound { count ≤ 6 }
    requires values_len { length values.old ≡ count + count }
    ensures { FillsOwn (halves_in sets count widths.now) values.old result values.new }
{
    let right_at = GUARD_WIDTHS + CHARACTER * count + CENTRE_WIDTHS;
    if widths.len() != right_at + CHARACTER * count + GUARD_WIDTHS {
        return Err(Refusal::Count);
    }
    if !guarded(count, widths) {
        return Err(Refusal::Guard);
    }
    half(sets, 0, &widths[GUARD_WIDTHS..], &mut values[..count])?;
    half(Sets::C, count, &widths[right_at..], &mut values[count..])?;
    Ok(values.len())
}

fn guarded(count: usize, widths: &[u8]) -> bool
    requires count_bound { count ≤ 6 }
    requires widths_len { length widths.now ≡ 3 + 4 * count + 5 + 4 * count + 3 }
    ensures { result ≡ guarded count widths.now }
{
    let centre_at = GUARD_WIDTHS + CHARACTER * count;
    let right_at = centre_at + CENTRE_WIDTHS;
    let end = right_at + CHARACTER * count;
    patterns::equal(&widths[..GUARD_WIDTHS], &tables::GUARD)
        && patterns::equal(&widths[centre_at..right_at], &tables::CENTRE)
        && patterns::equal(&widths[end..], &tables::GUARD)
}

// The values of a half's characters, as many as there are places for; `place` is that of the first.
pub fn half(sets: Sets, place: usize, widths: &[u8], values: &mut [u8]) -> Result<usize, Refusal>
    requires values_in_bounds { 4 * length values.old ≤ length widths.now }
    requires place_bound { place ≤ 12 }
    ensures { FillsOwn (characters (patterns_of sets) 4 (length values.old) place widths.now) values.old result values.new }
{
    for i in 0..values.len() {
        let at = CHARACTER * i;
        let character = &widths[at..at + CHARACTER];
        values[i] = value_of(sets, character).ok_or(Refusal::Pattern(place + i))?;
    }
    Ok(values.len())
}

// The value in sets A and B that has these widths: the first two, modulo 4 in base 4, choose the row, and the third the place in it.
// Where none has stands 0: what is found here is compared with the widths.
const CANDIDATES: [[u8; 4]; 16] = [
    [0, 0, 0, 0],
    [0, 16, 0, 0],
    [0, 0, 0, 0],
    [0, 0, 0, 0],
    [0, 3, 0, 0],
    [13, 6, 10, 4],
    [0, 8, 11, 5],
    [0, 7, 15, 0],
    [0, 0, 0, 0],
    [0, 19, 2, 17],
    [0, 12, 1, 0],
    [0, 14, 0, 0],
    [0, 0, 0, 0],
    [0, 9, 18, 0],
    [0, 0, 0, 0],
    [0, 0, 0, 0],
];

// The value of four widths in the sets of their half.
fn value_of(sets: Sets, widths: &[u8]) -> Option<u8>
    requires { length widths.now ≡ 4 }
    ensures { result ≡ match_in (patterns_of sets) widths.now }
{
    let value = candidate(widths);
    let place = usize::from(value);
    if sets.count() <= place {
        return None;
    }
    let pattern = tables::pattern(sets, place);
    if patterns::equal(&pattern, widths) {
        Some(value)
    } else {
        None
    }
}

// The one value of sets A and B that can have these widths.
fn candidate(widths: &[u8]) -> u8
    requires { length widths.now ≡ 4 }
    ensures { Candidate (set_a ++ set_b) widths.now result }
{
    let first_two = widths[0] % 4 * 4 + widths[1] % 4;
    let third = widths[2] % 4;
    let row = CANDIDATES[usize::from(first_two)];
    row[usize::from(third)]
}

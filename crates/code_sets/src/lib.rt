// Code sets A, B and C: the message that values spell.
#![tactic(auto)]

ghost use Rattle.std.specs.Prelude.{◌≡◌, [], length};
ghost use Rattle.refusal.specs.Fills.{FillsOwn};
ghost use Rattle.code_sets.specs.Reading.{in_set, start_set, decoded};
ghost use Rattle.code_sets.specs.Readers.{read_on};

use refusal::Refusal;

mod readers;
pub mod sets;

// The message that a start and the values after the first FNC1 spell, in a list of the caller's own; or refusal 8.
pub fn text_of(start: usize, values: &[u8], text: &mut [u8]) -> Result<usize, Refusal>
    requires { length text.old ≡ 48 }
    ensures { FillsOwn (decoded start values.now) text.old result text.new }
{
    // All 48 places are one array, so this refuses nothing.
    let Some(own) = text.as_mut_array() else {
        return Err(Refusal::Sequence);
    };
    let count = read_from(start, values, own)?;
    if count == 0 {
        Err(Refusal::Sequence)
    } else {
        Ok(count)
    }
}

// Reads in the set that the start names. A start is a number, since the check sums it as one; what any other number is read as is promised too.
fn read_from(start: usize, values: &[u8], own: &mut [u8; 48]) -> Result<usize, Refusal>
    ensures { FillsOwn (read_on [] (in_set (start_set start)) values.now) own.old result own.new }
{
    match start {
        103 => readers::read_a(values, 0, own, 0),
        104 => readers::read_b(values, 0, own, 0),
        _ => readers::read_c(values, 0, own, 0),
    }
}

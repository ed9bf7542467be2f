// EAN-13: a number drawn as widths, and widths read as a number.
#![tactic(auto)]

ghost use Rattle.std.specs.Prelude.{length};
ghost use Rattle.refusal.specs.Fills.{Fills};
ghost use Rattle.ean13.specs.Ean13.{writes, reads};

mod stages;

use digits::numbered;
use refusal::Refusal;

// The calls on EAN-13 symbols.
#[derive(Clone, Copy)]
pub struct Ean13;

impl Ean13 {
    // the room that a reading needs, and that a symbol needs
    pub const DIGITS: usize = 13;

    pub const WIDTHS: usize = 59;

    // Draws a number of thirteen digits: refusals 1, 2, 3 and 12, or 59 widths.
    pub fn write(number: &[u8], widths: &mut [u8]) -> Result<usize, Refusal>
        ensures { Fills (writes number.now (length widths.old)) widths.old result widths.new }
    {
        numbered::write::<Ean13, _, _>(number, widths)
    }

    // Reads a symbol: refusals 1, 4, 5, 3 and 12, or thirteen digits.
    pub fn read(widths: &[u8], number: &mut [u8]) -> Result<usize, Refusal>
        ensures { Fills (reads widths.now (length number.old)) number.old result number.new }
    {
        numbered::read::<Ean13, _, _>(widths, number)
    }
}

// EAN-8: a number drawn as widths, and widths read as a number.
#![tactic(auto)]

ghost use Rattle.std.specs.Prelude.{length};
ghost use Rattle.refusal.specs.Fills.{Fills};
ghost use Rattle.ean8.specs.Ean8.{writes, reads};

use digits::numbered::{self, Numbered};
use ean_upc::tables::Sets;
use ean_upc::{drawing, scanning};
use refusal::Refusal;

// The calls on EAN-8 symbols.
#[derive(Clone, Copy)]
pub struct Ean8;

impl Ean8 {
    // the room that a reading needs, and that a symbol needs
    pub const DIGITS: usize = 8;

    pub const WIDTHS: usize = 43;

    const HALF: usize = 4;

    // Draws a number of eight digits: refusals 1, 2, 3 and 12, or 43 widths.
    pub fn write(number: &[u8], widths: &mut [u8]) -> Result<usize, Refusal>
        ensures { Fills (writes number.now (length widths.old)) widths.old result widths.new }
    {
        numbered::write::<Ean8, _, _>(number, widths)
    }

    // Reads a symbol: refusals 1, 4, 5, 3 and 12, or eight digits.
    pub fn read(widths: &[u8], number: &mut [u8]) -> Result<usize, Refusal>
        ensures { Fills (reads widths.now (length number.old)) number.old result number.new }
    {
        numbered::read::<Ean8, _, _>(widths, number)
    }
}

impl Numbered<{ Ean8::DIGITS }, { Ean8::WIDTHS }> for Ean8 {
    ghost use Rattle.std.proofs.Common.{rules};
    ghost use Rattle.ean8.specs.Ean8.{symbol, scanned};

    ghost symbol = { symbol };

    ghost scanned = { scanned };

    ghost sizes = { Prim.search rules };

    fn symbol(digits: &[u8; Ean8::DIGITS]) -> [u8; Ean8::WIDTHS] {
        let mut symbol = [0u8; Ean8::WIDTHS];
        drawing::halves(
            Sets::A,
            &digits[..Ean8::HALF],
            &digits[Ean8::HALF..],
            &mut symbol,
        );
        symbol
    }

    fn scan(widths: &[u8]) -> Result<[u8; Ean8::DIGITS], Refusal> {
        let mut digits = [0u8; Ean8::DIGITS];
        scanning::halves(Sets::A, Ean8::HALF, widths, &mut digits)?;
        Ok(digits)
    }
}

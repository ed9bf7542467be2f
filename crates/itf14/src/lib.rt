// ITF-14: a number drawn as widths, and read from them.
#![tactic(auto)]

ghost use Rattle.std.specs.Prelude.{length};
ghost use Rattle.refusal.specs.Fills.{Fills};
ghost use Rattle.itf14.specs.Itf14.{writes, reads};

use digits::numbered::{self, Numbered};
use refusal::Refusal;

mod drawing;
mod scanning;
mod tables;

// The calls on ITF-14 symbols, and the fixed numbers of their kind. Widths are in half modules.
#[derive(Clone, Copy)]
pub struct Itf14;

impl Itf14 {
    pub const DIGITS: usize = 14;

    pub const PAIRS: usize = 7;

    pub const NARROW: u8 = 2;

    pub const WIDE: u8 = 5;

    pub const START: [u8; 4] = [2, 2, 2, 2];

    pub const STOP: [u8; 3] = [5, 2, 2];

    // Where the pairs begin, how many widths each has, and where they end.
    pub const PAIRS_AT: usize = 4;

    pub const PAIR: usize = 10;

    pub const STOP_AT: usize = 74;

    pub const WIDTHS: usize = 77;

    // Draws a number of fourteen digits.
    pub fn write(number: &[u8], widths: &mut [u8]) -> Result<usize, Refusal>
        ensures { Fills (writes number.now (length widths.old)) widths.old result widths.new }
    {
        numbered::write::<Itf14, _, _>(number, widths)
    }

    // Reads the number that 77 widths draw.
    pub fn read(widths: &[u8], number: &mut [u8]) -> Result<usize, Refusal>
        ensures { Fills (reads widths.now (length number.old)) number.old result number.new }
    {
        numbered::read::<Itf14, _, _>(widths, number)
    }
}

impl Numbered<{ Itf14::DIGITS }, { Itf14::WIDTHS }> for Itf14 {
    ghost use Rattle.std.proofs.Common.{rules};
    ghost use Rattle.itf14.specs.Itf14.{symbol, scanned};

    ghost symbol = { symbol };

    ghost scanned = { scanned };

    ghost sizes = { Prim.search rules };

    fn symbol(digits: &[u8; Itf14::DIGITS]) -> [u8; Itf14::WIDTHS] {
        drawing::symbol(digits)
    }

    fn scan(widths: &[u8]) -> Result<[u8; Itf14::DIGITS], Refusal> {
        let mut digits = [0u8; Itf14::DIGITS];
        scanning::digits_in(widths, &mut digits)?;
        Ok(digits)
    }
}

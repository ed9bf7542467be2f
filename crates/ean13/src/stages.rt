// The stages of EAN-13: from the digits to a symbol, and from a symbol to the digits.
use crate::Ean13;
use digits::numbered::Numbered;
use ean_upc::tables::Sets;
use ean_upc::{drawing, scanning};
use parity::rows::Rows;
use parity::{letters, rows};
use refusal::Refusal;

// how many characters a half has
const HALF: usize = 6;

impl Numbered<{ Ean13::DIGITS }, { Ean13::WIDTHS }> for Ean13 {
    ghost use Rattle.std.proofs.Common.{rules};
    ghost use Rattle.ean13.specs.Ean13.{symbol, scanned};

    ghost symbol = { symbol };

    ghost scanned = { scanned };

    ghost sizes = { Prim.search rules };

    // The first digit chooses the row of the next six, and the last six are the right half.
    fn symbol(digits: &[u8; Ean13::DIGITS]) -> [u8; Ean13::WIDTHS] {
        let row = rows::row_of(Rows::FirstDigit, usize::from(digits[0]));
        let left = letters::in_sets(row, &digits[1..7]);
        let mut symbol = [0u8; Ean13::WIDTHS];
        drawing::halves(Sets::AOrB, &left, &digits[7..], &mut symbol);
        symbol
    }

    // The first digit is the one whose row the letters of the left half are, and the others are the characters' own.
    fn scan(widths: &[u8]) -> Result<[u8; Ean13::DIGITS], Refusal> {
        let mut values = [0u8; 12];
        scanning::halves(Sets::AOrB, HALF, widths, &mut values)?;
        let Some(first) = rows::digit_of(Rows::FirstDigit, &values[..HALF]) else {
            return Err(Refusal::Pattern(12));
        };
        let mut digits = [first; Ean13::DIGITS];
        letters::digits_of(&values, &mut digits[1..]);
        Ok(digits)
    }
}
